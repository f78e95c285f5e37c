//! How a drawn line is spelled.

ghost use Rattle.std.specs.Prelude.{◌≡◌, ◌++◌, OnOk, OnErr};
ghost use Rattle.retro_base.specs.Text.{AppendsPrefix};
ghost use Rattle.script_gen.specs.Script.{first_line, kind_word, line_text, main_question};

use crate::line::Line;
use retro_base::{Kind, NoMemory, Text, print_op};

/// Appends the line that makes the timeline.
pub(crate) fn print_first_line(kind: Kind, out: &mut Text) -> Result<(), NoMemory>
    ensures ok { OnOk result (out.new ≡ out.old ++ first_line kind) }
    ensures err { OnErr result (AppendsPrefix out.old out.new (first_line kind)) }
{
    out.push_all(b"new g ")?;
    out.push_all(kind_word(kind))
}

/// Appends a line. Without memory a first part of it may have been appended.
pub(crate) fn print_line(kind: Kind, line: Line, out: &mut Text) -> Result<(), NoMemory>
    ensures ok { OnOk result (out.new ≡ out.old ++ line_text kind line) }
    ensures err { OnErr result (AppendsPrefix out.old out.new (line_text kind line)) }
{
    match line {
        Line::Insert { time, op } => {
            out.push_all(b"g at ")?;
            out.push_number(time)?;
            out.push_all(b" ")?;
            print_op(op, out)
        }
        Line::Delete { number } => {
            out.push_all(b"g delete #")?;
            out.push_number(number)
        }
        Line::AskMain { time } => {
            out.push_all(b"g ask at ")?;
            out.push_number(time)?;
            out.push_all(b" ")?;
            out.push_all(main_question(kind))
        }
        Line::AskSize => out.push_all(b"g ask size"),
    }
}

fn kind_word(kind: Kind) -> &'static [u8]
    ensures { result.now ≡ kind_word kind }
{
    match kind {
        Kind::Queue => b"queue",
        Kind::Stack => b"stack",
        Kind::Deque => b"deque",
        Kind::Dict => b"dict",
        Kind::Pq => b"pq",
    }
}

/// The question that a kind is asked.
fn main_question(kind: Kind) -> &'static [u8]
    ensures { result.now ≡ main_question kind }
{
    match kind {
        Kind::Queue => b"front",
        Kind::Stack => b"top",
        Kind::Deque => b"left",
        Kind::Dict => b"succ 50",
        Kind::Pq => b"min",
    }
}
