//! How a script spells an operation.

ghost use Rattle.std.specs.Prelude.{◌≡◌, ◌++◌, OnOk, OnErr};
ghost use Rattle.retro_base.specs.OpText.{op_text, value_text, with_value};
ghost use Rattle.retro_base.specs.Text.{AppendsPrefix};

use crate::{NoMemory, Op, Text};

/// Appends the text of an operation, as a script spells it: its word, and its values after spaces. Without
/// memory a first part of it may have been appended.
pub fn print_op(op: Op, out: &mut Text) -> Result<(), NoMemory>
    ensures ok { OnOk result (out.new ≡ out.old ++ op_text op) }
    ensures err { OnErr result (AppendsPrefix out.old out.new (op_text op)) }
{
    match op {
        Op::Enq { value } => print_with_value(b"enq", value, out),
        Op::Deq => out.push_all(b"deq"),
        Op::Push { value } => print_with_value(b"push", value, out),
        Op::Pop => out.push_all(b"pop"),
        Op::PushL { value } => print_with_value(b"pushl", value, out),
        Op::PushR { value } => print_with_value(b"pushr", value, out),
        Op::PopL => out.push_all(b"popl"),
        Op::PopR => out.push_all(b"popr"),
        Op::Put { key, value } => {
            print_with_value(b"put", key, out)?;
            print_value(value, out)
        }
        Op::Del { key } => print_with_value(b"del", key, out),
        Op::Ins { key } => print_with_value(b"ins", key, out),
        Op::DelMin => out.push_all(b"delmin"),
    }
}

/// Appends a word, a space and a value.
fn print_with_value(word: &[u8], value: i64, out: &mut Text) -> Result<(), NoMemory>
    ensures ok { OnOk result (out.new ≡ out.old ++ with_value word.now value) }
    ensures err { OnErr result (AppendsPrefix out.old out.new (with_value word.now value)) }
{
    out.push_all(word)?;
    print_value(value, out)
}

/// Appends a space and a value.
fn print_value(value: i64, out: &mut Text) -> Result<(), NoMemory>
    ensures ok { OnOk result (out.new ≡ out.old ++ value_text value) }
    ensures err { OnErr result (AppendsPrefix out.old out.new (value_text value)) }
{
    out.push_all(b" ")?;
    out.push_number(value)
}
