//! How an answer is spelled.

ghost use Rattle.std.specs.Prelude.{◌≡◌, ◌++◌, OnOk, OnErr};
ghost use Rattle.retro_base.specs.Text.{AppendsPrefix};
ghost use Rattle.script_grammar.specs.AnswerText.{answer_text, pair_text};

use retro_base::{Answer, NoMemory, Text};

/// Appends the text of an answer. Without memory a first part of it may have been appended.
pub fn print_answer(answer: Answer, out: &mut Text) -> Result<(), NoMemory>
    ensures ok { OnOk result (out.new ≡ out.old ++ answer_text answer) }
    ensures err { OnErr result (AppendsPrefix out.old out.new (answer_text answer)) }
{
    match answer {
        Answer::Number { value } => {
            out.push_all(b"= ")?;
            out.push_number(value)
        }
        Answer::Pair { key, value } => {
            out.push_all(b"= ")?;
            print_pair(key, value, out)
        }
        Answer::Nothing => out.push_all(b"= none"),
    }
}

/// Appends a key and its value.
pub fn print_pair(key: i64, value: i64, out: &mut Text) -> Result<(), NoMemory>
    ensures ok { OnOk result (out.new ≡ out.old ++ pair_text key value) }
    ensures err { OnErr result (AppendsPrefix out.old out.new (pair_text key value)) }
{
    out.push_number(key)?;
    out.push_all(b":")?;
    out.push_number(value)
}
