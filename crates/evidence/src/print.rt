//! How evidence is spelled.

ghost use Rattle.std.specs.Prelude.{◌≡◌, ◌++◌, OnOk, OnErr};
ghost use Rattle.retro_base.specs.Text.{AppendsPrefix};
ghost use Rattle.evidence.specs.Spelling.{bridge_text, change_text, changed_entry_text, changed_text, edit_text, entry_text, row_text, spaced, spelling};

use crate::Evidence;
use retro_base::{Change, Entry, NoMemory, Op, Text, print_op};

/// Appends the spelling of the evidence, without a line feed. Without memory a first part of it may have been
/// appended.
#[tactic(auto, unfolding(crate::specs::Spelling::spelling))]
pub fn print_evidence(evidence: &Evidence, out: &mut Text) -> Result<(), NoMemory>
    ensures ok { OnOk result (out.new ≡ out.old ++ spelling evidence.now) }
    ensures err { OnErr result (AppendsPrefix out.old out.new (spelling evidence.now)) }
{
    out.push_all(b"edit ")?;
    out.push_all(evidence.name.bytes())?;
    print_edit(evidence.added, evidence.place, out)?;
    print_row(evidence.number, evidence.op, out)?;
    print_change(evidence.change, out)
}

/// Appends the edit and its place, after a space.
fn print_edit(added: bool, place: u32, out: &mut Text) -> Result<(), NoMemory>
    ensures ok { OnOk result (out.new ≡ out.old ++ spaced (edit_text added place)) }
    ensures err { OnErr result (AppendsPrefix out.old out.new (spaced (edit_text added place))) }
{
    out.push_all(if added { b" add " } else { b" cut " })?;
    out.push_number(place)
}

/// Appends the row, after a space.
fn print_row(number: u32, op: Op, out: &mut Text) -> Result<(), NoMemory>
    ensures ok { OnOk result (out.new ≡ out.old ++ spaced (row_text number op)) }
    ensures err { OnErr result (AppendsPrefix out.old out.new (spaced (row_text number op))) }
{
    out.push_all(b" #")?;
    out.push_number(number)?;
    out.push_all(b" ")?;
    print_op(op, out)
}

/// Appends the change, after a space.
fn print_change(change: Change, out: &mut Text) -> Result<(), NoMemory>
    ensures ok { OnOk result (out.new ≡ out.old ++ spaced (change_text change)) }
    ensures err { OnErr result (AppendsPrefix out.old out.new (spaced (change_text change))) }
{
    out.push_all(b" ")?;
    match change {
        Change::Plain => Ok(()),
        Change::Gain { bridge, entry } => print_changed(Some(bridge), b"gain", entry, out),
        Change::Lose { bridge, entry } => print_changed(bridge, b"lose", entry, out),
    }
}

/// Appends the bridge, the word for the change, and the entry.
fn print_changed(
    bridge: Option<u32>,
    word: &[u8],
    entry: Entry,
    out: &mut Text,
) -> Result<(), NoMemory>
    ensures ok { OnOk result (out.new ≡ out.old ++ changed_text bridge word.now entry) }
    ensures err { OnErr result (AppendsPrefix out.old out.new (changed_text bridge word.now entry)) }
{
    out.push_all(b"bridge ")?;
    print_bridge(bridge, out)?;
    print_changed_entry(word, entry, out)
}

/// Appends the word for the change and the entry, after a space.
fn print_changed_entry(word: &[u8], entry: Entry, out: &mut Text) -> Result<(), NoMemory>
    ensures ok { OnOk result (out.new ≡ out.old ++ changed_entry_text word.now entry) }
    ensures err { OnErr result (AppendsPrefix out.old out.new (changed_entry_text word.now entry)) }
{
    out.push_all(b" ")?;
    out.push_all(word)?;
    print_entry(entry, out)
}

fn print_bridge(bridge: Option<u32>, out: &mut Text) -> Result<(), NoMemory>
    ensures ok { OnOk result (out.new ≡ out.old ++ bridge_text bridge) }
    ensures err { OnErr result (out.new ≡ out.old) }
{
    match bridge {
        None => out.push_all(b"none"),
        Some(place) => out.push_number(place),
    }
}

/// Appends the entry, after a space.
fn print_entry(entry: Entry, out: &mut Text) -> Result<(), NoMemory>
    ensures ok { OnOk result (out.new ≡ out.old ++ spaced (entry_text entry)) }
    ensures err { OnErr result (AppendsPrefix out.old out.new (spaced (entry_text entry))) }
{
    out.push_all(b" #")?;
    out.push_number(entry.number)?;
    out.push_all(b" ")?;
    out.push_number(entry.key)
}
