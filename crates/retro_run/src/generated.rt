//! A generated script is answered and summed up.

ghost use Rattle.std.specs.Prelude.{◌≡◌, ◌≤◌, ◌<◌, ◌+◌, ◌-◌, ◌^◌, ◌++◌, [], false, length, Some, IfOk, IsErrOf, OnOk};
ghost use Rattle.retro_io.specs.Faults.{CountsFaults};
ghost use Rattle.reactions.specs.Answers.{bench_after};
ghost use Rattle.reactions.specs.Bench.{present_size};
ghost use Rattle.retro_run.specs.Delivery.{StandsAt};
ghost use Rattle.retro_run.specs.Stop.{stops_at_read, stops_at_write};
ghost use Rattle.retro_run.specs.Summary.{most_generated, of_generated, one_if, refusals, summary, summary_text};

use crate::deliver::deliver;
use crate::stop::Stop;
use reactions::AnyBench;
use retro_base::{Kind, Name, NoMemory, Text};
use retro_io::{SendingSink, Sink};
use script_gen::ScriptGen;
use std::alloc::Global;

/// What the lines of a generated script come to.
#[derive(Clone, Copy)]
struct Summary {
    lines: u32,
    refused: u32,
    rows: u32,
    size: u32,
}

impl Summary {
    /// Appends the line that says it.
    fn print(&self, out: &mut Text) -> Result<(), NoMemory>
        requires { self.now.refused ≤ self.now.lines }
        ensures { OnOk result (out.new ≡ out.old ++ summary_text self.now.lines self.now.refused self.now.rows self.now.size) }
    {
        out.push_all(b"lines ")?;
        out.push_number(self.lines)?;
        out.push_all(b" accepted ")?;
        out.push_number(self.lines - self.refused)?;
        out.push_all(b" refused ")?;
        out.push_number(self.refused)?;
        out.push_all(b" rows ")?;
        out.push_number(self.rows)?;
        out.push_all(b" size ")?;
        out.push_number(self.size)?;
        out.push_all(b"\n")
    }
}

/// Answers the lines that a generator still has to give, and counts those that are refused.
fn count_refusals<B: AnyBench>(
    alloc: Global,
    generator: &mut ScriptGen,
    bench: &mut B,
) -> Result<u32, NoMemory>
    requires few { length generator.old < 2 ^ 32 }
    requires unspent { (B.state bench.old).spent ≡ false }
    ensures bench { OnOk result (B.state bench.new ≡ record { bench = bench_after (B.state bench.old).bench generator.old; spent = false }) }
    ensures refused { IfOk result (λ refused. refused ≡ refusals (B.state bench.old).bench generator.old) }
{
    let mut line = Text::new(alloc);
    let mut answer = Text::new(alloc);
    let mut refused = 0;
    while generator.next_line(&mut line)? {
        let is_refused = bench.line_into(line.as_bytes(), false, &mut answer)?;
        refused += one_if(is_refused);
    }
    Ok(refused)
}

/// How many lines are refused by one answer.
fn one_if(is_refused: bool) -> u32
    ensures value { result ≡ one_if is_refused }
    ensures few { result ≤ 1 }
{
    u32::from(is_refused)
}

/// How many rows the timeline of a generated script has, and how many items, pairs or entries.
fn count_rows<B: AnyBench>(bench: &B) -> (u32, u32)
    requires { (B.state bench.now).spent ≡ false }
    ensures { result ≡ (of_generated (λ timeline. length timeline.rows) (B.state bench.now).bench, of_generated present_size (B.state bench.now).bench) }
{
    match Name::read(b"g") {
        Some(name) => (
            bench.rows_of(&name).unwrap_or(0),
            bench.size_of(&name).unwrap_or(0),
        ),
        None => (0, 0),
    }
}

/// Sums a generated script up.
fn sum_up<B: AnyBench>(
    alloc: Global,
    kind: Kind,
    lines: u32,
    start: u64,
) -> Result<Summary, NoMemory>
    requires { lines ≤ most_generated }
    ensures { IfOk result (λ of. (of.refused ≤ of.lines) × (summary_text of.lines of.refused of.rows of.size ≡ summary kind lines start)) }
{
    let mut generator = ScriptGen::new(kind, lines, start);
    let mut bench = B::empty(alloc);
    let refused = count_refusals(alloc, &mut generator, &mut bench)?;
    let (rows, size) = count_rows(&bench);
    Ok(Summary {
        lines: lines + 1,
        refused,
        rows,
        size,
    })
}

/// Answers a generated script, and writes what it comes to. Nothing is read. The result is false, whatever was refused: the sum tells it.
pub fn run_generated<B: AnyBench, K: SendingSink>(
    alloc: Global,
    kind: Kind,
    lines: u32,
    start: u64,
    sink: &mut K,
) -> Result<bool, Stop>
    requires { lines ≤ most_generated }
    ensures stands { StandsAt ⟦<K as Sink>⟧ K.sends (Some (summary kind lines start)) sink.old sink.new result }
    ensures refusal { IfOk result (λ refused. refused ≡ false) }
    ensures reads_nothing { stops_at_read result ≡ false }
    ensures in_time { IsErrOf result Stop.TooLong → ⊥ }
    ensures sink_faults { CountsFaults (stops_at_write result) (K.faults sink.old) (K.faults sink.new) }
    ensures sent { K.waiting sink.old ≡ [] → stops_at_write result ≡ false → K.waiting sink.new ≡ [] }
{
    let summary = sum_up::<B>(alloc, kind, lines, start)?;
    let mut text = Text::new(alloc);
    summary.print(&mut text)?;
    deliver(text.as_bytes(), sink)?;
    Ok(false)
}
