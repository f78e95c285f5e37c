//! What followers are handed, and what they report.

ghost use Rattle.std.specs.Prelude.{◌≡◌, ◌<◌, ◌≤◌, ◌==◌, ◌∷◌, [], ◌++◌, length, option_map, IsSome, OnOk};
ghost use Rattle.retro_io.specs.Faults.{CountsFaults};
ghost use Rattle.retro_io.specs.Flushes.{StaysUnflushed};
ghost use Rattle.std.specs.List.{position_or_len};
ghost use Rattle.retro_io.specs.Lines.{line_feed, lines, without_return};
ghost use Rattle.retro_run.specs.Audience.{after_events, audience_by, hears, texts_of};
ghost use Rattle.retro_run.specs.Delivery.{Writes};
ghost use Rattle.retro_run.specs.Events.{AppendsFirstReports, events_among, events_spelled, line_of, report_line, report_lines};
ghost use Rattle.retro_run.specs.Stop.{stops_at_write};

use crate::deliver::append;
use crate::stop::Stop;
use evidence::{Evidence, read_evidence};
use followers::Follower;
use retro_base::{NoMemory, Text};
use retro_io::{SendingSink, Sink};
use std::alloc::Global;

/// Hands the events among the lines of an answer to the followers that are left, one after another. Where nobody follows, the
/// answer is not read.
pub(crate) fn hand_on(
    answer: &[u8],
    followers: &mut [Option<Box<dyn Follower>>],
) -> Result<(), NoMemory>
    ensures { OnOk result (audience_by report_after followers.new ≡ hears (events_among answer.now) (audience_by report_after followers.old)) }
{
    if followers.is_empty() {
        return Ok(());
    }
    let mut rest = answer;
    while !rest.is_empty() {
        let (line, after) = cut_line(rest);
        hand_on_line(line, followers)?;
        rest = after;
    }
    Ok(())
}

/// Hands the event that a line spells to the followers, if it spells one.
fn hand_on_line(line: &[u8], followers: &mut [Option<Box<dyn Follower>>]) -> Result<(), NoMemory>
    ensures { OnOk result (audience_by report_after followers.new ≡ hears (events_spelled (line.now ∷ [])) (audience_by report_after followers.old)) }
{
    match read_evidence(line) {
        Some(event) => hand_out(&event, followers),
        None => Ok(()),
    }
}

/// Lets each follower that is left take an event, in their order, as `followers::feed` does. It stands here, since a function that hands boxed
/// followers by `&mut` to another crate would hide from the check what that crate may put among them.
fn hand_out(event: &Evidence, followers: &mut [Option<Box<dyn Follower>>]) -> Result<(), NoMemory>
    ensures { OnOk result (audience_by report_after followers.new ≡ hears (event.now ∷ []) (audience_by report_after followers.old)) }
{
    for follower in followers {
        hand_to(follower, event)?;
    }
    Ok(())
}

/// Lets a follower take an event, if it is left.
fn hand_to(follower: &mut Option<Box<dyn Follower>>, event: &Evidence) -> Result<(), NoMemory>
    ensures { OnOk result (option_map report_after follower.new ≡ option_map (after_events (event.now ∷ [])) (option_map report_after follower.old)) }
{
    match follower {
        Some(left) => hand_to_one(left, event),
        None => Ok(()),
    }
}

/// Lets one follower take an event.
fn hand_to_one(follower: &mut Box<dyn Follower>, event: &Evidence) -> Result<(), NoMemory>
    ensures { OnOk result (report_after follower.new ≡ after_events (event.now ∷ []) (report_after follower.old)) }
{
    follower.take(event)
}

/// The first line of a text, and the bytes after it. Lines are those of an input.
fn cut_line(text: &[u8]) -> (&[u8], &[u8])
    requires { 0 < length text.now }
    ensures cut { lines text.now ≡ result.0.now ∷ lines result.1.now }
    ensures shorter { length result.1.now < length text.now }
{
    let at = line_size(text);
    if at < text.len() {
        (without_return(&text[..at]), &text[at + 1..])
    } else {
        (without_return(text), &[])
    }
}

/// How many bytes stand before the first line feed, or how many there are.
fn line_size(text: &[u8]) -> usize
    ensures value { result ≡ position_or_len (λ byte. byte == line_feed) text.now }
    ensures within { result ≤ length text.now }
{
    text.iter().take_while(|byte| **byte != b'\n').count()
}

/// A line without the one carriage return at its very end, if it ends in one.
fn without_return(line: &[u8]) -> &[u8]
    ensures { result.now ≡ without_return line.now }
{
    let size = line.len();
    if size > 0 && line[size - 1] == b'\r' {
        &line[..size - 1]
    } else {
        line
    }
}

/// Writes a line for each follower that is left, with its number and what it reports.
pub(crate) fn write_reports<K: SendingSink>(
    alloc: Global,
    followers: &[Option<Box<dyn Follower>>],
    sink: &mut K,
) -> Result<(), Stop>
    ensures writes { let texts = texts_of (audience_by report_after followers.now) in
        Writes ⟦<K as Sink>⟧ K.sends (report_lines 0 texts) (AppendsFirstReports texts (K.written sink.old) (K.written sink.new) × StaysUnflushed ⟦<K as Sink>⟧ K.sends sink.old sink.new)
        sink.old sink.new result }
    ensures sink_faults { CountsFaults (stops_at_write result) (K.faults sink.old) (K.faults sink.new) }
{
    let mut line = Text::new(alloc);
    for (number, follower) in followers.iter().enumerate() {
        write_report_left(number, follower, &mut line, sink)?;
    }
    Ok(())
}

/// Writes the line of one follower, if it is left.
fn write_report_left<K: SendingSink>(
    number: usize,
    follower: &Option<Box<dyn Follower>>,
    line: &mut Text,
    sink: &mut K,
) -> Result<(), Stop>
    ensures writes { let text = option_map (λ report. report []) (option_map report_after follower.now) in
        Writes ⟦<K as Sink>⟧ K.sends (line_of number text) (IsSome text × (sink.new ≡ sink.old)) sink.old sink.new result }
    ensures sink_faults { CountsFaults (stops_at_write result) (K.faults sink.old) (K.faults sink.new) }
{
    match follower {
        Some(left) => write_report(number, left, line, sink),
        None => Ok(()),
    }
}

/// Writes the line of one follower. It takes the place of what `line` holds.
pub(crate) fn write_report<K: SendingSink>(
    number: usize,
    follower: &Box<dyn Follower>,
    line: &mut Text,
    sink: &mut K,
) -> Result<(), Stop>
    ensures writes { Writes ⟦<K as Sink>⟧ K.sends (report_line number (report_after follower.now [])) (sink.new ≡ sink.old) sink.old sink.new result }
    ensures sink_faults { CountsFaults (stops_at_write result) (K.faults sink.old) (K.faults sink.new) }
{
    line.clear();
    print_report(number, follower, line)?;
    append(line.as_bytes(), sink)
}

/// Appends the line of one follower.
fn print_report(
    number: usize,
    follower: &Box<dyn Follower>,
    line: &mut Text,
) -> Result<(), NoMemory>
    ensures { OnOk result (line.new ≡ line.old ++ report_line number (report_after follower.now [])) }
{
    line.push_all(b"report ")?;
    line.push_number(number)?;
    line.push_all(b" ")?;
    report(follower, line)?;
    line.push_all(b"\n")
}

/// Appends what a follower reports.
fn report(follower: &Box<dyn Follower>, out: &mut Text) -> Result<(), NoMemory>
    ensures { OnOk result (out.new ≡ out.old ++ report_after follower.now []) }
{
    follower.report(out)
}
