//! The line that lets a follower go.

ghost use Rattle.std.specs.Prelude.{◌≡◌, ◌≤◌, [], None, Some, false, length, option_map, IfOk, IfSome, IsSome, IsTrue, OnOk};
ghost use Rattle.retro_base.specs.Limits.{longest_line};
ghost use Rattle.retro_io.specs.Faults.{CountsFaults};
ghost use Rattle.reactions.specs.Reaction.{reacts_to};
ghost use Rattle.retro_run.specs.Audience.{answers, audience_by, follower_at, follows_to, mutes, without};
ghost use Rattle.retro_run.specs.Delivery.{Writes};
ghost use Rattle.retro_run.specs.Events.{report_line};
ghost use Rattle.retro_run.specs.Stop.{stops_at_write};

use crate::follow::write_report;
use crate::stop::Stop;
use followers::Follower;
use reactions::AnyBench;
use retro_base::Text;
use retro_io::{SendingSink, Sink};
use script_grammar::{Command, read_line};

/// The number of the follower that a line mutes, if that is left; none where the bench answers the line.
pub(crate) fn muted<B: AnyBench>(
    line: &[u8],
    long: bool,
    bench: &B,
    followers: &[Option<Box<dyn Follower>>],
) -> Option<u32>
    requires within { length line.now ≤ longest_line }
    requires full { IsTrue long → length line.now ≡ longest_line }
    requires unspent { (B.state bench.now).spent ≡ false }
    ensures speaks { IfSome result (λ number. (mutes (B.state bench.now).bench.block line.now long ≡ Some number)
        × IsSome (follower_at (audience_by report_after followers.now) number)) }
    ensures silent { result ≡ None → follows_to (B.state bench.now).bench (audience_by report_after followers.now) line.now long
        ≡ answers (audience_by report_after followers.now) (reacts_to (B.state bench.now).bench line.now long) }
{
    if followers.is_empty() {
        return None;
    }
    let number = number_muted(line, long, bench)?;
    if follower_left(followers, number).is_some() {
        Some(number)
    } else {
        None
    }
}

/// The number that a line mutes; within a block it mutes none.
fn number_muted<B: AnyBench>(line: &[u8], long: bool, bench: &B) -> Option<u32>
    requires within { length line.now ≤ longest_line }
    requires full { IsTrue long → length line.now ≡ longest_line }
    requires unspent { (B.state bench.now).spent ≡ false }
    ensures { result ≡ mutes (B.state bench.now).bench.block line.now long }
{
    if bench.in_block() {
        return None;
    }
    match read_line(line, long) {
        Ok(Command::Mute { index }) => Some(index),
        _ => None,
    }
}

/// The follower with this number, if it is left.
fn follower_left(followers: &[Option<Box<dyn Follower>>], number: u32) -> Option<&Box<dyn Follower>>
    ensures { option_map (λ f. report_after f.now) result ≡ follower_at (audience_by report_after followers.now) number }
{
    if (number as usize) < followers.len() {
        as_left(&followers[number as usize])
    } else {
        None
    }
}

/// A follower, if it is left.
fn as_left(follower: &Option<Box<dyn Follower>>) -> Option<&Box<dyn Follower>>
    ensures { option_map (λ f. report_after f.now) result ≡ option_map report_after follower.now }
{
    match follower {
        Some(left) => Some(left),
        None => None,
    }
}

/// Writes what the follower with this number reports, if it is left, and lets it go. The result tells that no line was refused.
pub(crate) fn answer_by_follower<K: SendingSink>(
    number: u32,
    followers: &mut [Option<Box<dyn Follower>>],
    answer: &mut Text,
    sink: &mut K,
) -> Result<bool, Stop>
    ensures refused { IfOk result (λ refused. refused ≡ false) }
    ensures gone { OnOk result (IfSome (follower_at (audience_by report_after followers.old) number) (λ report.
        audience_by report_after followers.new ≡ without (audience_by report_after followers.old) number)) }
    ensures writes { IfSome (follower_at (audience_by report_after followers.old) number) (λ report.
        Writes ⟦<K as Sink>⟧ K.sends (report_line number (report [])) (sink.new ≡ sink.old) sink.old sink.new result) }
    ensures sink_faults { CountsFaults (stops_at_write result) (K.faults sink.old) (K.faults sink.new) }
{
    match follower_left(followers, number) {
        Some(follower) => write_report(number as usize, follower, answer, sink)?,
        None => return Ok(false),
    }
    let_go(followers, number);
    Ok(false)
}

/// Lets the follower with this number go; the others keep their numbers.
fn let_go(followers: &mut [Option<Box<dyn Follower>>], number: u32)
    ensures { audience_by report_after followers.new ≡ without (audience_by report_after followers.old) number }
{
    if (number as usize) < followers.len() {
        followers[number as usize] = None;
    }
}
