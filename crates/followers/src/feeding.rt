//! An event is handed to each follower.

ghost use Rattle.std.specs.Prelude.{map, OnOk, OnErr};
ghost use Rattle.followers.specs.Followers.{FirstHaveTaken, HasTaken, HaveTaken, StaysAlike};

use crate::Follower;
use evidence::Evidence;
use retro_base::NoMemory;

/// Lets each follower take the event, in their order. After `NoMemory` some first ones have taken it, and the others are as before.
pub fn feed(followers: &mut Vec<Box<dyn Follower>>, event: &Evidence) -> Result<(), NoMemory>
    ensures ok { OnOk result (HaveTaken event.now (map (λ f. report_after f) followers.old.items) (map (λ f. report_after f) followers.new.items)) }
    ensures err { OnErr result (FirstHaveTaken event.now (map (λ f. report_after f) followers.old.items) (map (λ f. report_after f) followers.new.items)) }
{
    feed_each(followers, event)
}

/// The same of a slice of them.
fn feed_each(followers: &mut [Box<dyn Follower>], event: &Evidence) -> Result<(), NoMemory>
    ensures ok { OnOk result (HaveTaken event.now (map (λ f. report_after f) followers.old) (map (λ f. report_after f) followers.new)) }
    ensures err { OnErr result (FirstHaveTaken event.now (map (λ f. report_after f) followers.old) (map (λ f. report_after f) followers.new)) }
{
    for follower in followers {
        feed_one(follower, event)?;
    }
    Ok(())
}

/// Lets one follower take the event.
fn feed_one(follower: &mut Box<dyn Follower>, event: &Evidence) -> Result<(), NoMemory>
    ensures ok { OnOk result (HasTaken event.now (report_after follower.old) (report_after follower.new)) }
    ensures err { OnErr result (StaysAlike (report_after follower.old) (report_after follower.new)) }
{
    follower.take(event)
}
