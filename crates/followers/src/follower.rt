//! The trait of what takes events.

ghost use Rattle.std.specs.Prelude.{◌≡◌, ℕ, List, [], ◌++◌, OnOk, OnErr};
ghost use Rattle.retro_base.specs.Text.{AppendsPrefix};
ghost use Rattle.evidence.specs.declared.evidence.Evidence.{Evidence};
ghost use Rattle.followers.specs.Followers.{HasTaken, StaysAlike};

use evidence::Evidence;
use retro_base::{NoMemory, Text};

/// What takes the events of priority queues, one after another, and reports on them.
pub trait Follower: Drop {
    /// What it reports once it has taken these further events too, without a line feed.
    ghost report_after: { Self → List Evidence → List ℕ };

    /// Takes the next event. After `NoMemory` it is as before.
    fn take(&mut self, event: &Evidence) -> Result<(), NoMemory>
        ensures ok { OnOk result (HasTaken event.now (report_after self.old) (report_after self.new)) }
        ensures err { OnErr result (StaysAlike (report_after self.old) (report_after self.new)) };

    /// Appends what it reports of the events that it has taken. After `NoMemory` a first part of it may have been appended.
    fn report(&self, out: &mut Text) -> Result<(), NoMemory>
        ensures ok { OnOk result (out.new ≡ out.old ++ report_after self.now []) }
        ensures err { OnErr result (AppendsPrefix out.old out.new (report_after self.now [])) };
}
