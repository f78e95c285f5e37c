//! The follower that counts what was gained and lost.

ghost use Rattle.std.specs.Prelude.{◌≡◌};
ghost use Rattle.followers.specs.Totals.{counted, no_changes, totals_after, totals_text};

use crate::Follower;
use evidence::Evidence;
use retro_base::{Change, NoMemory, Text};
use std::marker::Model;

/// A follower that counts the entries gained and lost, and adds the keys gained less those lost. Each of the three stays at the
/// end of its type where it would pass it.
#[derive(Drop)]
pub struct Tally {
    gains: u64,
    losses: u64,
    sum: i128,
}

impl Model for Tally {
    ghost use Rattle.followers.specs.Totals.{Totals};

    ghost Value = { Totals };

    ghost view = { λ t. record { gains = t.gains; losses = t.losses; sum = t.sum } };
}

impl Tally {
    /// Of no changes.
    pub fn new() -> Tally
        ensures { result ≡ no_changes }
    {
        Tally {
            gains: 0,
            losses: 0,
            sum: 0,
        }
    }

    /// Counts one more change.
    fn count(&mut self, change: Change)
        ensures { self.new ≡ counted change self.old }
    {
        match change {
            Change::Plain => {}
            Change::Gain { entry, .. } => {
                self.gains = self.gains.saturating_add(1);
                self.sum = self.sum.saturating_add(i128::from(entry.key));
            }
            Change::Lose { entry, .. } => {
                self.losses = self.losses.saturating_add(1);
                self.sum = self.sum.saturating_sub(i128::from(entry.key));
            }
        }
    }
}

impl Follower for Tally {
    ghost report_after = { λ totals events. totals_text (totals_after totals events) };

    fn take(&mut self, event: &Evidence) -> Result<(), NoMemory> {
        self.count(event.change);
        Ok(())
    }

    fn report(&self, out: &mut Text) -> Result<(), NoMemory> {
        out.push_all(b"gains ")?;
        out.push_number(self.gains)?;
        out.push_all(b" losses ")?;
        out.push_number(self.losses)?;
        out.push_all(b" sum ")?;
        out.push_number(self.sum)
    }
}
