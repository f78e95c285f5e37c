//! The lines of a generated script, one after another.

ghost use Rattle.std.specs.Prelude.{◌≡◌, ◌≤◌, length, IfOk, OnErr, OnOk};
ghost use Rattle.retro_base.specs.Limits.{longest_line};
ghost use Rattle.script_gen.specs.Coming.{GivesNext, IsPartOfNext};
ghost use Rattle.script_gen.specs.Script.{generated};

use crate::draws::Draws;
use crate::line::draw_line;
use crate::print::{print_first_line, print_line};
use retro_base::{Kind, NoMemory, Text};
use std::marker::Model;

/// Gives the lines of a generated script one after another. Contracts see the lines that are still to come.
#[derive(Drop)]
pub struct ScriptGen {
    kind: Kind,
    lines: u32,
    /// The number of the next line; 0 for the one that makes the timeline.
    number: u32,
    state: u64,
}

impl Model for ScriptGen {
    ghost use Rattle.std.specs.Prelude.{ℕ, List, ◌≤◌};
    ghost use Rattle.script_gen.specs.Coming.{coming};

    ghost Value = { List (List ℕ) };

    ghost view = { λ g. coming g.kind g.lines g.number g.state };

    ghost invariant = { λ g. g.lines ≤ 1000000 };
}

impl ScriptGen {
    /// The script of a kind with so many lines after the first one, at most 1,000,000, from a start on.
    #[tactic(auto, unfolding(crate::specs::Script::generated))]
    pub fn new(kind: Kind, lines: u32, start: u64) -> ScriptGen
        requires { lines ≤ 1000000 }
        ensures { result ≡ generated kind lines start }
    {
        ScriptGen {
            kind,
            lines,
            number: 0,
            state: start,
        }
    }

    /// Puts the next line into the text, in place of what it held, and answers whether there was one. Without
    /// memory the text has a first part of the line, and the generator is as before.
    pub fn next_line(&mut self, out: &mut Text) -> Result<bool, NoMemory>
        ensures ok { IfOk result (λ given. GivesNext self.old self.new out.new given) }
        ensures err { OnErr result (self.new ≡ self.old) }
        ensures part { OnErr result (IsPartOfNext self.old out.new) }
        ensures short { OnOk result (length out.new ≤ longest_line) }
    {
        out.clear();
        if self.number > self.lines {
            return Ok(false);
        }
        if self.number == 0 {
            print_first_line(self.kind, out)?;
            self.number = 1;
            return Ok(true);
        }
        let mut draws = Draws { state: self.state };
        let line = draw_line(self.kind, self.number, &mut draws);
        print_line(self.kind, line, out)?;
        self.number += 1;
        self.state = draws.state;
        Ok(true)
    }
}
