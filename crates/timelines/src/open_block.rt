//! A block that is being read.

ghost use Rattle.std.specs.Prelude.{◌≡◌, ◌≤◌, length, true, is_ok, IsTrue, IfOk, OnOk, OnErr, Ok, Err};
ghost use Rattle.retro_base.specs.Limits.{longest_line, next_limit};
ghost use Rattle.timeline_file.specs.Block.{begun, finished};
ghost use Rattle.reactions.specs.Reaction.{of_block, with_line};
ghost use Rattle.timelines.specs.OpenBlocks.{ComesToTimeline};

use crate::loading::LoadedTimeline;
use crate::named_timeline::NamedTimeline;
use retro_base::{AnyStructure, Kind, Name, NoMemory};
use std::alloc::Global;
use std::marker::Model;
use timeline_file::{BlockError, BlockReader};

/// A block that is being read.
#[derive(Drop)]
pub(crate) struct OpenBlock {
    name: Name,
    reader: BlockReader,
}

impl Model for OpenBlock {
    ghost use Rattle.std.specs.Prelude.{◌≤◌};
    ghost use Rattle.retro_base.specs.Limits.{next_limit};
    ghost use Rattle.reactions.specs.Bench as specs;

    ghost Value = { specs.OpenBlock };

    ghost view = { λ unclosed. record { name = unclosed.name; block = unclosed.reader } };

    ghost invariant = { λ unclosed. (1 ≤ unclosed.reader.next) × (unclosed.reader.next ≤ next_limit) };
}

impl OpenBlock {
    /// A block of which nothing is read but its header.
    pub(crate) fn new(
        alloc: Global,
        name: Name,
        kind: Kind,
        next: u32,
        rows: Option<u32>,
    ) -> OpenBlock
        requires least { 1 ≤ next }
        requires most { next ≤ next_limit }
        ensures { result ≡ record { name = name; block = begun kind next rows } }
    {
        OpenBlock {
            name,
            reader: BlockReader::new(alloc, kind, next, rows),
        }
    }

    /// The name that the header gives.
    pub(crate) fn name(&self) -> Name
        ensures { result ≡ self.now.name }
    {
        self.name
    }

    /// Takes a line that is not the end of the block. After `NoMemory` all is as before.
    pub(crate) fn take(&mut self, line: &[u8], long: bool) -> Result<(), NoMemory>
        requires within { length line.now ≤ longest_line }
        requires full { IsTrue long → length line.now ≡ longest_line }
        ensures ok { OnOk result (self.new ≡ with_line self.old line.now long) }
        ensures err { OnErr result (self.new ≡ self.old) }
    {
        self.reader.take(line, long)
    }

    /// The timeline that the block makes, or why it makes none: `ended` says that its `end` line came.
    pub(crate) fn into_timeline<R: AnyStructure>(
        self,
        alloc: Global,
        ended: bool,
    ) -> Result<Result<LoadedTimeline<R>, BlockError>, NoMemory>
        ensures ok { IfOk result (ComesToTimeline self ended) }
        ensures memory { OnErr result (is_ok (finished self.block ended) ≡ true) }
    {
        let name = self.name;
        let kind = self.reader.kind();
        let next = self.reader.next();
        match self.reader.finish(ended) {
            Ok(rows) => {
                let loaded = NamedTimeline::of_block(alloc, name, kind, next, &rows)?;
                Ok(Ok(loaded))
            }
            Err(error) => Ok(Err(error)),
        }
    }
}
