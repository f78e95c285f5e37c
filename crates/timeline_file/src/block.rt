//! A block of rows is read, line by line.

ghost use Rattle.std.specs.Prelude.{◌≡◌, ◌<◌, ◌≤◌, length, true, None, Some, Ok, IsTrue, IfSome, IfOk, OnOk, OnErr};
ghost use Rattle.retro_base.specs.Limits.{longest_line, most_rows, next_limit};
ghost use Rattle.retro_base.specs.Timeline.{IsTimeline};
ghost use Rattle.timeline_file.specs.Block.{are_below, begun, cause_of_row, fault_of, finished, grown, has_count, taken};

use retro_base::{Kind, MAX_ROWS, NoMemory, PerformedRows, Row, Rows};
use script_grammar::{is_passed_over, read_row};
use std::alloc::Global;
use std::collections::HashSet;
use std::marker::Model;

/// Why a row line is bad. Of several causes the first one is reported.
#[derive(Clone, Copy, Debug, PartialEq, Eq)]
pub enum RowCause {
    /// The line is long, or not of the form `#N T OP`.
    Syntax,
    /// The operation is not of the kind of the block.
    Kind,
    /// An earlier row of the block has the number.
    Number,
    /// The time is below that of the row before.
    Time,
    /// The operation cannot be performed after the rows before.
    Replay,
}

/// Why a block makes no timeline.
#[derive(Clone, Copy, Debug, PartialEq, Eq)]
pub enum BlockError {
    /// The row line of this place, from 1 on, is the first one that is bad.
    Row { place: u32, cause: RowCause },
    /// There are more row lines than a timeline has rows, and all before that one are good.
    Full,
    /// The input ended before the block did.
    Unfinished,
    /// A row has a number that is not below the one that the timeline draws next.
    Next,
    /// There are more or fewer row lines than the header says.
    Rows,
}

/// What has been read of a block, after its header. Contracts see it as a block of `specs/Block.antt`.
#[derive(Drop)]
pub struct BlockReader {
    next: u32,
    count: Option<u32>,
    rows: PerformedRows,
    numbers: HashSet<u32>,
    time: u64,
    bad: Option<BlockError>,
}

impl Model for BlockReader {
    ghost use Rattle.timeline_file.specs.Block.{Block};
    ghost use Rattle.timeline_file.specs.Read.{IsRead};

    ghost Value = { Block };

    ghost view = { λ r. record { kind = r.rows.kind; next = r.next; count = r.count; rows = r.rows.rows; bad = r.bad } };

    ghost invariant = { λ r. IsRead r.rows.rows r.numbers r.time };
}

impl BlockReader {
    /// A block of which nothing is read but its header. The header may say how many row lines the block has.
    pub fn new(alloc: Global, kind: Kind, next: u32, rows: Option<u32>) -> BlockReader
        ensures { result ≡ begun kind next rows }
    {
        BlockReader {
            next,
            count: rows,
            rows: PerformedRows::new(alloc, kind),
            numbers: HashSet::new(alloc),
            time: 0,
            bad: None,
        }
    }

    /// The kind of the block.
    pub fn kind(&self) -> Kind
        ensures { result ≡ self.now.kind }
    {
        self.rows.kind()
    }

    /// The number that the timeline of the block draws next.
    pub fn next(&self) -> u32
        ensures { result ≡ self.now.next }
    {
        self.next
    }

    /// Takes a line that is not the end of the block. Of a line that is too long its first bytes are given,
    /// as many as a line may have, and `long` says that it has more. After `NoMemory` all is as before.
    #[tactic(auto, unfolding(crate::specs::Block::taken))]
    pub fn take(&mut self, line: &[u8], long: bool) -> Result<(), NoMemory>
        requires within { length line.now ≤ longest_line }
        requires full { IsTrue long → length line.now ≡ longest_line }
        ensures ok { OnOk result (self.new ≡ taken self.old line.now long) }
        ensures err { OnErr result (self.new ≡ self.old) }
    {
        if !long && is_passed_over(line) {
            return Ok(());
        }
        if self.bad.is_some() {
            return Ok(());
        }
        let row = if long { None } else { read_row(line) };
        self.take_row_line(row)
    }

    /// Takes a row line, by the row that it spells.
    fn take_row_line(&mut self, line: Option<Row>) -> Result<(), NoMemory>
        requires numbered { IfSome line (λ row. (1 ≤ row.number) × (row.number < next_limit)) }
        ensures ok { OnOk result (self.new ≡ grown self.old line (fault_of self.old.kind self.old.rows line)) }
        ensures err { OnErr result (self.new ≡ self.old) }
    {
        if self.rows.len() >= MAX_ROWS {
            self.bad = Some(BlockError::Full);
            return Ok(());
        }
        let cause = match line {
            None => RowCause::Syntax,
            Some(row) => match self.cause_of(row) {
                None => return self.append(row),
                Some(cause) => cause,
            },
        };
        self.bad = Some(BlockError::Row {
            place: self.rows.len() + 1,
            cause,
        });
        Ok(())
    }

    /// Why the row is bad after the rows so far, if it is.
    fn cause_of(&self, row: Row) -> Option<RowCause>
        ensures { result ≡ cause_of_row self.now.kind self.now.rows row }
    {
        if row.op.kind() != self.rows.kind() {
            Some(RowCause::Kind)
        } else if self.numbers.contains(&row.number) {
            Some(RowCause::Number)
        } else if row.time < self.time {
            Some(RowCause::Time)
        } else if self.rows.can_perform(row) {
            None
        } else {
            Some(RowCause::Replay)
        }
    }

    /// Appends a good row. After `NoMemory` all is as before.
    fn append(&mut self, row: Row) -> Result<(), NoMemory>
        requires room { length self.old.rows < most_rows }
        requires numbered { (1 ≤ row.number) × (row.number < next_limit) }
        requires good { cause_of_row self.old.kind self.old.rows row ≡ None }
        ensures ok { OnOk result (self.new ≡ grown self.old (Some row) None) }
        ensures err { OnErr result (self.new ≡ self.old) }
    {
        self.numbers.insert(row.number)?;
        if let Err(error) = self.rows.append(row) {
            self.numbers.remove(&row.number);
            return Err(error);
        }
        self.time = row.time;
        Ok(())
    }

    /// The rows of the block, or why it makes no timeline: `ended` says that its `end` line came. The reader
    /// is used up.
    pub fn finish(self, ended: bool) -> Result<Rows, BlockError>
        ensures rows { result ≡ finished self ended }
        ensures timeline { IfOk result (λ rows. 1 ≤ self.next → self.next ≤ next_limit → IsTimeline self.kind rows self.next) }
    {
        if let Some(error) = self.bad {
            return Err(error);
        }
        if !ended {
            return Err(BlockError::Unfinished);
        }
        let next = self.next;
        let count = self.count;
        let rows = self.rows.into_rows();
        if !are_below(next, rows.as_slice()) {
            return Err(BlockError::Next);
        }
        if !has_count(count, &rows) {
            return Err(BlockError::Rows);
        }
        Ok(rows)
    }
}

/// Whether all numbers are below this one.
fn are_below(next: u32, rows: &[Row]) -> bool
    ensures { result ≡ are_below next rows.now }
{
    rows.iter().all(|row| row.number < next)
}

/// Whether there are as many rows as the header says, if it says it.
fn has_count(count: Option<u32>, rows: &Rows) -> bool
    ensures { result ≡ has_count count rows.now }
{
    match count {
        None => true,
        Some(count) => rows.len() == count,
    }
}
