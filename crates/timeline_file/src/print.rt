//! How a timeline is saved.

ghost use Rattle.std.specs.Prelude.{◌≡◌, ◌++◌, decimal, OnOk, OnErr};
ghost use Rattle.retro_base.specs.OpText.{op_text};
ghost use Rattle.retro_base.specs.Text.{AppendsPrefix};
ghost use Rattle.timeline_file.specs.Saved.{count_text, header_text, kind_text, next_text, row_lines, row_text, saved, spaced, with_feed};

use retro_base::{Kind, Name, NoMemory, Op, Row, Rows, Text, print_op};

/// Appends the saved spelling of a timeline: a header, a line for each row, and `end`. Without memory a first
/// part of it may have been appended.
#[tactic(auto, unfolding(crate::specs::Saved::saved))]
pub fn print_block(
    name: &Name,
    kind: Kind,
    next: u32,
    timeline: &Rows,
    out: &mut Text,
) -> Result<(), NoMemory>
    ensures ok { OnOk result (out.new ≡ out.old ++ saved name.now kind next timeline.now) }
    ensures err { OnErr result (AppendsPrefix out.old out.new (saved name.now kind next timeline.now)) }
{
    print_header_line(name, kind, next, timeline.len(), out)?;
    print_row_lines(timeline, out)?;
    out.push_all(b"end\n")
}

/// Appends the header with its line feed.
fn print_header_line(
    name: &Name,
    kind: Kind,
    next: u32,
    count: u32,
    out: &mut Text,
) -> Result<(), NoMemory>
    ensures ok { OnOk result (out.new ≡ out.old ++ with_feed (header_text name.now kind next count)) }
    ensures err { OnErr result (AppendsPrefix out.old out.new (with_feed (header_text name.now kind next count))) }
{
    print_header(name, kind, next, count, out)?;
    out.push_all(b"\n")
}

/// Appends the header.
fn print_header(
    name: &Name,
    kind: Kind,
    next: u32,
    count: u32,
    out: &mut Text,
) -> Result<(), NoMemory>
    ensures ok { OnOk result (out.new ≡ out.old ++ header_text name.now kind next count) }
    ensures err { OnErr result (AppendsPrefix out.old out.new (header_text name.now kind next count)) }
{
    out.push_all(b"timeline ")?;
    out.push_all(name.bytes())?;
    print_kind_and_numbers(kind, next, count, out)
}

/// Appends what stands in a header after the name.
fn print_kind_and_numbers(kind: Kind, next: u32, count: u32, out: &mut Text) -> Result<(), NoMemory>
    ensures ok { OnOk result (out.new ≡ out.old ++ (spaced (kind_text kind) ++ (next_text next ++ count_text count))) }
    ensures err { OnErr result (AppendsPrefix out.old out.new (spaced (kind_text kind) ++ (next_text next ++ count_text count))) }
{
    out.push_all(b" ")?;
    out.push_all(kind_word(kind))?;
    print_numbers(next, count, out)
}

/// Appends the number that the timeline draws next, and how many rows it has.
fn print_numbers(next: u32, count: u32, out: &mut Text) -> Result<(), NoMemory>
    ensures ok { OnOk result (out.new ≡ out.old ++ (next_text next ++ count_text count)) }
    ensures err { OnErr result (AppendsPrefix out.old out.new (next_text next ++ count_text count)) }
{
    out.push_all(b" next ")?;
    out.push_number(next)?;
    print_count(count, out)
}

/// Appends how many rows the timeline has.
fn print_count(count: u32, out: &mut Text) -> Result<(), NoMemory>
    ensures ok { OnOk result (out.new ≡ out.old ++ count_text count) }
    ensures err { OnErr result (AppendsPrefix out.old out.new (count_text count)) }
{
    out.push_all(b" rows ")?;
    out.push_number(count)
}

/// The word of a kind.
fn kind_word(kind: Kind) -> &'static [u8]
    ensures { result.now ≡ kind_text kind }
{
    match kind {
        Kind::Queue => b"queue",
        Kind::Stack => b"stack",
        Kind::Deque => b"deque",
        Kind::Dict => b"dict",
        Kind::Pq => b"pq",
    }
}

/// Appends the row lines, each with its line feed.
fn print_row_lines(rows: &Rows, out: &mut Text) -> Result<(), NoMemory>
    ensures ok { OnOk result (out.new ≡ out.old ++ row_lines rows.now) }
    ensures err { OnErr result (AppendsPrefix out.old out.new (row_lines rows.now)) }
{
    for index in 0..rows.len() {
        print_row_line(rows.row(index), out)?;
    }
    Ok(())
}

/// Appends a row line with its line feed.
fn print_row_line(row: Row, out: &mut Text) -> Result<(), NoMemory>
    ensures ok { OnOk result (out.new ≡ out.old ++ with_feed (row_text row)) }
    ensures err { OnErr result (AppendsPrefix out.old out.new (with_feed (row_text row))) }
{
    print_row(row, out)?;
    out.push_all(b"\n")
}

/// Appends a row line.
fn print_row(row: Row, out: &mut Text) -> Result<(), NoMemory>
    ensures ok { OnOk result (out.new ≡ out.old ++ row_text row) }
    ensures err { OnErr result (AppendsPrefix out.old out.new (row_text row)) }
{
    out.push_all(b"#")?;
    out.push_number(row.number)?;
    print_time_and_op(row.time, row.op, out)
}

/// Appends what stands in a row line after the number.
fn print_time_and_op(time: u64, op: Op, out: &mut Text) -> Result<(), NoMemory>
    ensures ok { OnOk result (out.new ≡ out.old ++ (spaced (decimal time) ++ spaced (op_text op))) }
    ensures err { OnErr result (AppendsPrefix out.old out.new (spaced (decimal time) ++ spaced (op_text op))) }
{
    out.push_all(b" ")?;
    out.push_number(time)?;
    print_spaced_op(op, out)
}

/// Appends an operation, after a space.
fn print_spaced_op(op: Op, out: &mut Text) -> Result<(), NoMemory>
    ensures ok { OnOk result (out.new ≡ out.old ++ spaced (op_text op)) }
    ensures err { OnErr result (AppendsPrefix out.old out.new (spaced (op_text op))) }
{
    out.push_all(b" ")?;
    print_op(op, out)
}
