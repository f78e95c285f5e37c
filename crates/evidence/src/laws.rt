//! Laws over the definitions of an evidence line.

ghost use Rattle.evidence.specs.Laws.{LinesAreShort, LinesAreValues, PrintedReadsBack};

/// What is printed reads back, and two different lines are two different values.
pub fn lines_are_values()
    ensures back { PrintedReadsBack }
    ensures lines { LinesAreValues }
{}

/// A line of evidence has 160 bytes at the most.
pub fn lines_are_short()
    ensures { LinesAreShort }
{}
