//! Laws over the definitions of a block and of its saved spelling.

ghost use Rattle.timeline_file.specs.ReadsBack.{SavedReadsBack};

/// What is saved of a timeline reads back: to its name, its kind, its rows and the number that it draws next.
pub fn saved_reads_back()
    ensures { SavedReadsBack }
{}
