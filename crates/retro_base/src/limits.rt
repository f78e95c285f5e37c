//! The limits of a timeline.

ghost use Rattle.std.specs.Prelude.{◌≡◌};
ghost use Rattle.retro_base.specs.Limits.{most_rows, next_limit};

/// The most rows that a timeline has.
pub const MAX_ROWS: u32 = 131_072;

/// The number that no row draws: row numbers are below it.
pub const MAX_NEXT: u32 = 16_777_216;

/// A law: the constants are the limits that the definitions state.
pub fn limits_are_those_stated()
    ensures rows { MAX_ROWS ≡ most_rows }
    ensures next { MAX_NEXT ≡ next_limit }
{}
