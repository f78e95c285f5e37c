//! How far apart the checkpoints of a timeline may stand.
ghost use Rattle.std.specs.Prelude.{◌≡◌, ◌<◌, ◌≤◌, nat_le};
ghost use Rattle.retro_base.specs.Limits.{most_rows};
ghost use Rattle.checkpoint_full.specs.Widths.{least_width, most_checkpoints, multiples_below, IsWidth};

/// The least width. The others are twice, four times and eight times as wide.
pub const NARROWEST: u32 = 1024;

/// The most checkpoints, the start apart.
pub const MOST_CHECKPOINTS: u32 = 31;

/// Whether so many rows need no more checkpoints than there may be at the width.
fn is_wide_enough(width: u32, rows: u32) -> bool
    requires { 0 < width }
    ensures { result ≡ nat_le (multiples_below width rows) most_checkpoints }
{
    rows.saturating_sub(1) / width <= MOST_CHECKPOINTS
}

/// The width at which the checkpoints of so many rows are made: the least that is wide enough.
pub(crate) fn width_for(rows: u32) -> u32
    requires { rows ≤ most_rows }
    ensures least { result ≡ least_width rows }
    ensures of_widths { IsWidth result }
    ensures few { multiples_below result rows ≤ most_checkpoints }
{
    if is_wide_enough(NARROWEST, rows) {
        NARROWEST
    } else if is_wide_enough(2 * NARROWEST, rows) {
        2 * NARROWEST
    } else if is_wide_enough(4 * NARROWEST, rows) {
        4 * NARROWEST
    } else {
        8 * NARROWEST
    }
}
