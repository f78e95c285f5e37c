//! Where a row stands, by a spot.

ghost use Rattle.std.specs.Prelude.{◌≡◌, ◌≤◌, ◌<◌, length, IfSome};
ghost use Rattle.retro_base.specs.Limits.{most_rows};
ghost use Rattle.reactions.specs.TimelineEffects.{row_named, position_before, position_of};

use order_timeline::Timeline;
use reactions::Position;
use script_grammar::Spot;

/// The position of a spot, where it has one.
pub(crate) fn position_of(timeline: &Timeline, spot: Spot) -> Option<Position>
    ensures position { result ≡ position_of spot timeline.now }
    ensures within { IfSome result (λ position. position.place ≤ length timeline.now) }
{
    match spot {
        Spot::At { time } => Some(Position {
            place: timeline.place_at(time),
            time,
        }),
        Spot::Before { number } => position_before(timeline, number),
        Spot::After { number } => {
            let position = position_before(timeline, number)?;
            Some(Position {
                place: position.place + 1,
                time: position.time,
            })
        }
    }
}

/// The number of the row that a spot names; 0 where it names none.
pub(crate) fn row_named(spot: Spot) -> u32
    ensures { result ≡ row_named spot }
{
    match spot {
        Spot::At { .. } => 0,
        Spot::Before { number } | Spot::After { number } => number,
    }
}

/// The position in front of the row with this number, at that row's time.
fn position_before(timeline: &Timeline, number: u32) -> Option<Position>
    ensures position { result ≡ position_before number timeline.now }
    ensures within { IfSome result (λ position. position.place < length timeline.now) }
    ensures few { length timeline.now ≤ most_rows }
{
    let place = timeline.place_of(number)?;
    Some(Position {
        place,
        time: timeline.row_at(place).time,
    })
}
