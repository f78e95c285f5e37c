//! What a drawn line asks for.

ghost use Rattle.std.specs.Prelude.{◌≡◌, ◌≤◌, ◌%◌, pos};
ghost use Rattle.script_gen.specs.Draws.{first_draw, next_state, state_after};
ghost use Rattle.script_gen.specs.Script.{adding_draws, adding_op, line_of, state_later, taking_draws, taking_op};

use crate::draws::Draws;
use retro_base::{Kind, Op};

/// What a line of the script asks for.
#[derive(Clone, Copy)]
pub(crate) enum Line {
    /// A row at a time.
    Insert { time: u32, op: Op },
    /// The row of this number is taken out.
    Delete { number: u32 },
    /// The main question of the kind, at a time.
    AskMain { time: u32 },
    /// How many there are now.
    AskSize,
}

/// Draws the line of this number.
pub(crate) fn draw_line(kind: Kind, number: u32, draws: &mut Draws) -> Line
    requires { 1 ≤ number }
    ensures line { result ≡ line_of kind number draws.old.state }
    ensures state { draws.new.state ≡ state_later kind draws.old.state }
{
    match draws.draw() % 10 {
        0..=4 => Line::Insert {
            time: draw_time(draws),
            op: draw_adding(kind, draws),
        },
        5 | 6 => Line::Insert {
            time: draw_time(draws),
            op: draw_taking(kind, draws),
        },
        7 => Line::Delete {
            number: 1 + draws.draw() % number,
        },
        8 => Line::AskMain {
            time: draw_time(draws),
        },
        _ => Line::AskSize,
    }
}

fn draw_time(draws: &mut Draws) -> u32
    ensures time { result ≡ first_draw draws.old.state % 1000000 }
    ensures state { draws.new.state ≡ next_state draws.old.state }
{
    draws.draw() % 1_000_000
}

/// Draws an operation that adds.
fn draw_adding(kind: Kind, draws: &mut Draws) -> Op
    ensures op { result ≡ adding_op kind draws.old.state }
    ensures state { draws.new.state ≡ state_after (adding_draws kind) draws.old.state }
{
    match kind {
        Kind::Queue => Op::Enq {
            value: draw_value(draws),
        },
        Kind::Stack => Op::Push {
            value: draw_value(draws),
        },
        Kind::Deque => {
            if draws.draw() % 2 == 0 {
                Op::PushL {
                    value: draw_value(draws),
                }
            } else {
                Op::PushR {
                    value: draw_value(draws),
                }
            }
        }
        Kind::Dict => Op::Put {
            key: draw_key(draws),
            value: draw_value(draws),
        },
        Kind::Pq => Op::Ins {
            key: draw_value(draws),
        },
    }
}

/// Draws an operation that takes.
fn draw_taking(kind: Kind, draws: &mut Draws) -> Op
    ensures op { result ≡ taking_op kind draws.old.state }
    ensures state { draws.new.state ≡ state_after (taking_draws kind) draws.old.state }
{
    match kind {
        Kind::Queue => Op::Deq,
        Kind::Stack => Op::Pop,
        Kind::Deque => {
            if draws.draw() % 2 == 0 {
                Op::PopL
            } else {
                Op::PopR
            }
        }
        Kind::Dict => Op::Del {
            key: draw_key(draws),
        },
        Kind::Pq => Op::DelMin,
    }
}

fn draw_value(draws: &mut Draws) -> i64
    ensures value { result ≡ pos (first_draw draws.old.state % 1000) }
    ensures state { draws.new.state ≡ next_state draws.old.state }
{
    i64::from(draws.draw() % 1000)
}

/// Draws a key of a dictionary.
fn draw_key(draws: &mut Draws) -> i64
    ensures key { result ≡ pos (first_draw draws.old.state % 100) }
    ensures state { draws.new.state ≡ next_state draws.old.state }
{
    i64::from(draws.draw() % 100)
}
