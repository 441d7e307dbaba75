// The side of a pair that a node is: what the side says of the pair's words. specs/Nodes of buddy_rules has the same two.
ghost use Rattle.std.specs.Prelude.{◌≡◌, ◌^◌, ◌<◌};
ghost use Rattle.buddy_rules.specs.Nodes.{node_of, other};
ghost use Rattle.buddy_rules.specs.Level.{side_at, ready_tag};
ghost use Rattle.buddy_rules.specs.Levels.{side_in, side_of};
ghost use Rattle.buddy_levels.specs.Sides.{side_said};

use crate::{LEFT_AT, RIGHT_AT};
use buddy_rules::{LEFT_READY, RIGHT_READY};

#[derive(Clone, Copy, PartialEq, Eq)]
pub enum Side {
    Left,
    Right,
}

// The side that a node is of its pair.
pub fn side_in(node: u64) -> Side
    ensures { side_said result ≡ side_in node }
{
    if node % 2 == 0 {
        return Side::Left;
    }
    Side::Right
}

// The side that the tag of a ready pair says.
pub fn side_of(tag: u64) -> Side
    ensures { side_said result ≡ side_of tag }
{
    if tag == LEFT_READY {
        return Side::Left;
    }
    Side::Right
}

// The node that is this side of the pair p, which a torn table may say to be any.
pub fn node_of(p: u64, side: Side) -> u64
    requires { p < 2 ^ 63 }
    ensures { result ≡ node_of p (side_said side) }
{
    match side {
        Side::Left => 2 * p,
        Side::Right => 2 * p + 1,
    }
}

// The other side.
pub fn other(side: Side) -> Side
    ensures { side_said result ≡ other (side_said side) }
{
    match side {
        Side::Left => Side::Right,
        Side::Right => Side::Left,
    }
}

// Which field of a pair is its node's word at this side, and the tag of a pair that is ready there.
pub fn word_at(side: Side) -> usize
    ensures { result ≡ side_at (side_said side) }
{
    match side {
        Side::Left => LEFT_AT,
        Side::Right => RIGHT_AT,
    }
}

pub fn ready_tag(side: Side) -> u64
    ensures { result ≡ ready_tag (side_said side) }
{
    match side {
        Side::Left => LEFT_READY,
        Side::Right => RIGHT_READY,
    }
}
