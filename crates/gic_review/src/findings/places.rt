//! Where places lie, as far as spans of lines tell it. A place is a substation.
ghost use Rattle.std.specs.Prelude.{◌≡◌, ◌≤◌, length, map, All, IfOk, unsigned_abs, ◌<◌};
ghost use Rattle.std.specs.List.{range_with_len};
ghost use Rattle.gic_review.specs.Places.{IsNearPosition, IsNearGap, gap_of, is_open, moved, carried, group_moved, start_of};

use crate::findings::span::Span;
use gic_base::OutOfMemory;
use std::alloc::Global;

/// A place: its group, and how far it lies to the north and to the east in it, in metres.
#[derive(Clone, Copy, Debug)]
pub(crate) struct Position {
    pub(crate) group: u16,
    pub(crate) north: i64,
    pub(crate) east: i64,
}

/// How far a line that leads from a place misses another, in metres.
#[derive(Clone, Copy, Debug)]
pub(crate) struct Gap {
    pub(crate) north: i64,
    pub(crate) east: i64,
}

/// How far the line misses the place that it leads to: the place that it leads from and its span, less that place.
pub(crate) fn gap_of(from: &Position, span: &Span, to: &Position) -> Gap
    requires from { IsNearPosition from.now }
    requires to { IsNearPosition to.now }
    ensures value { result ≡ gap_of from.now span.now to.now }
    ensures near { IsNearGap result }
{
    Gap {
        north: from.north + i64::from(span.north) - to.north,
        east: from.east + i64::from(span.east) - to.east,
    }
}

/// Whether a gap is more than a loop that the span closes may have.
pub(crate) fn is_open(span: &Span, gap: &Gap) -> bool
    ensures { result ≡ is_open span.now gap.now }
{
    let most = span.tolerance();
    gap.north.unsigned_abs() > most || gap.east.unsigned_abs() > most
}

/// Each place in a group of its own.
pub(crate) fn start_places(alloc: Global, count: u16) -> Result<Vec<Position>, OutOfMemory>
    ensures { IfOk result (λ places. places.items ≡ start_of count) }
{
    let mut places = Vec::new(alloc);
    for group in 0..count {
        places.push(Position {
            group,
            north: 0,
            east: 0,
        })?;
    }
    Ok(places)
}

/// The place, moved into another group.
fn moved(place: &Position, group: u16, gap: &Gap) -> Position
    requires place { IsNearPosition place.now }
    requires gap { IsNearGap gap.now }
    ensures { result ≡ moved group gap.now place.now }
{
    Position {
        group,
        north: place.north + gap.north,
        east: place.east + gap.east,
    }
}

/// What becomes of a place: it moves where it is in the group of `to`.
fn carried(place: &Position, from: &Position, to: &Position, gap: &Gap) -> Position
    requires place { IsNearPosition place.now }
    requires gap { IsNearGap gap.now }
    ensures { result ≡ carried from.now to.now gap.now place.now }
{
    if place.group == to.group {
        moved(place, from.group, gap)
    } else {
        *place
    }
}

/// Moves the group of `to` as a whole into that of `from`, by the gap between them.
pub(crate) fn join(places: &mut [Position], from: &Position, to: &Position, gap: &Gap)
    requires near { All IsNearPosition places.old }
    requires gap { IsNearGap gap.now }
    ensures { places.new ≡ group_moved from.now to.now gap.now places.old }
{
    for place in places.iter_mut() {
        *place = carried(place, from, to, gap);
    }
}
