//! The spans of lines.
ghost use Rattle.std.specs.Prelude.{◌≡◌, ◌≤◌, ◌+◌, unsigned_abs};
ghost use Rattle.gic_review.specs.Spans.{span_of, span_with, IsShort};

use gic_case::{Line, LinePart};

/// How far a line leads to the north and to the east, in metres.
#[derive(Clone, Copy, Debug)]
pub(crate) struct Span {
    pub(crate) north: i32,
    pub(crate) east: i32,
}

/// The span and one part more.
fn span_with(span: &Span, part: &LinePart) -> Span
    requires north { unsigned_abs span.now.north + unsigned_abs part.now.north ≤ 1000000 }
    requires east { unsigned_abs span.now.east + unsigned_abs part.now.east ≤ 1000000 }
    ensures { result ≡ span_with span.now part.now }
{
    Span {
        north: span.north + part.north,
        east: span.east + part.east,
    }
}

/// The span of a line: that of all its parts. What looks at spans reads them here alone.
pub(crate) fn span_of(line: &Line) -> Span
    requires { IsShort line.now }
    ensures { result ≡ span_of line.now }
{
    let mut span = Span { north: 0, east: 0 };
    for part in line.course.parts() {
        span = span_with(&span, part);
    }
    span
}

impl Span {
    ghost use Rattle.std.specs.Prelude.{◌≡◌, ◌<◌, ◌^◌};
    ghost use Rattle.gic_review.specs.Spans.{length_of, tolerance_of};

    /// How far it leads in all, in metres.
    pub(crate) fn length(&self) -> u64
        ensures value { result ≡ length_of self.now }
        ensures small { result < 2 ^ 33 }
    {
        u64::from(self.north.unsigned_abs()) + u64::from(self.east.unsigned_abs())
    }

    /// How far a loop of spans that it closes may stay open, in metres.
    pub(crate) fn tolerance(&self) -> u64
        ensures { result ≡ tolerance_of self.now }
    {
        2000 + self.length() / 20
    }
}
