//! Conjugate gradients.
ghost use Rattle.std.specs.Prelude.{◌≡◌, ◌<◌, ◌≤◌};

use crate::system::System;
use crate::vectors::Vectors;

/// The passes of one solution, at most.
pub const MOST_PASSES: u32 = 64;

/// The passes in which the currents may come no closer to 0, one after the other.
const MOST_VAIN: u32 = 4;

/// How far the currents of a solution are from 0.
#[derive(Clone, Copy)]
struct Distances {
    first: i128,
    least: i128,
    last: i128,
    /// The passes since the least.
    vain: u32,
}

/// Notes how far the currents are after a pass.
fn note(distances: Distances, far: i128) -> Distances {
    if far < distances.least {
        Distances {
            first: distances.first,
            least: far,
            last: far,
            vain: 0,
        }
    } else {
        Distances {
            first: distances.first,
            least: distances.least,
            last: far,
            vain: distances.vain.saturating_add(1),
        }
    }
}

/// Whether a solution to this many bits is at its end: it has these bits, or gains no more.
fn is_over(distances: Distances, bits: u32) -> bool
    requires { bits < 64 }
{
    distances.last <= distances.first >> (2 * bits)
        || distances.last <= 0
        || distances.vain > MOST_VAIN
}

/// Looks for potentials that balance the currents to about this many bits, `2 ^ lift` times too great, and tells a number
/// of passes, of which only the most is promised. The currents are changed.
pub(crate) fn solve(system: &System, lift: u32, bits: u32, vectors: &mut Vectors) -> u32
    requires nodes { vectors.old ≡ system.now }
    requires lift { lift < 128 }
    requires bits { bits < 64 }
    ensures same { vectors.new ≡ vectors.old }
    ensures few { result ≤ MOST_PASSES }
{
    let far = vectors.begin(system, lift);
    let mut distances = Distances {
        first: far,
        least: far,
        last: far,
        vain: 0,
    };
    if far <= 0 {
        return 0;
    }
    for pass in 0..MOST_PASSES {
        let before = distances.last;
        let far = vectors.advance(system, lift, before);
        distances = note(distances, far);
        if is_over(distances, bits) {
            return pass + 1;
        }
        vectors.turn(before, far);
    }
    MOST_PASSES
}
