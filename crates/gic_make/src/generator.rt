//! The generator: states, each of which follows from the one before, and the numbers that are drawn from them.
ghost use Rattle.std.specs.Prelude.{◌≡◌, ◌<◌, IfOk, length};
ghost use Rattle.gic_make.specs.Generator.{next_state, states_after, draw};

use gic_base::OutOfMemory;
use std::alloc::Global;

const MULTIPLIER: u32 = 1664525;

const INCREMENT: u32 = 1013904223;

/// The lower bits of a state, of which nothing is drawn.
const LOW_BITS: u32 = 16;

/// The state that follows.
#[tactic(auto, using(crate::proofs::States::wrapped))]
fn next_state(state: u32) -> u32
    ensures { result ≡ next_state state }
{
    state.wrapping_mul(MULTIPLIER).wrapping_add(INCREMENT)
}

/// A given number of states behind a seed, each following from the one before.
pub(crate) fn states_after(alloc: Global, seed: u32, count: usize) -> Result<Vec<u32>, OutOfMemory>
    ensures { IfOk result (λ states. states.items ≡ states_after seed count) }
{
    let mut states = Vec::new(alloc);
    let mut state = seed;
    for _ in 0..count {
        state = next_state(state);
        states.push(state)?;
    }
    Ok(states)
}

/// The number below a bound that is drawn from the state at a place.
pub(crate) fn draw(states: &[u32], place: usize, below: u32) -> u32
    requires place { place < length states.now }
    requires bound { 0 < below }
    ensures value { result ≡ draw states.now place below }
    ensures small { result < below }
{
    (states[place] >> LOW_BITS) % below
}
