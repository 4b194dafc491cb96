//! The residuals at all nodes at once: each element's current is worked out once, for both its ends.
ghost use Rattle.std.specs.Prelude.{◌≡◌, ℕ, ◌*◌, ◌^◌, ◌<◌, ◌≤◌, length, unsigned_abs};
ghost use Rattle.gic_fixed.specs.Encloses.{IsWithin};
ghost use Rattle.gic_model.specs.Voltages.{number_at};
ghost use Rattle.gic_model.specs.Guess.{diagonal, residual_down, residual_up};
ghost use Rattle.gic_net.specs.Net.{standing};
ghost use Rattle.gic_sweep.specs.Passes.{part_down, part_up, AreOfNet, IsCarriedOn};

use crate::current::current;
use crate::sums::{add_ends, clear, share_down, share_up};
use gic_base::ElementId;
use gic_model::WideVolts;
use gic_net::Net;

/// Adds an element's current at both its ends, where it stands.
#[inline(always)]
fn add_element(
    net: &Net,
    volts: &WideVolts,
    guesses: &[i128],
    place: ElementId,
    low: &mut [i128],
    high: &mut [i128],
)
    requires place { place.0 < length net.now.network.list }
    requires together { AreOfNet net.now volts.now guesses.now }
    requires low_count { length low.old ≡ net.now.network.nodes }
    requires high_count { length high.old ≡ net.now.network.nodes }
    requires low_space { (k : ℕ) → k < length low.old → unsigned_abs (number_at low.old k) ≤ 2 ^ 126 }
    requires high_space { (k : ℕ) → k < length high.old → unsigned_abs (number_at high.old k) ≤ 2 ^ 126 }
    ensures low { IsCarriedOn net.now (part_down (number_at volts.now) (number_at guesses.now)) place.0 low.old low.new }
    ensures high { IsCarriedOn net.now (part_up (number_at volts.now) (number_at guesses.now)) place.0 high.old high.new }
{
    if net.stands(place) {
        let element = net.element(place);
        let divisor = net.divisor(place);
        let flow = current(volts, guesses, element.from, place, &element, divisor);
        let down = share_down(&flow);
        let up = share_up(&flow);
        add_ends(low, &element, &down);
        add_ends(high, &element, &up);
    }
}

/// The residuals at all nodes in units of 2^-44 nanoampere, each element's part rounded down in `low` and up in `high`.
pub(crate) fn residuals_into(
    net: &Net,
    volts: &WideVolts,
    guesses: &[i128],
    low: &mut [i128],
    high: &mut [i128],
)
    requires together { AreOfNet net.now volts.now guesses.now }
    requires low_count { length low.old ≡ net.now.network.nodes }
    requires high_count { length high.old ≡ net.now.network.nodes }
    ensures low_count { length low.new ≡ net.now.network.nodes }
    ensures high_count { length high.new ≡ net.now.network.nodes }
    ensures low { (k : ℕ) → number_at low.new k
        ≡ residual_down (standing net.now) (number_at volts.now) (number_at guesses.now) k }
    ensures high { (k : ℕ) → number_at high.new k
        ≡ residual_up (standing net.now) (number_at volts.now) (number_at guesses.now) k }
    ensures small { (k : ℕ) → IsWithin (diagonal (standing net.now) k * 2 ^ 86) (number_at low.new k) (number_at high.new k) }
{
    net.within_limits();
    clear(low);
    clear(high);
    for place in 0..net.count() {
        add_element(net, volts, guesses, ElementId(place), low, high);
    }
}
