//! Whether residuals show that guesses are settled.
ghost use Rattle.std.specs.Prelude.{◌≡◌, ◌^◌, length, IsTrue};
ghost use Rattle.gic_model.specs.Voltages.{number_at};
ghost use Rattle.gic_model.specs.Guess.{IsSettled, IsSettledWithin};
ghost use Rattle.gic_net.specs.Net.{standing};
ghost use Rattle.gic_sweep.specs.Guesses.{AreCut};
ghost use Rattle.gic_sweep.specs.ResidualEnds.{node_count};

use crate::reaching::reach_between;
use crate::residuals::Residuals;
use gic_model::WideVolts;
use gic_model::laws::rounded_residual_law;
use gic_net::Net;

/// Guesses are settled within this many grains: 2^18.
const SETTLED: u128 = 1 << 18;

/// Whether the residuals show that the guesses are settled, as they do where the guesses are settled within half of the
/// grains. `residuals` is space for them.
pub(crate) fn are_settled(
    net: &Net,
    volts: &WideVolts,
    guesses: &[i128],
    residuals: &mut Residuals,
) -> bool
    requires volts { length volts.now ≡ length net.now.network.list }
    requires nodes { length guesses.now ≡ net.now.network.nodes }
    requires guesses { AreCut (number_at guesses.now) }
    requires count { node_count residuals.old ≡ net.now.network.nodes }
    ensures settled { IsTrue result → IsSettled (standing net.now) (number_at volts.now) (number_at guesses.now) }
    ensures seen { IsSettledWithin (standing net.now) (number_at volts.now) (number_at guesses.now) (2 ^ 17) → IsTrue result }
    ensures count { node_count residuals.new ≡ node_count residuals.old }
{
    rounded_residual_law();
    net.within_limits();
    residuals.find(net, volts, guesses);
    reach_between(net, residuals) <= SETTLED
}
