//! The total of a view.
ghost use Rattle.std.specs.Prelude.{◌≡◌, ℕ, ◌*◌, ◌^◌, ◌<◌, ◌≤◌, ◌≤ℤ◌, pos, length, take};
ghost use Rattle.gic_fixed.specs.Ends.{ends_of};
ghost use Rattle.gic_monitor.specs.LossText.{unit_loss, least_loss, most_loss, loss_total_of};
ghost use Rattle.gic_monitor.specs.LossOutlook.{total_seen};

use crate::loss::current::counted_current;
use gic_fixed::Interval;
use gic_view::StepView;

/// The total of a view in milli-var, and the view's number. Of more than one view it is the greatest low end and the
/// greatest high end of their totals, and the number of the first view with that high end.
#[derive(Clone, Copy, Debug)]
pub(crate) struct SeenTotal {
    pub(crate) number: u32,
    pub(crate) ends: Interval,
}

/// What a unit of the view draws in milli-var, with this factor in var per ampere.
fn unit_loss(view: &StepView, unit: u16, factor: u32) -> Interval
    requires { unit < length view.now.effective }
    ensures value { ends_of result ≡ unit_loss view.now (unit, factor) }
    ensures least { pos 0 ≤ℤ result.lo }
    // A factor has 32 bits, and what counts of a current is at most 2^70.
    ensures most { result.hi ≤ℤ pos (2 ^ 102) }
{
    counted_current(view.effective(unit)).scale(i128::from(factor))
}

/// The factors of the units that the view has.
fn shown_factors<'a>(factors: &'a [u32], view: &StepView) -> &'a [u32]
    ensures value { result.now ≡ take (length view.now.effective) factors.now }
    ensures few { length result.now < 2 ^ 16 }
{
    let (_, _, transformers) = view.sizes();
    &factors[..factors.len().min(usize::from(transformers))]
}

/// What the first units of the view draw in all, in milli-var, with these factors in var per ampere.
fn sum_of_losses(factors: &[u32], view: &StepView) -> Interval
    requires units { length factors.now ≤ length view.now.effective }
    requires few { length factors.now < 2 ^ 16 }
    ensures low { result.lo ≡ least_loss factors.now view.now }
    ensures high { result.hi ≡ most_loss factors.now view.now }
{
    let mut total = Interval::point(0);
    for (unit, factor) in factors.iter().enumerate() {
        total = total.add(unit_loss(view, unit as u16, *factor));
    }
    total
}

/// The total of the view over units with these factors in var per ampere.
pub(crate) fn total_of(factors: &[u32], view: &StepView) -> SeenTotal
    ensures { total_seen result ≡ loss_total_of factors.now view.now }
{
    SeenTotal {
        number: view.number(),
        ends: sum_of_losses(shown_factors(factors, view), view),
    }
}
