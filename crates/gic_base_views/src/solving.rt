//! Base fields, solved in the net that stands.
ghost use Rattle.std.specs.Prelude.{◌≡◌, ◌+◌, ◌<◌, ◌≤◌, length, All};
ghost use Rattle.gic_enclose.specs.declared.solving.TheConstants.{MOST_TICKS};
ghost use Rattle.gic_net.specs.Net.{standing};
ghost use Rattle.gic_induce.specs.Fields.{IsField, lone_field};
ghost use Rattle.gic_induce.specs.LineVolts.{volts_of, IsLineWithin};
ghost use Rattle.gic_winding.specs.ElementList.{elements_of};
ghost use Rattle.gic_effective.specs.Holds.{AreOfNetwork};
ghost use Rattle.gic_base_views.specs.BaseFields.{CanSolveBases, IsSolvedBase};

use crate::workspace::BaseField;
use gic_bound::BoundVector;
use gic_case::Case;
use gic_effective::laws::line_items_law;
use gic_enclose::{enclose, settle};
use gic_induce::{Fields, fill_volts};
use gic_model::Volts;
use gic_net::Net;
use gic_sweep::{Solver, Steps};
use std::sync::ledger::Ledger;

/// Leaves in `volts` the voltages of the elements in the field that this zone alone has.
fn fill_base_volts(
    case: &Case,
    net: &Net,
    zone: u16,
    field: (i32, i32),
    fields: &mut Fields,
    volts: &mut Volts,
)
    requires zone { zone < length case.now.zones }
    requires field { IsField field }
    requires lines { All (λ e. IsLineWithin case.now e.item) net.now.network.list }
    requires zones { length fields.old ≡ length case.now.zones }
    requires count { length volts.old ≡ length net.now.network.list }
    ensures volts { volts.new ≡ volts_of case.now (lone_field (length case.now.zones) zone field) net.now.network.list }
    ensures zones { length fields.new ≡ length fields.old }
{
    let (north, east) = field;
    fields.set_alone(zone, north, east);
    fill_volts(case, net.list(), fields, volts);
}

/// Solves the base field that has this field, in mV/km, in one zone and none elsewhere. It begins from any guesses.
pub(crate) fn solve_base<L: Ledger>(
    case: &Case,
    net: &Net,
    bound: &BoundVector,
    zone: u16,
    field: (i32, i32),
    fields: &mut Fields,
    solver: &mut Solver,
    out: &mut BaseField,
    steps: &mut Steps<L>,
)
    requires zone { zone < length case.now.zones }
    requires field { IsField field }
    requires can { CanSolveBases case.now net.now bound.now fields.old solver.old }
    requires space { AreOfNetwork (elements_of case.now) out.old.volts out.old.potentials }
    ensures solved { IsSolvedBase case.now (standing net.now) zone field out.new }
    ensures can { CanSolveBases case.now net.now bound.now fields.new solver.new }
    ensures ticks { steps.new ≤ steps.old + MOST_TICKS }
{
    line_items_law();
    fill_base_volts(case, net, zone, field, fields, &mut out.volts);
    settle(net, &out.volts, bound, solver, steps);
    enclose(net, &out.volts, solver, bound, &mut out.potentials);
}
