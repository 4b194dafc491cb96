//! Certified intervals of all that a view shows in the base fields of a case.
ghost use Rattle.std.specs.Prelude.{◌≡◌, ◌+◌, ◌*◌, ◌<◌, ◌≤◌, pos, length};
ghost use Rattle.gic_base.specs.declared.limits.TheConstants.{MOST_FIELD};
ghost use Rattle.gic_enclose.specs.declared.solving.TheConstants.{MOST_TICKS};
ghost use Rattle.gic_net.specs.Net.{standing};
ghost use Rattle.gic_winding.specs.ElementList.{elements_of};
ghost use Rattle.gic_base_views.specs.BaseRows.{IsCertifiedIn, AreCertifiedRows};
ghost use Rattle.gic_base_views.specs.BaseFields.{CanSolveBases, IsSolvedBase, IsBaseWorkspaceFor};
ghost use Rattle.gic_base_views.specs.Table.{base_rows_of, IsTableOf, IsSameElsewhere};

use crate::solving::solve_base;
use crate::table::BaseTable;
use crate::workspace::{BaseField, BaseWorkspace};
use crate::writing::{write_effective, write_elements, write_nodes};
use gic_base::limits::MOST_FIELD;
use gic_bound::BoundVector;
use gic_case::Case;
use gic_induce::Fields;
use gic_net::Net;
use gic_sweep::{Solver, Steps};
use std::sync::ledger::Ledger;

/// Writes into the table what the two base fields of a zone show.
fn certify_zone(
    case: &Case,
    net: &Net,
    zone: u16,
    north: &BaseField,
    east: &BaseField,
    table: &mut BaseTable,
)
    requires net { net.now.network ≡ elements_of case.now }
    requires zone { zone < length case.now.zones }
    requires north { IsSolvedBase case.now (standing net.now) zone (pos MOST_FIELD, pos 0) north.now }
    requires east { IsSolvedBase case.now (standing net.now) zone (pos 0, pos MOST_FIELD) east.now }
    requires table { IsTableOf case.now table.old }
    ensures certified { IsCertifiedIn case.now (standing net.now) (base_rows_of table.new) zone }
    ensures others { IsSameElsewhere zone table.old table.new }
    ensures table { IsTableOf case.now table.new }
{
    write_nodes(net, zone, north, east, &mut table.nodes);
    write_elements(net, zone, north, east, &mut table.elements);
    write_effective(case, net, zone, north, east, &mut table.effective);
}

/// Solves the two base fields of a zone, and writes what they show into the table.
fn prepare_zone<L: Ledger>(
    case: &Case,
    net: &Net,
    bound: &BoundVector,
    zone: u16,
    fields: &mut Fields,
    solver: &mut Solver,
    workspace: &mut BaseWorkspace,
    steps: &mut Steps<L>,
)
    requires zone { zone < length case.now.zones }
    requires can { CanSolveBases case.now net.now bound.now fields.old solver.old }
    requires workspace { IsBaseWorkspaceFor case.now workspace.old }
    ensures certified { IsCertifiedIn case.now (standing net.now) (base_rows_of workspace.new.table) zone }
    ensures others { IsSameElsewhere zone workspace.old.table workspace.new.table }
    ensures can { CanSolveBases case.now net.now bound.now fields.new solver.new }
    ensures workspace { IsBaseWorkspaceFor case.now workspace.new }
    ensures ticks { steps.new ≤ steps.old + 2 * MOST_TICKS }
{
    let to_north = (MOST_FIELD as i32, 0);
    let to_east = (0, MOST_FIELD as i32);
    solve_base(
        case,
        net,
        bound,
        zone,
        to_north,
        fields,
        solver,
        &mut workspace.north,
        steps,
    );
    solve_base(
        case,
        net,
        bound,
        zone,
        to_east,
        fields,
        solver,
        &mut workspace.east,
        steps,
    );
    certify_zone(
        case,
        net,
        zone,
        &workspace.north,
        &workspace.east,
        &mut workspace.table,
    );
}

/// Solves the two base fields of each zone of the case in the net that stands, 20000 mV/km to the north or to the east in
/// one zone alone, and leaves in the table, certified, what each shows: potentials of live nodes in nanovolts, currents of
/// standing elements in nanoamperes and effective currents of transformers in nanoamperes per phase. It begins from any
/// guesses, and ticks at most twice as often for each zone as a solve does. The vector is a bound vector of the net
/// within `MOST_WALK`. Fields and guesses are changed. Takes no memory.
pub fn prepare_bases<L: Ledger>(
    case: &Case,
    net: &Net,
    bound: &BoundVector,
    fields: &mut Fields,
    solver: &mut Solver,
    workspace: &mut BaseWorkspace,
    steps: &mut Steps<L>,
)
    requires can { CanSolveBases case.now net.now bound.now fields.old solver.old }
    requires workspace { IsBaseWorkspaceFor case.now workspace.old }
    ensures certified { AreCertifiedRows case.now (standing net.now) (base_rows_of workspace.new.table) }
    ensures can { CanSolveBases case.now net.now bound.now fields.new solver.new }
    ensures workspace { IsBaseWorkspaceFor case.now workspace.new }
    ensures ticks { steps.new ≤ steps.old + length case.now.zones * (2 * MOST_TICKS) }
{
    for zone in 0..fields.zones() {
        prepare_zone(case, net, bound, zone, fields, solver, workspace, steps);
    }
    workspace.table.choose_numbers();
}
