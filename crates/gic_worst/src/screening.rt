//! The transformers of a network, screened in two fields.
ghost use Rattle.std.specs.Prelude.{◌≡◌, ◌/◌, length, IfErr, IfOk, OnOk};
ghost use Rattle.gic_criteria.specs.Ranges.{IsWidth};
ghost use Rattle.gic_model.specs.Voltages.{number_at};
ghost use Rattle.gic_net.specs.Net.{standing};
ghost use Rattle.gic_winding.specs.ElementList.{elements_of};
ghost use Rattle.gic_stand.specs.Needs.{Solved, Fails};
ghost use Rattle.gic_stand.specs.Standing.{IsSolvable};
ghost use Rattle.gic_worst.specs.Screening.{IsScreenWorkspaceFor, AreVoltsFor, AreScreened};

use crate::fields::FieldVolts;
use crate::rows::{ScreenRows, fill_rows};
use gic_base::OutOfMemory;
use gic_case::Case;
use gic_effective::view_of_case;
use gic_net::Net;
use gic_stand::NetworkRefusal;
use gic_uniform::{SolveWorkspace, expect_solvable, solve_view, solve_workspace_for};
use gic_view::StepView;
use std::alloc::Global;

/// What a screen writes to. It is made before the network is looked at.
pub struct ScreenWorkspace {
    pub solving: SolveWorkspace,
    pub north: StepView,
    pub east: StepView,
    pub rows: ScreenRows,
}

impl Drop for ScreenWorkspace {
    /// Lets go of everything, in one step for whoever drops it.
    fn drop(self) {
        let ScreenWorkspace {
            solving: _solving,
            north: _north,
            east: _east,
            rows: _rows,
        } = self;
    }
}

/// The workspace for the network of a case.
#[tactic(auto, using(gic_stand::proofs::Repeated::repeated_length))]
pub fn make_screen_workspace(
    alloc: Global,
    case: &Case,
    net: &Net,
) -> Result<ScreenWorkspace, OutOfMemory>
    requires { net.now.network ≡ elements_of case.now }
    ensures { IfOk result (IsScreenWorkspaceFor case.now) }
{
    let solving = solve_workspace_for(alloc, case, net)?;
    let north = view_of_case(alloc, case, net)?;
    let east = view_of_case(alloc, case, net)?;
    let rows = ScreenRows::new(alloc, case.transformers().len())?;
    Ok(ScreenWorkspace {
        solving,
        north,
        east,
        rows,
    })
}

/// The width to which a network is solved, so that no interval of a row is wider than `width`: a worst interval may be
/// twice as wide as the two that it is made of.
fn solved_width(width: u32) -> u32
    ensures { result ≡ width / 2 }
{
    width / 2
}

/// Fills the rows of the transformers of a case, in intervals no wider than `width` mA, where its network can be
/// solved; a refusal names the step 1. Takes no memory.
pub fn screen_net(
    case: &Case,
    net: &Net,
    volts: &FieldVolts,
    width: u32,
    workspace: &mut ScreenWorkspace,
) -> Result<(), NetworkRefusal>
    requires net { net.now.network ≡ elements_of case.now }
    requires volts { AreVoltsFor (length net.now.network.list) volts.now }
    requires width { IsWidth width }
    requires workspace { IsScreenWorkspaceFor case.now workspace.old }
    ensures right { OnOk result (AreScreened case.now (standing net.now) (number_at volts.now.north) (number_at volts.now.east)
        width workspace.new.rows) }
    ensures solvable { OnOk result (IsSolvable (standing net.now)) }
    ensures err { IfErr result (Fails Solved case.now 1 (standing net.now)) }
    ensures workspace { IsScreenWorkspaceFor case.now workspace.new }
{
    expect_solvable(case, net, &mut workspace.solving)?;
    let half = solved_width(width);
    solve_view(
        case,
        net,
        &volts.north,
        half,
        &mut workspace.solving,
        &mut workspace.north,
    );
    solve_view(
        case,
        net,
        &volts.east,
        half,
        &mut workspace.solving,
        &mut workspace.east,
    );
    fill_rows(&workspace.north, &workspace.east, &mut workspace.rows);
    Ok(())
}
