//! A network, looked at once and then solved in any voltages.
ghost use Rattle.std.specs.Prelude.{◌≡◌, length, IfErr, OnOk};
ghost use Rattle.gic_model.specs.Guess.{IsSettled};
ghost use Rattle.gic_model.specs.Voltages.{number_at};
ghost use Rattle.gic_net.specs.Net.{standing};
ghost use Rattle.gic_enclose.specs.Solved.{IsWidth};
ghost use Rattle.gic_winding.specs.ElementList.{elements_of};
ghost use Rattle.gic_effective.specs.ViewLengths.{HasViewLengths};
ghost use Rattle.gic_stand.specs.Needs.{Solved, Fails};
ghost use Rattle.gic_uniform.specs.Solving.{IsSolvedView};
ghost use Rattle.gic_uniform.specs.Ready.{IsWorkspaceForCase, IsReadyFor};

use crate::solve_workspace::SolveWorkspace;
use gic_case::Case;
use gic_effective::fill_view;
use gic_exists::laws::existence_law;
use gic_model::Volts;
use gic_model::laws::potential_law;
use gic_net::Net;
use gic_stand::NetworkRefusal;
use gic_view::StepView;

/// Whether the network of a case can be solved; a refusal names the step 1. A bound vector of it is left in the
/// workspace, for every solve, found from the entries there. Takes no memory.
pub fn expect_solvable(
    case: &Case,
    net: &Net,
    workspace: &mut SolveWorkspace,
) -> Result<(), NetworkRefusal>
    requires net { net.now.network ≡ elements_of case.now }
    requires workspace { IsWorkspaceForCase case.now workspace.old }
    ensures ready { OnOk result (IsReadyFor case.now (standing net.now) workspace.new) }
    ensures err { IfErr result (Fails Solved case.now 1 (standing net.now)) }
    ensures workspace { IsWorkspaceForCase case.now workspace.new }
{
    workspace.look(case, net, 1)
}

/// Settles the guesses in the workspace in these voltages, whatever they were. Takes no memory.
pub fn settle_guesses(case: &Case, net: &Net, volts: &Volts, workspace: &mut SolveWorkspace)
    requires net { net.now.network ≡ elements_of case.now }
    requires volts { length volts.now ≡ length net.now.network.list }
    requires ready { IsReadyFor case.now (standing net.now) workspace.old }
    ensures settled { IsSettled (standing net.now) (number_at volts.now) (number_at workspace.new.solver) }
    ensures ready { IsReadyFor case.now (standing net.now) workspace.new }
{
    workspace.settle(net, volts);
}

/// Fills a view of the network of a case in these voltages, in intervals no wider than `width` mV or mA. Takes no memory.
pub fn solve_view(
    case: &Case,
    net: &Net,
    volts: &Volts,
    width: u32,
    workspace: &mut SolveWorkspace,
    view: &mut StepView,
)
    requires net { net.now.network ≡ elements_of case.now }
    requires volts { length volts.now ≡ length net.now.network.list }
    requires width { IsWidth width }
    requires ready { IsReadyFor case.now (standing net.now) workspace.old }
    requires view { HasViewLengths case.now view.old }
    ensures solved { IsSolvedView case.now (standing net.now) (number_at volts.now) width view.new }
    ensures ready { IsReadyFor case.now (standing net.now) workspace.new }
{
    existence_law();
    potential_law();
    case.keeps_rules();
    net.within_limits();
    volts.within_limit();
    // Effective currents are rounded outward once more.
    workspace.solve(net, volts, width - 1);
    fill_view(case, net, volts, &workspace.potentials, view);
}
