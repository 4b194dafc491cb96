//! The network of a made case, solved and summed up.
ghost use Rattle.std.specs.Prelude.{◌≡◌, ◌<◌, length, IfOk};
ghost use Rattle.gic_model.specs.Voltages.{number_at};
ghost use Rattle.gic_net.specs.Net.{standing};
ghost use Rattle.gic_winding.specs.ElementList.{elements_of};
ghost use Rattle.gic_stand.specs.Standing.{IsSolvable};
ghost use Rattle.gic_uniform.specs.Ready.{IsWorkspaceForCase, IsReadyFor};
ghost use Rattle.gic_make.specs.RightMake.{IsWalk, IsRightSummary};
ghost use Rattle.gic_make.specs.Solving.{IsSummaryWorkspaceFor};

use crate::counting::count_verdicts;
use crate::text::Summary;
use gic_base::OutOfMemory;
use gic_bound::{BoundVector, bound};
use gic_case::Case;
use gic_criteria::Event;
use gic_criteria::laws::verdict_law;
use gic_effective::view_of_case;
use gic_model::Volts;
use gic_net::Net;
use gic_uniform::{SolveWorkspace, expect_solvable, solve_view, solve_workspace_for};
use gic_view::StepView;
use std::alloc::Global;

/// How wide intervals may be, in mA.
pub(crate) const WIDTH: u32 = 100;

/// What a summary is made in. It is made before the network is solved.
pub(crate) struct SummaryWorkspace {
    pub(crate) solving: SolveWorkspace,
    pub(crate) vector: BoundVector,
    pub(crate) view: StepView,
}

impl Drop for SummaryWorkspace {
    /// Lets go of everything, in one step for whoever drops it.
    fn drop(self) {
        let SummaryWorkspace {
            solving: _solving,
            vector: _vector,
            view: _view,
        } = self;
    }
}

/// The workspace for the network of a case.
#[tactic(auto, using(gic_stand::proofs::Repeated::repeated_length))]
pub(crate) fn make_summary_workspace(
    alloc: Global,
    case: &Case,
    net: &Net,
) -> Result<SummaryWorkspace, OutOfMemory>
    requires { net.now.network ≡ elements_of case.now }
    ensures { IfOk result (IsSummaryWorkspaceFor case.now) }
{
    let solving = solve_workspace_for(alloc, case, net)?;
    let vector = BoundVector::new(alloc, net.nodes())?;
    let view = view_of_case(alloc, case, net)?;
    Ok(SummaryWorkspace {
        solving,
        vector,
        view,
    })
}

/// The greatest entry of the least capped vector of a network. The vector is left in `vector`, whatever `bound` answers.
fn walk_of(net: &Net, vector: &mut BoundVector) -> u16
    requires entries { length vector.old ≡ net.now.network.nodes }
    requires some { 0 < net.now.network.nodes }
    ensures { IsWalk (standing net.now) net.now.network.nodes result }
{
    let _ = bound(net, vector);
    vector.walk()
}

/// Makes the workspace ready for a network that can be solved.
fn make_ready(case: &Case, net: &Net, workspace: &mut SolveWorkspace)
    requires net { net.now.network ≡ elements_of case.now }
    requires workspace { IsWorkspaceForCase case.now workspace.old }
    requires solvable { IsSolvable (standing net.now) }
    ensures { IsReadyFor case.now (standing net.now) workspace.new }
{
    match expect_solvable(case, net, workspace) {
        Ok(()) => {}
        Err(_) => unreachable!(),
    }
}

/// What the network of a case shows in these voltages, in short. Takes no memory.
pub(crate) fn summarise(
    case: &Case,
    net: &Net,
    volts: &Volts,
    workspace: &mut SummaryWorkspace,
) -> Summary
    requires net { net.now.network ≡ elements_of case.now }
    requires volts { length volts.now ≡ length net.now.network.list }
    requires some { 0 < net.now.network.nodes }
    requires solvable { IsSolvable (standing net.now) }
    requires workspace { IsSummaryWorkspaceFor case.now workspace.old }
    ensures { IsRightSummary case.now (standing net.now) (number_at volts.now) result }
{
    verdict_law();
    case.keeps_rules();
    let walk = walk_of(net, &mut workspace.vector);
    make_ready(case, net, &mut workspace.solving);
    solve_view(
        case,
        net,
        volts,
        WIDTH,
        &mut workspace.solving,
        &mut workspace.view,
    );
    let counts = count_verdicts(case, &workspace.view, Event::Benchmark.threshold());
    Summary {
        nodes: net.nodes(),
        elements: net.count(),
        walk,
        counts,
    }
}
