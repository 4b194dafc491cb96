//! What one network is solved in.
ghost use Rattle.std.specs.Prelude.{◌≡◌, ◌<◌, ◌≤◌, length, slice_index, IfErr, IfOk, OnOk};
ghost use Rattle.gic_base.specs.declared.limits.TheConstants.{MOST_WALK};
ghost use Rattle.gic_model.specs.Bound.{IsEarthedWithin};
ghost use Rattle.gic_model.specs.Guess.{IsSettled};
ghost use Rattle.gic_model.specs.Voltages.{number_at};
ghost use Rattle.gic_net.specs.Net.{standing};
ghost use Rattle.gic_bound.specs.Entries.{IsBoundWithin};
ghost use Rattle.gic_enclose.specs.Certain.{AreTight};
ghost use Rattle.gic_enclose.specs.Drive.{CanEnclose};
ghost use Rattle.gic_enclose.specs.Solved.{IsSolvedWithin};
ghost use Rattle.gic_enclose.specs.Together.{BelongTogether};
ghost use Rattle.gic_winding.specs.ElementList.{elements_of};
ghost use Rattle.gic_stand.specs.Needs.{Solved, Fails};
ghost use Rattle.gic_uniform.specs.Ready.{IsSolveWorkspaceFor, IsWorkspaceForCase, IsReadyFor};

use gic_base::OutOfMemory;
use gic_bound::BoundVector;
use gic_case::Case;
use gic_enclose::laws::drive_law;
use gic_enclose::{Potentials, settle, solve_wide};
use gic_model::{Volts, WideVolts};
use gic_net::{Net, Scratch};
use gic_stand::{NetworkRefusal, Start, expect_earthed, expect_resolved, find_bound};
use gic_sweep::{Solver, Steps};
use std::alloc::Global;
use std::marker::Brand;
use std::sync::ledger::{Blank, Ledger};

/// What a network is solved in: first it is looked at, which leaves a bound vector of it, and then it is solved in any
/// voltages, as often as is wanted. All its memory is taken when it is made.
pub struct SolveWorkspace {
    pub(crate) scratch: Scratch,
    /// The entries that a look at a network left, and where the next look begins.
    pub vector: BoundVector,
    pub(crate) start: Start,
    /// The guesses, from which the next solve begins.
    pub solver: Solver,
    /// The intervals that a solve left, by nodes, in grains of 2^-36 nanovolt.
    pub potentials: Potentials,
}

impl Drop for SolveWorkspace {
    /// Lets go of everything, in one step for whoever drops it.
    fn drop(self) {
        let SolveWorkspace {
            scratch: _scratch,
            vector: _vector,
            start: _start,
            solver: _solver,
            potentials: _potentials,
        } = self;
    }
}

/// Settles the guesses in these voltages, as `settle` does, and counts none of its steps.
fn settle_uncounted<L: Ledger>(
    net: &Net,
    volts: &Volts,
    vector: &BoundVector,
    solver: &mut Solver,
    blank: Blank,
)
    requires name { blank.name ≡ L.name }
    requires parts { blank.parts ≡ L.parts }
    requires some { 0 < blank.parts }
    requires volts { length volts.now ≡ length net.now.network.list }
    requires nodes { length solver.old ≡ net.now.network.nodes }
    requires bound { IsBoundWithin (standing net.now) MOST_WALK (slice_index vector.now) }
    ensures settled { IsSettled (standing net.now) (number_at volts.now) (number_at solver.new) }
    ensures same_length { length solver.new ≡ length solver.old }
{
    let mut steps: Steps<L> = Steps::new(blank);
    settle(net, volts, vector, solver, &mut steps);
}

/// Solves the network in these voltages, as `solve_wide` does, and counts none of its steps.
fn solve_uncounted<L: Ledger>(
    net: &Net,
    volts: &WideVolts,
    vector: &BoundVector,
    width: u32,
    solver: &mut Solver,
    out: &mut Potentials,
    blank: Blank,
)
    requires name { blank.name ≡ L.name }
    requires parts { blank.parts ≡ L.parts }
    requires some { 0 < blank.parts }
    requires together { BelongTogether net.now.network volts.now solver.old vector.now out.old }
    requires can { CanEnclose (standing net.now) (number_at volts.now) (slice_index vector.now) }
    requires width { 2 ≤ width }
    ensures solved { IsSolvedWithin (standing net.now) (number_at volts.now) width out.new }
    ensures tight { AreTight out.new }
    ensures together { BelongTogether net.now.network volts.now solver.new vector.now out.new }
{
    let mut steps: Steps<L> = Steps::new(blank);
    solve_wide(net, volts, vector, width, solver, out, &mut steps);
}

impl SolveWorkspace {
    /// For networks of this many nodes and elements.
    pub fn new(alloc: Global, nodes: u16, elements: u16) -> Result<SolveWorkspace, OutOfMemory>
        ensures { IfOk result (IsSolveWorkspaceFor nodes) }
    {
        let scratch = Scratch::new(alloc, nodes)?;
        let vector = BoundVector::new(alloc, nodes)?;
        let start = Start::new(alloc, nodes, elements)?;
        let solver = Solver::new(alloc, nodes, elements)?;
        let potentials = Potentials::new(alloc, nodes)?;
        Ok(SolveWorkspace {
            scratch,
            vector,
            start,
            solver,
            potentials,
        })
    }

    /// Looks whether the network of a case can be solved, at the step of this number; a refusal names the node that forbids
    /// it. A bound vector of the network is left for every solve, found from the entries there. The guesses and the
    /// intervals stay. Takes no memory.
    pub fn look(&mut self, case: &Case, net: &Net, step: u32) -> Result<(), NetworkRefusal>
        requires nodes { net.now.network.nodes ≡ (elements_of case.now).nodes }
        requires space { IsWorkspaceForCase case.now self.old }
        ensures ready { OnOk result (IsReadyFor case.now (standing net.now) self.new) }
        ensures err { IfErr result (Fails Solved case.now step (standing net.now)) }
        ensures space { IsWorkspaceForCase case.now self.new }
        ensures rest { self.new ≡ record self.old { scratch = self.new.scratch; vector = self.new.vector; start = self.new.start } }
    {
        expect_earthed(case, net, step, &mut self.scratch)?;
        expect_resolved(case, net, step, &mut self.vector, &mut self.start)
    }

    /// Leaves a bound vector of a network that is known to be earthed within 4096, as a look does. Takes no memory.
    pub fn find_vector(&mut self, net: &Net)
        requires space { IsSolveWorkspaceFor net.now.network.nodes self.old }
        requires within { IsEarthedWithin (standing net.now) MOST_WALK }
        ensures bound { IsBoundWithin (standing net.now) MOST_WALK (slice_index self.new.vector) }
        ensures space { IsSolveWorkspaceFor net.now.network.nodes self.new }
        ensures rest { self.new ≡ record self.old { vector = self.new.vector; start = self.new.start } }
    {
        // It is found, since there is one.
        let _found = find_bound(net, &mut self.vector, &mut self.start);
    }

    /// Settles the guesses in these voltages, whatever they were. The intervals stay. Takes no memory.
    pub fn settle(&mut self, net: &Net, volts: &Volts)
        requires volts { length volts.now ≡ length net.now.network.list }
        requires space { IsSolveWorkspaceFor net.now.network.nodes self.old }
        requires bound { IsBoundWithin (standing net.now) MOST_WALK (slice_index self.old.vector) }
        ensures settled { IsSettled (standing net.now) (number_at volts.now) (number_at self.new.solver) }
        ensures space { IsSolveWorkspaceFor net.now.network.nodes self.new }
        ensures rest { self.new ≡ record self.old { solver = self.new.solver } }
    {
        settle_uncounted::<Brand>(net, volts, &self.vector, &mut self.solver, Blank::new(1));
    }

    /// Solves the network in these voltages, from the guesses that are there: each live node's interval holds its potential
    /// in every solution, and no interval in millivolts or milliamperes that these potentials give is wider than `width`,
    /// which is at least 2. The bound vector stays. Takes no memory.
    pub fn solve(&mut self, net: &Net, volts: &Volts, width: u32)
        requires volts { length volts.now ≡ length net.now.network.list }
        requires width { 2 ≤ width }
        requires space { IsSolveWorkspaceFor net.now.network.nodes self.old }
        requires bound { IsBoundWithin (standing net.now) MOST_WALK (slice_index self.old.vector) }
        ensures solved { IsSolvedWithin (standing net.now) (number_at volts.now) width self.new.potentials }
        ensures tight { AreTight self.new.potentials }
        ensures space { IsSolveWorkspaceFor net.now.network.nodes self.new }
        ensures rest { self.new ≡ record self.old { solver = self.new.solver; potentials = self.new.potentials } }
    {
        drive_law();
        volts.within_limit();
        self.solve_wide(net, volts.as_wide(), width);
    }

    /// The same in voltages that may be greater than those of a case, but drive no potential far. Takes no memory.
    pub fn solve_wide(&mut self, net: &Net, volts: &WideVolts, width: u32)
        requires volts { length volts.now ≡ length net.now.network.list }
        requires width { 2 ≤ width }
        requires space { IsSolveWorkspaceFor net.now.network.nodes self.old }
        requires can { CanEnclose (standing net.now) (number_at volts.now) (slice_index self.old.vector) }
        ensures solved { IsSolvedWithin (standing net.now) (number_at volts.now) width self.new.potentials }
        ensures tight { AreTight self.new.potentials }
        ensures space { IsSolveWorkspaceFor net.now.network.nodes self.new }
        ensures rest { self.new ≡ record self.old { solver = self.new.solver; potentials = self.new.potentials } }
    {
        solve_uncounted::<Brand>(
            net,
            volts,
            &self.vector,
            width,
            &mut self.solver,
            &mut self.potentials,
            Blank::new(1),
        );
    }
}

/// A workspace for the network of a case.
pub fn solve_workspace_for(
    alloc: Global,
    case: &Case,
    net: &Net,
) -> Result<SolveWorkspace, OutOfMemory>
    requires { net.now.network ≡ elements_of case.now }
    ensures { IfOk result (IsWorkspaceForCase case.now) }
{
    let solve_workspace = SolveWorkspace::new(alloc, net.nodes(), net.count())?;
    Ok(solve_workspace)
}
