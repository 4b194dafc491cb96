//! The loop worked by hand, whose nodes are the substations A and B and the buses a and b: what stands after switchings, its
//! bound vectors, and what guesses of 0 tell.
ghost use Rattle.std.specs.Prelude.{◌≡◌, IfOk, length};
ghost use Rattle.gic_model.specs.WorkedLoop.{loop};
ghost use Rattle.gic_net.specs.Net.{closed_net};

use crate::worked::worked_loop;
use gic_base::{ElementId, NodeId, OutOfMemory};
use gic_bound::{BoundVector, bound};
use gic_enclose::{Potentials, enclose};
use gic_model::{Item, Volts};
use gic_net::Net;
use gic_sweep::{Solver, residual};
use std::alloc::Global;
use std::test::Fail;

/// The net of the loop.
fn worked_net(alloc: Global) -> Result<Net, OutOfMemory>
    ensures { IfOk result (λ net. net ≡ closed_net loop) }
{
    let elements = worked_loop(alloc)?;
    let net = Net::build(alloc, &elements)?;
    Ok(net)
}

/// Opens and closes items until the transformer at B alone is open.
fn switch_many_times(net: &mut Net)
    ensures { net.new.network ≡ net.old.network }
{
    let (at_a, at_b) = (Item::Transformer(0), Item::Transformer(1));
    net.switch(at_b, true);
    net.switch(at_a, true);
    net.switch(Item::Line(0), true);
    net.switch(at_a, true);
    net.switch(at_a, false);
    net.switch(Item::Ground(0), true);
    net.switch(Item::Line(0), false);
    net.switch(Item::Ground(0), false);
}

/// An item that is opened twice stands after one closing, and no closing lets another item stand.
#[test]
fn net_switched_many_times(rt: HostRuntime) -> Result<(), Fail> {
    let mut net = worked_net(rt.alloc())?;
    switch_many_times(&mut net);
    let (grounds, line) = (
        (net.stands(ElementId(0)), net.stands(ElementId(1))),
        net.stands(ElementId(2)),
    );
    let windings = (net.stands(ElementId(3)), net.stands(ElementId(4)));
    assert_eq!(rt;
        (grounds, line, windings),
        ((true, true), true, (true, false))
    );
    let substations = (net.degree(NodeId(0)), net.degree(NodeId(1)));
    let buses = (net.degree(NodeId(2)), net.degree(NodeId(3)));
    assert_eq!(rt; (substations, buses), ((2, 1), (2, 1)));
    Ok(())
}

/// The entries of a vector.
fn entries_of(vector: &BoundVector) -> [u16; 4]
    requires { length vector.now ≡ 4 }
{
    [
        vector.entry(NodeId(0)),
        vector.entry(NodeId(1)),
        vector.entry(NodeId(2)),
        vector.entry(NodeId(3)),
    ]
}

/// The least bound vector. In siemens the row of A, whose bus has 2 more, is 1·(31 - 1) + 10·(31 - 33 - 1), which is 0.
#[test]
fn bound_of_p(rt: HostRuntime) -> Result<(), Fail> {
    let net = worked_net(rt.alloc())?;
    let mut vector = BoundVector::new(rt.alloc(), 4)?;
    bound(&net, &mut vector)?;
    assert_eq!(rt; entries_of(&vector), [31, 31, 33, 33]);
    assert_eq!(rt; vector.walk(), 33);
    Ok(())
}

/// Whether the interval at A holds the potential there, which is -31.25 volts, in grains.
fn holds_at_a(potentials: &Potentials) -> bool
    requires { length potentials.now ≡ 4 }
{
    let at_a = potentials.get(NodeId(0));
    let exact = -31_250_000_000 * (1 << 36);
    at_a.lo <= exact && exact <= at_a.hi
}

/// 100 volts in the line, and guesses of 0: its 100 amperes enter the bus b, and none flows at A. Whatever the guesses are,
/// the interval at A holds the potential there.
#[test]
fn residual_and_enclosure_at_zero(rt: HostRuntime) -> Result<(), Fail> {
    let elements = worked_loop(rt.alloc())?;
    let net = Net::build(rt.alloc(), &elements)?;
    let mut volts = Volts::new(rt.alloc(), &elements)?;
    volts.set(ElementId(2), 100_000_000_000);
    let solver = Solver::new(rt.alloc(), 4, net.count())?;
    let at_a = residual(&net, volts.as_wide(), &solver, NodeId(0));
    assert_eq!(rt; (at_a.lo, at_a.hi), (0, 0));
    let entering = -100_000_000_000 * (1 << 44);
    let at_b = residual(&net, volts.as_wide(), &solver, NodeId(3));
    assert_eq!(rt; (at_b.lo, at_b.hi), (entering, entering));
    let mut vector = BoundVector::new(rt.alloc(), 4)?;
    bound(&net, &mut vector)?;
    let mut potentials = Potentials::new(rt.alloc(), 4)?;
    enclose(&net, &volts, &solver, &vector, &mut potentials);
    assert!(rt; holds_at_a(&potentials));
    Ok(())
}
