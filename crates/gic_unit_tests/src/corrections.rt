//! Rough corrections of guesses, of which no clause promises more than how many there are.
ghost use Rattle.std.specs.Prelude.{◌≡◌, ◌<◌, length};

use crate::worked::worked_loop;
use gic_base::{ElementId, NodeId};
use gic_model::{Item, WideVolts};
use gic_net::Net;
use gic_sweep::{Improvement, Solver, Steps, improve};
use std::marker::Brand;
use std::sync::ledger::{Blank, Ledger};
use std::test::Fail;

fn improved<L: Ledger>(
    net: &Net,
    volts: &WideVolts,
    solver: &mut Solver,
    blank: Blank,
) -> Improvement
    requires name { blank.name ≡ L.name }
    requires parts { blank.parts ≡ L.parts }
    requires some { 0 < blank.parts }
    requires volts { length volts.now ≡ length net.now.network.list }
    requires nodes { length solver.old ≡ net.now.network.nodes }
    ensures { length solver.new ≡ length solver.old }
{
    let mut steps: Steps<L> = Steps::new(blank);
    improve(net, volts, solver, &mut steps)
}

/// How far rough corrections leave the guess at the bus b from this many nanovolts, in grains; or none, where none was
/// made.
fn missed_at_the_bus(
    net: &Net,
    volts: &WideVolts,
    solver: &mut Solver,
    nanovolts: i64,
) -> Option<i128>
    requires volts { length volts.now ≡ length net.now.network.list }
    requires nodes { length solver.old ≡ net.now.network.nodes }
    requires bus { 3 < length solver.old }
    ensures { length solver.new ≡ length solver.old }
{
    if improved::<Brand>(net, volts, solver, Blank::new(1)).rounds == 0 {
        return None;
    }
    Some(solver.guess(NodeId(3)) - nanovolts as i128 * (1 << 36))
}

/// Whether rough corrections were made and left a guess within a 4096th of a nanovolt.
fn is_near(missed: Option<i128>) -> bool {
    matches!(missed, Some(missed) if -(1 << 24) < missed && missed < 1 << 24)
}

/// The loop's 31.25 amperes lift the bus b by 34.375 volts, over the 1.1 ohm behind it. With the transformer at B open none
/// flows, and the 100 volts of the line lift it, from guesses that are far off then.
#[test]
fn corrections_follow_a_switching(rt: HostRuntime) -> Result<(), Fail> {
    let elements = worked_loop(rt.alloc())?;
    let mut net = Net::build(rt.alloc(), &elements)?;
    let mut volts = WideVolts::new(rt.alloc(), &elements)?;
    volts.set(ElementId(2), 100_000_000_000);
    let mut solver = Solver::new(rt.alloc(), 4, net.count())?;
    let closed = missed_at_the_bus(&net, &volts, &mut solver, 34_375_000_000);
    assert!(rt; is_near(closed));
    net.switch(Item::Transformer(1), true);
    let open = missed_at_the_bus(&net, &volts, &mut solver, 100_000_000_000);
    assert!(rt; is_near(open));
    Ok(())
}
