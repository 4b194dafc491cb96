//! The standing elements of a network.
use crate::parts::Wire;
use crate::wiring::put_wires;
use gic_base::OutOfMemory;
use gic_base::limits::MOST_AT_A_NODE;
use gic_model::End;
use gic_net::Net;
use std::alloc::Global;
use std::marker::Model;

/// The standing elements of a network. It is seen as the number of nodes.
#[derive(Drop)]
pub struct Wires {
    wires: Vec<Wire>,
    count: usize,
    nodes: u16,
}

impl Model for Wires {
    ghost use Rattle.std.specs.Prelude.{ℕ, ◌≤◌, length};
    ghost use Rattle.gic_precondition.specs.Inside.{AreWiresInside};

    ghost Value = { ℕ };

    ghost view = { λ w. w.nodes };

    ghost invariant = { λ w. AreWiresInside w.nodes w.wires.items × (w.count ≤ length w.wires.items) };
}

ghost use Rattle.std.specs.Prelude.{◌≡◌, ◌<◌, ◌≤◌, IfOk, length};
ghost use Rattle.gic_precondition.specs.Inside.{AreWiresInside};

impl Wires {
    /// For a network of this many nodes and elements.
    pub(crate) fn new(alloc: Global, nodes: u16, elements: u16) -> Result<Wires, OutOfMemory>
        ensures { IfOk result (λ wires. wires ≡ nodes) }
    {
        let wires = empty_wires(alloc, nodes, elements)?;
        Ok(Wires {
            wires,
            count: 0,
            nodes,
        })
    }

    /// Takes the standing elements of a net, and says whether they are others than those before.
    pub(crate) fn take(&mut self, net: &Net) -> bool
        requires { self.old ≡ net.now.network.nodes }
        ensures { self.new ≡ self.old }
    {
        let before = self.count;
        let listing = put_wires(net, self.wires.as_mut_slice());
        self.count = listing.count;
        listing.is_new || listing.count != before
    }

    pub(crate) fn as_slice(&self) -> &[Wire]
        ensures { AreWiresInside self.now result.now }
    {
        &self.wires.as_slice()[..self.count]
    }
}

fn empty_wires(alloc: Global, nodes: u16, elements: u16) -> Result<Vec<Wire>, OutOfMemory>
    ensures { IfOk result (λ wires. AreWiresInside nodes wires.items) }
{
    let wire = Wire {
        siemens: 0,
        from: 0,
        to: End::Earth,
    };
    let most = MOST_AT_A_NODE * nodes as usize;
    let wires = vec![in alloc; wire; (elements as usize).min(most)]?;
    Ok(wires)
}
