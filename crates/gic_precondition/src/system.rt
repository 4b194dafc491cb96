//! A network's equations and their factors.
use crate::eliminating::eliminate_all;
use crate::elimination::Elimination;
use crate::parts::{Entry, Step, Wire};
use crate::wires::Wires;
use gic_base::OutOfMemory;
use gic_net::Net;
use std::alloc::Global;
use std::marker::Model;

/// The wires of a network, and the factors of its equations. It is seen as the number of nodes.
pub struct System {
    wires: Wires,
    elimination: Elimination,
    /// The workspace for the nodes that are left.
    list: Vec<u16>,
    /// Whether the factors are those of the wires.
    is_factored: bool,
}

impl Model for System {
    ghost use Rattle.std.specs.Prelude.{ℕ, ◌≡◌, length};
    ghost use Rattle.gic_precondition.specs.Inside.{AreNodes};

    ghost Value = { ℕ };

    ghost view = { λ s. s.wires };

    ghost invariant = { λ s. (s.elimination ≡ s.wires) × (length s.list.items ≡ s.wires) × AreNodes s.wires s.list.items };
}

impl Drop for System {
    /// Lets go of everything, in one step for whoever drops it.
    fn drop(self) {
        let System {
            wires: _wires,
            elimination: _elimination,
            list: _list,
            is_factored: _is_factored,
        } = self;
    }
}

ghost use Rattle.std.specs.Prelude.{◌≡◌, ◌<◌, ◌≤◌, IfOk, length};
ghost use Rattle.gic_precondition.specs.Inside.{AreNodes, AreWiresInside, AreStepsInside, AreEntriesInside};

impl System {
    /// For a network of this many nodes and elements.
    pub(crate) fn new(alloc: Global, nodes: u16, elements: u16) -> Result<System, OutOfMemory>
        ensures { IfOk result (λ system. system ≡ nodes) }
    {
        let wires = Wires::new(alloc, nodes, elements)?;
        let elimination = Elimination::new(alloc, nodes, elements)?;
        let list = empty_list(alloc, nodes)?;
        Ok(System {
            wires,
            elimination,
            list,
            is_factored: false,
        })
    }

    /// Takes the standing elements of a net. Factors are kept while these stay the same.
    pub(crate) fn take(&mut self, net: &Net)
        requires { self.old ≡ net.now.network.nodes }
        ensures { self.new ≡ self.old }
    {
        net.within_limits();
        if self.wires.take(net) || !self.is_factored {
            put_nodes(self.list.as_mut_slice());
            eliminate_all(
                &mut self.elimination,
                self.wires.as_slice(),
                self.list.as_mut_slice(),
            );
            self.is_factored = true;
        }
    }

    pub(crate) fn wires(&self) -> &[Wire]
        ensures { AreWiresInside self.now result.now }
    {
        self.wires.as_slice()
    }

    pub(crate) fn steps(&self) -> &[Step]
        ensures { AreStepsInside self.now result.now }
    {
        self.elimination.factors().steps()
    }

    pub(crate) fn entries(&self) -> &[Entry]
        ensures { AreEntriesInside self.now result.now }
    {
        self.elimination.factors().entries()
    }
}

/// Lists all nodes, of which there are as many as places.
fn put_nodes(list: &mut [u16])
    requires few { length list.old ≤ 65535 }
    requires nodes { AreNodes (length list.old) list.old }
    ensures { AreNodes (length list.new) list.new }
{
    for place in 0..list.len() {
        list[place] = place as u16;
    }
}

fn empty_list(alloc: Global, nodes: u16) -> Result<Vec<u16>, OutOfMemory>
    ensures count { IfOk result (λ list. length list.items ≡ nodes) }
    ensures nodes { IfOk result (λ list. AreNodes nodes list.items) }
{
    let list = vec![in alloc; 0; nodes as usize]?;
    Ok(list)
}
