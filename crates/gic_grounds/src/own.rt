//! The effective currents of transformers in a reference.
ghost use Rattle.std.specs.Prelude.{ℕ, ◌≡◌, ◌<◌, ◌^◌, length};
ghost use Rattle.gic_enclose.specs.Ends.{potential_ends};
ghost use Rattle.gic_effective.specs.Holds.{AreOfNetwork};
ghost use Rattle.gic_model.specs.Voltages.{number_at};
ghost use Rattle.gic_net.specs.Net.{standing};
ghost use Rattle.gic_winding.specs.ElementList.{elements_of};
ghost use Rattle.gic_grounds.specs.NodeEnds.{AreAllWithin};
ghost use Rattle.gic_grounds.specs.OwnCurrent.{IsOwnCurrent};

use gic_base::OutOfMemory;
use gic_case::Case;
use gic_effective::effective_na_interval;
use gic_enclose::Potentials;
use gic_fixed::Interval;
use gic_model::{Element, Volts};
use gic_net::Net;
use std::alloc::Global;
use std::marker::Model;

/// The signed effective current of each transformer in a reference, in nanoamperes per phase.
pub struct OwnCurrents {
    list: Vec<Interval>,
}

impl Model for OwnCurrents {
    ghost use Rattle.std.specs.Prelude.{List, map};
    ghost use Rattle.gic_fixed.specs.Ends.{Ends, ends_of};

    ghost Value = { List Ends };

    ghost view = { λ own. map ends_of own.list.items };
}

impl Drop for OwnCurrents {
    /// Lets go of everything, in one step for whoever drops it.
    fn drop(self) {
        let OwnCurrents { list: _list } = self;
    }
}

impl OwnCurrents {
    ghost use Rattle.std.specs.Prelude.{◌≡◌, ◌<◌, length, replicate, slice_set, IfOk};
    ghost use Rattle.gic_enclose.specs.Ends.{low_at, high_at};
    ghost use Rattle.gic_fixed.specs.Ends.{ends_of, zero_ends};

    /// For this many transformers; each interval is the point 0.
    pub(crate) fn new(alloc: Global, count: u16) -> Result<OwnCurrents, OutOfMemory>
        ensures { IfOk result (λ own. own ≡ replicate count zero_ends) }
    {
        let list = vec![in alloc; Interval::point(0); count as usize]?;
        Ok(OwnCurrents { list })
    }

    /// The current of a transformer.
    pub(crate) fn get(&self, transformer: u16) -> Interval
        requires { transformer < length self.now }
        ensures low { result.lo ≡ low_at self.now transformer }
        ensures high { result.hi ≡ high_at self.now transformer }
    {
        self.list[transformer as usize]
    }

    /// Changes the current of this transformer alone.
    fn set(&mut self, transformer: u16, interval: Interval)
        requires { transformer < length self.old }
        ensures { self.new ≡ slice_set self.old transformer (ends_of interval) }
    {
        self.list[transformer as usize] = interval;
    }
}

/// Puts the current of each transformer of a case in the solutions whose potentials these intervals hold.
pub(crate) fn fill_own(
    case: &Case,
    elements: &[Element],
    net: &Net,
    volts: &Volts,
    potentials: &Potentials,
    out: &mut OwnCurrents,
)
    requires elements { elements.now ≡ (elements_of case.now).list }
    requires count { length net.now.network.list ≡ length elements.now }
    requires together { AreOfNetwork net.now.network volts.now potentials.now }
    requires space { length out.old ≡ length case.now.transformers }
    ensures each { (t : ℕ) → t < length out.new →
        IsOwnCurrent case.now (standing net.now) (number_at volts.now) potentials.now t (potential_ends out.new t) }
    ensures within { AreAllWithin (2 ^ 80) out.new }
    ensures same_count { length out.new ≡ length out.old }
{
    let count = case.transformers().len() as u16;
    for transformer in 0..count {
        let interval = effective_na_interval(case, elements, net, volts, potentials, transformer);
        out.set(transformer, interval);
    }
}
