//! Cases.
ghost use Rattle.std.specs.Prelude.{◌≡◌};

use crate::item::{Bus, Line, Substation, Transformer};
use crate::network::CaseLists;
use crate::zone::Zone;
use std::marker::Model;

/// The zones, substations, buses, lines and transformers of a network, which keep all rules.
#[derive(Drop)]
pub struct Case {
    network: CaseLists,
}

impl Model for Case {
    ghost use Rattle.gic_case.specs.Lists.{Lists};
    ghost use Rattle.gic_case.specs.Sound.{IsSound};

    ghost Value = { Lists };

    ghost view = { λ c. c.network };

    ghost invariant = { λ c. IsSound c.network };
}

impl Case {
    ghost use Rattle.gic_case.specs.Sound.{IsSound, lists_with};

    /// The lists.
    pub(crate) fn network(&self) -> &CaseLists
        ensures value { result.now ≡ self.now }
        ensures sound { IsSound self.now }
    {
        &self.network
    }

    /// The case keeps all rules. The call computes nothing: it brings this fact to where it stands.
    pub fn keeps_rules(&self)
        ensures { IsSound self.now }
    {
        let _ = &self.network;
    }

    /// The zones.
    pub fn zones(&self) -> &[Zone]
        ensures value { result.now ≡ self.now.zones }
        ensures sound { IsSound self.now }
    {
        self.network.zones.as_slice()
    }

    /// The substations, in node order.
    pub fn substations(&self) -> &[Substation]
        ensures value { result.now ≡ self.now.substations }
        ensures sound { IsSound self.now }
    {
        self.network.substations.as_slice()
    }

    /// The buses, in node order, after the substations.
    pub fn buses(&self) -> &[Bus]
        ensures value { result.now ≡ self.now.buses }
        ensures sound { IsSound self.now }
    {
        self.network.buses.as_slice()
    }

    /// The lines.
    pub fn lines(&self) -> &[Line]
        ensures value { result.now ≡ self.now.lines }
        ensures sound { IsSound self.now }
    {
        self.network.lines.as_slice()
    }

    /// The transformers. Those with a neutral device have the nodes after the buses, in this order.
    pub fn transformers(&self) -> &[Transformer]
        ensures value { result.now ≡ self.now.transformers }
        ensures sound { IsSound self.now }
    {
        self.network.transformers.as_slice()
    }

    /// The case of these lists, which keep all rules.
    pub fn of(network: CaseLists) -> Case
        requires { IsSound network }
        ensures { result ≡ network }
    {
        Case { network }
    }

    /// The case of these lists, in which places stand for names and which keep all rules: limits and ranges, places
    /// within the lists, no name twice, two buses for each line, a bus of its own for each side of a transformer, all of
    /// them in one substation, no low or third voltage above the high one, no neutral device at a delta-delta unit, and
    /// at most 256 elements at each node.
    pub fn from_parts(
        zones: Vec<Zone>,
        substations: Vec<Substation>,
        buses: Vec<Bus>,
        lines: Vec<Line>,
        transformers: Vec<Transformer>,
    ) -> Case
        requires { IsSound (lists_with zones.items substations.items buses.items lines.items transformers.items) }
        ensures { result ≡ lists_with zones.items substations.items buses.items lines.items transformers.items }
    {
        Case {
            network: CaseLists {
                zones,
                substations,
                buses,
                lines,
                transformers,
            },
        }
    }
}
