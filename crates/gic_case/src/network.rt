//! The lists of a case, with places in place of names.

use crate::item::{Bus, Line, Substation, Transformer};
use crate::zone::Zone;
use std::marker::Model;

/// The lists of a case whose ends, voltages and degrees are still to be looked at.
pub struct CaseLists {
    pub zones: Vec<Zone>,
    pub substations: Vec<Substation>,
    pub buses: Vec<Bus>,
    pub lines: Vec<Line>,
    pub transformers: Vec<Transformer>,
}

impl Model for CaseLists {
    ghost use Rattle.std.specs.Prelude.{◌≤◌, length};
    ghost use Rattle.gic_base.specs.declared.limits.TheConstants.{MOST_SUBSTATIONS, MOST_BUSES, MOST_LINES, MOST_TRANSFORMERS};
    ghost use Rattle.gic_case.specs.Lists.{Lists};

    ghost Value = { Lists };

    ghost view = { λ n. record {
      zones = n.zones.items;
      substations = n.substations.items;
      buses = n.buses.items;
      lines = n.lines.items;
      transformers = n.transformers.items;
    } };

    ghost invariant = { λ n. (length n.substations.items ≤ MOST_SUBSTATIONS) × (length n.buses.items ≤ MOST_BUSES)
        × (length n.lines.items ≤ MOST_LINES) × (length n.transformers.items ≤ MOST_TRANSFORMERS) };
}

impl Drop for CaseLists {
    /// Lets go of everything, in one step for whoever drops it.
    fn drop(self) {
        let CaseLists {
            zones: _zones,
            substations: _substations,
            buses: _buses,
            lines: _lines,
            transformers: _transformers,
        } = self;
    }
}
