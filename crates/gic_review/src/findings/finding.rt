//! Findings, in the words of a case.
use crate::findings::measured::Quantity;
use gic_base::Name;
use gic_case::CaseList;

/// A side of a transformer that has a bus.
#[derive(Clone, Copy, PartialEq, Eq, Debug)]
pub enum Side {
    High,
    Low,
    Third,
}

/// What is found in a case.
#[derive(Clone, Copy, Debug)]
pub enum Finding {
    /// A winding or a neutral resistor ends at the node of this substation, which has no ground.
    Ungrounded {
        name: Name,
    },
    /// The network has this part among others: how many nodes it has, and the first of them.
    Part {
        nodes: u16,
        first: Name,
    },
    /// The loop that this line closes has this gap, in metres.
    Closure {
        name: Name,
        north: i64,
        east: i64,
    },
    /// This value of a row is outside the range that is usual.
    Value {
        list: CaseList,
        name: Name,
        measured: Quantity,
        number: u64,
    },
    /// At the latitude of this zone, in hundredths of a degree, the alpha of the table is below 0.001 e^(0.115 L), L in degrees.
    Alpha {
        name: Name,
        latitude: u16,
    },
    /// The rated voltage of this side doesn't fit that of the first side at its bus, both in V.
    Volts {
        name: Name,
        side: Side,
        volts: u32,
        measure: u32,
    },
    /// A delta-delta unit above 200 kV: it gives no element and carries 0, and its verdict is `outside`.
    Outside {
        name: Name,
    },
}
