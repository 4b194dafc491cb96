//! How a transformer's windings are joined, with buses as they are written or as places. Voltages are rated ones, in V from
//! 1000 to 2000000; resistances are in micro-ohm per phase, from 1000 to 1000000000.

/// A third winding, from its bus to the neutral.
#[derive(Clone, Copy, Debug, PartialEq, Eq)]
pub struct Third<Bus> {
    pub bus: Bus,
    pub volts: u32,
    pub resistance: u32,
}

/// How a transformer's windings are joined, as far as they carry direct current. A `Bus` tells where `high` and `low` are:
/// the name of a bus as it is written, or its place in the case's list, from 0.
#[derive(Clone, Copy, Debug, PartialEq, Eq)]
pub enum Kind<Bus> {
    /// An earthed wye on the high side and a delta on the low side: one winding, from the high bus to the neutral.
    DeltaWye {
        high: Bus,
        high_resistance: u32,
    },
    /// Earthed wyes on both sides, or on all three: a winding from each bus to the neutral.
    WyeWye {
        high: Bus,
        low: Bus,
        low_volts: u32,
        high_resistance: u32,
        low_resistance: u32,
        third: Option<Third<Bus>>,
    },
    /// An autotransformer: the series winding from the high bus to the low bus, the common one from there to the neutral,
    /// and maybe an earthed wye on a third side.
    Auto {
        high: Bus,
        low: Bus,
        low_volts: u32,
        series_resistance: u32,
        common_resistance: u32,
        third: Option<Third<Bus>>,
    },
    /// A shunt reactor or an earthing transformer: one winding, from the bus to the neutral. Its core has no effective
    /// current here.
    Reactor {
        high: Bus,
        high_resistance: u32,
    },
    /// Deltas on both sides: no winding in the network.
    DeltaDelta,
}
