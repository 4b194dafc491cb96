//! Windings, from one terminal of a transformer to another or to the neutral.

/// A terminal of a transformer: the place of its bus in the case's list, from 0, and the rated voltage of its side in V,
/// from 1000 to 2000000.
#[derive(Clone, Copy, Debug)]
pub struct Terminal {
    pub bus: u16,
    pub volts: u32,
}

/// Where a winding runs to.
#[derive(Clone, Copy, Debug)]
pub enum WindingEnd {
    /// Another terminal of its transformer.
    Bus(Terminal),
    /// The neutral of its transformer.
    Neutral,
}

/// What a winding is in its transformer.
#[derive(Clone, Copy, Debug)]
pub enum WindingRole {
    /// From the high terminal to the neutral.
    High,
    /// From the low terminal to the neutral.
    Low,
    /// From the high terminal of an autotransformer to its low one.
    Series,
    /// From the low terminal of an autotransformer to the neutral.
    Common,
    /// From the third terminal to the neutral.
    Third,
}

/// A winding that carries direct current, with its resistance in micro-ohm per phase, from 1000 to 1000000000.
#[derive(Clone, Copy, Debug)]
pub struct Winding {
    pub role: WindingRole,
    pub from: Terminal,
    pub to: WindingEnd,
    pub resistance: u32,
}
