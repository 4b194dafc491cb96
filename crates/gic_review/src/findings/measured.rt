//! The values of rows that have a usual range.
/// What is measured of a row: a field of a case, or what is computed of some.
#[derive(Clone, Copy, PartialEq, Eq, Debug)]
pub enum Quantity {
    /// In hundredths of a degree.
    Latitude,
    /// In hundredths.
    Beta,
    /// Of an earthing, in micro-ohm.
    Ground,
    /// Of a line, in micro-ohm.
    Resistance,
    /// How long a line is: its spans to the north and to the east together, in metres.
    Span,
    /// The resistance of a line for a kilometre of its span, in micro-ohm.
    PerKilometre,
    /// In V.
    HighVolts,
    /// Of windings, in micro-ohm.
    HighResistance,
    LowResistance,
    SeriesResistance,
    CommonResistance,
    ThirdResistance,
    /// Of a resistor in a neutral, in micro-ohm.
    Neutral,
}

impl Quantity {
    ghost use Rattle.std.specs.Prelude.{◌≡◌};
    ghost use Rattle.gic_review.specs.Usual.{is_unusual};

    /// Whether a number is hardly ever seen there.
    pub(crate) fn is_unusual(self, number: u64) -> bool
        ensures { result ≡ is_unusual self number }
    {
        match self {
            Quantity::Latitude => number < 2000 || number > 7500,
            Quantity::Beta => number < 10,
            Quantity::Ground => number < 10000 || number > 10000000,
            Quantity::Resistance => number < 50000 || number > 50000000,
            Quantity::Span => number < 100,
            Quantity::PerKilometre => number < 2000 || number > 1000000,
            Quantity::HighVolts => number < 10000,
            Quantity::HighResistance
            | Quantity::LowResistance
            | Quantity::SeriesResistance
            | Quantity::CommonResistance
            | Quantity::ThirdResistance => number < 10000 || number > 5000000,
            Quantity::Neutral => number > 100000000,
        }
    }
}
