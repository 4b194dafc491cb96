//! The fields of rows and their keys.
ghost use Rattle.std.specs.Prelude.{◌≡◌};
ghost use Rattle.gic_case_reader.specs.Keys.{key_of, is_key_of};

/// A key of a row, or of the document.
#[derive(Clone, Copy, Debug, PartialEq, Eq)]
pub enum Field {
    Format,
    Name,
    Latitude,
    Beta,
    Scale,
    Ground,
    Tolerance,
    Substation,
    From,
    To,
    Zone,
    Resistance,
    North,
    East,
    Blocked,
    Part,
    Kind,
    HighVolts,
    High,
    Low,
    LowVolts,
    HighResistance,
    LowResistance,
    SeriesResistance,
    CommonResistance,
    Third,
    ThirdVolts,
    ThirdResistance,
    Neutral,
}

impl Field {
    /// The key of the field, as a case writes it.
    pub fn key(self) -> &'static str
        ensures { result.now ≡ key_of self }
    {
        match self {
            Field::Format => "format",
            Field::Name => "name",
            Field::Latitude => "latitude",
            Field::Beta => "beta",
            Field::Scale => "scale",
            Field::Ground => "ground",
            Field::Tolerance => "tolerance",
            Field::Substation => "substation",
            Field::From => "from",
            Field::To => "to",
            Field::Zone => "zone",
            Field::Resistance => "resistance",
            Field::North => "north",
            Field::East => "east",
            Field::Blocked => "blocked",
            Field::Part => "part",
            Field::Kind => "kind",
            Field::HighVolts => "high_volts",
            Field::High => "high",
            Field::Low => "low",
            Field::LowVolts => "low_volts",
            Field::HighResistance => "high_resistance",
            Field::LowResistance => "low_resistance",
            Field::SeriesResistance => "series_resistance",
            Field::CommonResistance => "common_resistance",
            Field::Third => "third",
            Field::ThirdVolts => "third_volts",
            Field::ThirdResistance => "third_resistance",
            Field::Neutral => "neutral",
        }
    }
}

/// Whether a key is that of one of these fields.
#[tactic(auto, unfolding(crate::specs::Keys::is_key_of))]
pub(crate) fn is_among(fields: &[Field], key: &str) -> bool
    ensures { result ≡ is_key_of fields.now key.now }
{
    fields.iter().any(|at| key == at.key())
}
