//! How a report calls what findings speak of.
ghost use Rattle.std.specs.Prelude.{◌≡◌, ◌≤◌, length};
ghost use Rattle.gic_review.specs.FindingText.{field_word, side_word};

use crate::findings::{Quantity, Side};

/// The word of what is measured of a row.
pub(crate) fn field_word(measured: Quantity) -> &'static str
    ensures word { result.now ≡ field_word measured }
    ensures size { length result.now ≤ 17 }
{
    match measured {
        Quantity::Latitude => "latitude",
        Quantity::Beta => "beta",
        Quantity::Ground => "ground",
        Quantity::Resistance => "resistance",
        Quantity::Span => "span",
        Quantity::PerKilometre => "perkm",
        Quantity::HighVolts => "high_volts",
        Quantity::HighResistance => "high_resistance",
        Quantity::LowResistance => "low_resistance",
        Quantity::SeriesResistance => "series_resistance",
        Quantity::CommonResistance => "common_resistance",
        Quantity::ThirdResistance => "third_resistance",
        Quantity::Neutral => "neutral",
    }
}

/// The word of the rated voltage of a side.
pub(crate) fn side_word(side: Side) -> &'static str
    ensures word { result.now ≡ side_word side }
    ensures size { length result.now ≤ 17 }
{
    match side {
        Side::High => "high_volts",
        Side::Low => "low_volts",
        Side::Third => "third_volts",
    }
}
