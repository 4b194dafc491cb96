//! What the text of the mode tells.
ghost use Rattle.gic_series.specs.Determines.{TextDeterminesSeries};

/// Texts on one case that are equal show the same width, the same transformer, and the same number, time and interval of
/// each step.
pub fn text_determines_series_law()
    ensures { TextDeterminesSeries }
{}
