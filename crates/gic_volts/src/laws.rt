//! What the text of the mode tells.
ghost use Rattle.gic_volts.specs.Determines.{TextDeterminesVolts};

/// Texts on one case that are equal show the same field and the same voltages.
pub fn text_determines_volts_law()
    ensures { TextDeterminesVolts }
{}
