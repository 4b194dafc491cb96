//! What the text of a study tells.
ghost use Rattle.gic_study_text.specs.Determines.{TextDeterminesStudy};

/// Texts on one case that are equal show the same setting, the same step in detail, the same peaks and the same texts of
/// monitors.
pub fn text_determines_study_law()
    ensures { TextDeterminesStudy }
{}
