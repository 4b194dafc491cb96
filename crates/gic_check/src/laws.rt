//! What the text of the mode tells.
ghost use Rattle.gic_check.specs.Determines.{TextDeterminesLive};

/// Texts on one case that are equal tell the same nodes live.
pub fn text_determines_live_law()
    ensures { TextDeterminesLive }
{}
