//! What the lines of reports tell.
ghost use Rattle.gic_report.specs.Places.{LinesShowPlaces};
ghost use Rattle.gic_report.specs.VerdictText.{ShowsVerdicts};

/// The lines of the transformers, in their order, show the verdict on each.
pub fn transformer_lines_law()
    ensures { ShowsVerdicts }
{}

/// The line of each node, element and transformer has its item's name, what it is, and the interval that the view has at
/// its place.
pub fn item_lines_law()
    ensures { LinesShowPlaces }
{}
