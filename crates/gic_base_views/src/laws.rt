//! Theorems over the definitions, each the contract of a function that does nothing: a function whose proof rests on a
//! theorem calls it.
ghost use Rattle.gic_base_views.specs.Superposed.{SuperposedViewsAreRight, SuperposedEffectiveIsRight};

/// What certifies the view of a step: where the rows of all base fields are certified for the network that stands, and
/// each live node is earthed, the superposed intervals make a right view, and a narrow one.
pub fn superposed_views_law()
    ensures { SuperposedViewsAreRight }
{}

/// The same of one transformer, where the rest of the view isn't looked at.
pub fn superposed_effective_law()
    ensures { SuperposedEffectiveIsRight }
{}
