//! All that is found in a case.
ghost use Rattle.std.specs.Prelude.{◌≡◌, IfOk};
ghost use Rattle.gic_winding.specs.ElementList.{elements_of};
ghost use Rattle.gic_review.specs.Findings.{findings_with, AreFindingsOf};
ghost use Rattle.gic_review.specs.PartSizes.{sizes_of};

use crate::findings::alpha::push_low_alphas;
use crate::findings::closing::push_closures;
use crate::findings::finding::Finding;
use crate::findings::outside::push_outside;
use crate::findings::parts::push_parts;
use crate::findings::reading::push_values;
use crate::findings::sides::push_levels;
use crate::findings::ungrounded::push_ungrounded;
use gic_base::OutOfMemory;
use gic_case::Case;
use gic_winding::elements;
use std::alloc::Global;

/// What is found in a case, in the order of the rules: substations without a ground, parts, loops that don't close, unusual
/// values, zones where the alpha of the table is low, voltages that don't fit, transformers outside.
pub fn findings(alloc: Global, case: &Case) -> Result<Vec<Finding>, OutOfMemory>
    ensures { IfOk result (λ v. AreFindingsOf case.now v.items) }
{
    let elements = elements(alloc, case)?;
    let mut findings = Vec::new(alloc);
    push_ungrounded(alloc, &mut findings, case, &elements)?;
    push_parts(alloc, &mut findings, case, &elements)?;
    push_closures(alloc, &mut findings, case)?;
    push_values(&mut findings, case)?;
    push_low_alphas(&mut findings, case.zones())?;
    push_levels(alloc, &mut findings, case)?;
    push_outside(&mut findings, case.transformers())?;
    Ok(findings)
}
