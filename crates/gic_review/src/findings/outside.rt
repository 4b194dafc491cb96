//! Delta-delta units at voltages that are assessed.
ghost use Rattle.std.specs.Prelude.{◌≡◌, ◌++◌, flat_map, OnOk};
ghost use Rattle.gic_review.specs.Outside.{is_outside, outside_told};

use crate::findings::finding::Finding;
use gic_base::OutOfMemory;
use gic_case::Transformer;

/// The highest rated voltage in V at which no transformer is assessed.
pub(crate) const MOST_NOT_ASSESSED: u32 = 200000;

/// Whether a transformer is a unit without windings in the network, as a delta-delta one, above 200 kV.
fn is_outside(transformer: &Transformer) -> bool
    ensures { result ≡ is_outside transformer.now }
{
    !transformer.has_windings() && transformer.high_volts > MOST_NOT_ASSESSED
}

/// Adds the delta-delta units above 200 kV.
pub(crate) fn push_outside(
    findings: &mut Vec<Finding>,
    transformers: &[Transformer],
) -> Result<(), OutOfMemory>
    ensures { OnOk result (findings.new.items ≡ findings.old.items ++ flat_map outside_told transformers.now) }
{
    for transformer in transformers {
        if is_outside(transformer) {
            let name = transformer.name;
            findings.push(Finding::Outside { name })?;
        }
    }
    Ok(())
}
