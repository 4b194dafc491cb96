//! Zones where the alpha of the table is low.
ghost use Rattle.std.specs.Prelude.{◌≡◌, ◌++◌, flat_map, OnOk};
ghost use Rattle.gic_review.specs.LowAlpha.{has_low_alpha, low_alpha_told};

use crate::findings::finding::Finding;
use gic_base::OutOfMemory;
use gic_case::{Scaling, Zone};

/// Whether the alpha of the table is below the lesser of 1 and 0.001 e^(0.115 L) at this latitude, in hundredths of a
/// degree, with L in degrees.
fn has_low_alpha(latitude: u16) -> bool
    ensures { result ≡ has_low_alpha latitude }
{
    matches!(latitude, 4960..=5000 | 5563..=5600 | 5697..=5700)
}

/// Adds a zone that is given by such a latitude.
fn push_low_alpha(findings: &mut Vec<Finding>, zone: &Zone) -> Result<(), OutOfMemory>
    ensures { OnOk result (findings.new.items ≡ findings.old.items ++ low_alpha_told zone.now) }
{
    match zone.scaling {
        Scaling::Earth { latitude, .. } => {
            if has_low_alpha(latitude) {
                let name = zone.name;
                findings.push(Finding::Alpha { name, latitude })?;
            }
            Ok(())
        }
        Scaling::Factor(_) => Ok(()),
    }
}

/// Adds the zones that are given by such a latitude.
pub(crate) fn push_low_alphas(
    findings: &mut Vec<Finding>,
    zones: &[Zone],
) -> Result<(), OutOfMemory>
    ensures { OnOk result (findings.new.items ≡ findings.old.items ++ flat_map low_alpha_told zones.now) }
{
    for zone in zones {
        push_low_alpha(findings, zone)?;
    }
    Ok(())
}
