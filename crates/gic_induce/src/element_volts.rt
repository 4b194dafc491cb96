//! The voltages of the elements of a case.
ghost use Rattle.std.specs.Prelude.{◌≡◌, ◌≤◌, ◌<◌, length, All, unsigned_abs};
ghost use Rattle.gic_base.specs.declared.limits.TheConstants.{MOST_ELEMENTS};
ghost use Rattle.gic_model.specs.Voltages.{number_at};
ghost use Rattle.gic_model.specs.Limits.{most_volts};
ghost use Rattle.gic_induce.specs.LineVolts.{all_line_volts, volts_of_item, volts_of, IsLineWithin};

use crate::fields::Fields;
use crate::voltage::line_volts;
use gic_base::ElementId;
use gic_case::Case;
use gic_model::{Element, Item, Volts};

/// The voltage of the line at a place of the case, in the fields of its zones.
fn volts_of_line(case: &Case, fields: &Fields, place: u16) -> i64
    requires place { place < length case.now.lines }
    requires zones { length fields.now ≡ length case.now.zones }
    ensures value { result ≡ number_at (all_line_volts case.now fields.now) place }
    ensures limit { unsigned_abs result ≤ most_volts }
{
    let line = &case.lines()[place as usize];
    line_volts(case.zones(), fields, line)
}

/// The voltage of an element of this item.
fn volts_of_item(case: &Case, fields: &Fields, item: Item) -> i64
    requires line { IsLineWithin case.now item }
    requires zones { length fields.now ≡ length case.now.zones }
    ensures value { result ≡ volts_of_item case.now fields.now item }
    ensures limit { unsigned_abs result ≤ most_volts }
{
    match item {
        Item::Line(place) => volts_of_line(case, fields, place),
        Item::Ground(_) | Item::Transformer(_) | Item::Neutral(_) => 0,
    }
}

/// Leaves in `out` the voltage of each element in nanovolts, each within ±6·10^13: for a line's element the voltage
/// that the fields of the line's zones induce in it, and 0 for every other. The elements are those of the case, `fields`
/// has its zones, and `out` has one number for each element.
pub fn fill_volts(case: &Case, elements: &[Element], fields: &Fields, out: &mut Volts)
    requires lines { All (λ e. IsLineWithin case.now e.item) elements.now }
    requires few { length elements.now ≤ MOST_ELEMENTS }
    requires zones { length fields.now ≡ length case.now.zones }
    requires count { length out.old ≡ length elements.now }
    ensures { out.new ≡ volts_of case.now fields.now elements.now }
{
    for (place, element) in elements.iter().enumerate() {
        let nanovolts = volts_of_item(case, fields, element.item);
        out.set(ElementId(place as u16), nanovolts);
    }
}
