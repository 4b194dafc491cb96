//! The names of the items of a case.
ghost use Rattle.std.specs.Prelude.{◌≡◌};
ghost use Rattle.gic_winding.specs.ElementList.{item_name};
ghost use Rattle.gic_report.specs.Items.{HasPlace};

use gic_base::Name;
use gic_case::Case;
use gic_model::Item;

/// The name of the substation, line or transformer of an item.
pub fn item_name(case: &Case, item: Item) -> Name
    requires { HasPlace case.now item }
    ensures { result ≡ item_name case.now item }
{
    match item {
        Item::Ground(place) => {
            let substations = case.substations();
            substations[place as usize].name
        }
        Item::Line(place) => {
            let lines = case.lines();
            lines[place as usize].name
        }
        Item::Transformer(place) | Item::Neutral(place) => {
            let transformers = case.transformers();
            transformers[place as usize].name
        }
    }
}
