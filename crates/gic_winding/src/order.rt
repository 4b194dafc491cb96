//! Where the windings of a transformer are in the element list.
ghost use Rattle.std.specs.Prelude.{◌≡◌, ◌++◌, ◌≤◌, List, length, true, false};
ghost use Rattle.std.specs.List.{AllByRecursion};
ghost use Rattle.gic_model.specs.declared.parts.Element.{Element};
ghost use Rattle.gic_winding.specs.Order.{comes_before};

use gic_base::limits::MOST_ELEMENTS;
use gic_model::{Element, Item};

/// The place of the first element that does not come before the windings of a transformer, in a list in which those that
/// do come before them stand in front.
pub(crate) fn first_winding(list: &[Element], transformer: u16) -> u16
    requires { length list.now ≤ MOST_ELEMENTS }
    ensures inside { result ≤ length list.now }
    ensures parted { (prefix suffix : List Element) → list.now ≡ prefix ++ suffix →
        AllByRecursion (λ e. comes_before e.item transformer ≡ true) prefix →
        AllByRecursion (λ e. comes_before e.item transformer ≡ false) suffix → result ≡ length prefix }
{
    list.partition_point(|element| comes_before(element.item, transformer)) as u16
}

/// Whether the elements of an item come before the windings of a transformer.
fn comes_before(item: Item, transformer: u16) -> bool
    ensures { result ≡ comes_before item transformer }
{
    match item {
        Item::Ground(_) | Item::Line(_) => true,
        Item::Transformer(place) => place < transformer,
        Item::Neutral(_) => false,
    }
}
