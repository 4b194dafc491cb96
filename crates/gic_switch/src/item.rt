//! The item that a row switches.
ghost use Rattle.std.specs.Prelude.{◌≡◌, IfSome};
ghost use Rattle.std.specs.HashMap.{get};
ghost use Rattle.gic_case.specs.Names.{same};
ghost use Rattle.gic_switch.specs.Items.{named, has_ground, has_resistor, is_resistor, plain_item, neutral_item, switched_item, item_in};
ghost use Rattle.gic_switch.specs.ItemsOf.{FindsNamed, IsItemOf};

use crate::action::Action;
use gic_base::Name;
use gic_case::{Case, Neutral};
use gic_model::Item;
use std::collections::HashMap;

/// Whether the substation at a place has a ground.
fn has_ground(case: &Case, place: u16) -> bool
    ensures { result ≡ has_ground case.now place }
{
    match case.substations().get(place as usize) {
        Some(substation) => substation.ground.is_some(),
        None => false,
    }
}

/// Whether a neutral device is a resistor.
fn is_resistor(device: Option<Neutral>) -> bool
    ensures { result ≡ is_resistor device }
{
    match device {
        Some(Neutral::Resistor(_)) => true,
        Some(Neutral::Blocked) | None => false,
    }
}

/// Whether the transformer at a place has a neutral resistor.
fn has_resistor(case: &Case, place: u16) -> bool
    ensures { result ≡ has_resistor case.now place }
{
    match case.transformers().get(place as usize) {
        Some(transformer) => is_resistor(transformer.neutral),
        None => false,
    }
}

/// What is opened and closed where this is named: a line, the windings of a transformer, or a ground that is there.
fn plain_item(case: &Case, item: Item) -> Option<Item>
    ensures { result ≡ plain_item case.now item }
{
    match item {
        Item::Line(place) => Some(Item::Line(place)),
        Item::Transformer(place) => Some(Item::Transformer(place)),
        Item::Ground(place) => {
            if has_ground(case, place) {
                Some(Item::Ground(place))
            } else {
                None
            }
        }
        Item::Neutral(_) => None,
    }
}

/// What is blocked and unblocked where this is named: the resistor in a transformer's neutral.
fn neutral_item(case: &Case, item: Item) -> Option<Item>
    ensures { result ≡ neutral_item case.now item }
{
    match item {
        Item::Transformer(place) => {
            if has_resistor(case, place) {
                Some(Item::Neutral(place))
            } else {
                None
            }
        }
        Item::Line(_) | Item::Ground(_) | Item::Neutral(_) => None,
    }
}

/// The item that an action switches where its row names this one.
fn switched_item(case: &Case, action: Action, item: Item) -> Option<Item>
    ensures { result ≡ switched_item case.now action item }
{
    match action {
        Action::Open | Action::Close => plain_item(case, item),
        Action::Block | Action::Unblock => neutral_item(case, item),
    }
}

/// What a text names, of what can be switched.
fn named(case: &Case, items: &HashMap<Name, Item>, text: &[u8]) -> Option<Item>
    requires { FindsNamed case.now (get same items.now) }
    ensures { result ≡ named case.now text.now }
{
    case.keeps_rules();
    let name = Name::read(text)?;
    items.get(&name).copied()
}

/// The item that an action switches by this name.
#[tactic(auto, unfolding(crate::specs::Items::item_in))]
pub(crate) fn item_in(
    case: &Case,
    items: &HashMap<Name, Item>,
    action: Action,
    text: &[u8],
) -> Option<Item>
    requires { FindsNamed case.now (get same items.now) }
    ensures value { result ≡ item_in case.now action text.now }
    ensures within { IfSome result (IsItemOf case.now) }
{
    let item = named(case, items, text)?;
    switched_item(case, action, item)
}
