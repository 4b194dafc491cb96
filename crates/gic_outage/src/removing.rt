//! Taking an item out of a network, and bringing it back.
ghost use Rattle.std.specs.Prelude.{◌≡◌, ◌<◌, length, true, false, IsTrue, IsFalse, IfNone, IfSome};
ghost use Rattle.gic_model.specs.Standing.{is_item};
ghost use Rattle.gic_net.specs.Switched.{has_element};
ghost use Rattle.gic_net.specs.Net.{NetView, stands, standing, element_of, switched_net};
ghost use Rattle.gic_outage.specs.Removing.{is_idle, others};
ghost use Rattle.gic_outage.specs.NetWithout.{net_without};

use gic_base::ElementId;
use gic_model::Item;
use gic_net::Net;
use std::marker::Model;

/// An item that was taken out of a network. It can neither be copied nor dropped: [`restore`] alone ends it.
pub struct Removed {
    item: Item,
}

impl Model for Removed {
    ghost use Rattle.gic_model.specs.declared.parts.Item.{Item};

    ghost Value = { Item };

    ghost view = { λ removed. removed.item };
}

/// Whether the two items are one.
fn is_item(one: Item, other: Item) -> bool
    ensures { result ≡ is_item one other }
{
    one == other
}

/// The first element of an item.
fn first_element(net: &Net, item: Item) -> Option<ElementId>
    ensures none { IfNone result (IsFalse (has_element net.now.network item)) }
    ensures within { IfSome result (λ element. element.0 < length net.now.network.list) }
    ensures some { IfSome result (λ element. IsTrue (is_item (element_of net.now.network element.0).item item)) }
{
    for place in 0..net.count() {
        let element = ElementId(place);
        if is_item(net.element(element).item, item) {
            return Some(element);
        }
    }
    None
}

/// Whether no element of the item stands. Takes no memory.
pub(crate) fn idle(net: &Net, item: Item) -> bool
    ensures { result ≡ is_idle (standing net.now) item }
{
    match first_element(net, item) {
        Some(element) => !net.stands(element),
        None => true,
    }
}

/// Opens an item that isn't idle. All else is as before, and the other elements stand as they did. Takes no memory.
pub(crate) fn take_out(net: &mut Net, item: Item) -> Removed
    requires { IsFalse (is_idle (standing net.old) item) }
    ensures removed { result ≡ item }
    ensures opened { IsFalse (stands net.new item) }
    ensures net { net.new ≡ net_without net.old item }
    ensures standing { standing net.new ≡ others item (standing net.old) }
{
    net.switch(item, true);
    Removed { item }
}

/// Closes an item that was taken out and is open. All else is as before; where nothing else changed meanwhile, the net is
/// the one from which it was taken. Takes no memory.
pub(crate) fn restore(net: &mut Net, removed: Removed)
    requires { IsFalse (stands net.old removed) }
    ensures net { net.new ≡ switched_net net.old removed false }
    ensures undone { (before : NetView) → IsFalse (is_idle (standing before) removed) →
        net.old ≡ net_without before removed → net.new ≡ before }
{
    let Removed { item } = removed;
    net.switch(item, false);
}
