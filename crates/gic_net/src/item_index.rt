//! Where the elements of an item are.
ghost use Rattle.std.specs.Prelude.{◌≡◌, ℕ, ◌≤◌, ◌<◌, ◌==◌, length, replicate, IfOk, IsTrue};
ghost use Rattle.std.specs.List.{list_any};
ghost use Rattle.gic_model.specs.Standing.{item_number};
ghost use Rattle.gic_net.specs.Row.{item_number_at};
ghost use Rattle.gic_net.specs.ItemIndex.{IsItemIndex};

use crate::row::number_of;
use gic_base::OutOfMemory;
use gic_base::limits::MOST_ELEMENTS;
use gic_model::Element;
use std::alloc::Global;

/// For each number of an item the place of its first element, and for each element the place of the next one of the
/// same item; the number of elements stands where there is none.
pub struct ItemIndex {
    pub first: Vec<u16>,
    pub next: Vec<u16>,
}

impl Drop for ItemIndex {
    /// Lets go of everything, in one step for whoever drops it.
    fn drop(self) {
        let ItemIndex {
            first: _first,
            next: _next,
        } = self;
    }
}

/// The index of this list.
pub fn index_items(alloc: Global, list: &[Element]) -> Result<ItemIndex, OutOfMemory>
    requires { length list.now ≤ MOST_ELEMENTS }
    ensures { IfOk result (λ index. IsItemIndex list.now index.first.items index.next.items) }
{
    let count = list.len();
    let mut first = filled(alloc, count as u16, numbers_below(list))?;
    let mut next = filled(alloc, 0, count)?;
    for place in (0..count).rev() {
        let number = number_of(list[place].item) as usize;
        next[place] = first[number];
        first[number] = place as u16;
    }
    Ok(ItemIndex { first, next })
}

/// Whether an element is of the item with this number.
pub fn has_element(list: &[Element], index: &ItemIndex, number: usize) -> bool
    requires { IsItemIndex list.now index.now.first.items index.now.next.items }
    ensures value { result ≡ list_any (λ e. item_number e.item == number) list.now }
    ensures inside { IsTrue result → number < length index.now.first.items }
{
    number < index.first.len() && (index.first[number] as usize) < list.len()
}

/// A number above the numbers of the items of all elements.
fn numbers_below(list: &[Element]) -> usize
    ensures { (place : ℕ) → place < length list.now → item_number_at list.now place < result }
{
    let mut above = 0;
    for element in list {
        let number = number_of(element.item) as usize;
        if number >= above {
            above = number + 1;
        }
    }
    above
}

fn filled(alloc: Global, value: u16, count: usize) -> Result<Vec<u16>, OutOfMemory>
    ensures { IfOk result (λ list. list.items ≡ replicate count value) }
{
    let list = vec![in alloc; value; count]?;
    Ok(list)
}
