//! The rows of all nodes together.
ghost use Rattle.std.specs.Prelude.{◌≡◌, ℕ, ◌≤◌, ◌<◌, [], length, replicate, IfOk, OnOk};
ghost use Rattle.std.specs.List.{All};
ghost use Rattle.gic_model.specs.Limits.{IsElementWithin};
ghost use Rattle.gic_net.specs.Row.{full_row, AreMarked};
ghost use Rattle.gic_net.specs.ItemIndex.{IsItemIndex};
ghost use Rattle.gic_net.specs.Rows.{AreFull, AreFullRows, ArePushedAt, AreGatheredAt, AreGatheredFor, node_row_at};

use crate::item_index::ItemIndex;
use crate::row::Row;
use gic_base::OutOfMemory;
use gic_base::limits::MOST_ELEMENTS;
use gic_model::{Element, End};
use std::alloc::Global;

/// The rows of a network in which all elements stand.
pub fn full_rows(alloc: Global, nodes: u16, list: &[Element]) -> Result<Vec<Row>, OutOfMemory>
    requires few { length list.now ≤ MOST_ELEMENTS }
    requires ends { All (IsElementWithin nodes) list.now }
    ensures { IfOk result (λ rows. AreFullRows nodes list.now rows.items) }
{
    let mut rows = empty_rows(alloc, nodes)?;
    for (place, element) in list.iter().enumerate() {
        push_ends(rows.as_mut_slice(), *element, place as u16)?;
    }
    Ok(rows)
}

fn empty_rows(alloc: Global, nodes: u16) -> Result<Vec<Row>, OutOfMemory>
    ensures { IfOk result (λ rows. rows.items ≡ replicate nodes (full_row [])) }
{
    let mut rows = Vec::new(alloc);
    for _node in 0..nodes {
        rows.push(Row::new(alloc))?;
    }
    Ok(rows)
}

/// Adds the place of an element to the rows at its ends.
fn push_ends(rows: &mut [Row], element: Element, place: u16) -> Result<(), OutOfMemory>
    requires within { IsElementWithin (length rows.old) element }
    requires full { AreFull rows.old }
    ensures { OnOk result (ArePushedAt element place rows.old rows.new) }
{
    let from = &mut rows[element.from.0 as usize];
    from.push(place)?;
    if let End::Node(node) = element.to {
        let to = &mut rows[node.0 as usize];
        to.push(place)?;
    }
    Ok(())
}

/// Gathers the rows at the ends of an element anew.
fn gather_ends(rows: &mut [Row], list: &[Element], opened: &[bool], element: Element)
    requires within { IsElementWithin (length rows.old) element }
    requires marked { (k : ℕ) → k < length rows.old → AreMarked list.now opened.now (node_row_at rows.old k).all }
    ensures { AreGatheredAt list.now opened.now element rows.old rows.new }
{
    let from = &mut rows[element.from.0 as usize];
    from.gather(list, opened);
    if let End::Node(node) = element.to {
        let to = &mut rows[node.0 as usize];
        to.gather(list, opened);
    }
}

/// Gathers the rows at the ends of all elements of an item anew.
pub fn gather_item(
    rows: &mut [Row],
    list: &[Element],
    opened: &[bool],
    index: &ItemIndex,
    number: usize,
)
    requires ends { All (IsElementWithin (length rows.old)) list.now }
    requires marked { (k : ℕ) → k < length rows.old → AreMarked list.now opened.now (node_row_at rows.old k).all }
    requires index { IsItemIndex list.now index.now.first.items index.now.next.items }
    requires number { number < length index.now.first.items }
    ensures { AreGatheredFor list.now opened.now number (length list.now) rows.old rows.new }
{
    let mut place = index.first[number] as usize;
    while place < list.len() {
        gather_ends(rows, list, opened, list[place]);
        place = index.next[place] as usize;
    }
}
