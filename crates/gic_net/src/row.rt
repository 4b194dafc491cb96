//! The elements that end at one node.
ghost use Rattle.std.specs.Prelude.{◌≡◌, ◌≤◌, ◌++◌, ◌∷◌, [], length, take, OnOk, OnErr};
ghost use Rattle.std.specs.List.{filter};
ghost use Rattle.gic_model.specs.Standing.{item_number};
ghost use Rattle.gic_net.specs.Row.{stands_by, AreMarked};

use gic_base::OutOfMemory;
use gic_model::{Element, Item};
use std::alloc::Global;
use std::marker::Model;

/// The places of all elements that end at a node, and in front of a second list the places of those that stand.
pub struct Row {
    all: Vec<u16>,
    standing_first: Vec<u16>,
    degree: usize,
}

impl Model for Row {
    ghost use Rattle.std.specs.Prelude.{◌≡◌, ◌≤◌, length, take};
    ghost use Rattle.gic_net.specs.Row.{NodeRow};

    ghost Value = { NodeRow };

    ghost view = { λ a. record { all = a.all.items; standing = take a.degree a.standing_first.items } };

    ghost invariant = { λ a. (length a.standing_first.items ≡ length a.all.items) × (a.degree ≤ length a.all.items) };
}

impl Drop for Row {
    /// Lets go of everything, in one step for whoever drops it.
    fn drop(self) {
        let Row {
            all: _all,
            standing_first: _standing_first,
            degree: _degree,
        } = self;
    }
}

impl Row {
    ghost use Rattle.std.specs.Prelude.{◌≡◌, ◌<◌, ◌≤◌, ◌++◌, ◌∷◌, [], length, slice_index, IfOk, OnOk};
    ghost use Rattle.gic_net.specs.Row.{NodeRow, full_row, gathered, AreMarked};

    /// No element.
    pub fn new(alloc: Global) -> Row
        ensures { result ≡ full_row [] }
    {
        Row {
            all: Vec::new(alloc),
            standing_first: Vec::new(alloc),
            degree: 0,
        }
    }

    /// Adds the place of one more element to a row whose elements all stand; it stands too. What a refusal leaves isn't
    /// told.
    pub fn push(&mut self, place: u16) -> Result<(), OutOfMemory>
        requires { self.old.standing ≡ self.old.all }
        ensures { OnOk result (self.new ≡ full_row (self.old.all ++ place ∷ [])) }
    {
        push_place(&mut self.standing_first, place)?;
        match push_place(&mut self.all, place) {
            Ok(()) => {
                self.degree = self.all.len();
                Ok(())
            }
            Err(refusal) => {
                let _ = self.standing_first.pop();
                Err(refusal)
            }
        }
    }

    /// How many elements stand.
    pub fn degree(&self) -> usize
        ensures { result ≡ length self.now.standing }
    {
        self.degree
    }

    /// The place of the standing element at this place of the row.
    pub fn element_at(&self, place: usize) -> u16
        requires { place < length self.now.standing }
        ensures { result ≡ slice_index self.now.standing place }
    {
        self.standing_first[place]
    }

    /// Puts first the elements whose items aren't marked open, in their order.
    pub fn gather(&mut self, list: &[Element], opened: &[bool])
        requires { AreMarked list.now opened.now self.old.all }
        ensures { self.new ≡ gathered list.now opened.now self.old }
    {
        self.degree = gather_standing(
            self.all.as_slice(),
            self.standing_first.as_mut_slice(),
            list,
            opened,
        );
    }
}

fn push_place(places: &mut Vec<u16>, place: u16) -> Result<(), OutOfMemory>
    ensures ok { OnOk result (places.new.items ≡ places.old.items ++ place ∷ []) }
    ensures err { OnErr result (places.new.items ≡ places.old.items) }
{
    places.push(place)?;
    Ok(())
}

/// The number of an item, which tells it from all others.
pub fn number_of(item: Item) -> u32
    ensures { result ≡ item_number item }
{
    let (place, kind) = match item {
        Item::Ground(place) => (place, 0),
        Item::Line(place) => (place, 1),
        Item::Transformer(place) => (place, 2),
        Item::Neutral(place) => (place, 3),
    };
    4 * place as u32 + kind
}

/// Writes those of the places whose items aren't marked open to the beginning of the second list, and says how many.
fn gather_standing(
    all: &[u16],
    standing_first: &mut [u16],
    list: &[Element],
    opened: &[bool],
) -> usize
    requires space { length all.now ≤ length standing_first.old }
    requires marked { AreMarked list.now opened.now all.now }
    ensures within { result ≤ length all.now }
    ensures gathered { take result standing_first.new ≡ filter (stands_by list.now opened.now) all.now }
{
    let mut degree = 0;
    for place in all {
        let item = list[*place as usize].item;
        if !opened[number_of(item) as usize] {
            standing_first[degree] = *place;
            degree += 1;
        }
    }
    degree
}
