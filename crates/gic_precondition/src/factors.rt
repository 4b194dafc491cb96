//! The factors that an elimination makes.
use crate::dividing::Whole;
use crate::parts::{ENTRIES_PER_ELEMENT, Entry, LEAST_ENTRIES, MOST_ENTRIES, Neighbour, Step};
use gic_base::OutOfMemory;
use gic_base::limits::MOST_AT_A_NODE;
use std::alloc::Global;
use std::marker::Model;

/// The factors that an elimination makes: a step a node, with its entries. They are seen as the number of nodes.
pub struct Factors {
    steps: Vec<Step>,
    entries: Vec<Entry>,
    /// How many steps are made.
    made: usize,
    /// How many entries are in use.
    used: usize,
    nodes: u16,
}

impl Model for Factors {
    ghost use Rattle.std.specs.Prelude.{ℕ, ◌≤◌, length};
    ghost use Rattle.gic_precondition.specs.declared.parts.TheConstants.{MOST_ENTRIES};
    ghost use Rattle.gic_precondition.specs.Inside.{AreStepsInside, AreEntriesInside};

    ghost Value = { ℕ };

    ghost view = { λ f. f.nodes };

    ghost invariant = { λ f.
        AreStepsInside f.nodes f.steps.items
        × AreEntriesInside f.nodes f.entries.items
        × (f.made ≤ length f.steps.items)
        × (f.used ≤ length f.entries.items)
        × (length f.entries.items ≤ MOST_ENTRIES) };
}

impl Drop for Factors {
    /// Lets go of everything, in one step for whoever drops it.
    fn drop(self) {
        let Factors {
            steps: _steps,
            entries: _entries,
            made: _made,
            used: _used,
            nodes: _nodes,
        } = self;
    }
}

ghost use Rattle.std.specs.Prelude.{ℕ, ◌≡◌, ◌<◌, ◌≤◌, IfOk, length};
ghost use Rattle.gic_precondition.specs.Inside.{AreNeighboursInside, AreStepsInside, AreEntriesInside};

impl Factors {
    /// For a network of this many nodes and elements: space for [`ENTRIES_PER_ELEMENT`] entries for each element, and for
    /// [`LEAST_ENTRIES`] at least, but for no more than `MOST_AT_A_NODE` at each node.
    pub(crate) fn new(alloc: Global, nodes: u16, elements: u16) -> Result<Factors, OutOfMemory>
        ensures { IfOk result (λ factors. factors ≡ nodes) }
    {
        let steps = empty_steps(alloc, nodes)?;
        let entries = empty_entries(alloc, nodes, elements)?;
        Ok(Factors {
            steps,
            entries,
            made: 0,
            used: 0,
            nodes,
        })
    }

    /// Takes all steps away.
    pub(crate) fn clear(&mut self)
        ensures { self.new ≡ self.old }
    {
        self.made = 0;
        self.used = 0;
    }

    /// Puts in the elimination of a node with these neighbours and this conductance. Entries for which there is no more
    /// space are left out.
    pub(crate) fn add(&mut self, node: u16, neighbours: &[Neighbour], conductance: u64)
        requires node { node < self.old }
        requires neighbours { AreNeighboursInside self.old neighbours.now }
        ensures { self.new ≡ self.old }
    {
        if self.made < self.steps.len() {
            let start = self.used;
            let end = put_entries(self.entries.as_mut_slice(), start, neighbours, conductance);
            self.steps[self.made] = step_of(node, start, end, conductance);
            self.made += 1;
            self.used = end;
        }
    }

    pub(crate) fn steps(&self) -> &[Step]
        ensures { AreStepsInside self.now result.now }
    {
        &self.steps.as_slice()[..self.made]
    }

    pub(crate) fn entries(&self) -> &[Entry]
        ensures { AreEntriesInside self.now result.now }
    {
        self.entries.as_slice()
    }
}

/// A step, with 1 over the node's conductance.
fn step_of(node: u16, start: usize, end: usize, conductance: u64) -> Step
    requires start { start ≤ MOST_ENTRIES }
    requires end { end ≤ MOST_ENTRIES }
    ensures { result.node ≡ node }
{
    let pivot = conductance.max(1);
    let bits = 125u32.saturating_sub(pivot.leading_zeros());
    Step {
        inverse: ((1u128 << bits) / pivot as u128).min(1 << 62) as u64,
        start: start as u32,
        end: end as u32,
        node,
        bits: bits as u8,
    }
}

/// Writes an entry.
fn put(entries: &mut [Entry], place: usize, entry: Entry)
    requires { place < length entries.old }
    ensures { (nodes : ℕ) → entry.far < nodes → AreEntriesInside nodes entries.old → AreEntriesInside nodes entries.new }
{
    entries[place] = entry;
}

/// Puts an entry for each neighbour behind the others, as far as there is space, and says where they end.
fn put_entries(
    entries: &mut [Entry],
    start: usize,
    neighbours: &[Neighbour],
    conductance: u64,
) -> usize
    requires start { start ≤ length entries.old }
    ensures end { result ≤ length entries.new }
    ensures inside { (nodes : ℕ) → AreNeighboursInside nodes neighbours.now →
        AreEntriesInside nodes entries.old → AreEntriesInside nodes entries.new }
{
    let whole = Whole::new(conductance);
    let mut end = start;
    for neighbour in neighbours {
        if end == entries.len() {
            return end;
        }
        let share = whole.part(neighbour.siemens, u32::MAX as u64) as u32;
        put(
            entries,
            end,
            Entry {
                share,
                far: neighbour.far,
            },
        );
        end += 1;
    }
    end
}

fn empty_steps(alloc: Global, nodes: u16) -> Result<Vec<Step>, OutOfMemory>
    ensures { IfOk result (λ steps. AreStepsInside nodes steps.items) }
{
    let step = Step {
        inverse: 0,
        start: 0,
        end: 0,
        node: 0,
        bits: 0,
    };
    let steps = vec![in alloc; step; nodes as usize]?;
    Ok(steps)
}

fn empty_entries(alloc: Global, nodes: u16, elements: u16) -> Result<Vec<Entry>, OutOfMemory>
    ensures { IfOk result (λ entries. AreEntriesInside nodes entries.items × (length entries.items ≤ MOST_ENTRIES)) }
{
    let entry = Entry { share: 0, far: 0 };
    let most = MOST_AT_A_NODE * nodes as usize;
    let space = (ENTRIES_PER_ELEMENT * elements as usize).max(LEAST_ENTRIES);
    let entries = vec![in alloc; entry; space.min(most)]?;
    Ok(entries)
}
