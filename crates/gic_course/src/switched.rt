//! The net of a case, with the first rows of its switchings in force.
ghost use Rattle.std.specs.Prelude.{◌≡◌, ◌≤◌, ◌-◌, List, length, take, drop, IfOk, IsFalse};
ghost use Rattle.gic_model.specs.declared.parts.Switching as parts;
ghost use Rattle.gic_course.specs.Switched.{change, changes_to, closed_after, StandsThrough, IsSwitchedTo};

use gic_base::OutOfMemory;
use gic_model::{Elements, Switching};
use gic_net::Net;
use gic_stand::switch_all;
use std::alloc::Global;

/// A net, and how many rows of a list of switchings are in force in it: the first n.
#[derive(Drop)]
pub(crate) struct SwitchedNet {
    pub(crate) net: Net,
    through: u32,
}

/// Whether one of the rows changes what stands.
fn change(net: &Net, rows: &[Switching]) -> bool
    ensures { result ≡ change net.now rows.now }
{
    rows.iter().any(|row| !net.is_switched(row.item, row.opens))
}

/// Closes each item that the rows name.
fn close_all(net: &mut Net, rows: &[Switching])
    ensures { net.new ≡ closed_after net.old rows.entry.now }
{
    for row in rows {
        net.switch(row.item, false);
    }
}

impl SwitchedNet {
    /// All elements stand.
    pub(crate) fn new(alloc: Global, elements: &Elements) -> Result<SwitchedNet, OutOfMemory>
        ensures network { IfOk result (λ now. now.net.network ≡ elements.now) }
        ensures stands { IfOk result (λ now. (rows : List parts.Switching) → StandsThrough rows now) }
    {
        let net = Net::build(alloc, elements)?;
        Ok(SwitchedNet { net, through: 0 })
    }

    /// Goes on to more rows, and tells whether they change what stands.
    fn go_on(&mut self, rows: &[Switching], through: u32) -> bool
        requires stands { StandsThrough rows.now self.old }
        requires more { self.old.through ≤ through }
        requires within { through ≤ length rows.now }
        ensures switched { IsSwitchedTo rows.now through self.old self.new }
        ensures changed { result ≡ change self.old.net (take (through - self.old.through) (drop self.old.through rows.now)) }
        ensures same { IsFalse result → self.new.net ≡ self.old.net }
    {
        let from = self.through as usize;
        let to = through as usize;
        let changed = change(&self.net, &rows[from..to]);
        switch_all(&mut self.net, &rows[from..to]);
        self.through = through;
        changed
    }

    /// Begins again with the first rows, with nothing open before them.
    fn go_back(&mut self, rows: &[Switching], through: u32)
        requires stands { StandsThrough rows.now self.old }
        requires within { through ≤ length rows.now }
        ensures { IsSwitchedTo rows.now through self.old self.new }
    {
        close_all(&mut self.net, rows);
        switch_all(&mut self.net, &rows[..through as usize]);
        self.through = through;
    }

    /// Puts the first `through` rows in force and no others, and tells whether what stands may have changed: going on to
    /// rows that open what is open changes nothing.
    pub(crate) fn switch_to(&mut self, rows: &[Switching], through: u32) -> bool
        requires stands { StandsThrough rows.now self.old }
        requires within { through ≤ length rows.now }
        ensures switched { IsSwitchedTo rows.now through self.old self.new }
        ensures changed { result ≡ changes_to self.old rows.now through }
        ensures same { IsFalse result → self.new.net ≡ self.old.net }
    {
        if self.through <= through {
            return self.go_on(rows, through);
        }
        self.go_back(rows, through);
        true
    }
}
