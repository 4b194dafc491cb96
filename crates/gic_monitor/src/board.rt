//! Monitors in order.
ghost use Rattle.std.specs.Prelude.{◌≡◌, ◌<◌, List, [], ◌∷◌, ◌++◌, OnOk, map, slice_index_or, length};
ghost use Rattle.gic_view.specs.View.{View};
ghost use Rattle.gic_monitor.specs.OnBoard.{monitors_of};

use crate::monitor::Monitor;
use crate::roster::Roster;
use gic_base::OutOfMemory;
use gic_view::StepView;

/// A monitor begins.
fn begin_one(monitor: &mut Box<dyn Monitor>, roster: &Roster) -> Result<(), OutOfMemory>
    ensures { OnOk result ((views : List View) → outlook monitor.new views ≡ plan monitor.old roster.now views) }
{
    monitor.begin(roster)
}

/// A monitor sees a view.
fn show_one(monitor: &mut Box<dyn Monitor>, view: &StepView)
    ensures { (views : List View) → outlook monitor.new views ≡ outlook monitor.old (view.now ∷ views) }
{
    monitor.see(view);
}

/// A monitor prints.
fn print_one(monitor: &Box<dyn Monitor>, into: &mut Vec<u8>) -> Result<(), OutOfMemory>
    ensures { OnOk result (into.new.items ≡ into.old.items ++ outlook monitor.now []) }
{
    monitor.print(into)
}

/// Each of the monitors begins.
fn begin_all(monitors: &mut [Box<dyn Monitor>], roster: &Roster) -> Result<(), OutOfMemory>
    ensures { OnOk result ((views : List View) → map (λ m. outlook m views) monitors.new
        ≡ map (λ m. plan m roster.now views) monitors.old) }
{
    for monitor in monitors.iter_mut() {
        begin_one(monitor, roster)?;
    }
    Ok(())
}

/// Each of the monitors sees a view.
fn show_all(monitors: &mut [Box<dyn Monitor>], view: &StepView)
    ensures { (views : List View) → map (λ m. outlook m views) monitors.new
        ≡ map (λ m. outlook m (view.now ∷ views)) monitors.old }
{
    for monitor in monitors.iter_mut() {
        show_one(monitor, view);
    }
}

/// One of the monitors prints.
fn print_at(
    monitors: &[Box<dyn Monitor>],
    place: usize,
    into: &mut Vec<u8>,
) -> Result<(), OutOfMemory>
    requires { place < length monitors.now }
    ensures { OnOk result (into.new.items ≡ into.old.items
        ++ slice_index_or (map (λ m. outlook m []) monitors.now) place []) }
{
    print_one(&monitors[place], into)
}

/// Monitors in order. What they would print is read off each: the texts of a board that begins are the plans of its
/// monitors, in their order, and the texts of one that sees views are their outlooks.
#[derive(Drop)]
pub struct Board {
    monitors: Vec<Box<dyn Monitor>>,
}

impl Board {
    /// A board of these monitors. Takes no memory.
    pub fn new(monitors: Vec<Box<dyn Monitor>>) -> Board
        ensures { monitors_of result ≡ monitors.items }
    {
        Board { monitors }
    }

    /// How many monitors there are.
    pub fn len(&self) -> usize
        ensures { result ≡ length (monitors_of self.now) }
    {
        self.monitors.len()
    }

    /// Each monitor begins with the roster, in order.
    pub fn begin(&mut self, roster: &Roster) -> Result<(), OutOfMemory>
        ensures texts { OnOk result ((views : List View) → map (λ m. outlook m views) (monitors_of self.new)
            ≡ map (λ m. plan m roster.now views) (monitors_of self.old)) }
        ensures count { length (monitors_of self.new) ≡ length (monitors_of self.old) }
    {
        begin_all(&mut self.monitors, roster)
    }

    /// Each monitor sees the view, in order. Takes no memory.
    pub fn see(&mut self, view: &StepView)
        ensures texts { (views : List View) → map (λ m. outlook m views) (monitors_of self.new)
            ≡ map (λ m. outlook m (view.now ∷ views)) (monitors_of self.old) }
        ensures count { length (monitors_of self.new) ≡ length (monitors_of self.old) }
    {
        show_all(&mut self.monitors, view);
    }

    /// The monitor at this place adds its text.
    pub fn print(&self, place: usize, into: &mut Vec<u8>) -> Result<(), OutOfMemory>
        requires { place < length (monitors_of self.now) }
        ensures { OnOk result (into.new.items ≡ into.old.items
            ++ slice_index_or (map (λ m. outlook m []) (monitors_of self.now)) place []) }
    {
        print_at(&self.monitors, place, into)
    }
}
