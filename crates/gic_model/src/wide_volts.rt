//! Voltages of the elements that reach further than those of a case.
use crate::elements::Elements;
use gic_base::{ElementId, OutOfMemory};
use std::alloc::Global;
use std::marker::Model;

/// One voltage in nanovolts for each element, in the elements' order, each from -2^58 to 2^58.
/// It drives current from the element's `from` to its `to`.
#[derive(Drop)]
pub struct WideVolts {
    list: Vec<i64>,
}

impl Model for WideVolts {
    ghost use Rattle.std.specs.Prelude.{List, ℤ};
    ghost use Rattle.gic_model.specs.Voltages.{number_at};
    ghost use Rattle.gic_model.specs.Limits.{AreWideVolts};

    ghost Value = { List ℤ };

    ghost view = { λ v. v.list.items };

    ghost invariant = { λ v. AreWideVolts (number_at v.list.items) };
}

impl WideVolts {
    ghost use Rattle.std.specs.Prelude.{◌≡◌, ◌≤◌, ◌<◌, pos, length, replicate, slice_set, unsigned_abs, IfOk};
    ghost use Rattle.gic_model.specs.Voltages.{number_at};
    ghost use Rattle.gic_model.specs.Limits.{most_wide_volts, AreWideVolts};

    /// No voltage in any element.
    pub fn new(alloc: Global, elements: &Elements) -> Result<WideVolts, OutOfMemory>
        ensures { IfOk result (λ volts. volts ≡ replicate (length elements.now.list) (pos 0)) }
    {
        let list = vec![in alloc; 0; elements.list().len()]?;
        Ok(WideVolts { list })
    }

    /// The voltage of an element, in nanovolts.
    pub fn get(&self, element: ElementId) -> i64
        requires { element.0 < length self.now }
        ensures value { result ≡ number_at self.now element.0 }
        ensures limit { AreWideVolts (number_at self.now) }
    {
        self.list[element.0 as usize]
    }

    /// Changes the voltage of this element alone.
    pub fn set(&mut self, element: ElementId, nanovolts: i64)
        requires element { element.0 < length self.old }
        requires limit { unsigned_abs nanovolts ≤ most_wide_volts }
        ensures { self.new ≡ slice_set self.old element.0 nanovolts }
    {
        self.list[element.0 as usize] = nanovolts;
    }
}
