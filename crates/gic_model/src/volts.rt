//! The voltages of the elements.
use crate::elements::Elements;
use crate::wide_volts::WideVolts;
use gic_base::{ElementId, OutOfMemory};
use std::alloc::Global;
use std::marker::Model;

/// One voltage in nanovolts for each element, in the elements' order, each from -60000000000000 to 60000000000000.
/// It drives current from the element's `from` to its `to`.
#[derive(Drop)]
pub struct Volts {
    wide: WideVolts,
}

impl Model for Volts {
    ghost use Rattle.std.specs.Prelude.{List, ℤ};
    ghost use Rattle.gic_model.specs.Voltages.{number_at};
    ghost use Rattle.gic_model.specs.Limits.{AreVolts};

    ghost Value = { List ℤ };

    ghost view = { λ v. v.wide };

    ghost invariant = { λ v. AreVolts (number_at v.wide) };
}

impl Volts {
    ghost use Rattle.std.specs.Prelude.{◌≡◌, ◌≤◌, ◌<◌, pos, length, replicate, slice_set, unsigned_abs, IfOk};
    ghost use Rattle.gic_model.specs.Voltages.{number_at};
    ghost use Rattle.gic_model.specs.Limits.{most_volts, AreVolts};

    /// No voltage in any element.
    pub fn new(alloc: Global, elements: &Elements) -> Result<Volts, OutOfMemory>
        ensures { IfOk result (λ volts. volts ≡ replicate (length elements.now.list) (pos 0)) }
    {
        let wide = WideVolts::new(alloc, elements)?;
        Ok(Volts { wide })
    }

    /// No voltage is beyond the limit. The call computes nothing: it brings this fact to where it stands.
    pub fn within_limit(&self)
        ensures { AreVolts (number_at self.now) }
    {
        let _ = &self.wide;
    }

    /// The same voltages, for whoever takes greater ones too.
    pub fn as_wide(&self) -> &WideVolts
        ensures { result.now ≡ self.now }
    {
        &self.wide
    }

    /// The voltage of an element, in nanovolts.
    pub fn get(&self, element: ElementId) -> i64
        requires { element.0 < length self.now }
        ensures value { result ≡ number_at self.now element.0 }
        ensures limit { AreVolts (number_at self.now) }
    {
        self.wide.get(element)
    }

    /// Changes the voltage of this element alone.
    pub fn set(&mut self, element: ElementId, nanovolts: i64)
        requires element { element.0 < length self.old }
        requires limit { unsigned_abs nanovolts ≤ most_volts }
        ensures { self.new ≡ slice_set self.old element.0 nanovolts }
    {
        self.wide.set(element, nanovolts);
    }
}
