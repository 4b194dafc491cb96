//! The fields of the zones.
use gic_base::OutOfMemory;
use std::alloc::Global;
use std::marker::Model;

/// One field (north, east) for each zone, in the zones' order, each part from -20000 to 20000 mV/km.
#[derive(Drop)]
pub struct Fields {
    list: Vec<(i32, i32)>,
}

impl Model for Fields {
    ghost use Rattle.std.specs.Prelude.{◌<◌, ◌^◌, List, ℤ, All, length};
    ghost use Rattle.gic_induce.specs.Fields.{IsField};

    ghost Value = { List (ℤ × ℤ) };

    ghost view = { λ f. f.list.items };

    ghost invariant = { λ f. All IsField f.list.items × (length f.list.items < 2 ^ 16) };
}

impl Fields {
    ghost use Rattle.std.specs.Prelude.{◌≡◌, ◌<◌, length, replicate, slice_set, All, IfOk};
    ghost use Rattle.gic_induce.specs.Fields.{IsField, no_field, zone_field, lone_field};
    ghost use Rattle.gic_induce.specs.Voltage.{IsFieldWithin};

    /// No field in any of a given number of zones.
    pub fn new(alloc: Global, zones: u16) -> Result<Fields, OutOfMemory>
        ensures { IfOk result (λ fields. fields ≡ replicate zones no_field) }
    {
        let list = vec![in alloc; (0, 0); zones as usize]?;
        Ok(Fields { list })
    }

    /// One field in each of a given number of zones. Both parts are in mV/km.
    pub fn uniform(alloc: Global, zones: u16, north: i32, east: i32) -> Result<Fields, OutOfMemory>
        requires north { IsFieldWithin north }
        requires east { IsFieldWithin east }
        ensures { IfOk result (λ fields. fields ≡ replicate zones (north, east)) }
    {
        let list = vec![in alloc; (north, east); zones as usize]?;
        Ok(Fields { list })
    }

    /// How many zones there are.
    pub fn zones(&self) -> u16
        ensures { result ≡ length self.now }
    {
        self.list.len() as u16
    }

    /// All fields are within their limits. The call computes nothing: it brings this fact to where it stands.
    pub fn within_limit(&self)
        ensures { All IsField self.now }
    {
        let _ = &self.list;
    }

    /// The field of a zone, north and east in mV/km.
    pub fn get(&self, zone: u16) -> (i32, i32)
        requires { zone < length self.now }
        ensures value { result ≡ zone_field self.now zone }
        ensures within { IsField result }
    {
        self.list[zone as usize]
    }

    /// Changes the field of this zone alone. Both parts are in mV/km.
    pub fn set(&mut self, zone: u16, north: i32, east: i32)
        requires zone { zone < length self.old }
        requires north { IsFieldWithin north }
        requires east { IsFieldWithin east }
        ensures { self.new ≡ slice_set self.old zone (north, east) }
    {
        self.list[zone as usize] = (north, east);
    }

    /// Leaves this field in one zone, and none in any other. Both parts are in mV/km.
    #[tactic(auto, unfolding(crate::specs::Fields::lone_field))]
    pub fn set_alone(&mut self, zone: u16, north: i32, east: i32)
        requires zone { zone < length self.old }
        requires north { IsFieldWithin north }
        requires east { IsFieldWithin east }
        ensures value { self.new ≡ lone_field (length self.old) zone (north, east) }
        ensures same_length { length self.new ≡ length self.old }
    {
        self.list.fill((0, 0));
        self.set(zone, north, east);
    }
}
