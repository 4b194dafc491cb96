//! Names that come twice, and the places of names.
ghost use Rattle.std.specs.Prelude.{◌≡◌, ℕ, List, ◌<◌, ◌^◌, IfOk, IfSome, length};
ghost use Rattle.std.specs.HashMap.{get};
ghost use Rattle.gic_case.specs.Names.{same, place_in};
ghost use Rattle.gic_case_reader.specs.OneByOne.{first_repeat};

use gic_base::Name;
use std::alloc::{AllocError, Global};
use std::collections::{HashMap, HashSet};

/// The first place whose name stands before it too.
#[tactic(auto, using(crate::proofs::Repeats::first_repeat_none))]
pub(crate) fn first_repeat(alloc: Global, names: &[Name]) -> Result<Option<usize>, AllocError>
    ensures value { IfOk result (λ r. r ≡ first_repeat names.now) }
    ensures within { IfOk result (λ r. IfSome r (λ i. i < length names.now)) }
{
    let mut seen = HashSet::new(alloc);
    for (i, name) in names.iter().enumerate() {
        if !seen.insert(*name)? {
            return Ok(Some(i));
        }
    }
    Ok(None)
}

/// The first place of each name.
pub(crate) fn places_of(alloc: Global, names: &[Name]) -> Result<HashMap<Name, u16>, AllocError>
    requires { length names.now < 2 ^ 16 }
    ensures { IfOk result (λ m. get same m ≡ place_in names.now) }
{
    let mut places = HashMap::new(alloc);
    let mut place = 0u16;
    for name in names {
        if !places.contains_key(name) {
            places.insert(*name, place)?;
        }
        place += 1;
    }
    Ok(places)
}
