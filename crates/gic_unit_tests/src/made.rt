//! Cases made from the seed 7, as they were worked out by hand.
use gic_base::{Name, OutOfMemory};
use gic_case::{Case, Kind};
use gic_make::make_case;
use std::alloc::Global;
use std::test::Fail;

/// The ground of a substation of this name at a place of a case, in micro-ohms, where it has one.
fn ground_of(case: &Case, place: usize, name: &[u8]) -> Option<u32> {
    let substation = case.substations().get(place)?;
    if substation.name.as_bytes() == name {
        substation.ground
    } else {
        None
    }
}

/// The resistance of the high winding of a delta-wye unit of this name at a place of a case, in micro-ohms a phase.
fn resistance_of(case: &Case, place: usize, name: &[u8]) -> Option<u32> {
    let transformer = case.transformers().get(place)?;
    match transformer.kind {
        Kind::DeltaWye {
            high_resistance,
            ..
        } if transformer.name.as_bytes() == name => Some(high_resistance),
        _ => None,
    }
}

/// The name of a bus.
fn name_of_bus(case: &Case, place: u16) -> Option<Name> {
    Some(case.buses().get(place as usize)?.name)
}

/// Whether the line at a place of a case has this name, and joins the buses of these names.
fn is_line(case: &Case, place: usize, name: &[u8], from: &[u8], to: &[u8]) -> bool {
    let Some(line) = case.lines().get(place) else {
        return false;
    };
    let (first, second) = (name_of_bus(case, line.from), name_of_bus(case, line.to));
    line.name.as_bytes() == name && first == Name::read(from) && second == Name::read(to)
}

/// Two sites, and the one line between them.
#[test]
fn make_small(rt: HostRuntime) -> Result<(), Fail> {
    let case = make_case(rt.alloc(), 7, 2)?;
    assert_eq!(rt; case.substations().len(), 2);
    assert_eq!(rt; ground_of(&case, 0, b"S0"), Some(448_000));
    assert_eq!(rt; ground_of(&case, 1, b"S1"), Some(640_000));
    assert_eq!(rt; resistance_of(&case, 0, b"T0"), Some(366_000));
    assert_eq!(rt; case.lines().len(), 1);
    assert!(rt; is_line(&case, 0, b"L1", b"B0", b"B1"));
    Ok(())
}

/// A thousand sites: the draws of the first one don't hang on how many there are.
#[test]
fn make_large(rt: HostRuntime) -> Result<(), Fail> {
    let case = make_case(rt.alloc(), 7, 1000)?;
    assert_eq!(rt; ground_of(&case, 0, b"S0"), Some(448_000));
    assert_eq!(rt; resistance_of(&case, 0, b"T0"), Some(366_000));
    Ok(())
}
