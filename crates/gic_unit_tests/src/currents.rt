//! Effective currents and a worst current, worked by hand.
use gic_base::ElementId;
use gic_criteria::worst;
use gic_effective::{WindingCurrents, signed_effective};
use gic_fixed::Interval;
use gic_winding::Weights;

/// 30 A in the high winding and -60 A in the low one of a wye-wye unit of 345/138 kV.
#[test]
fn effective_wye_wye(rt: HostRuntime) {
    let weights = Weights {
        first: Some((ElementId(0), 345_000)),
        second: Some((ElementId(1), 138_000)),
        third: None,
        high_volts: 345_000,
    };
    let currents = WindingCurrents {
        first: Interval::point(30_000_000_000),
        second: Interval::point(-60_000_000_000),
        third: Interval::point(0),
    };
    let effective = signed_effective(&weights, &currents);
    assert_eq!(rt; (effective.lo, effective.hi), (2_000, 2_000));
}

/// 100 A in the series winding and 40 A in the common one of an autotransformer of 500/345 kV.
#[test]
fn effective_auto(rt: HostRuntime) {
    let weights = Weights {
        first: Some((ElementId(0), 155_000)),
        second: Some((ElementId(1), 345_000)),
        third: None,
        high_volts: 500_000,
    };
    let currents = WindingCurrents {
        first: Interval::point(100_000_000_000),
        second: Interval::point(40_000_000_000),
        third: Interval::point(0),
    };
    let effective = signed_effective(&weights, &currents);
    assert_eq!(rt; (effective.lo, effective.hi), (19_533, 19_534));
}

/// 50 A for the field to the north, and 66.666 A to 66.667 A for the field to the east.
#[test]
fn worst_of_two_intervals(rt: HostRuntime) {
    let north = Interval::point(50_000);
    let east = Interval::new(66_666, 66_667);
    assert_eq!(rt; worst(north, east), Interval::new(83_332, 83_334));
}
