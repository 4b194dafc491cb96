//! A quotient of a product, worked by hand.
use gic_fixed::{Divisor, Interval};

/// -7 times 3 is -21, and half of it is -10.5.
#[test]
fn quotient_of_a_product(rt: HostRuntime) {
    let once = Interval::point(-7).scale(3).div_out(2);
    assert_eq!(rt; (once.lo, once.hi), (-11, -10));
    let kept = Divisor::new(2).rounded(-7 * 3);
    assert_eq!(rt; (kept.lo, kept.hi), (-11, -10));
}
