//! Values worked by hand.
use crate::division::{div_ceil, div_floor};
use crate::{Divisor, isqrt_ceil, isqrt_floor};
use std::test::Fail;

#[test]
fn rounds_as_worked_by_hand(rt: HostRuntime) {
    for (a, d, down, up) in [(-21, 2, -11, -10), (21, 2, 10, 11), (-28, 2, -14, -14)] {
        assert_eq!(rt; div_floor(a, d), down, "{a} / {d} rounded down");
        assert_eq!(rt; div_ceil(a, d), up, "{a} / {d} rounded up");
    }
    for (a, down, up) in [(0, 0, 0), (16, 4, 4), (17, 4, 5)] {
        assert_eq!(rt; isqrt_floor(a), down, "the root of {a} rounded down");
        assert_eq!(rt; isqrt_ceil(a), up, "the root of {a} rounded up");
    }
}

#[test]
fn numbers_near_the_ends(rt: HostRuntime) -> Result<(), Fail> {
    let three = Divisor::new(3);
    assert_eq!(rt;
        three.floor(i128::MAX),
        56713727820156410577229101238628035242
    );
    assert_eq!(rt;
        three.floor(i128::MIN),
        -56713727820156410577229101238628035243
    );
    assert_eq!(rt;
        three.rounded(i128::MIN).hi,
        -56713727820156410577229101238628035242
    );
    assert_eq!(rt; Divisor::new(1).rounded(i128::MAX).hi, i128::MAX);
    assert_eq!(rt;
        Divisor::new(u32::MAX).floor(i128::MIN),
        -39614081266355540835774234625
    );
    Ok(())
}
