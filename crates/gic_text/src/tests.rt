use crate::{LineBuilder, read_decimal, read_wide};
use std::test::Fail;

#[test]
fn reads_decimals(rt: HostRuntime) {
    let cases = [
        ("-0500", Some(-500)),
        ("+7", Some(7)),
        ("5.0", None),
        ("", None),
        ("-", None),
        ("1001", None),
    ];
    for (text, number) in cases {
        assert_eq!(rt;
            read_decimal(text.as_bytes(), -1000, 1000),
            number,
            "at {text}"
        );
    }
}

#[test]
fn reads_wide_decimals(rt: HostRuntime) {
    let most = 99999999999999999999999999999999999999;
    let cases = [
        ("99999999999999999999999999999999999999", Some(most)),
        ("-99999999999999999999999999999999999999", Some(-most)),
        ("+00000000000000000000000000000000000042", Some(42)),
        ("000000000000000000000000000000000000042", None),
        ("+-1", None),
        ("1 ", None),
    ];
    for (text, number) in cases {
        assert_eq!(rt;
            read_wide(text.as_bytes(), -most, most),
            number,
            "at {text}"
        );
    }
}

#[test]
#[tactic(auto, using(crate::proofs::Sizes::line_space))]
fn joins_a_line(rt: HostRuntime) -> Result<(), Fail> {
    let mut line = LineBuilder::new(rt.alloc())?;
    for (number, text) in [
        (-40, "line L -40\n"),
        (0, "line L 0\n"),
        (123, "line L 123\n"),
    ] {
        line.start();
        line.word(b"line");
        line.word(b"L");
        line.number(number);
        assert!(rt; line.finish() == text.as_bytes(), "at {number}");
    }
    Ok(())
}
