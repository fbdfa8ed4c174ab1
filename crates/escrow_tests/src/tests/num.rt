//! Numbers as texts spell them.
use escrow_num::{Amount, Decimal};

/// Texts, and the amount that each spells.
const AMOUNTS: [(&str, Option<i64>); 16] = [
    ("+5", Some(5)),
    ("-0", Some(0)),
    ("007", Some(7)),
    ("-42", Some(-42)),
    ("999999999999999", Some(999_999_999_999_999)),
    ("-999999999999999", Some(-999_999_999_999_999)),
    ("000000000000000000001", Some(1)),
    ("1000000000000000", None),
    ("-1000000000000000", None),
    ("99999999999999999999", None),
    ("", None),
    ("+", None),
    ("-", None),
    ("+-1", None),
    ("1a", None),
    (" 1", None),
];

/// Texts, and the millionths that each spells.
const DECIMALS: [(&str, Option<i128>); 18] = [
    ("5", Some(5_000_000)),
    ("1.5", Some(1_500_000)),
    ("-0.05", Some(-50_000)),
    ("+007.500", Some(7_500_000)),
    ("-0.0", Some(0)),
    ("0.000001", Some(1)),
    ("0.0000010", Some(1)),
    ("0.00000010", None),
    ("999999999.999999", Some(999_999_999_999_999)),
    ("999999999999999.0", Some(999_999_999_999_999_000_000)),
    ("999999999999999.1", None),
    ("1000000000000000", None),
    ("5.", None),
    (".5", None),
    ("1.2.3", None),
    ("1.5e3", None),
    ("1. 5", None),
    ("", None),
];

/// The program never calls these two: it reads the numbers of tokens, which have no sign.
#[test]
fn reads_numbers(rt: HostRuntime) {
    for (text, want) in AMOUNTS {
        assert_eq!(rt; Amount::read(text).map(Amount::get), want, "at {text:?}");
    }
    for (text, want) in DECIMALS {
        assert_eq!(rt; Decimal::read(text).map(Decimal::get), want, "at {text:?}");
    }
}
