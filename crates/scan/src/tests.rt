// Digits cut to their fields and rows cut at their blanks, by hand.
use crate::cases::long_digits;
use crate::field::Field;
use crate::number::number;
use crate::runs::{Kind, past, run, split};
use crate::words::{Blank, Visible, Words};

#[test]
fn cut_digits(rt: HostRuntime) {
    assert_eq!(rt; long_digits(), 34_567_890);
    assert_eq!(rt; Field::Line.value(b"1000"), 0);
    assert_eq!(rt; Field::Line.value(b"99401"), 401);
    assert_eq!(rt; Field::Line.value(b"7"), 7);
    assert_eq!(rt; Field::Code.value(b"0117"), 17);
    assert_eq!(rt; Field::Feed.value(b"99999999999"), 9_999_999);
    assert_eq!(rt; Field::Number.value(b""), 0);
    assert_eq!(rt; number(b"4294967295"), Some(4_294_967_295));
    assert_eq!(rt; number(b"4294967296"), None);
    assert_eq!(rt; number(b"+1"), None);
}

// Blanks at the front of a row, and what stands behind them, for any kind.
fn cut<K: Kind>(bytes: &[u8]) -> (usize, usize, usize) {
    let (front, back) = split::<K>(bytes);
    (
        run::<K>(bytes),
        front.len() + back.len(),
        past::<K>(bytes).len(),
    )
}

#[test]
fn cut_rows(rt: HostRuntime) {
    assert_eq!(rt; cut::<Blank>(b" \t\rpin "), (3, 7, 4));
    assert_eq!(rt; cut::<Blank>(b"pin"), (0, 3, 3));
    assert_eq!(rt; cut::<Visible>(b"pin "), (3, 4, 1));
    assert_eq!(rt; cut::<Visible>(b""), (0, 0, 0));
    let mut words = Words::new(b" axis\tpin \r");
    assert_eq!(rt; words.next(), Some(b"axis".as_slice()));
    assert_eq!(rt; words.rest(), b"\tpin \r".as_slice());
    assert_eq!(rt; words.next(), Some(b"pin".as_slice()));
    assert!(rt; words.next().is_none());
    assert!(rt; words.next().is_none());
    let letters = Words::new(b"fence 1 2 pin").fold(
        0usize,
        |sum, word| sum.saturating_add(word.len()),
    );
    assert_eq!(rt; letters, 10);
}
