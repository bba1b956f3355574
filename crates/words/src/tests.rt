// Lines as users type them, worked by hand.
use crate::bytes::check as check_bytes;
use crate::digits::Digits;
use crate::kind::{Line, kind};
use crate::reader::Reader;
use crate::word::{ByteFault, Sign, Word};
use scan::field::Field;

// The place of the first byte that opens no word, if there is one.
const BYTES: [(&[u8], Option<usize>); 14] = [
    (b"N12 G91 X-100 F2000", None),
    (b"N12G91X-100F2000", None),
    (b"   H17   ", None),
    (b"L11 5", None),
    (b"L11 5 6", Some(7)),
    (b"L08 +", None),
    (b"L08+", None),
    (b"X+-5", Some(3)),
    (b"X5 ;", Some(4)),
    (b"n5", Some(1)),
    (b"H17\t", Some(4)),
    (b"N1 \0", Some(4)),
    (b"N1\xff", Some(3)),
    (b"G X F", None),
];

#[test]
fn bad_bytes(rt: HostRuntime) {
    for (line, place) in BYTES {
        let want = place.map_or(Ok(()), |place| Err(ByteFault::OpensNone { place }));
        assert_eq!(rt; check_bytes(Reader::new(line, line.len())), want);
    }
}

#[test]
fn kinds(rt: HostRuntime) {
    assert_eq!(rt; kind(&[b' '; 81]), Err(ByteFault::TooLong));
    assert_eq!(rt; kind(&[b' '; 80]), Err(ByteFault::Blank));
    assert_eq!(rt; kind(b""), Err(ByteFault::Blank));
    assert!(rt; kind(&[b'N'; 80]).is_ok());
    assert_eq!(rt; kind(&[b'N'; 81]), Err(ByteFault::TooLong));
    assert_eq!(rt; kind(b"*"), Ok(Line::Clear));
    assert_eq!(rt; kind(b"$"), Ok(Line::Hold));
    assert_eq!(rt; kind(b"#"), Ok(Line::Stop));
    assert_eq!(rt; kind(b"!"), transfer(b"", 1));
    assert_eq!(rt; kind(b"! H17"), transfer(b" H17", 5));
    assert_eq!(rt; kind(b" *"), words(b" *"));
    assert_eq!(rt; kind(b"**"), words(b"**"));
}

fn transfer(rest: &[u8], length: usize) -> Result<Line<'_>, ByteFault> {
    Ok(Line::Transfer {
        reader: Reader::new(rest, length),
    })
}

fn words(line: &[u8]) -> Result<Line<'_>, ByteFault> {
    Ok(Line::Words {
        reader: Reader::new(line, line.len()),
    })
}

#[test]
fn spelling(rt: HostRuntime) {
    let mut reader = Reader::new(b" N12X-1234567890 L08 -7", 23);
    let n = Word::N {
        place: 2,
        digits: Digits { bytes: b"12" },
    };
    let x = Word::X {
        place: 5,
        sign: Some(Sign::Minus),
        digits: Digits {
            bytes: b"1234567890",
        },
    };
    let l = Word::L {
        place: 18,
        code: Digits { bytes: b"08" },
        sign: Some(Sign::Minus),
        digits: Digits { bytes: b"7" },
    };
    assert_eq!(rt; reader.word(), Ok(Some(n)));
    assert_eq!(rt; reader.word(), Ok(Some(x)));
    assert_eq!(rt; reader.word(), Ok(Some(l)));
    assert_eq!(rt; reader.word(), Ok(None));
}

#[test]
fn values(rt: HostRuntime) {
    let digits = Digits { bytes: b"0117" };
    assert!(rt; !digits.is_empty());
    assert_eq!(rt; digits.value(Field::Code), 17);
    assert!(rt; Digits { bytes: b"" }.is_empty());
}
