// Host lines as users type them, worked by hand, on a board of resolution 10.
use codes::coded::Coded;
use codes::host::HostCode;
use codes::program::ProgramCode;
use orders::fault::WordFault;
use orders::heard::Fields;
use orders::order::Order;
use orders::reading::read;
use pin::drive::PinAxis;
use settings::values::Settings;
use std::test::Fail;

// Refusal and place.
const REFUSED: [(&[u8], u8, usize); 58] = [
    (&[b' '; 81], 1, 0),
    (&[b'N'; 81], 1, 0),
    (&[b' '; 80], 3, 0),
    (b"", 3, 0),
    (b"n12", 4, 1),
    (b"\0", 4, 1),
    (b"N1 \xff", 4, 4),
    (b" *", 4, 2),
    (b"* ", 4, 1),
    (b"!!", 4, 2),
    (b" !H17", 4, 2),
    (b"L11 5 6", 4, 7),
    (b"X+-5", 4, 3),
    (b"X5 Y", 4, 4),
    (b"G N5 ?", 4, 6),
    (b"N", 5, 1),
    (b"N12 X", 5, 5),
    (b"X-", 5, 1),
    (b"H", 5, 1),
    (b"F G91", 5, 1),
    (b"L11", 5, 1),
    (b"L", 5, 1),
    (b"L +5", 5, 1),
    (b"L11 -", 5, 1),
    (b"L08", 5, 1),
    (b"L08 5", 5, 1),
    (b"L0805", 5, 1),
    (b"!H", 5, 2),
    (b"!X", 5, 2),
    (b"H17 X5", 6, 5),
    (b"X5 N3", 6, 1),
    (b"N3 N4", 6, 4),
    (b"X1 X2", 6, 4),
    (b"N1 G91 X1 G90", 6, 11),
    (b"N1 F1 F1", 6, 7),
    (b"N5 L11 5", 6, 4),
    (b"L11 5 H17", 6, 7),
    (b"L11 5 L12 5", 6, 7),
    (b"H17 H17", 6, 5),
    (b"H17 N5", 6, 1),
    (b"N5 X1 H17", 6, 7),
    (b"G99 N5", 6, 1),
    (b"!H17 X5", 6, 6),
    (b"G05", 7, 1),
    (b"N1 G99", 7, 4),
    (b"H12", 7, 1),
    (b"H00", 7, 1),
    (b"L07 5", 7, 1),
    (b"!", 7, 1),
    (b"!  ", 7, 1),
    (b"!N5 H17", 7, 2),
    (b"! H01", 7, 3),
    (b"!L11 5", 7, 2),
    (b"N0", 8, 1),
    (b"N401 X5", 8, 1),
    (b"N1000", 8, 1),
    (b"L09 115001", 8, 1),
    (b"L11 100000000", 8, 1),
];

#[test]
fn refusals(rt: HostRuntime) -> Result<(), Fail> {
    let settings = Settings::new::<PinAxis>();
    for (line, number, place) in REFUSED {
        let fault = read(line, &settings).err().ok_or("not refused")?;
        assert_eq!(rt; fault.number(), number);
        assert_eq!(rt; fault.place(), place);
    }
    Ok(())
}

fn ordered(line: &[u8]) -> Result<Order, WordFault> {
    read(line, &Settings::new::<PinAxis>())
}

fn act(line: Option<u32>, code: HostCode) -> Result<Order, WordFault> {
    Ok(Order::Act { line, code })
}

#[test]
fn kinds_of_order(rt: HostRuntime) {
    assert_eq!(rt; ordered(b"*"), Ok(Order::Clear));
    assert_eq!(rt; ordered(b"$"), Ok(Order::Hold));
    assert_eq!(rt; ordered(b"#"), Ok(Order::Stop));
    let asked = Order::Transfer {
        code: HostCode::SendPosition,
    };
    assert_eq!(rt; ordered(b"!  H17 "), Ok(asked));
    assert_eq!(rt; ordered(b"H17"), act(None, HostCode::SendPosition));
    assert_eq!(rt; ordered(b"N12H0013"), act(Some(12), HostCode::SendLine));
    assert_eq!(rt; ordered(b"N1400"), Ok(Order::Point { line: 400 }));
}

#[test]
fn stored_fields(rt: HostRuntime) {
    let named = Order::Store {
        line: Some(12),
        fields: Fields {
            code: Some(ProgramCode::Incremental),
            x: Some(-34_567_890),
            feed: Some(2_345_678),
        },
    };
    assert_eq!(rt; ordered(b"N12G91X-1234567890F12345678"), Ok(named));
    let unnamed = Order::Store {
        line: None,
        fields: Fields {
            code: None,
            x: Some(0),
            feed: Some(0),
        },
    };
    assert_eq!(rt; ordered(b"F0 X-0"), Ok(unnamed));
}

// Lines that set a parameter, its code, and the number.
const SET: [(&[u8], u8, i32); 10] = [
    (b"L11 5", 11, 5),
    (b"L11+5", 11, 5),
    (b"L18 -99999999", 18, -99_999_999),
    (b"L9911 100000042", 11, 42),
    (b"L08 +", 8, 1),
    (b"L08-", 8, -1),
    (b"L08 -0", 8, -1),
    (b"L8 +77777", 8, 1),
    (b"L108   -", 8, -1),
    (b"  L06 3  ", 6, 3),
];

#[test]
fn settings_of_parameters(rt: HostRuntime) -> Result<(), Fail> {
    for (line, code, number) in SET {
        let Order::Set { setting } = ordered(line)? else {
            return Err(Fail::new("not set"));
        };
        assert_eq!(rt; setting.parameter.code(), code);
        assert_eq!(rt; setting.number, number);
    }
    Ok(())
}
