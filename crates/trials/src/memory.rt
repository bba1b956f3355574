// Storing into program memory: whole, or not at all.
use orders::heard::Fields;
use orders::order::Order;
use pin::drive::PinAxis;
use program::clearing::{UNPROGRAMMED, clear};
use program::fault::OrderFault;
use program::number::LineNumber;
use program::taking::take;
use settings::values::Settings;
use std::test::Fail;

const OLD: Fields = Fields {
    code: None,
    x: Some(7),
    feed: Some(70),
};

// Refused at the first, second and third word, busy, and for what it is; number and place.
const REFUSED: [(&[u8], bool, u8, usize); 9] = [
    (b"N0 X5 F6", false, 8, 1),
    (b"X F6", false, 5, 1),
    (b"N2 X F6", false, 5, 4),
    (b"N2 G05 X5", false, 7, 4),
    (b"N2 X5 F", false, 5, 7),
    (b"X5 F6 X7", false, 6, 7),
    (b"N2 X5 F6 ?", false, 4, 10),
    (b"N2 X5 F6", true, 9, 0),
    (b"", true, 3, 0),
];

#[test]
fn refused_words(rt: HostRuntime) -> Result<(), Fail> {
    let settings = Settings::new::<PinAxis>();
    for (line, busy, number, place) in REFUSED {
        let mut lines = [OLD; 400];
        let fault = take(&mut lines, LineNumber::first(), line, &settings, busy)
            .err()
            .ok_or("not refused")?;
        assert_eq!(rt; fault.number(), number);
        assert_eq!(rt; fault.place(), place);
        assert_eq!(rt; lines, [OLD; 400]);
    }
    Ok(())
}

#[test]
fn memory_of_another_size(rt: HostRuntime) {
    let settings = Settings::new::<PinAxis>();
    let first = LineNumber::first();
    let mut none: [Fields; 0] = [];
    let mut fewer = [OLD; 399];
    let mut more = [OLD; 401];
    let memory = OrderFault::Memory;
    assert_eq!(rt;
        take(&mut none, first, b"N1 X5", &settings, false),
        Err(memory)
    );
    assert_eq!(rt; take(&mut fewer, first, b"", &settings, true), Err(memory));
    assert_eq!(rt;
        take(&mut more, first, b"N1 X5", &settings, false),
        Err(memory)
    );
    assert_eq!(rt; clear(&mut more, first), Err(memory));
    assert_eq!(rt; fewer, [OLD; 399]);
    assert_eq!(rt; more, [OLD; 401]);
    assert_eq!(rt; memory.number(), 14);
}

#[test]
fn stored_whole(rt: HostRuntime) -> Result<(), Fail> {
    let settings = Settings::new::<PinAxis>();
    let first = LineNumber::first();
    let mut lines = [OLD; 400];
    let taken = take(&mut lines, first, b"N400 X-5", &settings, false)?;
    let last = Fields {
        x: Some(-5),
        ..UNPROGRAMMED
    };
    let order = Order::Store {
        line: Some(400),
        fields: last,
    };
    assert_eq!(rt; taken.line.number(), 400);
    assert_eq!(rt; taken.order, order);
    assert_eq!(rt; lines[399], last);
    assert!(rt; lines[..399].iter().all(|line| *line == OLD));
    assert!(rt; take(&mut lines, first, b"F9", &settings, false).is_ok());
    let feed = Fields {
        feed: Some(9),
        ..UNPROGRAMMED
    };
    assert_eq!(rt; lines[0], feed);
    // Neither a lone N nor an H stores anything.
    assert!(rt; take(&mut lines, first, b"N2", &settings, false).is_ok());
    assert!(rt; take(&mut lines, first, b"N2 H17", &settings, true).is_ok());
    assert_eq!(rt; lines[1], OLD);
    assert!(rt; clear(&mut lines, first).is_ok());
    assert_eq!(rt; lines[0], UNPROGRAMMED);
    assert_eq!(rt; lines[1], OLD);
    Ok(())
}
