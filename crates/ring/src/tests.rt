// Runs of puts and takes, worked by hand.
use crate::{Full, Ring};

#[test]
fn goes_round(rt: HostRuntime) {
    let mut cells = [0u8; 3];
    let mut ring = Ring::new(&mut cells);
    assert_eq!(rt; ring.take(), None);
    assert_eq!(rt; ring.push(1), Ok(()));
    assert_eq!(rt; ring.push(2), Ok(()));
    assert_eq!(rt; ring.take(), Some(1));
    assert_eq!(rt; ring.push(3), Ok(()));
    assert_eq!(rt; ring.push(4), Ok(()));
    assert_eq!(rt; ring.push(5), Err(Full));
    assert_eq!(rt; ring.len(), 3);
    assert_eq!(rt; Full.number(), 15);
    assert_eq!(rt; ring.take(), Some(2));
    assert_eq!(rt; ring.push(6), Ok(()));
    assert_eq!(rt; ring.take(), Some(3));
    assert_eq!(rt; ring.take(), Some(4));
    assert_eq!(rt; ring.take(), Some(6));
    assert_eq!(rt; ring.take(), None);
}

#[derive(Clone, Copy, PartialEq, Eq, Debug)]
struct Note {
    line: u16,
    left: i32,
}

#[test]
fn holds_anything(rt: HostRuntime) {
    let none = Note { line: 0, left: 0 };
    let mut one = [none; 1];
    let mut ring = Ring::new(&mut one);
    let first = Note { line: 7, left: -3 };
    assert_eq!(rt; ring.push(first), Ok(()));
    assert_eq!(rt; ring.push(none), Err(Full));
    assert_eq!(rt; ring.take(), Some(first));
}

#[test]
fn no_memory(rt: HostRuntime) {
    let mut cells = [0u8; 0];
    let mut ring = Ring::new(&mut cells);
    assert_eq!(rt; ring.push(1), Err(Full));
    assert_eq!(rt; ring.take(), None);
}
