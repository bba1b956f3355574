// Samples and what is accepted of them, worked by hand.
use axis::direction::Direction;
use inputs::panel::{Input, Panel, Turned};

const HOME: u8 = 0b100;

// Samples, and whether home is active after each.
const HOME_SAMPLES: [(u8, bool); 14] = [
    (HOME, false),
    (HOME, false),
    (0, false),
    (HOME, false),
    (HOME, false),
    (HOME, true),
    (0, true),
    (0, true),
    (HOME, true),
    (0, true),
    (0, true),
    (0, false),
    (0xff, false),
    (0xff, false),
];

#[test]
fn three_samples(rt: HostRuntime) {
    let mut panel = Panel::new();
    for (sample, home) in HOME_SAMPLES {
        panel.sample(sample);
        assert_eq!(rt; panel.is_home(), home);
    }
}

// Clear, hold and stop, bits 3, 4 and 7, turn active once.
#[test]
fn turned_once(rt: HostRuntime) {
    let mut panel = Panel::new();
    let none = Turned {
        clear: false,
        hold: false,
        stop: false,
    };
    assert_eq!(rt; panel.sample(0x98), none);
    assert_eq!(rt; panel.sample(0x98), none);
    assert_eq!(rt;
        panel.sample(0x90),
        Turned {
            clear: false,
            hold: true,
            stop: true,
        }
    );
    assert_eq!(rt; panel.sample(0x98), none);
}

#[test]
fn limits_or_inputs(rt: HostRuntime) {
    let mut panel = Panel::new();
    for sample in [0x21; 3] {
        panel.sample(sample);
    }
    assert!(rt; panel.forbids(Direction::Clockwise, false));
    assert!(rt; !panel.forbids(Direction::Counterclockwise, false));
    assert!(rt; !panel.forbids(Direction::Clockwise, true));
    assert_eq!(rt; panel.input(Input::First, false), Some(true));
    assert_eq!(rt; panel.input(Input::Second, false), Some(false));
    assert_eq!(rt; panel.input(Input::Third, false), None);
    assert_eq!(rt; panel.input(Input::Third, true), Some(true));
    assert_eq!(rt; panel.input(Input::Fourth, true), Some(false));
}
