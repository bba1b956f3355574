// The table of parameters at resolution 10: code, least, greatest, start.
use codes::coded::Coded;
use pin::drive::PinAxis;
use settings::parameter::Parameter;
use settings::values::Settings;
use std::test::Fail;

const TABLE: [(u8, i32, i32, i32); 16] = [
    (6, 1, 3, 2),
    (9, 1, 115_000, 10_000),
    (11, 1, 99_999_999, 10_000),
    (12, 0, 115_000, 3_000),
    (13, 1, 99_999_999, 10),
    (14, 1, 115_000, 10_000),
    (17, -99_999_999, 99_999_999, 0),
    (18, -99_999_999, 99_999_999, 0),
    (19, -99_999_999, 99_999_999, 0),
    (41, 1, 400, 1),
    (43, 0, 9_999, 0),
    (45, 0, 1, 0),
    (47, 0, 99_999_999, 0),
    (49, 0, 99, 0),
    (66, -99_999_999, 99_999_999, 0),
    (67, 0, 1, 0),
];

#[test]
fn ends_of_ranges(rt: HostRuntime) -> Result<(), Fail> {
    let mut settings = Settings::new::<PinAxis>();
    for (code, least, most, start) in TABLE {
        let parameter = Parameter::try_from(u32::from(code))?;
        assert_eq!(rt; parameter.code(), code);
        assert_eq!(rt; settings.get(parameter), start);
        assert!(rt; settings.set(parameter, least.saturating_sub(1)).is_err());
        assert!(rt; settings.set(parameter, most.saturating_add(1)).is_err());
        assert_eq!(rt; settings.get(parameter), start);
        settings.set(parameter, most)?;
        assert_eq!(rt; settings.get(parameter), most);
        settings.set(parameter, least)?;
        assert_eq!(rt; settings.get(parameter), least);
    }
    Ok(())
}

// Of the home direction only the sign counts.
#[test]
fn home_direction(rt: HostRuntime) -> Result<(), Fail> {
    let mut settings = Settings::new::<PinAxis>();
    let home = Parameter::try_from(8)?;
    assert_eq!(rt; settings.get(home), 1);
    for (number, kept) in [(-1, -1), (0, 1), (i32::MIN, -1), (i32::MAX, 1), (-99, -1)] {
        settings.set(home, number)?;
        assert_eq!(rt; settings.get(home), kept);
    }
    Ok(())
}

#[test]
fn no_other_codes(rt: HostRuntime) {
    assert_eq!(rt; (0..=255).filter_map(Parameter::coded).count(), 17);
}
