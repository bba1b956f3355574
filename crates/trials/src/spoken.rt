// Orders and refusals in words, as docs/bench.md gives them.
use codes::host::HostCode;
use codes::program::ProgramCode;
use orders::fault::WordFault;
use orders::heard::{Fields, Setting};
use orders::order::Order;
use settings::parameter::Parameter;
use std::test::Fail;
use words::word::ByteFault;

const FIELDS: Fields = Fields {
    code: Some(ProgramCode::Incremental),
    x: Some(-100),
    feed: Some(2000),
};

fn set(parameter: Parameter, number: i32) -> Order {
    Order::Set {
        setting: Setting { parameter, number },
    }
}

#[test]
fn orders_in_words(rt: HostRuntime) -> Result<(), Fail> {
    let code = HostCode::SendPosition;
    let said = [
        (Order::Clear, "clear"),
        (Order::Hold, "hold"),
        (Order::Stop, "stop"),
        (Order::Transfer { code }, "transfer H17"),
        (Order::Point { line: 12 }, "set the pointer to line 12"),
        (
            Order::Store {
                line: Some(12),
                fields: FIELDS,
            },
            "store at line 12: G91 X-100 F2000",
        ),
        (
            Order::Store {
                line: None,
                fields: Fields::NONE,
            },
            "store at the pointer's line:",
        ),
        (set(Parameter::Acceleration, 5), "set L11 to 5"),
        (set(Parameter::HomeDirection, -1), "set L08 to -"),
        (set(Parameter::HomeDirection, 1), "set L08 to +"),
        (Order::Act { line: None, code }, "do H17"),
        (
            Order::Act {
                line: Some(5),
                code: HostCode::SendLine,
            },
            "do H13 with line 5",
        ),
    ];
    for (order, words) in said {
        assert_eq!(rt; format!(in rt.alloc(); "{order}")?.as_str(), words);
    }
    Ok(())
}

#[test]
fn refusals_in_words(rt: HostRuntime) -> Result<(), Fail> {
    let place = 7;
    let faults = [
        (WordFault::from(ByteFault::TooLong), "refused 1 at 0"),
        (WordFault::from(ByteFault::Blank), "refused 3 at 0"),
        (
            WordFault::from(ByteFault::OpensNone { place }),
            "refused 4 at 7",
        ),
        (WordFault::Missing { place }, "refused 5 at 7"),
        (WordFault::Foreign { place }, "refused 6 at 7"),
        (WordFault::NoCode { place }, "refused 7 at 7"),
        (WordFault::OutOfRange { place }, "refused 8 at 7"),
    ];
    for (fault, words) in faults {
        assert_eq!(rt; format!(in rt.alloc(); "{fault}")?.as_str(), words);
    }
    Ok(())
}
