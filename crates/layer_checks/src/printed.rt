// Every kind of a layer file's fault is printed.
use layer_fields::fault::{Cause, LayerFault};
use paths::PathFault;
use std::test::Fail;

const CAUSES: [Cause; 11] = [
    Cause::Field,
    Cause::Version,
    Cause::Whiteout,
    Cause::Order,
    Cause::Parent,
    Cause::Value,
    Cause::TooMany,
    Cause::Count,
    Cause::Path(PathFault::TooLong),
    Cause::Path(PathFault::BadName(7)),
    Cause::Path(PathFault::TooDeep),
];

const PRINTED: &str = "\
l 12 40
l 12 41
l 12 42
l 12 43
l 12 44
l 12 45
l 12 46
l 12 47
l 12 p 1 0
l 12 p 2 7
l 12 p 3 8";

#[test]
fn printed(rt: HostRuntime) -> Result<(), Fail> {
    for (cause, wanted) in CAUSES.iter().zip(PRINTED.lines()) {
        let fault = LayerFault {
            at: 12,
            cause: *cause,
        };
        let said = fault.to_string(rt.alloc())?;
        assert_eq!(rt; said.as_str(), wanted);
    }
    Ok(())
}
