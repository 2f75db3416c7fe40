//! Faults of a map beside their texts. Those of the other kinds are rows of tests/cli.

use std::test::Fail;
use tgap_model::{LimitKind, MapFault, Point};
use wire_text::fault_text;

/// A limit, and faults with numbers below zero.
const FAULTS: &[(MapFault, &str)] = &[
    (
        MapFault::Limit {
            which: LimitKind::Points,
            count: 524_289,
        },
        "refused 9 limit points 524289\n",
    ),
    (
        MapFault::NodeDisagrees {
            node: Point { x: 10, y: -10 },
            spoke: 0,
            next: 2,
            left: 1,
            right: 3,
        },
        "refused 16 node 10 -10 0 2 1 3\n",
    ),
    (
        MapFault::StackDisagrees {
            line: -8,
            place: 1,
            upper: 2,
            lower: 0,
        },
        "refused 17 stack -8 1 2 0\n",
    ),
];

#[test]
fn faults(rt: HostRuntime) -> Result<(), Fail> {
    for (fault, text) in FAULTS {
        assert_eq!(rt; fault_text(rt.alloc(), fault)?.as_slice(), text.as_bytes());
    }
    Ok(())
}
