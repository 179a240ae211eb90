// What the readers' errors say of themselves.
use fr_base::Reason;
use fr_cluster::ParamName;
use fr_cold::PowerFault;
use fr_drift::DriftFault;
use fr_params::ParamFault;
use fr_script::ScriptFault;
use fr_trace::TraceFault;
use std::alloc::{AllocError, Global};
use std::fmt::Display;
use std::test::Fail;

const PARAMS: &[(ParamFault, &str)] = &[
    (
        ParamFault::Row {
            number: 21,
            reason: Reason::Role,
        },
        "record 21 is refused: Role",
    ),
    (ParamFault::Missing(ParamName::gdNIT), "gdNIT is missing"),
    (ParamFault::Constraint(6), "constraint 6 fails"),
    (ParamFault::NoMemory, "out of memory"),
];

const DRIFT: &[(DriftFault, &str)] = &[
    (
        DriftFault::Row {
            number: 2,
            reason: Reason::UnknownNode,
        },
        "record 2 is refused: UnknownNode",
    ),
    (DriftFault::MissingDoubles, "doubles is missing"),
    (DriftFault::NoMemory, "out of memory"),
];

const SCRIPT: &[(ScriptFault, &str)] = &[
    (
        ScriptFault::Row {
            number: 1,
            reason: Reason::NotHex,
        },
        "record 1 is refused: NotHex",
    ),
    (ScriptFault::NoMemory, "out of memory"),
];

const TRACE: &[(TraceFault, &str)] = &[
    (
        TraceFault::Row {
            number: 70_000,
            reason: Reason::BadChannel,
        },
        "record 70000 is refused: BadChannel",
    ),
    (
        TraceFault::Incomplete { rows: 9 },
        "it ends after 9 records",
    ),
    (TraceFault::NoMemory, "out of memory"),
];

const POWER: &[(PowerFault, &str)] = &[
    (
        PowerFault::Row {
            number: 3,
            reason: Reason::Repeated,
        },
        "record 3 is refused: Repeated",
    ),
    (PowerFault::MissingCycles, "cycles is missing"),
    (PowerFault::NoMemory, "out of memory"),
];

// The place of the first of these that says something else.
pub fn first_other<F: Display>(
    alloc: Global,
    faults: &[(F, &str)],
) -> Result<Option<usize>, AllocError> {
    for (place, (fault, text)) in faults.iter().enumerate() {
        let said = format!(in alloc; "{fault}")?;
        if said.as_str() != *text {
            return Ok(Some(place));
        }
    }
    Ok(None)
}

#[test]
fn errors_say_what_they_are(rt: HostRuntime) -> Result<(), Fail> {
    assert_eq!(rt; first_other(rt.alloc(), PARAMS)?, None);
    assert_eq!(rt; first_other(rt.alloc(), DRIFT)?, None);
    assert_eq!(rt; first_other(rt.alloc(), SCRIPT)?, None);
    assert_eq!(rt; first_other(rt.alloc(), TRACE)?, None);
    assert_eq!(rt; first_other(rt.alloc(), POWER)?, None);
    Ok(())
}
