// Traces that are checked.
use crate::answers::TRACE;
use fr_base::{NodeId, State};
use fr_check::check;
use fr_cluster::Params;
use fr_coverage::Gap;
use fr_samples::{TWO_ON_A, params_of};
use fr_trace::read;
use fr_verdict::{Unlawful, is_named, timed_cycles};
use std::alloc::Global;
use std::test::Fail;

// What is told of a trace: the first double cycle in sync, and the greatest skew with its cycle and macrotick; the record whose
// state is another, with the one that it keeps; the counts that leave it uncovered; or something else.
#[derive(Clone, Copy, PartialEq)]
enum Told {
    Lawful(Option<u32>, i64, u32, i64),
    Turn(u64, State),
    Count(u32, u32),
    Other,
}

const ALONE: &str = "\
run,1,,,,,,\n\
arbitrary,2,,,,,,\n\
cycle,0,1,0,1000000,0,0,active\n\
cycle,1,1,200000000000,1000000,0,0,passive\n\
";

// A trace, whether it names node 2 arbitrary, and what is told of it. Each has two cycles.
const CHECKED: &[(&str, bool, Told)] = &[
    (TRACE, false, Told::Lawful(Some(0), 2_500_000, 0, 0)),
    (ALONE, true, Told::Turn(4, State::Passive)),
    (
        "run,1,,,,,,\narbitrary,1,,,,,,\narbitrary,2,,,,,,\n",
        true,
        Told::Count(0, 2),
    ),
];

fn refusal(unlawful: &Unlawful) -> Told {
    match unlawful {
        Unlawful::Turn { number, kept, .. } => Told::Turn(*number, *kept),
        Unlawful::Uncovered(Gap::Count { correct, arbitrary }) => Told::Count(*correct, *arbitrary),
        _ => Told::Other,
    }
}

fn is_told(
    alloc: Global,
    params: &Params,
    text: &str,
    named: bool,
    told: Told,
) -> Result<bool, Fail> {
    let trace = read(alloc, params, text.as_bytes())?;
    let verdict = match check(params, &trace) {
        Ok(verdict) => Told::Lawful(
            verdict.synced,
            verdict.skew,
            verdict.cycle,
            verdict.macrotick,
        ),
        Err(unlawful) => refusal(&unlawful),
    };
    Ok(is_named(&trace, NodeId(2)) == named && timed_cycles(&trace).len() == 2 && verdict == told)
}

// The place of the first of these of which something else is told.
fn first_other(alloc: Global) -> Result<Option<usize>, Fail> {
    let params = params_of(alloc, &[], TWO_ON_A)?;
    for (place, (text, named, told)) in CHECKED.iter().enumerate() {
        if !is_told(alloc, &params, text, *named, *told)? {
            return Ok(Some(place));
        }
    }
    Ok(None)
}

#[test]
fn traces_are_checked(rt: HostRuntime) -> Result<(), Fail> {
    assert_eq!(rt; first_other(rt.alloc())?, None);
    Ok(())
}
