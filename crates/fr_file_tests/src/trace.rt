use crate::params::params_of;
use fr_cluster::Params;
use fr_samples::{THREE_ON_A, TWO_ON_A};
use fr_trace::{Trace, read};
use std::alloc::Global;
use std::test::Fail;

// Two clocks with an offset, over one double cycle.
const TRACE: &str = "\
run,1,,,,,,\n\
cycle,0,1,0,1000000,0,0,active\n\
dev,0,1,2,A,2,,\n\
cycle,0,2,2500000,1000000,0,0,active\n\
dev,0,2,1,A,-3,,\n\
cycle,1,1,200000000000,1000000,0,1,active\n\
dev,1,1,2,A,2,,\n\
cycle,1,2,200002500000,1000000,0,-1,active\n\
dev,1,2,1,A,-3,,\n\
";

// Where all nodes are arbitrary no row of a cycle comes.
const ARBITRARY: &str = "run,2,,,,,,\narbitrary,1,,,,,,\narbitrary,2,,,,,,\n";

// Node 3 joins with double cycle 0, and has rows in the last two cycles.
const JOINED: &str = "\
run,4,,,,,,\n\
join,3,1,0,,,,\n\
cycle,0,1,0,1000000,0,0,active\ncycle,0,2,0,1000000,0,0,active\n\
cycle,1,1,0,1000000,0,0,active\ncycle,1,2,0,1000000,0,0,active\n\
cycle,2,1,0,1000000,0,0,active\ncycle,2,2,0,1000000,0,0,active\n\
cycle,3,1,0,1000000,0,0,active\ncycle,3,2,0,1000000,0,0,active\n\
cycle,4,1,0,1000000,0,0,active\ncycle,4,2,0,1000000,0,0,active\n\
cycle,5,1,0,1000000,0,0,active\ncycle,5,2,0,1000000,0,0,active\n\
cycle,6,1,0,1000000,0,0,active\ncycle,6,2,0,1000000,0,0,active\ncycle,6,3,0,1000000,0,0,active\n\
cycle,7,1,0,1000000,0,0,active\ncycle,7,2,0,1000000,0,0,active\ncycle,7,3,0,1000000,0,0,active\n\
";

// A node that joins, the double cycle in which it listens, and the node to which.
type Joining = (u8, u32, u8);

// The nodes of a cluster, a trace, how many double cycles and cycles it has, which nodes are arbitrary, and who joins.
const SAID: &[(&str, &str, u32, usize, &[u8], &[Joining])] = &[
    (TWO_ON_A, TRACE, 1, 2, &[], &[]),
    (TWO_ON_A, ARBITRARY, 2, 4, &[1, 2], &[]),
    (THREE_ON_A, JOINED, 4, 8, &[], &[(3, 0, 1)]),
];

fn trace_of(alloc: Global, params: &Params, text: &str) -> Result<Trace, Fail> {
    match read(alloc, params, text.as_bytes()) {
        Ok(trace) => Ok(trace),
        Err(_) => Err(Fail::new("no trace")),
    }
}

// All zero where there is none.
fn join_at(trace: &Trace, place: usize) -> Joining {
    match trace.joins().get(place) {
        Some(row) => (row.node.0, row.join.double, row.join.reference.0),
        None => (0, 0, 0),
    }
}

fn has_joins(trace: &Trace, joins: &[Joining]) -> bool {
    for (place, joining) in joins.iter().enumerate() {
        if join_at(trace, place) != *joining {
            return false;
        }
    }
    trace.joins().len() == joins.len()
}

fn has_arbitrary(trace: &Trace, nodes: &[u8]) -> bool {
    let named = trace.arbitrary_nodes();
    trace.arbitrary() as usize == nodes.len()
        && named.len() == nodes.len()
        && named
            .iter()
            .zip(nodes)
            .all(|(node, number)| node.0 == *number)
}

// The place of the first row of which a trace says otherwise.
fn first_wrong(alloc: Global) -> Result<Option<usize>, Fail> {
    for (place, (nodes, text, doubles, cycles, arbitrary, joins)) in SAID.iter().enumerate() {
        let params = params_of(alloc, &[], nodes, &[])?;
        let trace = trace_of(alloc, &params, text)?;
        let named = has_arbitrary(&trace, arbitrary) && has_joins(&trace, joins);
        if (trace.doubles(), trace.cycles().len()) != (*doubles, *cycles) || !named {
            return Ok(Some(place));
        }
    }
    Ok(None)
}

#[test]
fn answers_what_the_file_says(rt: HostRuntime) -> Result<(), Fail> {
    assert_eq!(rt; first_wrong(rt.alloc())?, None);
    Ok(())
}
