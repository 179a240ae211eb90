//! The cluster of all tests: its files, and how a test changes them. Texts alone: nothing that is proved stands on them.
#![tactic(auto)]

use fr_base::NodeId;
use fr_cluster::Params;
use fr_params::{ParamFault, read};
use std::alloc::{AllocError, Global};

/// The numbers of a cluster with a cycle of 5 ms at a microtick of 25 ns.
pub const NUMBERS: &str = "\
param,gMacroPerCycle,5000,,\n\
param,pMicroPerCycle,200000,,\n\
param,gNumberOfStaticSlots,140,,\n\
param,gdStaticSlot,30,,\n\
param,gdActionPointOffset,7,,\n\
param,gdNIT,800,,\n\
param,gPayloadLengthStatic,0,,\n\
param,gOffsetCorrectionStart,4900,,\n\
param,gMaxWithoutClockCorrectionPassive,2,,\n\
param,gMaxWithoutClockCorrectionFatal,4,,\n\
param,pAllowHaltDueToClock,1,,\n\
param,pAllowPassiveToActive,2,,\n\
param,pClusterDriftDamping,4,,\n\
param,pOffsetCorrectionOut,254,,\n\
param,pRateCorrectionOut,81,,\n\
param,pDelayCompensation,0,,\n\
param,xRateBound,200,,\n\
param,xChangeBound,0,,\n\
param,xDelayError,500000,,\n\
";

/// Lines with which nodes may join the cluster: an action point and limits that suffice for whoever follows.
pub const JOINING: &[(&str, &str)] = &[
    (
        "param,gdActionPointOffset",
        "param,gdActionPointOffset,12,,",
    ),
    (
        "param,pOffsetCorrectionOut",
        "param,pOffsetCorrectionOut,454,,",
    ),
    ("param,pRateCorrectionOut", "param,pRateCorrectionOut,84,,"),
];

pub const TWO_ON_A: &str = "node,1,1,A,1\nnode,2,2,A,1\n";

pub const TWO_ON_BOTH: &str = "node,1,1,AB,1\nnode,2,2,AB,1\n";

pub const THREE_ON_A: &str = "node,1,1,A,1\nnode,2,2,A,1\nnode,3,3,A,1\n";

pub const FOUR_ON_A: &str = "node,1,1,A,1\nnode,2,2,A,1\nnode,3,3,A,1\nnode,4,4,A,1\n";

/// One double cycle in which all clocks run as they should.
pub const ONE: &str = "doubles,1,,,,\n";

/// Two double cycles in which node 2 starts two and a half microticks later.
pub const LATER: &str = "doubles,2,,,,\nstart,2,2500000,0,,\n";

/// Two double cycles of oscillators that lie 200 ticks in a million apart.
pub const APART: &str = "doubles,2,,,,\nlength,1,0,1000100,,\nlength,2,0,999900,,\n";

/// Node 4 says its frames late to one node, early to another, and not at all to a third.
pub const TWO_FACED: &str = "\
arbitrary,4,,,,,\n\
say,0,4,1,A,100000000,\n\
say,1,4,1,A,100000000,\n\
say,0,4,2,A,-100000000,\n\
say,1,4,2,A,-100000000,\n\
";

/// The report of a run from what its lines say, so that the words of tests stand here alone. First nodes, sync nodes,
/// arbitrary ones and double cycles, precision, coverage, first double cycle in sync, greatest skew with cycle and
/// macrotick. Then frames and sum of CRCs of each channel, what became of frames, cut terms, and a row for each node.
#[macro_export]
macro_rules! report {
    (
        [$nodes:literal, $sync:literal, $arbitrary:literal, $doubles:literal]
        $precision:literal $covered:literal $in_sync:literal
        [$skew:literal, $cycle:literal, $macrotick:literal]
        [$on_a:literal, $of_a:literal]
        [$on_b:literal, $of_b:literal]
        [
            $stored:literal, $outside:literal, $damaged:literal, $id:literal, $count:literal, $length:literal,
            $plain:literal
        ]
        $cut:literal
        $([$node:literal, $state:literal, $next:literal, $rate:literal, $offset:literal])*
    ) => {
        concat!(
            "nodes ", $nodes, " sync ", $sync, " arbitrary ", $arbitrary, " doubles ", $doubles, "\n",
            "precision ", $precision, "\n",
            "covered ", $covered, "\n",
            "in sync ", $in_sync, "\n",
            "greatest skew ", $skew, " cycle ", $cycle, " macrotick ", $macrotick, "\n",
            "sent A ", $on_a, " xor ", $of_a, "\n",
            "sent B ", $on_b, " xor ", $of_b, "\n",
            "heard stored ", $stored, " outside ", $outside, " damaged ", $damaged,
            " id ", $id, " cycle ", $count, " length ", $length, " plain ", $plain, "\n",
            "cut ", $cut, "\n",
            $("node ", $node, " ", $state, " next ", $next, " rate ", $rate, " offset ", $offset, "\n",)*
        )
    };
}

pub const LATER_REPORT: &str = report! {
    [2, 2, 0, 2] 252043600 "yes" 0
    [2500000, 0, 0]
    [8, "000000"]
    [0, "000000"]
    [8, 0, 0, 0, 0, 0, 0]
    0
    [1, "active", "800001000000", 0, 0]
    [2, "active", "800001500000", 0, 0]
};

pub const APART_REPORT: &str = report! {
    [2, 2, 0, 2] 252043600 "yes" 1
    [79200000, 1, 4900]
    [8, "000000"]
    [0, "000000"]
    [8, 0, 0, 0, 0, 0, 0]
    0
    [1, "active", "800003992400", "-16", "-24"]
    [2, "active", "799994992500", 16, 23]
};

/// The text with each line that begins so replaced.
pub fn changed(alloc: Global, old: &str, values: &[(&str, &str)]) -> Result<String, AllocError> {
    let mut text = String::new(alloc);
    for line in old.lines() {
        let mut shown = line;
        for (name, value) in values {
            if line.starts_with(*name) {
                shown = value;
            }
        }
        text.push_str(shown)?;
        text.push('\n')?;
    }
    Ok(text)
}

/// The parameter file of the cluster, with lines in the place of those that begin so, and with these nodes and
/// further slots.
pub fn file_of(alloc: Global, values: &[(&str, &str)], nodes: &str) -> Result<String, AllocError> {
    let mut text = changed(alloc, NUMBERS, values)?;
    text.push_str(nodes)?;
    Ok(text)
}

pub fn params_of(
    alloc: Global,
    values: &[(&str, &str)],
    nodes: &str,
) -> Result<Params, ParamFault> {
    match file_of(alloc, values, nodes) {
        Ok(text) => read(alloc, text.as_bytes()),
        Err(_) => Err(ParamFault::NoMemory),
    }
}

/// The text with others in the place of some of its lines, which are counted from 1.
pub fn edited(alloc: Global, text: &str, edits: &[(usize, &str)]) -> Result<String, AllocError> {
    let mut made = String::new(alloc);
    for (place, line) in text.lines().enumerate() {
        let mut shown = line;
        for (number, other) in edits {
            if place + 1 == *number {
                shown = other;
            }
        }
        made.push_str(shown)?;
        made.push('\n')?;
    }
    Ok(made)
}

/// The node of this number.
pub fn node(number: u8) -> Option<NodeId> {
    if number < 1 || 64 < number {
        return None;
    }
    Some(NodeId(number))
}
