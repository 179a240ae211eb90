use fr_log::read;
use fr_samples::params_of;
use fr_sightings::{Sighting, SightingList, Tally, sightings};
use std::alloc::{AllocError, Global};
use std::test::Fail;

// Three sync nodes, the first on both channels, the third in the last slot and no coldstart node. Slot 4 is a further
// one of the second.
const NODES: &str = "node,1,1,AB,1\nnode,2,2,A,1\nnode,3,140,A,0\nslot,4,2,0,1\n";

// A cycle is 5,000,000 units long.
const HEAD: &str = "unit,40000,,,\ndrift,50,,,\ndelay,,,0,0\n";

// The other records of a log; of each sighting, and of each frame that does not come in time, its number, node, channel
// and stamp; how many entries are sightings, damaged, of an arbitrary node, of another kind, strays, and behind a silence.
const LOGS: &[(&str, &str, &str, &str)] = &[
    // Two nodes in two cycles.
    (
        "\
head,7000,A,3801006F00,\n\
head,37062,A,380200E8C0,\n\
frame,5007000,A,3801006F0179B420,\n\
head,5037062,A,380200E8C1,\n\
",
        "0 1 A 7000, 0 2 A 37062, 1 1 A 5007000, 1 2 A 5037062, ",
        "",
        "4 0 0 0 0 0",
    ),
    // A count that jumps.
    (
        "\
head,7000,A,3801006F00,\n\
head,5007000,A,3801006F09,\n\
head,10007000,A,3801006F02,\n\
",
        "0 1 A 7000, 2 1 A 10007000, ",
        "0 1 A 5007000, ",
        "2 0 0 0 1 0",
    ),
    // The count begins again.
    (
        "\
head,7000,A,3801006F3F,\n\
head,5007000,A,3801006F00,\n\
",
        "63 1 A 7000, 64 1 A 5007000, ",
        "",
        "2 0 0 0 0 0",
    ),
    // The count of the cycle before, in one double cycle and over two.
    (
        "\
head,5007000,A,3801006F01,\n\
head,5007000,A,308C00C980,\n\
head,10007000,A,3801006F02,\n\
head,10007000,A,308C00C981,\n\
",
        "1 1 A 5007000, 0 3 A 5007000, 2 1 A 10007000, ",
        "",
        "3 0 0 0 1 0",
    ),
    // A silence of thirty cycles.
    (
        "\
head,7000,A,3801006F00,\n\
head,150007000,A,3801006F1E,\n\
",
        "0 1 A 7000, 30 1 A 150007000, ",
        "",
        "2 0 0 0 0 0",
    ),
    // A longer one.
    (
        "\
head,7000,A,3801006F00,\n\
head,150007001,A,3801006F1E,\n\
head,155007000,A,3801006F1F,\n\
",
        "0 1 A 7000, ",
        "",
        "1 0 0 0 0 2",
    ),
    // Unused, dynamic and further slots.
    (
        "\
head,7000,A,3809016440,\n\
head,7000,A,388D000C80,\n\
head,7000,A,2004002F80,\n\
",
        "",
        "",
        "0 0 0 3 0 0",
    ),
    // Damaged.
    (
        "\
head,7000,A,3801006F40,\n\
head,7000,A,2801011F80,\n\
head,7000,A,3800001240,\n\
head,7000,A,3801006F,\n\
head,7000,A,3801006F0000,\n\
frame,7000,A,3801006F0024D9E5,\n\
",
        "",
        "",
        "0 6 0 0 0 0",
    ),
    // An arbitrary node.
    (
        "\
arbitrary,2,,,\n\
head,7000,A,3801006F00,\n\
head,37000,A,380200E8C0,\n\
",
        "0 1 A 7000, ",
        "",
        "1 0 1 0 0 0",
    ),
    // Two clocks.
    (
        "\
head,7000,A,3801006F00,\n\
head,3037000,A,380200E8C0,\n\
head,5007000,A,3801006F01,\n\
head,8037000,A,380200E8C1,\n\
",
        "0 1 A 7000, 1 1 A 5007000, ",
        "0 2 A 3037000, 1 2 A 8037000, ",
        "2 0 0 0 2 0",
    ),
    // Both channels of a node.
    (
        "\
head,7000,A,3801006F00,\n\
head,7001,B,3801006F00,\n\
",
        "0 1 A 7000, 0 1 B 7001, ",
        "",
        "2 0 0 0 0 0",
    ),
    // A null frame, and one without the startup indicator where it is to have none.
    (
        "\
head,7000,A,1801006F00,\n\
head,4177000,A,308C00C980,\n\
",
        "0 1 A 7000, 0 3 A 4177000, ",
        "",
        "2 0 0 0 0 0",
    ),
];

// Logs with frames in the slots of nodes that do not send them: what the entries are, the other records of the log, its
// sightings, its irregular frames, and how many entries are of each kind.
const IRREGULAR: &[(&str, &str, &str, &str, &str)] = &[
    (
        "on a channel that the node of a key slot lacks",
        "\
head,7000,A,3801006F00,\n\
head,37000,B,380200E8C0,\n\
head,37001,A,380200E8C0,\n\
",
        "0 1 A 7000, 0 2 A 37001, ",
        "0 2 B 37000 2, ",
        "2 0 0 1 0 0",
    ),
    (
        "of another payload length",
        "\
head,7000,A,3801006F00,\n\
head,7000,B,3801028E40,\n\
head,5007000,B,3801006F01,\n\
head,5007000,A,1801028E41,\n\
",
        "0 1 A 7000, 1 1 B 5007000, ",
        "0 1 B 7000 1, 1 1 A 5007000 1, ",
        "2 0 0 2 0 0",
    ),
    (
        "without the sync indicator in a key slot, and with it in a further one",
        "\
head,7000,A,3801006F00,\n\
head,97000,A,3004015F00,\n\
head,4177000,A,208C01B900,\n\
",
        "0 1 A 7000, ",
        "0 2 A 97000 4, 0 3 A 4177000 140, ",
        "1 0 0 2 0 0",
    ),
    (
        "without the startup indicator of a coldstart node, and with it of another node",
        "\
head,7000,A,3801006F00,\n\
head,7000,B,300100D740,\n\
head,4177000,A,388C0071C0,\n\
",
        "0 1 A 7000, ",
        "0 1 B 7000 1, 0 3 A 4177000 140, ",
        "1 0 0 2 0 0",
    ),
    (
        "of a further slot, as it is sent, on the wrong channel, and with another payload length",
        "\
head,7000,A,3801006F00,\n\
head,97000,A,2004002F80,\n\
head,97000,B,2004002F80,\n\
head,97001,A,200402CEC0,\n\
head,97002,A,0004002F80,\n\
",
        "0 1 A 7000, ",
        "0 2 B 97000 4, 0 2 A 97001 4, ",
        "1 0 0 4 0 0",
    ),
    (
        "before the first sighting",
        "\
head,6000,B,380200E8C0,\n\
head,6001,A,3801028E40,\n\
head,7000,A,3801006F00,\n\
",
        "0 1 A 7000, ",
        "",
        "1 0 0 2 0 0",
    ),
    (
        "with no sighting",
        "\
head,7000,A,300100D740,\n\
",
        "",
        "",
        "0 0 0 1 0 0",
    ),
    (
        "at the end of the longest silence, and behind it",
        "\
head,7000,A,3801006F00,\n\
head,150007000,A,3801028E5E,\n\
head,150007001,A,3801028E5E,\n\
head,150007001,A,2004002F80,\n\
",
        "0 1 A 7000, ",
        "0 1 A 150007000 1, ",
        "1 0 0 2 0 1",
    ),
    (
        "at any time, of any cycle count",
        "\
head,5007000,A,3801006F01,\n\
head,5007001,B,3801028E5E,\n\
head,10007000,A,3801006F02,\n\
",
        "1 1 A 5007000, 2 1 A 10007000, ",
        "1 1 B 5007001 1, ",
        "2 0 0 1 0 0",
    ),
    (
        "in the slots of a node that may send anything",
        "\
arbitrary,2,,,\n\
head,7000,A,3801006F00,\n\
head,37000,B,380200E8C0,\n\
head,97000,B,2004002F80,\n\
",
        "0 1 A 7000, ",
        "",
        "1 0 2 0 0 0",
    ),
];

fn found_in(alloc: Global, rows: &str) -> Result<SightingList, Fail> {
    let params = params_of(alloc, &[], NODES)?;
    let text = format!(in alloc; "{HEAD}{rows}")?;
    let log = read(alloc, &params, text.as_bytes())?;
    Ok(sightings(alloc, &params, &log)?)
}

fn sighting_shown(alloc: Global, sighting: &Sighting) -> Result<String, AllocError> {
    let (number, node) = (sighting.number, sighting.node.0);
    let (channel, stamp) = (sighting.channel, sighting.stamp);
    format!(in alloc; "{number} {node} {channel:?} {stamp}, ")
}

fn list_shown(alloc: Global, frames: &[Sighting]) -> Result<String, AllocError> {
    let mut text = String::new(alloc);
    for sighting in frames {
        text.push_str(sighting_shown(alloc, sighting)?.as_str())?;
    }
    Ok(text)
}

// Of each irregular frame its slot too.
fn irregular_shown(alloc: Global, frames: &[Sighting]) -> Result<String, AllocError> {
    let mut text = String::new(alloc);
    for frame in frames {
        let (number, node, slot) = (frame.number, frame.node.0, frame.slot.0);
        let (channel, stamp) = (frame.channel, frame.stamp);
        let shown = format!(in alloc; "{number} {node} {channel:?} {stamp} {slot}, ")?;
        text.push_str(shown.as_str())?;
    }
    Ok(text)
}

fn tally_shown(alloc: Global, tally: &Tally) -> Result<String, AllocError> {
    let (judged, damaged, arbitrary) = (tally.judged, tally.damaged, tally.arbitrary);
    let (other, stray, behind) = (tally.other, tally.stray, tally.behind);
    format!(in alloc; "{judged} {damaged} {arbitrary} {other} {stray} {behind}")
}

#[test]
fn logs_have_their_sightings(rt: HostRuntime) -> Result<(), Fail> {
    for (rows, list, late, tally) in LOGS {
        let found = found_in(rt.alloc(), rows)?;
        assert_eq!(rt;
            list_shown(rt.alloc(), found.as_slice())?.as_str(),
            *list,
            "at {rows:?}"
        );
        assert_eq!(rt;
            list_shown(rt.alloc(), found.untimely())?.as_str(),
            *late,
            "at {rows:?}"
        );
        assert_eq!(rt;
            tally_shown(rt.alloc(), &found.tally())?.as_str(),
            *tally,
            "at {rows:?}"
        );
    }
    Ok(())
}

#[test]
fn frames_that_a_node_does_not_send_are_irregular(rt: HostRuntime) -> Result<(), Fail> {
    for (what, rows, list, irregular, tally) in IRREGULAR {
        let found = found_in(rt.alloc(), rows)?;
        assert_eq!(rt;
            list_shown(rt.alloc(), found.as_slice())?.as_str(),
            *list,
            "{what}"
        );
        assert_eq!(rt;
            irregular_shown(rt.alloc(), found.irregular())?.as_str(),
            *irregular,
            "{what}"
        );
        assert_eq!(rt;
            tally_shown(rt.alloc(), &found.tally())?.as_str(),
            *tally,
            "{what}"
        );
    }
    Ok(())
}
