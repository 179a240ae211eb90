use fr_findings::write_observed;
use fr_log::read;
use fr_program::MemorySink;
use fr_samples::{FOUR_ON_A, TWO_ON_A, params_of};
use fr_sightings::sightings;
use std::alloc::Global;
use std::test::Fail;

// The first check of a cluster fails whose rates are not damped; its rate limit can follow lengths that walk.
const UNDAMPED: &[(&str, &str)] = &[
    (
        "param,pClusterDriftDamping",
        "param,pClusterDriftDamping,0,,",
    ),
    ("param,pRateCorrectionOut", "param,pRateCorrectionOut,84,,"),
];

// A cycle is 5,000,000 units long.
const HEAD: &str = "unit,40000,,,\ndrift,0,,,\ndelay,,,0,0\n";

// The nodes of such a cluster, the other records of a log of it, and what it tells.
const LOGS: &[(&str, &str, &str)] = &[
    // All double cycles are judged.
    (
        TWO_ON_A,
        "\
head,7000,A,3801006F00,\n\
head,37062,A,380200E8C0,\n\
head,5007000,A,3801006F01,\n\
head,5037062,A,380200E8C1,\n\
head,10007025,A,3801006F02,\n\
head,10037037,A,380200E8C2,\n\
head,15007025,A,3801006F03,\n\
head,15037037,A,380200E8C3,\n\
",
        "\
precision,21002794,1000000,0,,,,\n\
cycle,0,2,1439448,4520752,within,,\n\
cycle,1,2,1439800,5598648,within,,\n\
node,0,1,199999960000,200000040000,0,2,\n\
node,0,2,199999960000,200000040000,-2,0,\n\
spread,0,3520552,80000,0,5680952,,\n\
cycle,2,2,0,2520752,within,,\n\
cycle,3,2,0,-,open,,\n\
node,1,1,199999960000,200000040000,-,-,\n\
node,1,2,199999960000,200000040000,-,-,\n\
spread,1,1520552,80000,0,5080800,,\n\
sender,1,A,4,0,3,0,\n\
sender,2,A,4,0,3,0,\n\
log,8,0,0,0,0,0,\n\
numbers,sure,,,,,,\n\
sync,0,judged,2,2,-,-,-\n\
cycles,0,3,3,0,1,,\n\
verdict,within,0,2,,,,\n\
",
    ),
    // Node 1 applies an offset term that it cannot have computed: what is known of the next double cycle stays.
    (
        TWO_ON_A,
        "\
head,7000,A,3801006F00,\n\
head,37062,A,380200E8C0,\n\
head,5007000,A,3801006F01,\n\
head,5037062,A,380200E8C1,\n\
head,10007150,A,3801006F02,\n\
head,10037037,A,380200E8C2,\n\
head,15007150,A,3801006F03,\n\
head,15037037,A,380200E8C3,\n\
",
        "\
precision,21002794,1000000,0,,,,\n\
cycle,0,2,1439448,4520752,within,,\n\
cycle,1,2,1439800,6560752,within,,\n\
node,0,1,199999960000,200000040000,5,7,\n\
node,0,2,199999960000,200000040000,-2,0,\n\
fault,1,1,offset,5,7,0,2\n\
missed,1,1,offset,-,,,\n\
spread,0,3520552,80000,0,5680952,,\n\
cycle,2,2,3479448,6560752,within,,\n\
cycle,3,2,3479800,-,open,,\n\
node,1,1,199999960000,200000040000,-,-,\n\
node,1,2,199999960000,200000040000,-,-,\n\
spread,1,4080600,80000,0,6241000,,\n\
sender,1,A,4,0,3,0,\n\
sender,2,A,4,0,3,0,\n\
log,8,0,0,0,0,0,\n\
numbers,sure,,,,,,\n\
sync,0,judged,2,2,-,-,-\n\
cycles,0,3,3,0,1,,\n\
verdict,no,1,offset,1,,,\n\
",
    ),
    // Node 2 sends no frame in cycle 2, as far as the log has them: the double cycle is not judged, and rows reach no
    // further.
    (
        TWO_ON_A,
        "\
head,7000,A,3801006F00,\n\
head,37062,A,380200E8C0,\n\
head,5007000,A,3801006F01,\n\
head,5037062,A,380200E8C1,\n\
head,10007025,A,3801006F02,\n\
head,15007025,A,3801006F03,\n\
head,15037037,A,380200E8C3,\n\
head,20007025,A,3801006F04,\n\
head,20037037,A,380200E8C4,\n\
head,25007025,A,3801006F05,\n\
head,25037037,A,380200E8C5,\n\
",
        "\
precision,21002794,1000000,0,,,,\n\
cycle,0,2,1439448,4520752,within,,\n\
cycle,1,2,1439800,127421132,open,,\n\
node,0,1,199999960000,200000040000,0,2,\n\
node,0,2,199999960000,200000040000,-127,125,\n\
spread,0,3520552,80000,0,5680952,,\n\
cycle,2,2,0,127421132,open,,\n\
cycle,3,2,0,124178484,open,,\n\
node,1,1,199999960000,200000040000,-1,1,\n\
node,1,2,199876016800,200124016800,-124,124,\n\
cycle,4,2,0,2520752,within,,\n\
cycle,5,2,0,-,open,,\n\
node,2,1,199999960000,200000040000,-,-,\n\
node,2,2,199999960000,200000040000,-,-,\n\
spread,2,1520552,80000,0,5080800,,\n\
sender,1,A,6,0,5,0,\n\
sender,2,A,5,0,5,1,\n\
log,11,0,0,0,0,0,\n\
numbers,sure,,,,,,\n\
sync,0,judged,2,3,unseen,2,2\n\
cycles,0,5,2,0,4,,\n\
verdict,partly,0,5,2,2,2,3\n\
",
    ),
    // The same, and the log misses no frame: it was known that the node sends.
    (
        TWO_ON_A,
        "\
whole,,,,\n\
head,7000,A,3801006F00,\n\
head,37062,A,380200E8C0,\n\
head,5007000,A,3801006F01,\n\
head,5037062,A,380200E8C1,\n\
head,10007025,A,3801006F02,\n\
head,15007025,A,3801006F03,\n\
head,15037037,A,380200E8C3,\n\
head,20007025,A,3801006F04,\n\
head,20037037,A,380200E8C4,\n\
head,25007025,A,3801006F05,\n\
head,25037037,A,380200E8C5,\n\
",
        "\
precision,21002794,1000000,0,,,,\n\
cycle,0,2,1439448,4520752,within,,\n\
cycle,1,2,1439800,127421132,open,,\n\
node,0,1,199999960000,200000040000,0,2,\n\
node,0,2,199999960000,200000040000,-127,125,\n\
spread,0,3520552,80000,0,5680952,,\n\
cycle,2,2,0,127421132,open,,\n\
cycle,3,2,0,124178484,open,,\n\
node,1,1,199999960000,200000040000,-1,1,\n\
node,1,2,199876016800,200124016800,-124,124,\n\
fault,2,2,missing,A,-,-,-\n\
cycle,4,2,0,2520752,within,,\n\
cycle,5,2,0,-,open,,\n\
node,2,1,199999960000,200000040000,-,-,\n\
node,2,2,199999960000,200000040000,-,-,\n\
spread,2,1520552,80000,0,5080800,,\n\
sender,1,A,6,0,5,0,\n\
sender,2,A,5,0,5,1,\n\
log,11,0,0,0,0,0,\n\
numbers,sure,,,,,,\n\
sync,0,judged,2,3,unseen,2,2\n\
cycles,0,5,2,0,4,,\n\
verdict,no,2,missing,2,,,\n\
",
    ),
    // So it does not hide that node 2 drops out.
    (
        TWO_ON_A,
        "\
whole,,,,\n\
head,7000,A,3801006F00,\n\
head,37062,A,380200E8C0,\n\
head,5007000,A,3801006F01,\n\
head,5037062,A,380200E8C1,\n\
head,10007150,A,3801006F02,\n\
head,15007150,A,3801006F03,\n\
head,15037037,A,380200E8C3,\n\
head,20007150,A,3801006F04,\n\
head,20037037,A,380200E8C4,\n\
head,25007150,A,3801006F05,\n\
head,25037037,A,380200E8C5,\n\
",
        "\
precision,21002794,1000000,0,,,,\n\
cycle,0,2,1439448,4520752,within,,\n\
cycle,1,2,1439800,131494981,open,,\n\
node,0,1,199999960000,200000040000,5,7,\n\
node,0,2,199999960000,200000040000,-127,125,\n\
fault,1,1,offset,5,7,0,2\n\
missed,1,1,offset,-,,,\n\
spread,0,3520552,80000,0,5680952,,\n\
cycle,2,2,0,131494981,open,,\n\
cycle,3,2,2562324,128185805,open,,\n\
node,1,1,199999960000,200000040000,-1,1,\n\
node,1,2,199876016800,200124016800,-124,124,\n\
fault,2,2,missing,A,-,-,-\n\
cycle,4,2,3479448,6560752,within,,\n\
cycle,5,2,3479800,-,open,,\n\
node,2,1,199999960000,200000040000,-,-,\n\
node,2,2,199999960000,200000040000,-,-,\n\
spread,2,5560552,80000,0,7720952,,\n\
sender,1,A,6,0,5,0,\n\
sender,2,A,5,0,5,1,\n\
log,11,0,0,0,0,0,\n\
numbers,sure,,,,,,\n\
sync,0,judged,2,3,unseen,2,2\n\
cycles,0,5,2,0,4,,\n\
verdict,no,1,offset,1,,,\n\
",
    ),
    // Beside a node that may send anything.
    (
        FOUR_ON_A,
        "\
arbitrary,4,,,\n\
head,7000,A,3801006F00,\n\
head,37040,A,380200E8C0,\n\
head,67020,A,3803009580,\n\
head,5007000,A,3801006F01,\n\
head,5037040,A,380200E8C1,\n\
head,5067020,A,3803009581,\n\
head,10007020,A,3801006F02,\n\
head,10037020,A,380200E8C2,\n\
head,10067020,A,3803009582,\n\
head,15007020,A,3801006F03,\n\
head,15037020,A,380200E8C3,\n\
head,15067020,A,3803009583,\n\
",
        "\
precision,61007780,1000000,0,,,,\n\
cycle,0,3,559448,3640752,within,,\n\
cycle,1,3,559800,4718648,within,,\n\
node,0,1,199999960000,200000040000,0,1,\n\
node,0,2,199999960000,200000040000,-1,0,\n\
node,0,3,199999960000,200000040000,-1,1,\n\
spread,0,2640552,80000,0,6941176,,\n\
cycle,2,3,0,2041232,within,,\n\
cycle,3,3,0,-,open,,\n\
node,1,1,199999960000,200000040000,-,-,\n\
node,1,2,199999960000,200000040000,-,-,\n\
node,1,3,199999960000,200000040000,-,-,\n\
spread,1,1041032,80000,0,6141416,,\n\
sender,1,A,4,0,3,0,\n\
sender,2,A,4,0,3,0,\n\
sender,3,A,4,0,3,0,\n\
log,12,0,0,0,0,0,\n\
numbers,sure,,,,,,\n\
sync,0,judged,2,2,-,-,-\n\
cycles,0,3,3,0,1,,\n\
verdict,within,0,2,,,,\n\
",
    ),
    // The first double cycle, in which a node is missed, is not judged; of the second one the log states that it is in sync.
    (
        TWO_ON_A,
        "\
since,2,,,\n\
head,7000,A,3801006F00,\n\
head,37062,A,380200E8C0,\n\
head,5007000,A,3801006F01,\n\
head,10007025,A,3801006F02,\n\
head,10037037,A,380200E8C2,\n\
head,15007025,A,3801006F03,\n\
head,15037037,A,380200E8C3,\n\
",
        "\
precision,21002794,1000000,0,,,,\n\
cycle,0,2,522019,127619476,open,,\n\
cycle,1,2,0,250195284,open,,\n\
node,0,1,199999960000,200000040000,0,2,\n\
node,0,2,199876016800,200124016800,-249,247,\n\
cycle,2,2,0,2520752,within,,\n\
cycle,3,2,0,-,open,,\n\
node,1,1,199999960000,200000040000,-,-,\n\
node,1,2,199999960000,200000040000,-,-,\n\
spread,1,1520552,80000,0,5080800,,\n\
sender,1,A,4,0,3,0,\n\
sender,2,A,3,0,3,1,\n\
log,7,0,0,0,0,0,\n\
numbers,sure,,,,,,\n\
sync,1,judged,1,2,unseen,1,2\n\
cycles,0,3,1,0,3,,\n\
verdict,within,2,2,,,,\n\
",
    ),
    // One correct node does not suffice beside an arbitrary one: nothing is judged, for that reason.
    (
        TWO_ON_A,
        "\
arbitrary,2,,,\n\
head,7000,A,3801006F00,\n\
head,37062,A,380200E8C0,\n\
head,5007000,A,3801006F01,\n\
head,5037062,A,380200E8C1,\n\
head,10007025,A,3801006F02,\n\
head,10037037,A,380200E8C2,\n\
head,15007025,A,3801006F03,\n\
head,15037037,A,380200E8C3,\n\
",
        "\
precision,61007780,1000000,0,,,,\n\
cycle,0,1,0,1000200,within,,\n\
cycle,1,1,0,2000400,within,,\n\
node,0,1,199999960000,200000040000,0,2,\n\
cycle,2,1,0,1000200,within,,\n\
cycle,3,1,0,-,open,,\n\
node,1,1,199999960000,200000040000,-,-,\n\
sender,1,A,4,0,3,0,\n\
log,4,0,4,0,0,0,\n\
numbers,sure,,,,,,\n\
sync,-,open,0,2,count,-,-\n\
cycles,0,3,3,0,1,,\n\
verdict,open,count,-,-,,,\n\
",
    ),
];

// What a log of such a cluster of these nodes tells.
fn told(alloc: Global, nodes: &str, rows: &str) -> Result<MemorySink, Fail> {
    let params = params_of(alloc, UNDAMPED, nodes)?;
    let text = format!(in alloc; "{HEAD}{rows}")?;
    let log = read(alloc, &params, text.as_bytes())?;
    let found = sightings(alloc, &params, &log)?;
    let mut written = MemorySink::new(alloc, 2000)?;
    let _ = write_observed(&params, &log, &found, &mut written);
    Ok(written)
}

// Also where a classical check of the cluster fails.
#[test]
fn double_cycles_are_judged_by_their_own_numbers(rt: HostRuntime) -> Result<(), Fail> {
    for (nodes, rows, text) in LOGS {
        let written = told(rt.alloc(), nodes, rows)?;
        assert!(rt; written.bytes() == text.as_bytes(), "at {rows:?}");
    }
    Ok(())
}
