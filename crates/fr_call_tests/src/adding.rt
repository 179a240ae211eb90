ghost use Rattle.std.specs.Prelude.{◌≡◌, IfOk};
ghost use Rattle.fr_generator.specs.Cluster.{made_values};

use fr_base::{Channel, NodeId};
use fr_cluster::Params;
use fr_drift::Drift;
use fr_generator::generate;
use fr_script::Script;
use std::alloc::{AllocError, Global};
use std::test::Fail;

// A call that makes a drift or a script, or adds to one.
enum Call {
    Even,
    Start,
    Length,
    Delay,
    Empty,
    Arbitrary,
    Say,
}

// A call, the file of the same records, and what both tell.
const DRIFTS: &[(Call, &str, &str)] = &[
    (Call::Even, "", "3, 0 0, 1000000 1000000, 0 0"),
    (
        Call::Start,
        "start,2,12,-81,,",
        "3, 12 -81, 1000000 1000000, 0 0",
    ),
    (
        Call::Length,
        "length,2,4,700000,,",
        "3, 0 0, 1000000 700000, 0 0",
    ),
    (
        Call::Delay,
        "delay,1,3,B,7,500",
        "3, 0 0, 1000000 1000000, 0 500",
    ),
];

const SCRIPTS: &[(Call, &str, &str)] = &[
    (Call::Empty, "", "false Regular Regular"),
    (Call::Arbitrary, "arbitrary,7,,,,,", "true Silent Silent"),
    (
        Call::Say,
        "arbitrary,7,,,,,\nsay,2,7,1,A,-5,",
        "true Say { shift: -5, bytes: None } Silent",
    ),
];

// Eight nodes on both channels. That the rules accept a record of a call is proved for them.
fn cluster(alloc: Global) -> Result<Params, AllocError>
    ensures { IfOk result (λ params. params ≡ made_values) }
{
    let made = generate(alloc, 0, 1)?;
    Ok(made.params)
}

fn started(alloc: Global) -> Result<Drift, Fail> {
    let params = cluster(alloc)?;
    let mut drift = Drift::even(alloc, &params, 3);
    drift.set_start(&params, NodeId(2), 12, -81)?;
    Ok(drift)
}

fn lengthened(alloc: Global) -> Result<Drift, Fail> {
    let params = cluster(alloc)?;
    let mut drift = Drift::even(alloc, &params, 3);
    drift.set_length(&params, NodeId(2), 4, 700_000)?;
    Ok(drift)
}

fn delayed(alloc: Global) -> Result<Drift, Fail> {
    let params = cluster(alloc)?;
    let mut drift = Drift::even(alloc, &params, 3);
    drift.set_delay(&params, NodeId(1), NodeId(3), Channel::B, 7, 500)?;
    Ok(drift)
}

fn drift_by(alloc: Global, call: &Call) -> Result<Drift, Fail> {
    match call {
        Call::Start => started(alloc),
        Call::Length => lengthened(alloc),
        Call::Delay => delayed(alloc),
        _ => Ok(Drift::even(alloc, &cluster(alloc)?, 3)),
    }
}

fn drift_of(alloc: Global, rows: &str) -> Result<Drift, Fail> {
    let text = format!(in alloc; "doubles,3,,,,\n{rows}")?;
    Ok(fr_drift::read(alloc, &cluster(alloc)?, text.as_bytes())?)
}

// How long a frame from node 1 to node 3 travels on channel B in cycles 6 and 7.
fn delays_of(alloc: Global, drift: &Drift) -> Result<String, AllocError> {
    let before = drift.delay(NodeId(1), NodeId(3), Channel::B, 6);
    let after = drift.delay(NodeId(1), NodeId(3), Channel::B, 7);
    format!(in alloc; "{before} {after}")
}

// How many double cycles there are, where the clock of node 2 starts and at what rate, how long its microtick lasts in cycles
// 3 and 4, and the delays.
fn told(alloc: Global, drift: &Drift) -> Result<String, AllocError> {
    let (start, rate) = (drift.start(NodeId(2)), drift.rate(NodeId(2)));
    let before = drift.length(NodeId(2), 3);
    let after = drift.length(NodeId(2), 4);
    let delays = delays_of(alloc, drift)?;
    format!(in alloc;
        "{}, {start} {rate}, {before} {after}, {delays}",
        drift.doubles()
    )
}

#[test]
fn drifts_are_as_their_records(rt: HostRuntime) -> Result<(), Fail> {
    for (call, rows, want) in DRIFTS {
        let made = drift_by(rt.alloc(), call)?;
        assert_eq!(rt; told(rt.alloc(), &made)?.as_str(), *want, "by a call");
        let read = drift_of(rt.alloc(), rows)?;
        assert_eq!(rt; told(rt.alloc(), &read)?.as_str(), *want, "at {rows:?}");
    }
    Ok(())
}

fn arbitrary(alloc: Global) -> Result<Script, Fail> {
    let params = cluster(alloc)?;
    let mut script = Script::empty(alloc);
    script.add_arbitrary(&params, NodeId(7))?;
    Ok(script)
}

fn saying(alloc: Global) -> Result<Script, Fail> {
    let params = cluster(alloc)?;
    let mut script = Script::empty(alloc);
    script.add_arbitrary(&params, NodeId(7))?;
    script.add_say(&params, 2, NodeId(7), NodeId(1), Channel::A, -5)?;
    Ok(script)
}

fn script_by(alloc: Global, call: &Call) -> Result<Script, Fail> {
    match call {
        Call::Arbitrary => arbitrary(alloc),
        Call::Say => saying(alloc),
        _ => Ok(Script::empty(alloc)),
    }
}

fn script_of(alloc: Global, rows: &str) -> Result<Script, Fail> {
    Ok(fr_script::read(alloc, &cluster(alloc)?, rows.as_bytes())?)
}

// Whether node 7 is arbitrary, and what becomes of its frames to node 1 on both channels in cycle 2.
fn faults_of(alloc: Global, script: &Script) -> Result<String, AllocError> {
    let is_arbitrary = script.arbitrary(NodeId(7));
    let on_a = script.at(2, NodeId(7), NodeId(1), Channel::A);
    let on_b = script.at(2, NodeId(7), NodeId(1), Channel::B);
    format!(in alloc; "{is_arbitrary} {on_a:?} {on_b:?}")
}

#[test]
fn scripts_are_as_their_records(rt: HostRuntime) -> Result<(), Fail> {
    for (call, rows, want) in SCRIPTS {
        let made = script_by(rt.alloc(), call)?;
        assert_eq!(rt; faults_of(rt.alloc(), &made)?.as_str(), *want, "by a call");
        let read = script_of(rt.alloc(), rows)?;
        assert_eq!(rt;
            faults_of(rt.alloc(), &read)?.as_str(),
            *want,
            "at {rows:?}"
        );
    }
    Ok(())
}
