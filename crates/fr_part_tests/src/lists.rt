ghost use Rattle.std.specs.Prelude.{◌≡◌};

use fr_base::{Channel, Counts, Dev, DevList, NodeId, NodeRow, RowList, Slot, State};
use std::alloc::{AllocError, Global};
use std::test::Fail;

fn row(node: NodeId) -> NodeRow
    ensures { result.node ≡ node }
{
    NodeRow {
        node,
        start: 7,
        length: 1_000_000,
        rate: 0,
        offset: 0,
        state: State::Active,
        cut: 0,
    }
}

fn are_rows_listed() -> bool {
    let mut rows = RowList::new();
    rows.push(row(NodeId(2)));
    rows.push(row(NodeId(5)));
    let listed = rows.len() == 2 && rows.get(1) == Some(&row(NodeId(5))) && rows.get(2).is_none();
    let mut others = RowList::new();
    others.push(row(NodeId(7)));
    others.assign(&rows);
    rows.clear();
    listed && rows.len() == 0 && others.as_slice() == [row(NodeId(2)), row(NodeId(5))].as_slice()
}

#[test]
fn rows_are_listed(rt: HostRuntime) {
    assert!(rt; are_rows_listed());
}

fn dev(slot: Slot, channel: Channel) -> Dev {
    Dev {
        receiver: NodeId(1),
        slot,
        channel,
        value: -3,
    }
}

fn are_devs_listed(alloc: Global) -> Result<bool, AllocError> {
    let mut devs = DevList::with_room(alloc, 2)?;
    devs.push(dev(Slot(2), Channel::B));
    let listed = devs.len() == 1
        && devs.get(0) == Some(&dev(Slot(2), Channel::B))
        && devs.get(1).is_none();
    devs.clear();
    Ok(listed && devs.as_slice().len() == 0)
}

#[test]
fn deviations_are_listed(rt: HostRuntime) -> Result<(), Fail> {
    assert!(rt; are_devs_listed(rt.alloc())?);
    Ok(())
}

const COUNTS: Counts = Counts {
    sent_a: 1,
    sent_b: 2,
    xor_a: 0x00FF00,
    xor_b: 0x0F0F0F,
    stored: 3,
    outside: 4,
    damaged: 5,
    wrong_id: 6,
    wrong_cycle: 7,
    wrong_length: 8,
    plain: 9,
};

// Those of another cycle, and both together.
const MORE: Counts = Counts {
    sent_a: 10,
    sent_b: 20,
    xor_a: 0x0FF000,
    xor_b: 0x0F0F0F,
    stored: 30,
    outside: 40,
    damaged: 50,
    wrong_id: 60,
    wrong_cycle: 70,
    wrong_length: 80,
    plain: 90,
};

const BOTH: Counts = Counts {
    sent_a: 11,
    sent_b: 22,
    xor_a: 0x0F0F00,
    xor_b: 0,
    stored: 33,
    outside: 44,
    damaged: 55,
    wrong_id: 66,
    wrong_cycle: 77,
    wrong_length: 88,
    plain: 99,
};

#[test]
fn counts_are_added(rt: HostRuntime) {
    assert!(rt; Counts::none().plus(&COUNTS) == COUNTS);
    assert!(rt; COUNTS.plus(&MORE) == BOTH);
}
