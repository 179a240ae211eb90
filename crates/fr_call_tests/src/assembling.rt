ghost use Rattle.std.specs.Prelude.{◌≡◌, [], ◌∷◌};
ghost use Rattle.fr_generator.specs.Cluster.{made_node, made_slot};

use fr_base::{NodeId, Slot};
use fr_cluster::{NodeSpec, Params, SlotSpec};
use fr_params::{NAMES, ParamFault, assemble};
use fr_samples::params_of;
use std::alloc::{AllocError, Global};
use std::test::Fail;

// The numbers of the cluster of all tests in the order of the second version's table, with 8 words of payload.
const NUMBERS: [i64; 20] = [
    5_000, 200_000, 140, 30, 7, 800, 8, 4_900, 2, 4, 1, 2, 4, 254, 81, 0, 0, 200, 0, 500_000,
];

// The lines of a file for the same words, nodes and slot.
const WORDS: (&str, &str) = (
    "param,gPayloadLengthStatic",
    "param,gPayloadLengthStatic,8,,",
);

const LINES: &str = "node,1,1,AB,1\nnode,2,2,AB,1\nslot,9,1,0,2\n";

fn nodes() -> [NodeSpec; 2]
    ensures { result ≡ made_node 1 ∷ made_node 2 ∷ [] }
{
    [
        NodeSpec {
            id: NodeId(1),
            key: Some(Slot(1)),
            on_a: true,
            on_b: true,
            coldstart: true,
        },
        NodeSpec {
            id: NodeId(2),
            key: Some(Slot(2)),
            on_a: true,
            on_b: true,
            coldstart: true,
        },
    ]
}

fn slots() -> [SlotSpec; 1]
    ensures { result ≡ made_slot 9 ∷ [] }
{
    [SlotSpec {
        slot: Slot(9),
        node: NodeId(1),
        base: 0,
        repetition: 2,
    }]
}

fn assembled(alloc: Global) -> Result<Params, ParamFault> {
    assemble(alloc, &NUMBERS, &nodes(), &slots())
}

fn told_node(alloc: Global, node: Option<&NodeSpec>) -> Result<String, AllocError> {
    match node {
        Some(
            NodeSpec {
                id,
                key,
                on_a,
                on_b,
                coldstart,
            },
        ) => format!(in alloc; "{id:?} {key:?} {on_a} {on_b} {coldstart} "),
        None => format!(in alloc; "no node "),
    }
}

fn told_slot(alloc: Global, slot: Option<&SlotSpec>) -> Result<String, AllocError> {
    match slot {
        Some(
            SlotSpec {
                slot,
                node,
                base,
                repetition,
            },
        ) => format!(in alloc; "{slot:?} {node:?} {base} {repetition} "),
        None => format!(in alloc; "no slot "),
    }
}

// Its numbers, and the first nodes and slots.
fn told(alloc: Global, params: &Params) -> Result<String, AllocError> {
    let mut text = String::new(alloc);
    for name in NAMES {
        text.push_str(&format!(in alloc; "{} ", params.value(name))?)?;
    }
    for place in 0..3 {
        text.push_str(&told_node(alloc, params.nodes.get(place))?)?;
        text.push_str(&told_slot(alloc, params.slots.get(place))?)?;
    }
    Ok(text)
}

#[test]
fn is_as_its_file(rt: HostRuntime) -> Result<(), Fail> {
    let made = assembled(rt.alloc())?;
    let read = params_of(rt.alloc(), &[WORDS], LINES)?;
    assert_eq!(rt; (read.nodes.len(), read.slots.len()), (2, 1));
    assert_eq!(rt; told(rt.alloc(), &made)?, told(rt.alloc(), &read)?);
    Ok(())
}
