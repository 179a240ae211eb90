ghost use Rattle.std.specs.Prelude.{◌≡◌, ◌≤◌, ◌<◌, ◌+◌, IfOk};
ghost use Rattle.fr_generator.specs.Cluster.{made_node, made_slot, made_values, nodes_to, slots_to};

use crate::places::node_of;
use fr_base::Slot;
use fr_cluster::{NodeSpec, Params, SlotSpec};
use fr_params::{ParamFault, assemble};
use std::alloc::Global;

// The numbers in the order of the second version's table: a cycle of 5 ms at a microtick of 25 ns, and 8 words of
// payload.
const NUMBERS: [i64; 20] = [
    5_000, 200_000, 140, 30, 7, 800, 8, 4_900, 2, 4, 1, 2, 4, 254, 81, 0, 0, 200, 0, 500_000,
];

// The parameters of the cluster.
pub(crate) fn cluster(alloc: Global) -> Result<Params, ParamFault>
    ensures { IfOk result (λ params. params ≡ made_values) }
{
    assemble(alloc, &NUMBERS, &nodes(), &slots())
}

fn nodes() -> [NodeSpec; 8]
    ensures { result ≡ nodes_to 8 }
{
    [
        node(1),
        node(2),
        node(3),
        node(4),
        node(5),
        node(6),
        node(7),
        node(8),
    ]
}

fn slots() -> [SlotSpec; 16]
    ensures { result ≡ slots_to 16 }
{
    [
        slot(9),
        slot(10),
        slot(11),
        slot(12),
        slot(13),
        slot(14),
        slot(15),
        slot(16),
        slot(17),
        slot(18),
        slot(19),
        slot(20),
        slot(21),
        slot(22),
        slot(23),
        slot(24),
    ]
}

fn node(number: u32) -> NodeSpec
    requires from { 1 ≤ number }
    requires to { number ≤ 64 }
    ensures { result ≡ made_node number }
{
    NodeSpec {
        id: node_of(number),
        key: Some(Slot(number as u16)),
        on_a: true,
        on_b: true,
        coldstart: true,
    }
}

fn slot(number: u32) -> SlotSpec
    requires from { 9 ≤ number }
    requires to { number ≤ 1023 }
    ensures { result ≡ made_slot number }
{
    SlotSpec {
        slot: Slot(number as u16),
        node: node_of((number - 9) % 8 + 1),
        base: 0,
        repetition: 2,
    }
}
