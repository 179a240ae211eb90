ghost use Rattle.std.specs.Prelude.{◌≡◌, ◌≤◌, ◌<◌, ℕ, None, false};
ghost use Rattle.std.specs.Ordering.{is_gt};
ghost use Rattle.std.specs.BTreeMap.{get};
ghost use Rattle.fr_cold.specs.StartupLaws.{IsNumber};
ghost use Rattle.fr_cold.specs.Keys.{power_cmp, power_key};
ghost use Rattle.fr_cold.specs.Spans.{IsFirstIn};

use crate::Switch;
use crate::keys::PowerKey;
use fr_base::NodeId;
use std::collections::BTreeMap;

// The first key from `first` to `last` under which something stands.
fn first_in<K: Ord + Copy>(rows: &BTreeMap<K, Switch>, first: K, last: K) -> Option<K>
    requires { is_gt (K.cmp first last) ≡ false }
    ensures { IsFirstIn K.cmp (get K.cmp rows.now) first last result }
{
    match rows.range(first..=last).next() {
        Some((key, _)) => Some(*key),
        None => None,
    }
}

// The first macrotick from `tick` on and before `end` at which a node is switched, else `end`. It takes time as the
// logarithm of the number of switches.
pub(crate) fn next_switch(rows: &BTreeMap<PowerKey, Switch>, tick: u32, end: u32) -> u32
    requires { tick ≤ end }
    ensures from { tick ≤ result }
    ensures to { result ≤ end }
    ensures quiet { (t node : ℕ) → tick ≤ t → t < result → IsNumber node →
        get power_cmp rows.now (power_key t node) ≡ None }
{
    let first = PowerKey {
        at: tick,
        node: NodeId(1),
    };
    let last = PowerKey {
        at: end,
        node: NodeId(64),
    };
    match first_in(rows, first, last) {
        Some(key) => key.at,
        None => end,
    }
}
