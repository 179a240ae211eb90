ghost use Rattle.std.specs.Prelude.{◌≡◌, ◌≢◌, ◌⊎◌, ◌<◌, ◌≤◌, pos, true, All, ℕ, Bool, Some};
ghost use Rattle.std.specs.Option.{option_or};
ghost use Rattle.fr_base.specs.Within.{IsWithin};
ghost use Rattle.fr_base.specs.declared.channel.Channel.{Channel as Line};
ghost use Rattle.fr_base.specs.declared.dev.Dev.{Dev};
ghost use Rattle.fr_correct.specs.Terms.{offset_term_of, rate_term_of};
ghost use Rattle.fr_measure.specs.Deviations.{deviations_of, offset_values_of, rate_values_of};
ghost use Rattle.fr_measure.specs.Readings.{most_deviation, reading};
ghost use Rattle.fr_check.specs.Measured.{look_among, told_by, TakesIn};
ghost use Rattle.fr_verdict.specs.Sound.{AreSoundDevs, IsSoundDev};

use fr_base::{Dev, NodeId, NodeRow};
use fr_cluster::Params;
use fr_correct::{Term, offset_term_from, rate_term_from};
use fr_measure::Table;
use fr_verdict::devs_of;

// Stores a deviation, where nothing is stored.
fn store_first(table: &mut Table, index: usize, odd: bool, dev: &Dev)
    requires index { index < 15 }
    requires within { IsWithin (pos most_deviation) dev.now.value }
    ensures here { reading table.new index odd dev.now.channel ≡
        option_or (reading table.old index odd dev.now.channel) (Some dev.now.value) }
    ensures others { (i : ℕ) (o : Bool) (c : Line) → (i ≢ index) ⊎ ((o ≢ odd) ⊎ (c ≢ dev.now.channel)) →
        reading table.new i o c ≡ reading table.old i o c }
{
    if table.get(index, odd, dev.channel).is_none() {
        table.store(index, odd, dev.channel, dev.value);
    }
}

// Takes in a deviation of the even or the odd cycle, if it is this receiver's.
fn take_dev(params: &Params, table: &mut Table, dev: &Dev, node: NodeId, odd: bool)
    requires { IsSoundDev params.now dev.now }
    ensures { TakesIn odd (told_by params.now dev.now node) table.old table.new }
{
    if dev.receiver == node {
        if let Some(index) = params.key_index(dev.slot) {
            store_first(table, index, odd, dev);
        }
    }
}

// Takes in this receiver's deviations of the even or the odd cycle.
fn take_devs(params: &Params, table: &mut Table, devs: &[Dev], node: NodeId, odd: bool)
    requires { All (IsSoundDev params.now) devs.now }
    ensures { TakesIn odd (look_among params.now devs.now node) table.old table.new }
{
    for dev in devs {
        take_dev(params, table, dev, node, odd);
    }
}

// Takes in this receiver's deviations of the even or the odd cycle, by looking at no others.
fn take_own(params: &Params, table: &mut Table, devs: &[Dev], node: NodeId, odd: bool)
    requires { AreSoundDevs params.now devs.now }
    ensures { TakesIn odd (look_among params.now devs.now node) table.old table.new }
{
    take_devs(params, table, devs_of(devs, node), node, odd);
}

// The recorded deviations of a receiver in a double cycle.
fn table_of(params: &Params, evens: &[Dev], odds: &[Dev], node: NodeId) -> Table
    requires evens { AreSoundDevs params.now evens.now }
    requires odds { AreSoundDevs params.now odds.now }
    ensures { (index : ℕ) (odd : Bool) (channel : Line) → index < 15 →
        reading result index odd channel ≡ deviations_of params.now evens.now odds.now node index odd channel }
{
    let mut table = Table::new();
    take_own(params, &mut table, evens, node, false);
    take_own(params, &mut table, odds, node, true);
    table
}

// Both terms of the node of a row at the end of an odd cycle, by the deviations of its double cycle.
pub(crate) fn terms_of(params: &Params, evens: &[Dev], odds: &[Dev], row: &NodeRow) -> (Term, Term)
    requires evens { AreSoundDevs params.now evens.now }
    requires odds { AreSoundDevs params.now odds.now }
    requires rate { IsWithin params.now.rate_limit row.now.rate }
    ensures offset { result.0 ≡ offset_term_of params.now.offset_limit
        (offset_values_of params.now evens.now odds.now row.now.node) }
    ensures rate { result.1 ≡ rate_term_of row.now.rate params.now.damping params.now.rate_limit
        (rate_values_of params.now evens.now odds.now row.now.node) }
{
    let table = table_of(params, evens, odds, row.node);
    let own = params.own_key_index(row.node);
    let offset = offset_term_from(params, &table, own);
    let rate = rate_term_from(params, &table, own, row.rate);
    (offset, rate)
}
