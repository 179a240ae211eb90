ghost use Rattle.std.specs.Prelude.{◌≡◌, ◌<◌, pos, [], IfSome};
ghost use Rattle.std.specs.Option.{ForSome};
ghost use Rattle.fr_base.specs.Within.{IsWithin};
ghost use Rattle.fr_measure.specs.Readings.{IsEmpty, Stores, most_deviation, no_readings, reading, stored};
ghost use Rattle.fr_measure.specs.Values.{values_of, offset_at, rate_at, change_at};
ghost use Rattle.fr_midpoint.specs.Midpoint.{most_value};

use crate::values::{append, change, least, mean, put};
use fr_base::Channel;
use fr_midpoint::List15;
use std::marker::Model;

/// The deviations of one double cycle, in microticks: for each of 15 key indexes, both cycles and both
/// channels a number or none (section 8.5).
#[derive(Debug, Drop)]
pub struct Table {
    even_a: [Option<i32>; 15],
    even_b: [Option<i32>; 15],
    odd_a: [Option<i32>; 15],
    odd_b: [Option<i32>; 15],
}

impl Model for Table {
    ghost use Rattle.std.specs.Prelude.{All, pos};
    ghost use Rattle.std.specs.Option.{ForSome};
    ghost use Rattle.fr_base.specs.Within.{IsWithin};
    ghost use Rattle.fr_measure.specs.Readings.{Readings, most_deviation};

    ghost Value = { Readings };

    ghost view = { λ table. record { even_a = table.even_a; even_b = table.even_b; odd_a = table.odd_a; odd_b = table.odd_b } };

    ghost invariant = { λ table.
        All (λ entry. ForSome entry (IsWithin (pos most_deviation))) table.even_a
        × All (λ entry. ForSome entry (IsWithin (pos most_deviation))) table.even_b
        × All (λ entry. ForSome entry (IsWithin (pos most_deviation))) table.odd_a
        × All (λ entry. ForSome entry (IsWithin (pos most_deviation))) table.odd_b };
}

impl Table {
    /// A table with nothing stored.
    pub fn new() -> Table
        ensures value { result ≡ no_readings }
        ensures empty { IsEmpty result }
    {
        Table {
            even_a: [None; 15],
            even_b: [None; 15],
            odd_a: [None; 15],
            odd_b: [None; 15],
        }
    }

    /// Removes all deviations.
    pub fn clear(&mut self)
        ensures value { self.new ≡ no_readings }
        ensures empty { IsEmpty self.new }
    {
        *self = Table::new();
    }

    /// Stores the deviation of a key index in the even or the odd cycle on a channel, in microticks. It
    /// takes the place of one that was stored there; all else stays.
    pub fn store(&mut self, index: usize, odd: bool, channel: Channel, value: i32)
        requires index { index < 15 }
        requires within { IsWithin (pos most_deviation) value }
        ensures value { self.new ≡ stored self.old index odd channel value }
        ensures stores { Stores self.old self.new index odd channel value }
    {
        match (odd, channel) {
            (false, Channel::A) => put(&mut self.even_a, index, value),
            (false, Channel::B) => put(&mut self.even_b, index, value),
            (true, Channel::A) => put(&mut self.odd_a, index, value),
            (true, Channel::B) => put(&mut self.odd_b, index, value),
        }
    }

    /// The deviation of a key index in the even or the odd cycle on a channel, in microticks; `None`
    /// exactly where nothing is stored.
    pub fn get(&self, index: usize, odd: bool, channel: Channel) -> Option<i32>
        requires { index < 15 }
        ensures value { result ≡ reading self.now index odd channel }
        ensures within { IfSome result (IsWithin (pos most_deviation)) }
    {
        match (odd, channel) {
            (false, Channel::A) => self.even_a[index],
            (false, Channel::B) => self.even_b[index],
            (true, Channel::A) => self.odd_a[index],
            (true, Channel::B) => self.odd_b[index],
        }
    }

    /// Fills an empty list with the offset values in microticks, in ascending order of key index: the
    /// least of an index's deviations in the odd cycle (section 8.6.2). `own` is the node's own key index,
    /// below 15, where it has one; 0 stands there, whatever is stored.
    #[tactic(auto, unfolding(crate::specs::Values::values_of))]
    pub fn offset_values(&self, own: Option<usize>, values: &mut List15)
        requires { values.old ≡ [] }
        ensures { values.new ≡ values_of (offset_at (reading self.now) own) }
    {
        for index in 0..15 {
            append(values, self.offset_value(own, index));
        }
    }

    /// Fills an empty list with the rate values in microticks, in ascending order of key index: how far an
    /// index's deviation in the odd cycle lies above that of the even cycle on the same channel, and with
    /// both channels half of the sum, truncated toward zero (section 8.6.3). `own` is as in
    /// `offset_values`.
    #[tactic(auto, unfolding(crate::specs::Values::values_of))]
    pub fn rate_values(&self, own: Option<usize>, values: &mut List15)
        requires { values.old ≡ [] }
        ensures { values.new ≡ values_of (rate_at (reading self.now) own) }
    {
        for index in 0..15 {
            append(values, self.rate_value(own, index));
        }
    }

    // The offset value at a key index.
    fn offset_value(&self, own: Option<usize>, index: usize) -> Option<i32>
        requires { index < 15 }
        ensures value { result ≡ offset_at (reading self.now) own index }
        ensures within { ForSome result (IsWithin (pos most_value)) }
    {
        if own == Some(index) {
            return Some(0);
        }
        least(
            self.get(index, true, Channel::A),
            self.get(index, true, Channel::B),
        )
    }

    // The rate value at a key index.
    fn rate_value(&self, own: Option<usize>, index: usize) -> Option<i32>
        requires { index < 15 }
        ensures value { result ≡ rate_at (reading self.now) own index }
        ensures within { ForSome result (IsWithin (pos most_value)) }
    {
        if Some(index) == own {
            return Some(0);
        }
        mean(
            self.change_on(index, Channel::A),
            self.change_on(index, Channel::B),
        )
    }

    // How far the odd cycle's deviation lies above the even one's on a channel.
    fn change_on(&self, index: usize, channel: Channel) -> Option<i32>
        requires { index < 15 }
        ensures value { result ≡ change_at (reading self.now) index channel }
        ensures within { ForSome result (IsWithin (pos most_value)) }
    {
        change(
            self.get(index, false, channel),
            self.get(index, true, channel),
        )
    }
}
