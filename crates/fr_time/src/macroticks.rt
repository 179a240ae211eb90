ghost use Rattle.std.specs.Prelude.{◌≡◌, ◌<◌, ◌≤◌, ◌≤ℤ◌, ◌+ℤ◌, ◌-ℤ◌, pos, IfSome, MatchOption};
ghost use Rattle.fr_base.specs.Within.{IsBetween};
ghost use Rattle.fr_time.specs.Position.{corrected_micros, even_position, IsGrid, IsPlaceable};
ghost use Rattle.fr_time.specs.Walk.{first_walk, moved_on, moved_to, IsNextPosition};

use crate::grid::Grid;
use crate::positions::{even, left};
use crate::shares::Share;
use std::marker::Model;

/// The macroticks of a cycle one after the other, each with its position in microticks from the start of
/// the cycle (section 8.2). It counts, and divides only where it begins and where it goes to another macrotick.
#[derive(Debug, Drop)]
pub struct Macro {
    grid: Grid,
    rate: i32,
    offset: i32,
    odd: bool,
    next: i64,
    // Of the cycle without its offset.
    early: Share,
    // Where the offset correction starts, and of what is left from there on.
    start: i64,
    late: Share,
}

impl Model for Macro {
    ghost use Rattle.fr_time.specs.Counted.{IsCounted};
    ghost use Rattle.fr_time.specs.Walk.{IsWalk, Walk};

    ghost Value = { Walk };

    ghost view = { λ walk. record { grid = walk.grid; rate = walk.rate; offset = walk.offset; odd = walk.odd; next = walk.next } };

    ghost invariant = { λ walk. IsWalk (record { grid = walk.grid; rate = walk.rate; offset = walk.offset; odd = walk.odd; next = walk.next }) ×
        IsCounted (record { grid = walk.grid; rate = walk.rate; offset = walk.offset; odd = walk.odd; next = walk.next }) walk.start walk.early walk.late };
}

impl Macro {
    /// Before macrotick 0 of a cycle under these terms, which are in microticks.
    pub fn begin(grid: &Grid, rate: i32, offset: i32, odd: bool) -> Macro
        requires { IsPlaceable grid.now rate offset }
        ensures { result ≡ first_walk grid.now rate offset odd }
    {
        let start = even(grid, rate, grid.correction);
        Macro {
            grid: *grid,
            rate,
            offset,
            odd,
            next: 0,
            early: early_share(grid, rate, offset),
            start,
            late: late_share(grid, rate, offset, start),
        }
    }

    /// The position of the next macrotick, from 0 on; None exactly after the last one of the cycle, and
    /// nothing changes then.
    pub fn next(&mut self) -> Option<i64>
        ensures position { MatchOption result (self.old.grid.macros ≤ℤ self.old.next) (IsNextPosition self.old) }
        ensures after { MatchOption result (self.new ≡ self.old) (λ at. self.new ≡ moved_on self.old) }
        ensures within { IfSome result (IsBetween (pos 0) (pos 700_000)) }
    {
        if self.next >= self.grid.macros {
            return None;
        }
        if self.odd && self.grid.correction <= self.next {
            let at = self.start + i64::from(self.late.at);
            self.late = self.late.more();
            self.next += 1;
            Some(at)
        } else {
            let at = i64::from(self.early.at);
            self.early = self.early.more();
            self.next += 1;
            Some(at)
        }
    }

    /// Goes before another macrotick of the cycle, counted from 0, or to their end. Nothing is divided where it is
    /// there already.
    pub fn go(&mut self, macrotick: i64)
        requires { IsBetween (pos 0) self.old.grid.macros macrotick }
        ensures { self.new ≡ moved_to self.old macrotick }
    {
        if self.next == macrotick {
            return;
        }
        self.early = self.early.placed(early_count(&self.grid, macrotick));
        self.late = self.late.placed(late_count(&self.grid, macrotick));
        self.next = macrotick;
    }
}

// How many macroticks come before one.
fn early_count(grid: &Grid, macrotick: i64) -> u32
    requires grid { IsGrid grid.now }
    requires macrotick { IsBetween (pos 0) grid.now.macros macrotick }
    ensures number { pos result ≡ macrotick }
    ensures within { pos result ≤ℤ grid.now.macros }
{
    macrotick as u32
}

// How many of those from the start of the offset correction on.
fn late_count(grid: &Grid, macrotick: i64) -> u32
    requires grid { IsGrid grid.now }
    requires macrotick { IsBetween (pos 0) grid.now.macros macrotick }
    ensures none { macrotick ≤ℤ grid.now.correction → result ≡ 0 }
    ensures some { grid.now.correction ≤ℤ macrotick → pos result ≡ macrotick -ℤ grid.now.correction }
    ensures within { pos result ≤ℤ (grid.now.macros -ℤ grid.now.correction) }
{
    if macrotick <= grid.correction {
        0
    } else {
        (macrotick - grid.correction) as u32
    }
}

// None of the macroticks of a cycle without its offset.
fn early_share(grid: &Grid, rate: i32, offset: i32) -> Share
    requires { IsPlaceable grid.now rate offset }
    ensures length { pos result.length ≡ grid.now.micros +ℤ rate }
    ensures parts { pos result.parts ≡ grid.now.macros }
    ensures count { result.count ≡ 0 }
{
    Share::none((grid.micros + rate as i64) as u32, grid.macros as u32)
}

// None of those from the start of the offset correction on.
fn late_share(grid: &Grid, rate: i32, offset: i32, start: i64) -> Share
    requires placeable { IsPlaceable grid.now rate offset }
    requires start { start ≡ even_position grid.now rate grid.now.correction }
    requires start_from { pos 0 ≤ℤ start }
    ensures length { pos result.length ≡ corrected_micros grid.now rate offset }
    ensures parts { pos result.parts ≡ grid.now.macros -ℤ grid.now.correction }
    ensures count { result.count ≡ 0 }
{
    Share::none(late_length(grid, rate, offset, start), late_parts(grid))
}

// How many microticks are left for them.
fn late_length(grid: &Grid, rate: i32, offset: i32, start: i64) -> u32
    requires placeable { IsPlaceable grid.now rate offset }
    requires start { start ≡ even_position grid.now rate grid.now.correction }
    requires start_from { pos 0 ≤ℤ start }
    ensures value { pos result ≡ corrected_micros grid.now rate offset }
    ensures short { result ≤ 660_000 }
{
    left(grid, rate, offset, start) as u32
}

// How many there are.
fn late_parts(grid: &Grid) -> u32
    requires { IsGrid grid.now }
    ensures value { pos result ≡ grid.now.macros -ℤ grid.now.correction }
    ensures some { 0 < result }
    ensures few { result ≤ 16_000 }
{
    (grid.macros - grid.correction) as u32
}
