ghost use Rattle.std.specs.Prelude.{◌≡◌, ◌+◌, ◌*◌, ◌≤◌, ◌≤ℤ◌, ◌-ℤ◌, pos, true, All, IfSome};
ghost use Rattle.fr_cluster.specs.Values.{amount, Values};
ghost use Rattle.fr_cluster.specs.declared.names.ParamName.TheVariants as name;
ghost use Rattle.fr_time.specs.Slots.{slot_start_of};
ghost use Rattle.fr_base.specs.Within.{IsBetween};
ghost use Rattle.fr_base.specs.declared.node_row.NodeRow.{NodeRow};
ghost use Rattle.fr_air.specs.Lines.{ComesInside, IsLine, IsLineOf, IsOnLine, IsRoom, IsRoomOf, IsSight, IsSpread, IsWider, LeavesSlack, LiesIn, LiesInSight, IsRowStart};
ghost use Rattle.fr_air.specs.Sending.{IsEarlyRow};
ghost use Rattle.fr_drift.specs.Rows.{most_link_delay};

use fr_base::{NodeRow, Slot, State};
use fr_cluster::{ParamName, Params};
use fr_time::{macros_of, micros_of, slot_bounds};

// The static slots of a cluster, in macroticks: those of a cycle, of a slot, and of a slot up to its action point, and
// the one at which the last slot begins.
#[derive(Clone, Copy)]
pub struct Room {
    pub macros: u64,
    pub slot: u64,
    pub offset: u64,
    pub last: u64,
}

// Where the macroticks of a node's cycle lie: its start, in ticks from an instant, its microticks, and their length in
// ticks.
#[derive(Clone, Copy)]
pub struct Line {
    pub start: u64,
    pub micros: u64,
    pub length: u64,
}

// Where the cycles of nodes lie: each starts from `low` to `high` ticks behind an instant, and rises by `slow` to `fast`
// ticks in its macroticks.
#[derive(Clone, Copy)]
pub struct Spread {
    pub base: i64,
    pub low: u64,
    pub high: u64,
    pub slow: u64,
    pub fast: u64,
}

// The cycles of nodes beside the slots, and how far a frame may travel, in ticks by the macroticks of a cycle.
#[derive(Clone, Copy)]
pub struct Sight {
    pub room: Room,
    pub spread: Spread,
    pub slack: u64,
}

// How far a line rises in so many macroticks as a cycle has, in ticks.
fn step_of(line: &Line) -> u64
    requires { IsLine line.now }
    ensures value { result ≡ line.now.micros * line.now.length }
    ensures most { result ≤ 990_000_000_000 }
{
    line.micros * line.length
}

// A spread that takes in one more line.
fn widened(spread: &Spread, line: &Line) -> Spread
    requires spread { IsSpread spread.now }
    requires line { IsLine line.now }
    ensures spread { IsSpread result }
    ensures wider { IsWider spread.now result }
    ensures low { result.low ≤ line.now.start }
    ensures high { line.now.start ≤ result.high }
    ensures slow { result.slow ≤ line.now.micros * line.now.length }
    ensures fast { line.now.micros * line.now.length ≤ result.fast }
{
    let step = step_of(line);
    Spread {
        base: spread.base,
        low: spread.low.min(line.start),
        high: spread.high.max(line.start),
        slow: spread.slow.min(step),
        fast: spread.fast.max(step),
    }
}

// How far a frame may travel so that it comes inside of its slot, whichever the nodes and the slot; None where it can't.
fn slack_of(room: &Room, spread: &Spread) -> Option<u64>
    requires room { IsRoom room.now }
    requires spread { IsSpread spread.now }
    ensures { IfSome result (LeavesSlack room.now spread.now) }
{
    let late = room.macros * (spread.high + 1_500_000);
    let early = room.macros * spread.low;
    let acts = early + (room.last + room.offset) * spread.slow;
    let acts_late = late + (room.last + room.offset) * spread.fast;
    let ends = early + (room.last + room.slot) * spread.slow;
    if late + room.last * spread.fast <= acts && acts_late <= ends {
        Some(ends - acts_late)
    } else {
        None
    }
}

// The macrotick at which the last static slot begins.
fn last_of(params: &Params) -> u64
    ensures value { result ≡ slot_start_of params.now (amount params.now name.gNumberOfStaticSlots) }
    ensures most { result ≤ 16_000 }
{
    let slots = params.natural(ParamName::gNumberOfStaticSlots);
    let (last, _) = slot_bounds(params, Slot(slots as u16));
    last as u64
}

// The room of a cluster's slots.
pub fn room_of(params: &Params) -> Room
    ensures { IsRoomOf params.now result }
{
    Room {
        macros: macros_of(params),
        slot: params.natural(ParamName::gdStaticSlot),
        offset: params.natural(ParamName::gdActionPointOffset),
        last: last_of(params),
    }
}

// The line of a row, from an instant on.
fn line_of(params: &Params, row: &NodeRow, base: i64) -> Line
    requires { IsOnLine params.now base row.now }
    ensures { IsLineOf params.now row.now base result }
{
    Line {
        start: (row.start - base) as u64,
        micros: micros_of(params, row),
        length: row.length as u64,
    }
}

// A delay as a number of ticks.
fn ticks(delay: i64) -> u64
    requires { IsBetween (pos 0) (pos most_link_delay) delay }
    ensures value { pos result ≡ delay }
    ensures most { result ≤ most_link_delay }
{
    delay as u64
}

// Whether the start of a cycle lies behind an instant by no more than the longest cycle that a line reaches.
fn is_near(early: i64, late: i64) -> bool
    requires early { IsRowStart early }
    requires late { IsRowStart late }
    ensures { result ≡ true → IsBetween (pos 0) (pos 1_000_000_000_000) (late -ℤ early) }
{
    early <= late && late - early <= 1_000_000_000_000
}

// A spread that takes in the line of one more row, unless its node is halted.
fn with_row(params: &Params, spread: &Spread, row: &NodeRow) -> Option<Spread>
    requires spread { IsSpread spread.now }
    requires base { IsRowStart spread.now.base }
    requires row { IsEarlyRow params.now row.now }
    ensures spread { IfSome result IsSpread }
    ensures wider { IfSome result (IsWider spread.now) }
    ensures row { IfSome result (λ wider. LiesInSight params.now wider row.now) }
{
    if matches!(row.state, State::Halt) {
        return Some(*spread);
    }
    if !is_near(spread.base, row.start) {
        return None;
    }
    Some(widened(spread, &line_of(params, row, spread.base)))
}

// An instant soon before the starts of rows, if they lie near one another.
fn base_of(params: &Params, rows: &[NodeRow]) -> i64
    requires { All (IsEarlyRow params.now) rows.now }
    ensures { IsRowStart result }
{
    if rows.is_empty() || rows[0].start < 500_000_000_000 {
        return 0;
    }
    rows[0].start - 500_000_000_000
}

// The spread of the lines of rows from an instant on; None where one of them starts not soon behind it.
fn spread_of(params: &Params, base: i64, rows: &[NodeRow]) -> Option<Spread>
    requires rows { All (IsEarlyRow params.now) rows.now }
    requires base { IsRowStart base }
    ensures spread { IfSome result IsSpread }
    ensures rows { IfSome result (λ spread. All (LiesInSight params.now spread) rows.now) }
{
    let mut spread = Spread {
        base,
        low: 1_000_000_000_000,
        high: 0,
        slow: 990_000_000_000,
        fast: 0,
    };
    for row in rows {
        match with_row(params, &spread, row) {
            None => return None,
            Some(wider) => spread = wider,
        }
    }
    Some(spread)
}

// The cycles of rows beside the slots; None where they may lie too far apart for that, and each frame is held against its slot.
pub fn sight_of(params: &Params, rows: &[NodeRow]) -> Option<Sight>
    requires { All (IsEarlyRow params.now) rows.now }
    ensures sight { IfSome result (IsSight params.now) }
    ensures rows { IfSome result (λ sight. All (LiesInSight params.now sight.spread) rows.now) }
{
    let room = room_of(params);
    let spread = spread_of(params, base_of(params, rows), rows)?;
    let slack = slack_of(&room, &spread)?;
    Some(Sight {
        room,
        spread,
        slack,
    })
}

// Whether what one of these nodes sends in each static slot comes to another inside of the slot, so many ticks later.
pub fn comes_inside(sight: &Sight, delay: i64) -> bool
    requires sight { IsRoom sight.now.room }
    requires delay { IsBetween (pos 0) (pos most_link_delay) delay }
    ensures { (p : Values) (sender receiver : NodeRow) → result ≡ true → IsSight p sight.now →
        LiesIn p sight.now.spread sender → LiesIn p sight.now.spread receiver → ComesInside p sender receiver delay }
{
    sight.room.macros * ticks(delay) <= sight.slack
}
