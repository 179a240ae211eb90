ghost use Rattle.std.specs.Prelude.{◌≡◌};
ghost use Rattle.fr_pool.specs.Pool.{IsOut};

use fr_pool::{Cell, Pool, PoolFault};
use std::alloc::Global;
use std::test::Fail;

// Whether no cell of a pool is left.
fn is_empty(pool: &mut Pool) -> bool
    ensures { pool.new.out ≡ pool.old.out }
{
    match pool.take() {
        None => true,
        Some(cell) => {
            pool.give(cell);
            false
        }
    }
}

// Whether so many cells can be taken and no more, while each has what was written in it.
fn holds(pool: &mut Pool, cells: u32) -> bool
    ensures { pool.new.out ≡ pool.old.out }
{
    if cells == 0 {
        return is_empty(pool);
    }
    match pool.take() {
        None => false,
        Some(cell) => {
            let byte = (cells % 251) as u8;
            pool.write(&cell)[263] = byte;
            let others = holds(pool, cells - 1);
            let same = pool.read(&cell)[263] == byte;
            pool.give(cell);
            others && same
        }
    }
}

// Whether a cell keeps its bytes while another is taken, written and given back.
fn keeps(pool: &mut Pool, cell: &Cell) -> bool
    requires { IsOut pool.old cell.now }
    ensures { pool.new.out ≡ pool.old.out }
{
    pool.write(cell)[0] = 7;
    let others = holds(pool, 1) && holds(pool, 1);
    others && pool.read(cell)[0] == 7
}

// Whether a cell that stays out does so.
fn is_kept(pool: &mut Pool) -> bool {
    match pool.take() {
        None => false,
        Some(cell) => {
            let kept = keeps(pool, &cell);
            pool.give(cell);
            kept
        }
    }
}

// A place in a cell, what stands there in one cell and in another, and what is written in the first once it is copied.
type Copying = (usize, u8, u8, u8);

const COPIES: &[Copying] = &[(0, 7, 5, 1), (131, 255, 0, 254), (263, 0, 8, 9)];

// Whether a cell has all bytes of another once that is copied into it, and keeps them where it is copied to itself and the
// other is written.
fn copies(pool: &mut Pool, from: &Cell, to: &Cell, row: &Copying) -> bool
    requires from { IsOut pool.old from.now }
    requires to { IsOut pool.old to.now }
    ensures { pool.new.out ≡ pool.old.out }
{
    let (place, byte, other, later) = *row;
    if 264 <= place {
        return false;
    }
    pool.write(from)[place] = byte;
    pool.write(to)[place] = other;
    pool.copy(from, to);
    let same = pool.read(from) == pool.read(to);
    pool.copy(to, to);
    pool.write(from)[place] = later;
    same && pool.read(from)[place] == later && pool.read(to)[place] == byte
}

// The same with a second cell that is taken.
fn copies_from(pool: &mut Pool, from: &Cell, row: &Copying) -> bool
    requires { IsOut pool.old from.now }
    ensures { pool.new.out ≡ pool.old.out }
{
    match pool.take() {
        None => false,
        Some(to) => {
            let copied = copies(pool, from, &to, row);
            pool.give(to);
            copied
        }
    }
}

// The same in a pool of two cells.
fn is_copied(alloc: Global, row: &Copying) -> Result<bool, PoolFault> {
    let mut pool = Pool::new(alloc, 2)?;
    match pool.take() {
        None => Ok(false),
        Some(from) => {
            let copied = copies_from(&mut pool, &from, row);
            pool.give(from);
            Ok(copied)
        }
    }
}

// The place of the first row that comes otherwise.
fn first_copy(alloc: Global) -> Result<Option<usize>, PoolFault> {
    for (place, row) in COPIES.iter().enumerate() {
        if !is_copied(alloc, row)? {
            return Ok(Some(place));
        }
    }
    Ok(None)
}

// Whether a pool holds so many cells, twice, and of two keeps the bytes of one that stays out.
fn is_pool(alloc: Global, cells: u32) -> Result<bool, PoolFault> {
    if cells < 1 || cells > 4096 {
        return Ok(false);
    }
    let mut pool = Pool::new(alloc, cells)?;
    Ok(holds(&mut pool, cells) && (cells != 2 || is_kept(&mut pool)) && holds(&mut pool, cells))
}

#[test]
fn cells_are_taken_and_no_more(rt: HostRuntime) -> Result<(), Fail> {
    for cells in [2, 4096] {
        assert!(rt; is_pool(rt.alloc(), cells)?);
    }
    Ok(())
}

#[test]
fn cells_are_copied(rt: HostRuntime) -> Result<(), Fail> {
    assert_eq!(rt; first_copy(rt.alloc())?, None);
    Ok(())
}
