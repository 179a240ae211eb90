ghost use Rattle.std.specs.Prelude.{◌≡◌, ◌<◌, ◌≤◌, ◌↔◌, true, false, length, replicate, slice_get, take, All, IsNone, IfNone, IfSome, IfOk, Some};
ghost use Rattle.std.specs.Borrow.{sem};

use crate::cell::Cell;
use crate::fault::PoolFault;
use std::alloc::{AllocError, Global};
use std::marker::Model;

/// How many bytes a cell has: a frame of the longest payload, of 254 bytes, has 262.
pub const CELL_BYTES: usize = 264;

/// A region of cells of 264 bytes, taken once. Contracts see which cells are out, and the bytes of each cell.
pub struct Pool {
    cells: Vec<[u8; CELL_BYTES]>,
    out: Vec<bool>,
    // Each cell below this one is out.
    lowest: usize,
}

impl Model for Pool {
    ghost use Rattle.fr_pool.specs.Pool.{PoolView, IsPool};

    ghost Value = { PoolView };

    ghost view = { λ p. record { out = p.out.items; bytes = p.cells.items } };

    ghost invariant = { λ p. IsPool p.out.items p.cells.items p.lowest };
}

// One call: a derived drop is opened in each function that drops a value, and proved there.
impl Drop for Pool {
    fn drop(self) {
        let Pool {
            cells: _,
            out: _,
            lowest: _,
        } = self;
    }
}

impl Pool {
    ghost use Rattle.fr_pool.specs.Pool.{copied_in, fresh_pool, given_back, AllOut, IsOut, Takes};
    ghost use Rattle.fr_pool.specs.Lending.{LendsCell};

    /// A pool of this many cells, from 1 to 4096, none of which is out; every byte is 0. `NoMemory` where there is
    /// not enough memory for them.
    pub fn new(alloc: Global, cells: u32) -> Result<Pool, PoolFault>
        requires some { 1 ≤ cells }
        requires few { cells ≤ 4096 }
        ensures { IfOk result (λ pool. pool ≡ fresh_pool cells) }
    {
        let count = cells as usize;
        let cells = blank_cells(alloc, count)?;
        let out = vec![in alloc; false; count]?;
        Ok(Pool {
            cells,
            out,
            lowest: 0,
        })
    }

    /// How many cells there are, out or not.
    pub fn cells(&self) -> usize
        ensures { result ≡ length self.now.out }
    {
        self.out.len()
    }

    /// Takes a cell that is not out, the one with the lowest number: it is out from then on. All bytes stay. None
    /// exactly where all cells are out, and then nothing changes. It takes no memory.
    pub fn take(&mut self) -> Option<Cell>
        ensures taken { IfSome result (λ cell. Takes self.old cell self.new) }
        ensures none { IsNone result ↔ AllOut self.old.out }
        ensures unchanged { IfNone result (self.new ≡ self.old) }
    {
        let place = first_free(self.out.as_slice(), self.lowest);
        if place == self.out.len() {
            return None;
        }
        self.out[place] = true;
        self.lowest = place + 1;
        Some(Cell { place })
    }

    /// The 264 bytes of a cell that is out in this pool, to be written. All other cells stay.
    pub fn write(&mut self, cell: &Cell) -> &mut [u8]
        requires { IsOut self.old cell.now }
        // What the pool is once the bytes are let go.
        ensures* writes_back { sem 𝓛 (LendsCell self.entry cell.now result) }
        ensures bytes { slice_get self.old.bytes cell.now ≡ Some result.now }
        ensures whole { length result.now ≡ 264 }
    {
        // What is read says how many bytes there are.
        let _whole = self.read(cell);
        self.cells[cell.place].as_mut_slice()
    }

    /// The 264 bytes of a cell that is out in this pool.
    pub fn read(&self, cell: &Cell) -> &[u8]
        requires { IsOut self.now cell.now }
        ensures bytes { slice_get self.now.bytes cell.now ≡ Some result.now }
        ensures whole { length result.now ≡ 264 }
    {
        &self.cells[cell.place]
    }

    /// Copies the 264 bytes of a cell that is out in this pool into another, or the same, that is out in it too. All
    /// other cells stay. It takes no memory.
    pub fn copy(&mut self, from: &Cell, to: &Cell)
        requires from { IsOut self.old from.now }
        requires to { IsOut self.old to.now }
        ensures { self.new ≡ copied_in from.now to.now self.old }
    {
        self.cells[to.place] = self.cells[from.place];
    }

    /// Takes back a cell that is out in this pool: it alone is no longer out. All bytes stay. It takes no memory.
    pub fn give(&mut self, cell: Cell)
        requires { IsOut self.old cell }
        ensures { self.new ≡ given_back cell self.old }
    {
        let Cell { place } = cell;
        self.out[place] = false;
        self.lowest = lower(self.lowest, place);
    }
}

// So many cells, of which every byte is 0.
fn blank_cells(alloc: Global, count: usize) -> Result<Vec<[u8; CELL_BYTES]>, AllocError>
    ensures { IfOk result (λ cells. cells.items ≡ replicate count (replicate 264 0)) }
{
    let cells = vec![in alloc; [0; CELL_BYTES]; count]?;
    Ok(cells)
}

// The first cell that is not out, where each below the lowest is; where all are out, how many there are.
fn first_free(out: &[bool], lowest: usize) -> usize
    requires within { lowest ≤ length out.now }
    requires below { All (λ out. out ≡ true) (take lowest out.now) }
    ensures within { result ≤ length out.now }
    ensures below { All (λ out. out ≡ true) (take result out.now) }
    ensures free { result < length out.now → slice_get out.now result ≡ Some false }
{
    for place in lowest..out.len() {
        if !out[place] {
            return place;
        }
    }
    out.len()
}

// The lower of two numbers.
fn lower(one: usize, other: usize) -> usize
    ensures one { result ≤ one }
    ensures other { result ≤ other }
{
    if one < other { one } else { other }
}
