// The entries of a build's own rows, placed as cells, and the cells of a row in order. Below the public calls.
// Rests on cells.
#![tactic(auto)]

ghost use Rattle.std.specs.Prelude.{◌≡◌, true, ◌+◌, ◌<◌, ◌≤◌, length, get_or, set};
ghost use Rattle.base.specs.Cells.{cell_of, cell_count};
ghost use Rattle.formats.specs.Limits.{most_cells};
ghost use Rattle.tables.specs.Tables.{marked};
ghost use Rattle.tables.specs.Scan.{IsCell, ClearFrom, NextMarked, set_from};
ghost use Rattle.tables.specs.Rest.{rest};

use cells::Layout;

mod marked;

pub use marked::MarkedCells;

/// The entry of a block and a number of cycles.
pub fn entry(row: &[u16], layout: Layout, block: usize, cycles: usize) -> usize
    requires cell { (1 ≤ block) × (block ≤ layout.blocks) × (cycles ≤ layout.budget) }
    requires inside { cell_of layout.budget block cycles < length row.now }
    ensures { (result ≡ get_or row.now (cell_of layout.budget block cycles) 0) × (result < 65536) }
{
    row[layout.cell(block, cycles)] as usize
}

/// Sets the entry of a block and a number of cycles.
pub fn put_entry(row: &mut [u16], layout: Layout, block: usize, cycles: usize, value: u16)
    requires cell { (1 ≤ block) × (block ≤ layout.blocks) × (cycles ≤ layout.budget) }
    requires inside { cell_of layout.budget block cycles < length row.old }
    ensures { row.new ≡ set row.old (cell_of layout.budget block cycles) value }
{
    row[layout.cell(block, cycles)] = value;
}

/// Whether the copy of a block with a low is marked.
#[tactic(auto, unfolding(crate::specs::Tables::marked, base::specs::Cells::is_set))]
pub fn is_marked(marks: &[u8], layout: Layout, block: usize, low: usize) -> bool
    requires cell { (1 ≤ block) × (block ≤ layout.blocks) × (low ≤ layout.budget) }
    requires inside { cell_of layout.budget block low < length marks.now }
    ensures { result ≡ marked layout.budget marks.now block low }
{
    marks[layout.cell(block, low)] != 0
}

/// Marks the copy of a block with a low.
pub fn mark(marks: &mut [u8], layout: Layout, block: usize, low: usize)
    requires cell { (1 ≤ block) × (block ≤ layout.blocks) × (low ≤ layout.budget) }
    requires inside { cell_of layout.budget block low < length marks.old }
    ensures { marks.new ≡ set marks.old (cell_of layout.budget block low) 1 }
{
    marks[layout.cell(block, low)] = 1;
}

// THE CELLS IN ORDER

/// A cell as a block and a low.
#[derive(Clone, Copy, Debug, PartialEq, Eq)]
pub struct Cell {
    pub block: usize,
    pub low: usize,
}

/// The block and the low of the cell at an index.
pub fn cell_at(layout: Layout, index: usize) -> Cell
    requires { index ≤ most_cells }
    ensures { IsCell layout.budget index result.block result.low }
{
    Cell {
        block: index / (layout.budget + 1) + 1,
        low: index % (layout.budget + 1),
    }
}

/// Whether the eight cells from `at` on are clear. The compiler reads them at once.
fn eight_clear(marks: &[u8], at: usize) -> bool
    requires { at + 8 ≤ length marks.now }
    ensures { result ≡ true → ClearFrom marks.now at (at + 8) }
{
    let x = marks[at] | marks[at + 1] | marks[at + 2] | marks[at + 3];
    let y = marks[at + 4] | marks[at + 5] | marks[at + 6] | marks[at + 7];
    x | y == 0
}

/// Goes on over clear cells, eight at a time.
fn skip(marks: &[u8], size: usize, from: usize) -> usize
    requires { (from ≤ size) × (size ≤ length marks.now) }
    ensures { (from ≤ result) × (result ≤ size) × ClearFrom marks.now from result }
{
    let eights = (size - from) / 8;
    for k in 0..eights {
        let at = from + 8 * k;
        if !eight_clear(marks, at) {
            return at;
        }
    }
    from + 8 * eights
}

/// The first marked cell from `from` on, `size` where there is none.
pub fn next_marked(marks: &[u8], size: usize, from: usize) -> usize
    requires { (from ≤ size) × (size ≤ length marks.now) }
    ensures { NextMarked marks.now size from result }
{
    let start = skip(marks, size, from);
    for at in start..size {
        if marks[at] != 0 {
            return at;
        }
    }
    size
}

/// The marked cells of a layout, in order.
pub fn marked_cells(marks: &[u8], layout: Layout) -> MarkedCells<'_>
    requires { cell_count layout.blocks layout.budget ≤ length marks.now }
    ensures { rest result ≡ set_from marks.now 0 (cell_count layout.blocks layout.budget) }
{
    MarkedCells::new(&marks[..layout.cells()])
}
