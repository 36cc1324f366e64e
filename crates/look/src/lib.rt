// The look-up of a completion cost, read off the work area: by a scan, and as a row that is filled once. Below the public calls.
// Rests on cells, tables; the promises are tables `look_in`, the look-up among the costs that the area stands for.
#![tactic(auto)]

ghost use Rattle.std.specs.Prelude.{◌≡◌, ◌≤◌, length};
ghost use Rattle.base.specs.Cells.{cell_of, cell_count};
ghost use Rattle.base.specs.Options.{option_in};
ghost use Rattle.formats.specs.Limits.{most_budget};
ghost use Rattle.calls.specs.Area.{area_size, HasCell};
ghost use Rattle.tables.specs.Tables.{low_in, next_in, Lows};
ghost use Rattle.look.specs.Rows.{latest, RowFilled};

use cells::{Layout, is_set};
use tables::put_entry;

// BY A SCAN

/// What a look-up gives: a block's largest cost at or below a number of cycles, and its smallest above it.
#[derive(Clone, Copy, Debug, PartialEq, Eq)]
pub struct LookUp {
    pub low: Option<usize>,
    pub next: Option<usize>,
}

/// The largest cost at or below the cycles, from there down.
fn find_low(area: &[u8], layout: Layout, block: usize, cycles: usize) -> Option<usize>
    requires inside { (1 ≤ block) × (block ≤ layout.blocks) × (cycles ≤ layout.budget) }
    requires has_cell { HasCell area.now (cell_of layout.budget block layout.budget) }
    ensures { option_in result ≡ low_in layout.budget area.now block cycles }
{
    for cost in (0..cycles + 1).rev() {
        if is_set(area, layout, block, cost) {
            return Some(cost);
        }
    }
    None
}

/// The smallest cost above the cycles, from there up to the budget.
fn find_next(area: &[u8], layout: Layout, block: usize, cycles: usize) -> Option<usize>
    requires inside { (1 ≤ block) × (block ≤ layout.blocks) × (cycles ≤ layout.budget) }
    requires has_cell { HasCell area.now (cell_of layout.budget block layout.budget) }
    ensures { option_in result ≡ next_in layout.budget area.now block cycles }
{
    for cost in cycles + 1..layout.budget + 1 {
        if is_set(area, layout, block, cost) {
            return Some(cost);
        }
    }
    None
}

/// The look-up of a block and a number of cycles; the area has a cell for each cost of the block up to the budget.
pub fn look_up(area: &[u8], layout: Layout, block: usize, cycles: usize) -> LookUp
    requires inside { (1 ≤ block) × (block ≤ layout.blocks) × (cycles ≤ layout.budget) }
    requires has_cell { HasCell area.now (cell_of layout.budget block layout.budget) }
    ensures low_value { option_in result.low ≡ low_in layout.budget area.now block cycles }
    ensures next_value { option_in result.next ≡ next_in layout.budget area.now block cycles }
{
    LookUp {
        low: find_low(area, layout, block, cycles),
        next: find_next(area, layout, block, cycles),
    }
}

// AS A ROW: a look-up is then one read (tables `entry`)

/// Fills the row of one block, by rising numbers of cycles: an entry is one more than the last cost that is set, 0 before the first.
fn fill_row(area: &[u8], lows: &mut [u16], layout: Layout, block: usize)
    requires inside { (1 ≤ block) × (block ≤ layout.blocks) }
    requires room { (area_size block layout.budget ≤ length area.now) × (cell_count block layout.budget ≤ length lows.old) }
    ensures { RowFilled area.now layout.budget block lows.old lows.new }
{
    let mut last = 0u16;
    for cycles in 0..layout.budget + 1 {
        if is_set(area, layout, block, cycles) {
            last = cycles as u16 + 1;
        }
        put_entry(lows, layout, block, cycles, last);
    }
}

/// Fills the rows of all blocks.
pub fn fill_lows(area: &[u8], lows: &mut [u16], layout: Layout)
    requires room { (area_size layout.blocks layout.budget ≤ length area.now)
        × (cell_count layout.blocks layout.budget ≤ length lows.old) }
    ensures lows_len_unchanged { length lows.new ≡ length lows.old }
    ensures lows { Lows (low_in layout.budget area.now) layout.blocks layout.budget lows.new }
{
    for block in 1..layout.blocks + 1 {
        fill_row(area, lows, layout, block);
    }
}
