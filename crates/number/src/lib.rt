// The numbers of the marked copies: given, counted, and looked up. Below the public calls.
// Rests on tables; the copies are the marked cells in order, and their numbers stand in the row of the lows.
#![tactic(auto)]

ghost use Rattle.std.specs.Prelude.{◌≡◌, false, ℕ, suc, ◌<◌, ◌≤◌, length, get_or};
ghost use Rattle.std.proofs.Math.Option.{Option};
ghost use Rattle.base.specs.Cells.{cell_of, cell_count};
ghost use Rattle.formats.specs.Limits.{word_limit};
ghost use Rattle.tables.specs.Tables.{Lows, Numbers, marked, marked_copies};
ghost use Rattle.number.specs.Numbers.{number_in};

use cells::Layout;
use tables::{entry, is_marked, marked_cells};

/// Numbers the marked copies from 1 on, in the order of the cells, each at its own cell; how many there are.
pub fn number(marks: &[u8], numbers: &mut [u16], layout: Layout) -> usize
    requires room { (cell_count layout.blocks layout.budget ≤ length marks.now)
        × (cell_count layout.blocks layout.budget ≤ length numbers.old) }
    ensures value { result ≡ length (marked_copies layout.blocks layout.budget marks.now) }
    ensures numbers_len_unchanged { length numbers.new ≡ length numbers.old }
    ensures by_index { (f : ℕ → ℕ → Option ℕ) → Lows f layout.blocks layout.budget numbers.old
        → Numbers f layout.blocks layout.budget marks.now numbers.new }
{
    let mut count = 0;
    for index in marked_cells(marks, layout) {
        count += 1;
        numbers[index] = count as u16;
    }
    count
}

/// The number of the copy that serves a block with some cycles left: at its own cell, or at the cell that the entry leads to.
/// 0 where none does, which is the format's word for the exception exit: both callers write it as it is, so it is no Option.
pub fn number_of(
    marks: &[u8],
    numbers: &[u16],
    layout: Layout,
    block: usize,
    cycles: usize,
) -> usize
    requires cell { (1 ≤ block) × (block ≤ layout.blocks) × (cycles ≤ layout.budget) }
    requires inside { (cell_of layout.budget block cycles < length marks.now)
        × (cell_of layout.budget block cycles < length numbers.now) }
    requires small { marked layout.budget marks.now block cycles ≡ false
        → get_or numbers.now (cell_of layout.budget block cycles) 0 ≤ suc cycles }
    ensures { (result ≡ number_in layout.budget marks.now numbers.now block cycles) × (result < word_limit) }
{
    let value = entry(numbers, layout, block, cycles);
    if is_marked(marks, layout, block, cycles) {
        return value;
    }
    if value == 0 {
        return 0;
    }
    let low = value - 1;
    if !is_marked(marks, layout, block, low) {
        return 0;
    }
    entry(numbers, layout, block, low)
}
