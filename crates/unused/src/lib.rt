// The blocks that no copy of a bounded sheet has, as a row of marks.
// Rests on words, headers; the promise is an equation with formats Report `unused_blocks`.
#![tactic(auto)]

ghost use Rattle.std.specs.Prelude.{◌≡◌, ◌≤◌, length};
ghost use Rattle.formats.specs.Limits.{most_blocks};
ghost use Rattle.formats.specs.Rule11.{bounded_refusal};
ghost use Rattle.formats.specs.Report.{unused_blocks};
ghost use Rattle.unused.specs.Marks.{marked_blocks, First, Unmarked, blocks_at, Blocks};

use headers::read_heading;
use words::{MOST_BLOCKS, field};

/// Marks the blocks 1 to n, and no other; a mark for each block that may be.
pub fn mark_first(marks: &mut [u8], blocks: usize)
    requires { length marks.old ≡ most_blocks }
    ensures { First blocks marks.new }
{
    for before in 0..MOST_BLOCKS {
        marks[before] = u8::from(before < blocks);
    }
}

// Takes the mark from the block of each of so many copies, whose records stand from the word `at` on.
fn unmark_copies(sheet: &[u16], marks: &mut [u8], at: usize, copies: usize)
    requires blocks { Blocks sheet.now at copies }
    requires marks_len { length marks.old ≡ most_blocks }
    ensures { Unmarked (blocks_at sheet.now at copies) marks.old marks.new }
{
    for copy in 1..copies + 1 {
        let block = field(sheet, at, 3, copy, 0);
        marks[block - 1] = 0;
    }
}

/// Marks the blocks 1 to n of which a bounded sheet has no copy, and no other.
pub fn mark_unused(sheet: &[u16], blocks: usize, marks: &mut [u8])
    requires t_value { bounded_refusal sheet.now ≡ 0 }
    requires n_le_most_blocks { blocks ≤ most_blocks }
    requires marks_len { length marks.old ≡ most_blocks }
    ensures { marked_blocks marks.new ≡ unused_blocks blocks sheet.now }
{
    let heading = read_heading(sheet);
    mark_first(marks, blocks);
    unmark_copies(sheet, marks, heading.records, heading.copies);
}
