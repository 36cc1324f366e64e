//! The line of one copy of a listing, written into a lent row of bytes: the copy's number, block, low and targets.
//! Rests on words and digits; the promises say the whole row, by digits Wrote and specs Line.
#![tactic(auto)]

ghost use Rattle.std.specs.Prelude.{suc, ◌+◌, ◌*◌, ◌≤◌, length};
ghost use Rattle.formats.specs.Words.{Inside, next_from};
ghost use Rattle.digits.specs.Wrote.{Wrote};
ghost use Rattle.copy_line.specs.Line.{targets_text, line_at, Readable};

use digits::{NEWLINE, put_byte, put_decimal, put_number};
use words::field;

/// Writes the targets of a chain of the edges 1 to `edges`, whose records stand from the word `base` on, at a place of the text.
fn write_targets(
    words: &[u16],
    text: &mut [u8],
    at: usize,
    base: usize,
    edges: usize,
    first: usize,
) -> usize
    requires edges_in_bounds { (base + 2 * edges ≤ length words.now) × Inside (next_from words.now base) edges (suc edges) first }
    requires first_in_bounds { at + length (targets_text words.now base edges first) ≤ length text.old }
    ensures { Wrote text.old at (targets_text words.now base edges first) text.new result }
{
    let mut place = at;
    let mut edge = first;
    let mut left = edges + 1;
    while 0 < left {
        if edge == 0 {
            return place;
        }
        let target = field(words, base, 2, edge, 0);
        place = put_number(text, place, target);
        edge = field(words, base, 2, edge, 1);
        left -= 1;
    }
    place
}

/// Writes the line of a copy: its number, block, low in cycles and targets; the records of so many copies stand from the word `start` on, and behind
/// them those of its edges.
pub fn write_copy(
    words: &[u16],
    text: &mut [u8],
    at: usize,
    start: usize,
    copies: usize,
    edges: usize,
    copy: usize,
) -> usize
    requires readable { Readable words.now start copies edges }
    requires le_copy { (1 ≤ copy) × (copy ≤ copies) }
    requires copy_in_bounds { at + length (line_at words.now start copies edges copy) ≤ length text.old }
    ensures { Wrote text.old at (line_at words.now start copies edges copy) text.new result }
{
    let block = field(words, start, 3, copy, 0);
    let low = field(words, start, 3, copy, 1);
    let first = field(words, start, 3, copy, 2);
    let behind_copy = put_decimal(text, at, copy);
    let behind_block = put_number(text, behind_copy, block);
    let behind_low = put_number(text, behind_block, low);
    let end = write_targets(words, text, behind_low, start + 3 * copies, edges, first);
    put_byte(text, end, NEWLINE)
}
