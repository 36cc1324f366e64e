// The closing lines of a report, and three numbers in a line, written into a lent row of bytes.
// Rests on digits and tally; the promises say the whole row, by digits Wrote and formats Report.
#![tactic(auto)]

ghost use Rattle.std.specs.Prelude.{◌+◌, ◌<◌, ◌≤◌, length, Some, None};
ghost use Rattle.formats.specs.Report.{total_line, most_line};
ghost use Rattle.digits.specs.Wrote.{Wrote};
ghost use Rattle.tally.specs.Tallies.{sums_of, most_from};
ghost use Rattle.report_lines.specs.Lines.{number_limit, line_room, three_text, last_three};

use digits::{NEWLINE, put_byte, put_bytes, put_number};
use tally::{Most, Tally};

/// Writes three numbers, each behind a space.
pub fn put_three(text: &mut [u8], at: usize, x: usize, y: usize, z: usize) -> usize
    requires { at + length (three_text x y z) ≤ length text.old }
    ensures { Wrote text.old at (three_text x y z) text.new result }
{
    let p = put_number(text, at, x);
    let q = put_number(text, p, y);
    put_number(text, q, z)
}

// Writes three numbers, each behind a space, and the newline.
fn put_last_three(text: &mut [u8], at: usize, x: usize, y: usize, z: usize) -> usize
    requires { at + length (last_three x y z) ≤ length text.old }
    ensures { Wrote text.old at (last_three x y z) text.new result }
{
    let p = put_three(text, at, x, y, z);
    put_byte(text, p, NEWLINE)
}

/// Writes the line of the totals.
pub fn write_total(text: &mut [u8], tally: Tally) -> usize
    requires line_room_in_bounds { line_room ≤ length text.old }
    requires blocks_lt_number_limit { (tally.blocks < number_limit) × (tally.copies < number_limit) × (tally.edges < number_limit) }
    ensures { Wrote text.old 0 (total_line (sums_of tally)) text.new result × (result ≤ length text.new) }
{
    let p = put_bytes(text, 0, b"total");
    put_last_three(text, p, tally.blocks, tally.copies, tally.edges)
}

// Writes the line of a sheet that has the greatest fraction.
fn write_greatest(text: &mut [u8], most: Most) -> usize
    requires line_room_in_bounds { line_room ≤ length text.old }
    requires place_lt_number_limit { (most.before + 1 < number_limit) × (most.copies < number_limit) × (most.blocks < number_limit) }
    ensures { Wrote text.old 0 (most_line (most_from (Some most))) text.new result × (result ≤ length text.new) }
{
    let p = put_bytes(text, 0, b"most");
    put_last_three(text, p, most.before + 1, most.copies, most.blocks)
}

// Writes the line of no greatest fraction.
fn write_none(text: &mut [u8]) -> usize
    requires line_room_in_bounds { line_room ≤ length text.old }
    ensures { Wrote text.old 0 (most_line (most_from None)) text.new result × (result ≤ length text.new) }
{
    let end = put_bytes(text, 0, b"most none");
    put_byte(text, end, NEWLINE)
}

/// Writes the line of the greatest fraction, or that there is none.
pub fn write_most(text: &mut [u8], most: Option<Most>) -> usize
    requires line_room_in_bounds { line_room ≤ length text.old }
    requires place_lt_number_limit { ((most_from most).place < number_limit) × ((most_from most).copies < number_limit)
        × ((most_from most).blocks < number_limit) }
    ensures { Wrote text.old 0 (most_line (most_from most)) text.new result × (result ≤ length text.new) }
{
    match most {
        Some(greatest) => write_greatest(text, greatest),
        None => write_none(text),
    }
}
