// The lines of a report for a sheet's unused blocks, written into a lent row of bytes.
// Rests on digits, unused and report_lines; the promises say the whole row, by digits Wrote and formats Report.
#![tactic(auto)]

ghost use Rattle.std.specs.Prelude.{◌≡◌, ◌+◌, ◌<◌, ◌≤◌, length};
ghost use Rattle.base.specs.Lists.{each};
ghost use Rattle.formats.specs.Limits.{most_blocks};
ghost use Rattle.formats.specs.Report.{unused_line};
ghost use Rattle.digits.specs.Wrote.{Wrote};
ghost use Rattle.unused.specs.Marks.{marked_blocks};
ghost use Rattle.report_lines.specs.Lines.{number_limit};
ghost use Rattle.unused_lines.specs.Room.{unused_room};

use digits::{NEWLINE, put_byte, put_named, put_number};
use words::MOST_BLOCKS;

/// The room that the lines of a sheet's unused blocks take.
pub const UNUSED_SIZE: usize = 23 * MOST_BLOCKS;

// Writes the line of a block that no kept path enters.
fn put_unused(text: &mut [u8], at: usize, place: usize, block: usize) -> usize
    requires { at + length (unused_line place block) ≤ length text.old }
    ensures { Wrote text.old at (unused_line place block) text.new result }
{
    let named = put_named(text, at, b"unused", place);
    let end = put_number(text, named, block);
    put_byte(text, end, NEWLINE)
}

/// Writes the lines of a sheet's marked blocks, and answers their length.
pub fn write_unused(text: &mut [u8], place: usize, marks: &[u8]) -> usize
    requires unused_room_in_bounds { unused_room ≤ length text.old }
    requires place_lt_number_limit { place < number_limit }
    requires marks_len { length marks.now ≡ most_blocks }
    ensures { Wrote text.old 0 (each (unused_line place) (marked_blocks marks.now)) text.new result × (result ≤ length text.new) }
{
    let mut end = 0;
    for block in 1..MOST_BLOCKS + 1 {
        let unused = marks[block - 1] != 0;
        if unused {
            end = put_unused(text, end, place, block);
        }
    }
    end
}
