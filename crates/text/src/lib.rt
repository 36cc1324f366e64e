//! What the programs write of a sheet into a lent row of bytes: the listing of a bounded sheet, or the line of a refusal.
//! Rests on headers, digits, heading_line and copy_line; the promises say the whole row, by digits Wrote and formats Listing.
#![tactic(auto)]

ghost use Rattle.std.specs.Prelude.{◌≡◌, ◌+◌, ◌≤◌, length};
ghost use Rattle.formats.specs.Rule11.{bounded_refusal};
ghost use Rattle.formats.specs.Listing.{listing_of, refusal_of};
ghost use Rattle.digits.specs.Wrote.{Wrote};
ghost use Rattle.copy_line.specs.Line.{Readable};
ghost use Rattle.text.specs.Texts.{listing_room, refusal_room, copy_lines};

use copy_line::write_copy;
use digits::{NEWLINE, put_byte, put_named};
use headers::{budgets_part, read_heading};
use heading_line::write_heading;
use words::{MOST_BOUNDED_EDGES, MOST_BUDGETS, MOST_COPIES};

/// The room that the text of any bounded sheet, and of any refusal, takes.
pub const TEXT_SIZE: usize = 30 + 4 * MOST_BUDGETS + 13 * MOST_COPIES + 5 * MOST_BOUNDED_EDGES;

/// The room of a refusal alone.
pub const REFUSAL_SIZE: usize = 14;

/// Writes the lines of all copies.
fn write_copies(
    words: &[u16],
    text: &mut [u8],
    at: usize,
    start: usize,
    copies: usize,
    edges: usize,
) -> usize
    requires readable { Readable words.now start copies edges }
    requires edges_in_bounds { at + length (copy_lines words.now start copies edges) ≤ length text.old }
    ensures { Wrote text.old at (copy_lines words.now start copies edges) text.new result }
{
    let mut place = at;
    for copy in 1..copies + 1 {
        place = write_copy(words, text, place, start, copies, edges, copy);
    }
    place
}

/// Writes the listing of a bounded sheet, and answers its length.
pub fn write_listing(sheet: &[u16], text: &mut [u8]) -> usize
    requires sheet_value { bounded_refusal sheet.now ≡ 0 }
    requires listing_room_in_bounds { listing_room ≤ length text.old }
    ensures { Wrote text.old 0 (listing_of sheet.now) text.new result × (result ≤ length text.new) }
{
    let heading = read_heading(sheet);
    let end = write_heading(text, heading.copies, heading.edges, budgets_part(sheet));
    write_copies(
        sheet,
        text,
        end,
        heading.records,
        heading.copies,
        heading.edges,
    )
}

/// Writes the line of a refusal by its number, and answers its length.
pub fn write_refusal(number: u16, text: &mut [u8]) -> usize
    requires { refusal_room ≤ length text.old }
    ensures { Wrote text.old 0 (refusal_of number) text.new result × (result ≤ length text.new) }
{
    let end = put_named(text, 0, b"refused", number as usize);
    put_byte(text, end, NEWLINE)
}
