// The line of a report for one sheet, accepted or refused, written into a lent row of bytes.
// Rests on headers, digits, report_lines and margins; the promises say the whole row, by digits Wrote and formats Report.
#![tactic(auto)]

ghost use Rattle.std.specs.Prelude.{◌≡◌, ◌<◌, ◌≤◌, length};
ghost use Rattle.formats.specs.Limits.{most_cells};
ghost use Rattle.formats.specs.BoundedSheet.{heading};
ghost use Rattle.formats.specs.Rule11.{bounded_refusal};
ghost use Rattle.formats.specs.Report.{figures_line, refused_line};
ghost use Rattle.digits.specs.Wrote.{Wrote};
ghost use Rattle.report_lines.specs.Lines.{number_limit, line_room};
ghost use Rattle.margins.specs.Margins.{margins_at};
ghost use Rattle.sheet_lines.specs.Room.{sheet_room};
ghost use Rattle.sheet_lines.specs.Line.{front_text};

use digits::{NEWLINE, put_byte, put_decimal, put_named};
use headers::read_heading;
use margins::put_margins;
use report_lines::put_three;
use words::MOST_COPIES;

/// The room that a sheet's line takes.
pub const LINE_SIZE: usize = 33 + 5 * MOST_COPIES;

// Writes the front of an accepted sheet's line: its place, N, C and F.
fn put_front(text: &mut [u8], place: usize, blocks: usize, copies: usize, edges: usize) -> usize
    requires line_room_in_bounds { line_room ≤ length text.old }
    requires place_lt_number_limit { (place < number_limit) × (blocks < number_limit) × (copies < number_limit) × (edges < number_limit) }
    ensures { Wrote text.old 0 (front_text place blocks copies edges) text.new result × (result < line_room) }
{
    let front = put_decimal(text, 0, place);
    put_three(text, front, blocks, copies, edges)
}

/// Writes an accepted sheet's line, and answers its length: its place, N, C and F, and the margin of each copy of its bounded sheet, by the
/// work area of its build.
pub fn write_figures(
    sheet: &[u16],
    area: &[u8],
    text: &mut [u8],
    place: usize,
    blocks: usize,
) -> usize
    requires t_value { (bounded_refusal sheet.now ≡ 0) × (most_cells ≤ length area.now) }
    requires sheet_room_in_bounds { sheet_room ≤ length text.old }
    requires place_lt_number_limit { (place < number_limit) × (blocks < number_limit) }
    ensures { Wrote text.old 0
        (figures_line place blocks (heading sheet.now).copies (heading sheet.now).edges (margins_at sheet.now area.now))
        text.new result × (result ≤ length text.new) }
{
    let heading = read_heading(sheet);
    let front = put_front(text, place, blocks, heading.copies, heading.edges);
    let end = put_margins(
        sheet,
        area,
        heading.largest,
        heading.records,
        heading.copies,
        text,
        front,
    );
    put_byte(text, end, NEWLINE)
}

/// Writes a refused sheet's line: its place, `refused` and the number.
pub fn write_refused(text: &mut [u8], place: usize, number: usize) -> usize
    requires line_room_in_bounds { line_room ≤ length text.old }
    requires place_lt_number_limit { (place < number_limit) × (number < number_limit) }
    ensures { Wrote text.old 0 (refused_line place number) text.new result × (result ≤ length text.new) }
{
    let front = put_decimal(text, 0, place);
    let end = put_named(text, front, b" refused", number);
    put_byte(text, end, NEWLINE)
}
