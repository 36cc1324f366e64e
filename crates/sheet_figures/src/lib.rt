// What a report says of a sheet whose build is known: refused, cut, or with its bounded sheet at the front of a row.
// Rests on headers, front, unused, sheet_lines; the promises are by calls Report and specs Says.
#![tactic(auto)]

ghost use Rattle.std.specs.Prelude.{◌≡◌, ◌≤◌, ◌<◌, length};
ghost use Rattle.std.proofs.Math.Option.{none};
ghost use Rattle.base.specs.Checks.{refused};
ghost use Rattle.formats.specs.Limits.{most_blocks};
ghost use Rattle.formats.specs.BoundedSheet.{heading, bounded_length};
ghost use Rattle.formats.specs.Report.{refused_as};
ghost use Rattle.calls.specs.SheetGraph.{bounded_sheet};
ghost use Rattle.calls.specs.Program.{listing_order};
ghost use Rattle.calls.specs.Report.{accepted_figures, figures};
ghost use Rattle.front.specs.Front.{front_sheet};
ghost use Rattle.report_lines.specs.Lines.{number_limit};
ghost use Rattle.sheet_lines.specs.Room.{sheet_room};
ghost use Rattle.sheet_figures.specs.Says.{Costs, Says, Small};

use front::front_sheet;
use headers::{read_header, read_heading};
use sheet_lines::{write_figures, write_refused};
use unused::{mark_first, mark_unused};

/// Of a sheet: N, C and F, 0 where it is refused, and the length of its line.
#[derive(Clone, Copy, Debug, PartialEq, Eq)]
pub struct Reported {
    pub blocks: usize,
    pub copies: usize,
    pub edges: usize,
    pub size: usize,
}

/// What is said of a refused sheet.
pub fn report_refused(number: usize, place: usize, marks: &mut [u8], text: &mut [u8]) -> Reported
    requires number_nonzero { (0 < number) × (number < number_limit) × (place < number_limit) }
    requires marks_len { length marks.old ≡ most_blocks }
    requires sheet_room_in_bounds { sheet_room ≤ length text.old }
    ensures { Says (refused_as number) place result marks.new text.old text.new × Small result }
{
    mark_first(marks, 0);
    let size = write_refused(text, place, number);
    Reported {
        blocks: 0,
        copies: 0,
        edges: 0,
        size,
    }
}

/// What is said of an accepted graph sheet, whose bounded sheet stands at the front of a row; the area has its completion costs.
pub fn report_built(
    words: &[u16],
    row: &[u16],
    area: &[u8],
    place: usize,
    marks: &mut [u8],
    text: &mut [u8],
) -> Reported
    requires words_value { refused listing_order words.now ≡ 0 }
    requires row_in_bounds { (bounded_length (heading row.now) ≤ length row.now) × (front_sheet row.now ≡ bounded_sheet words.now 0) }
    requires costs { Costs words.now area.now }
    requires place_lt_number_limit { place < number_limit }
    requires marks_len { length marks.old ≡ most_blocks }
    requires sheet_room_in_bounds { sheet_room ≤ length text.old }
    ensures { Says (accepted_figures words.now) place result marks.new text.old text.new × Small result }
{
    let header = read_header(words);
    let sheet = front_sheet(row);
    mark_unused(sheet, header.blocks, marks);
    let heading = read_heading(sheet);
    let size = write_figures(sheet, area, text, place, header.blocks);
    Reported {
        blocks: header.blocks,
        copies: heading.copies,
        edges: heading.edges,
        size,
    }
}

/// What is said of a length beyond the words left.
pub fn report_cut(place: usize, marks: &mut [u8], text: &mut [u8]) -> Reported
    requires place_lt_number_limit { place < number_limit }
    requires marks_len { length marks.old ≡ most_blocks }
    requires sheet_room_in_bounds { sheet_room ≤ length text.old }
    ensures { Says (figures none) place result marks.new text.old text.new × Small result }
{
    report_refused(3, place, marks, text)
}
