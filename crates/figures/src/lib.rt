// What a report says of one sheet of a catalogue: its figures, its line, and the blocks that no kept path enters.
// Rests on file_words, build, front, sheet_figures; the promise is an equation with calls Report `figures`.
#![tactic(auto)]

ghost use Rattle.std.specs.Prelude.{◌≡◌, ◌≤◌, ◌<◌, length, IfSome, Some};
ghost use Rattle.std.specs.Option.{option_copied};
ghost use Rattle.std.proofs.Math.Option.{some};
ghost use Rattle.formats.specs.Limits.{most_blocks, most_cells};
ghost use Rattle.calls.specs.Report.{figures};
ghost use Rattle.file_words.specs.Longer.{longer_file};
ghost use Rattle.front.specs.Front.{most_words};
ghost use Rattle.report_lines.specs.Lines.{number_limit};
ghost use Rattle.sheet_lines.specs.Room.{sheet_room};
ghost use Rattle.sheet_figures.specs.Says.{Says, Small};
ghost use Rattle.figures.specs.Reports.{Reports};

use build::build;
use file_words::{LONGER_SHEET, words_of};
use front::MOST_WORDS;
use sheet_figures::{Reported, report_built, report_cut, report_refused};
use words::MOST_CELLS;

// What is said of a graph sheet, in rows that are lent; a report takes the handler's cost as 0.
fn report_in_rows(
    words: &[u16],
    area: &mut [u8],
    out: &mut [u16],
    place: usize,
    marks: &mut [u8],
    text: &mut [u8],
) -> Reported
    requires most_cells_in_bounds { (most_cells ≤ length area.old) × (most_words ≤ length out.old) }
    requires place_lt_number_limit { place < number_limit }
    requires marks_len { length marks.old ≡ most_blocks }
    requires sheet_room_in_bounds { sheet_room ≤ length text.old }
    ensures { Says (figures (some words.now)) place result marks.new text.old text.new × Small result }
{
    match build(words, 0, area, out) {
        Ok(()) => report_built(words, out, area, place, marks, text),
        Err(refusal) => report_refused(refusal.number() as usize, place, marks, text),
    }
}

// What is said of the graph sheet at a place of a catalogue; its rows are local, once.
fn report_sheet(words: &[u16], place: usize, marks: &mut [u8], text: &mut [u8]) -> Reported
    requires place_lt_number_limit { place < number_limit }
    requires marks_len { length marks.old ≡ most_blocks }
    requires sheet_room_in_bounds { sheet_room ≤ length text.old }
    ensures { Says (figures (some words.now)) place result marks.new text.old text.new × Small result }
{
    let mut area = [0u8; MOST_CELLS];
    let mut out = [0u16; MOST_WORDS];
    report_in_rows(words, &mut area, &mut out, place, marks, text)
}

// What is said of a sheet from its first bytes.
fn report_whole(bytes: &[u8], place: usize, marks: &mut [u8], text: &mut [u8]) -> Reported
    requires bytes_len_bound { length bytes.now ≤ longer_file }
    requires place_lt_number_limit { place < number_limit }
    requires marks_len { length marks.old ≡ most_blocks }
    requires sheet_room_in_bounds { sheet_room ≤ length text.old }
    ensures reports { Reports (Some bytes.now) place result marks.new text.old text.new }
    ensures size_in_bounds { (result.size ≤ length text.new) × Small result }
{
    let mut words = [0u16; LONGER_SHEET];
    let count = words_of(bytes, &mut words);
    report_sheet(&words[..count], place, marks, text)
}

/// What is said of the sheet at a place of a catalogue, from its first bytes; none where its length was beyond the words left.
pub fn report_item(
    bytes: Option<&[u8]>,
    place: usize,
    marks: &mut [u8],
    text: &mut [u8],
) -> Reported
    requires bytes_len_bound { IfSome (option_copied bytes) (λ bs. length bs ≤ longer_file) }
    requires place_lt_number_limit { place < number_limit }
    requires marks_len { length marks.old ≡ most_blocks }
    requires sheet_room_in_bounds { sheet_room ≤ length text.old }
    ensures reports { Reports (option_copied bytes.entry) place result marks.new text.old text.new }
    ensures size_in_bounds { (result.size ≤ length text.new) × Small result }
{
    match bytes {
        Some(first) => report_whole(first, place, marks, text),
        None => report_cut(place, marks, text),
    }
}
