// A catalogue's report, sheet by sheet: the line of each, and then the closing parts. Below stream, which puts them together.
// Rests on figures, tally, report_lines, unused_lines; lines and parts in order are the report (proofs Whole).
#![tactic(auto)]

ghost use Rattle.std.specs.Prelude.{◌≡◌, ◌&&◌, not, suc, List, ◌+◌, ◌≤◌, ◌<◌, ltb, length, IfSome};
ghost use Rattle.std.specs.Option.{option_copied};
ghost use Rattle.formats.specs.Limits.{most_sheets};
ghost use Rattle.formats.specs.Report.{Figures};
ghost use Rattle.file_words.specs.Longer.{longer_file};
ghost use Rattle.digits.specs.Wrote.{Wrote};
ghost use Rattle.sheet_lines.specs.Room.{sheet_room};
ghost use Rattle.unused_lines.specs.Room.{unused_room};
ghost use Rattle.catalogue.specs.Standing.{Ready, Standing, Next};
ghost use Rattle.catalogue.specs.Parts.{place_of, parts_before, closing_part};

use figures::report_item;
use report_lines::{write_most, write_total};
use tally::Tally;
use unused_lines::write_unused;
use words::MOST_BLOCKS;

/// The sheets of a catalogue; words after them are ignored.
pub const MOST_SHEETS: usize = 200;

/// A mark for each block of each sheet: whether no kept path enters it.
pub const MARKS: usize = MOST_SHEETS * MOST_BLOCKS;

/// What stands now, and the length of the text that is handed back.
#[derive(Clone, Copy, Debug, PartialEq, Eq)]
pub struct Handed<T> {
    pub now: T,
    pub size: usize,
}

/// A tally with one sheet more, the length of that sheet's line, and whether another sheet may come.
#[derive(Clone, Copy, Debug, PartialEq, Eq)]
pub struct Step {
    pub tally: Tally,
    pub size: usize,
    pub more: bool,
}

/// A part of a report behind its sheets' lines.
#[derive(Clone, Copy, Debug, PartialEq, Eq)]
pub enum Part {
    /// The totals.
    Totals,
    /// The sheet with the greatest copies to blocks.
    Greatest,
    /// The unused blocks of a sheet, by how many sheets stand before it.
    Unused(usize),
}

impl Part {
    /// The part behind it, in the report of so many sheets.
    pub fn next(self, sheets: usize) -> Option<Part>
        requires { place_of self < sheets + 2 }
        ensures before { parts_before sheets result ≡ suc (place_of self) }
        ensures inside { IfSome result (λ part. place_of part < sheets + 2) }
    {
        let sheet = match self {
            Part::Totals => return Some(Part::Greatest),
            Part::Greatest => 0,
            Part::Unused(sheet) => sheet + 1,
        };
        if sheet < sheets {
            return Some(Part::Unused(sheet));
        }
        None
    }
}

// Whether another sheet may come behind the one at a place.
fn may_come(cut: bool, place: usize) -> bool
    ensures { result ≡ (not cut && ltb place most_sheets) }
{
    if cut {
        return false;
    }
    place < MOST_SHEETS
}

/// Reports the next sheet, from its first bytes, none where its length was beyond the words left.
pub fn next_sheet(bytes: Option<&[u8]>, tally: Tally, marks: &mut [u8], text: &mut [u8]) -> Step
    requires bytes_len_bound { IfSome (option_copied bytes) (λ bs. length bs ≤ longer_file) }
    requires ready { Ready tally marks.old × (tally.place < most_sheets) }
    requires sheet_room_in_bounds { sheet_room ≤ length text.old }
    ensures ready_2 { Ready result.tally marks.new × (result.size ≤ length text.new) × (tally.place < result.tally.place) }
    ensures next { Next (option_copied bytes.entry) tally marks.old result marks.new text.old text.new }
{
    let cut = bytes.is_none();
    let at = tally.place * MOST_BLOCKS;
    let said = report_item(
        bytes,
        tally.place + 1,
        &mut marks[at..at + MOST_BLOCKS],
        text,
    );
    let next = tally.with_sheet(said.blocks, said.copies, said.edges);
    let more = may_come(cut, next.place);
    Step {
        tally: next,
        size: said.size,
        more,
    }
}

/// Writes a closing part, and answers its length.
pub fn closing_part(part: Part, tally: Tally, marks: &[u8], text: &mut [u8]) -> usize
    requires ready { Ready tally marks.now × (place_of part < tally.place + 2) }
    requires unused_room_in_bounds { unused_room ≤ length text.old }
    ensures upper_bound { result ≤ length text.new }
    ensures wrote { (fs : List Figures) → Standing fs tally marks.now → Wrote text.old 0 (closing_part fs (place_of part)) text.new result }
{
    match part {
        Part::Totals => write_total(text, tally),
        Part::Greatest => write_most(text, tally.most),
        Part::Unused(sheet) => {
            let at = sheet * MOST_BLOCKS;
            write_unused(text, sheet + 1, &marks[at..at + MOST_BLOCKS])
        }
    }
}
