//! The listing of a file, on slices: below the programs, which read the file and write the text.
//! Rests on file_words, build, front, text; the text is calls Program `listing` of the whole file (proofs Files).
#![tactic(auto)]

ghost use Rattle.std.specs.Prelude.{◌≡◌, List, ℕ, ◌≤◌, length};
ghost use Rattle.formats.specs.Limits.{most_cells};
ghost use Rattle.formats.specs.BoundedSheet.{heading, bounded_length};
ghost use Rattle.formats.specs.Rule11.{bounded_refusal};
ghost use Rattle.formats.specs.Listing.{listing_of};
ghost use Rattle.calls.specs.Program.{sheet_listing, listing};
ghost use Rattle.file_words.specs.Longer.{longer_file};
ghost use Rattle.front.specs.Front.{most_words, front_sheet};
ghost use Rattle.digits.specs.Wrote.{Wrote};
ghost use Rattle.text.specs.Texts.{listing_room};
ghost use Rattle.kept.specs.Held.{Held, held_as};
ghost use Rattle.list.specs.Whole.{listing_from};

use base::Refusal;
use build::build;
use file_words::{LONGER_SHEET, words_of};
use front::{MOST_WORDS, front_sheet};
use kept::Kept;
use text::{write_listing, write_refusal};
use words::MOST_CELLS;

/// The listing of the bounded sheet with which a row begins.
fn list_built(row: &[u16], text: &mut [u8]) -> usize
    requires row_in_bounds { bounded_length (heading row.now) ≤ length row.now }
    requires row_value { bounded_refusal (front_sheet row.now) ≡ 0 }
    requires listing_room_in_bounds { listing_room ≤ length text.old }
    ensures { Wrote text.old 0 (listing_of (front_sheet row.now)) text.new result × (result ≤ length text.new) }
{
    let sheet = front_sheet(row);
    write_listing(sheet, text)
}

/// The listing of a graph sheet, in rows that are lent; a listing takes the handler's cost as 0.
fn list_in_rows(words: &[u16], area: &mut [u8], output: &mut [u16], text: &mut [u8]) -> usize
    requires rooms { (most_cells ≤ length area.old) × (most_words ≤ length output.old) }
    requires listing_room_in_bounds { listing_room ≤ length text.old }
    ensures { Wrote text.old 0 (sheet_listing words.now) text.new result × (result ≤ length text.new) }
{
    match build(words, 0, area, output) {
        Ok(()) => list_built(output, text),
        Err(refusal) => write_refusal(refusal.number(), text),
    }
}

/// The listing of a graph sheet; the rows are local, once.
fn list_words(words: &[u16], text: &mut [u8]) -> usize
    requires { listing_room ≤ length text.old }
    ensures { Wrote text.old 0 (sheet_listing words.now) text.new result × (result ≤ length text.new) }
{
    let mut area = [0u8; MOST_CELLS];
    let mut output = [0u16; MOST_WORDS];
    list_in_rows(words, &mut area, &mut output, text)
}

/// The listing of a file, from its first bytes and whether it has an odd number of them; answers the length of the text.
pub fn list_file(bytes: &[u8], odd: bool, text: &mut [u8]) -> usize
    requires bytes_len_bound { length bytes.now ≤ longer_file }
    requires listing_room_in_bounds { listing_room ≤ length text.old }
    ensures { Wrote text.old 0 (listing_from bytes.now odd) text.new result × (result ≤ length text.new) }
{
    if odd {
        return write_refusal(Refusal::TooShort.number(), text);
    }
    let mut words = [0u16; LONGER_SHEET];
    let count = words_of(bytes, &mut words);
    list_words(&words[..count], text)
}

/// The listing of an input, of which a row has the first bytes; answers the length of the text.
pub fn list_kept(kept: Kept, row: &[u8], text: &mut [u8]) -> usize
    requires row_len { (length row.now ≡ longer_file) × (kept.count ≤ length row.now) }
    requires listing_room_in_bounds { listing_room ≤ length text.old }
    ensures upper_bound { result ≤ length text.new }
    ensures by_index { (xs : List ℕ) → Held xs row.now (held_as kept) → Wrote text.old 0 (listing xs) text.new result }
{
    list_file(&row[..kept.count], kept.odd, text)
}
