//! A file as decimal words, or its refusal: below the decode program, which reads the file and writes the text.
//! Rests on kept, file_words, decimal and text; the text is `shown` of the whole file.
#![tactic(auto)]

ghost use Rattle.std.specs.Prelude.{◌≡◌, List, ℕ, ◌≤◌, ◌<◌, length};
ghost use Rattle.formats.specs.File.{words_of};
ghost use Rattle.digits.specs.Wrote.{Wrote};
ghost use Rattle.decimal.specs.Writing.{sheet_text};
ghost use Rattle.kept.specs.Held.{Held, held_as};
ghost use Rattle.show.specs.Shown.{shown_file, shown_room, shown};

use base::Refusal;
use decimal::decode;
use file_words::words_of;
use kept::Kept;
use text::write_refusal;

/// The most words of a file that is shown.
pub const MOST_WORDS: usize = 65535;

/// The bytes of one word more: as much of a file as is kept.
pub const SHOWN_FILE: usize = 2 * (MOST_WORDS + 1);

/// The room of what is shown: a word takes at most five digits and what parts it from the next.
pub const SHOWN_TEXT: usize = 6 * MOST_WORDS;

/// The words of some bytes.
fn show_words(bytes: &[u8], text: &mut [u8]) -> usize
    requires bytes_len_bound { length bytes.now < shown_file }
    requires shown_room_in_bounds { shown_room ≤ length text.old }
    ensures { Wrote text.old 0 (sheet_text (words_of bytes.now)) text.new result × (result ≤ length text.new) }
{
    let mut words = [0u16; MOST_WORDS];
    let count = words_of(bytes, &mut words);
    decode(&words[..count], text)
}

/// What is shown of an input, of which a row has the first bytes; answers the length of the text.
pub fn show_kept(kept: Kept, row: &[u8], text: &mut [u8]) -> usize
    requires row_len { (length row.now ≡ shown_file) × (kept.count ≤ length row.now) }
    requires shown_room_in_bounds { shown_room ≤ length text.old }
    ensures upper_bound { result ≤ length text.new }
    ensures by_index { (xs : List ℕ) → Held xs row.now (held_as kept) → Wrote text.old 0 (shown xs) text.new result }
{
    if kept.odd {
        return write_refusal(Refusal::TooShort.number(), text);
    }
    if row.len() <= kept.count {
        return write_refusal(Refusal::WrongLength.number(), text);
    }
    show_words(&row[..kept.count], text)
}
