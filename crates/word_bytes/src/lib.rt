// The word that is being read: its value so far, whether there is room for it, and its bytes, written when it is done.
// Rests on text_form and file_bytes.
#![tactic(auto)]

ghost use Rattle.std.specs.Prelude.{◌≡◌, ◌&&◌, ◌+◌, ◌<◌, ◌≤◌, ltb, length};
ghost use Rattle.formats.specs.Limits.{word_limit};
ghost use Rattle.formats.specs.File.{bytes_of};
ghost use Rattle.digits.specs.Wrote.{Wrote};
ghost use Rattle.text_form.specs.Reading.{outside_word, value, pending};
ghost use Rattle.word_bytes.specs.Modes.{bytes_size, mode_of};

use file_bytes::put_word;
use text_form::MOST_WORDS;

/// The room that the bytes of the most words take.
pub const BYTES_SIZE: usize = 2 * MOST_WORDS;

// Where the last word begins.
const LAST_PLACE: usize = BYTES_SIZE - 2;

/// One more than the largest word.
pub const WORD_LIMIT: usize = 65536;

/// The modes: below WORD_LIMIT, within a word of that value so far.
pub const BETWEEN: usize = WORD_LIMIT;

pub const COMMENT: usize = WORD_LIMIT + 1;

/// Writes the word that was being read, if there is one.
pub fn flush(out: &mut [u8], at: usize, mode: usize) -> usize
    requires { mode < word_limit → at + 2 ≤ length out.old }
    ensures { Wrote out.old at (bytes_of (pending (mode_of mode))) out.new result }
{
    if mode < WORD_LIMIT {
        return put_word(out, at, mode);
    }
    at
}

/// The value so far of the word that is being read.
pub fn value_of(mode: usize) -> usize
    ensures { (result ≡ value (mode_of mode)) × (result < word_limit) }
{
    if mode < WORD_LIMIT {
        return mode;
    }
    0
}

/// Whether a word that begins here has no room.
pub fn is_full(size: usize, mode: usize) -> bool
    ensures { result ≡ outside_word (mode_of mode) && ltb bytes_size (size + 2) }
{
    if mode < WORD_LIMIT {
        return false;
    }
    LAST_PLACE < size
}
