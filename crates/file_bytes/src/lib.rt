//! Words as a file's bytes, written into a lent row: "In a file each word is two bytes, lower byte first".
//! Rests on words and digits; the definitions are formats File.
#![tactic(auto)]

ghost use Rattle.std.specs.Prelude.{◌+◌, ◌<◌, ◌≤◌, length};
ghost use Rattle.formats.specs.Limits.{word_limit};
ghost use Rattle.formats.specs.File.{word_bytes, bytes_of};
ghost use Rattle.digits.specs.Wrote.{Wrote};

use digits::put_byte;
use words::word_at;

/// Writes a word, the lower byte first.
pub fn put_word(out: &mut [u8], at: usize, word: usize) -> usize
    requires { (word < word_limit) × (at + 2 ≤ length out.old) }
    ensures { Wrote out.old at (word_bytes word) out.new result }
{
    let behind_lower = put_byte(out, at, (word % 256) as u8);
    put_byte(out, behind_lower, (word / 256) as u8)
}

/// Writes the words of a row.
pub fn put_words(words: &[u16], out: &mut [u8], at: usize) -> usize
    requires { at + length (bytes_of words.now) ≤ length out.old }
    ensures { Wrote out.old at (bytes_of words.now) out.new result }
{
    let mut place = at;
    for i in 0..words.len() {
        place = put_word(out, place, word_at(words, i));
    }
    place
}
