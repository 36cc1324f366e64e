// A file's bytes as words: "In a file each word is two bytes, lower byte first".
// Rests on words; the definitions are formats File.
#![tactic(auto)]

ghost use Rattle.std.specs.Prelude.{◌≡◌, ◌++◌, ◌+◌, ◌*◌, ◌/◌, ◌≤◌, length, drop};
ghost use Rattle.formats.specs.File.{words_of};

use words::{MOST_BLOCKS, MOST_EDGES};

/// The longest header that words can say: four of them, and as many budgets as the fourth can count.
pub const LONGEST_HEADER: usize = 4 + 65535;

/// One word more than the longest graph sheet that 3 lets pass has: a longer file is answered by as many of its words (proofs LongFile).
pub const LONGER_SHEET: usize = LONGEST_HEADER + 2 * MOST_BLOCKS + 2 * MOST_EDGES + 1;

/// The same in bytes.
pub const LONGER_FILE: usize = 2 * LONGER_SHEET;

/// A word from its two bytes.
pub fn joined(lower: u8, higher: u8) -> u16
    ensures { result ≡ lower + 256 * higher }
{
    u16::from_le_bytes([lower, higher])
}

/// Writes the words of a file's bytes to the front of a row, and answers how many; an odd last byte is no word.
pub fn words_of(bytes: &[u8], words: &mut [u16]) -> usize
    requires { length bytes.now / 2 ≤ length words.old }
    ensures value { result ≡ length bytes.now / 2 }
    ensures words_after { words.new ≡ words_of bytes.now ++ drop result words.old }
{
    let count = bytes.len() / 2;
    for i in 0..count {
        words[i] = joined(bytes[2 * i], bytes[2 * i + 1]);
    }
    count
}
