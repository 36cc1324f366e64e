// Words put into a lent row, some at once, or a part of another row.
// Rests on words; a row with words put into it is said by specs Put.
#![tactic(auto)]

ghost use Rattle.std.specs.Prelude.{◌≡◌, [], ◌∷◌, ◌+◌, ◌<◌, ◌≤◌, length};
ghost use Rattle.formats.specs.Limits.{word_limit};
ghost use Rattle.put_words.specs.Put.{put_words};

use words::word_at;

/// Puts the words of another row. Word by word, and no copy of a slice: that calls for `memmove`, where a caller in C may have `memcpy` and `memset` alone.
pub fn put_part(out: &mut [u16], at: usize, part: &[u16])
    requires { at + length part.now ≤ length out.old }
    ensures { out.new ≡ put_words out.old at part.now }
{
    for i in 0..part.len() {
        put_one(out, at + i, word_at(part, i));
    }
}

/// Puts the words of an array.
#[tactic(auto, unfolding(crate::specs::Put::put_words))]
pub fn put_array<const N: usize>(out: &mut [u16], at: usize, words: [u16; N])
    requires { at + N ≤ length out.old }
    ensures { out.new ≡ put_words out.old at words.entry }
{
    out[at..at + N].copy_from_slice(&words);
}

// One, two and three words stand beside the array: their callers have numbers, each of which is bounded, and would cast every one for an array.

/// Puts three words.
pub fn put_three(out: &mut [u16], at: usize, x: usize, y: usize, z: usize)
    requires { (at + 3 ≤ length out.old) × (x < word_limit) × (y < word_limit) × (z < word_limit) }
    ensures { out.new ≡ put_words out.old at (x ∷ y ∷ z ∷ []) }
{
    out[at] = x as u16;
    out[at + 1] = y as u16;
    out[at + 2] = z as u16;
}

/// Puts two words.
pub fn put_two(out: &mut [u16], at: usize, x: usize, y: usize)
    requires { (at + 2 ≤ length out.old) × (x < word_limit) × (y < word_limit) }
    ensures { out.new ≡ put_words out.old at (x ∷ y ∷ []) }
{
    out[at] = x as u16;
    out[at + 1] = y as u16;
}

/// Puts one word.
pub fn put_one(out: &mut [u16], at: usize, x: usize)
    requires { (at < length out.old) × (x < word_limit) }
    ensures { out.new ≡ put_words out.old at (x ∷ []) }
{
    out[at] = x as u16;
}
