// How far a text has been read, and a byte of a word.
// Rests on text_form, fault_line and word_bytes.
#![tactic(auto)]

ghost use Rattle.std.specs.Prelude.{◌≡◌, List, ℕ, ◌<◌};
ghost use Rattle.text_form.specs.Reading.{next, word_byte};
ghost use Rattle.word_reading.specs.Held.{Able, Turns};

use fault_line::{LARGE, MANY, OTHER};
use text_form::counted;
use word_bytes::{WORD_LIMIT, is_full, value_of};

const DIGIT_ZERO: u8 = 48;

const DIGIT_NINE: u8 = 57;

/// How far a text has been read: the bytes written, the line and the column of the byte that comes next, the mode, the first fault and what was
/// found there. After a fault the line and the column are the fault's.
#[derive(Clone, Copy, Debug, PartialEq, Eq)]
pub struct Reading {
    pub size: usize,
    pub line: usize,
    pub column: usize,
    pub mode: usize,
    pub fault: usize,
    pub found: usize,
}

/// A fault at this line and column.
pub fn fault_at(s: Reading, fault: usize, found: usize) -> Reading
    ensures { result ≡ record { size = s.size; line = s.line; column = s.column; mode = s.mode; fault = fault; found = found } }
{
    Reading {
        size: s.size,
        line: s.line,
        column: s.column,
        mode: s.mode,
        fault: fault,
        found: found,
    }
}

/// One byte on, in this mode, with so many bytes written.
pub fn onward(s: Reading, size: usize, mode: usize) -> Reading
    ensures { result ≡ record { size = size; line = s.line; column = next s.column; mode = mode; fault = s.fault; found = s.found } }
{
    let column = counted(s.column);
    Reading {
        size: size,
        line: s.line,
        column: column,
        mode: mode,
        fault: s.fault,
        found: s.found,
    }
}

fn wide(b: u8) -> usize
    ensures { (result ≡ b) × (result < 256) }
{
    b as usize
}

/// A byte of a word.
pub fn word_byte(s: Reading, b: u8) -> Reading
    requires { s.fault ≡ 0 }
    ensures by_index { (row : List ℕ) → Able s row → Able result row }
    ensures by_index_2 { (row : List ℕ) → Turns (λ x. word_byte x b) row s row result }
{
    let x = wide(b);
    if b < DIGIT_ZERO {
        return fault_at(s, OTHER, x);
    }
    if DIGIT_NINE < b {
        return fault_at(s, OTHER, x);
    }
    if is_full(s.size, s.mode) {
        return fault_at(s, MANY, 0);
    }
    let n = 10 * value_of(s.mode) + (b - DIGIT_ZERO) as usize;
    if WORD_LIMIT <= n {
        return fault_at(s, LARGE, n);
    }
    onward(s, s.size, n)
}
