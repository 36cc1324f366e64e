// Bytes and decimal numbers, written into a lent row of bytes.
// Rests on words; numbers are written by formats Listing.
#![tactic(auto)]

ghost use Rattle.std.specs.Prelude.{[], ◌∷◌, ◌++◌, ◌+◌, ◌<◌, ◌≤◌, length};
ghost use Rattle.base.specs.Lists.{each};
ghost use Rattle.formats.specs.Listing.{decimal};
ghost use Rattle.digits.specs.Wrote.{Wrote};
ghost use Rattle.digits.specs.Spaced.{spaced};

use words::word_at;

pub const SPACE: u8 = 32;

pub const NEWLINE: u8 = 10;

const DIGIT_ZERO: usize = 48;

// Writes one byte; the place behind it.
pub fn put_byte(text: &mut [u8], at: usize, byte: u8) -> usize
    requires { at < length text.old }
    ensures { Wrote text.old at (byte ∷ []) text.new result }
{
    text[at] = byte;
    at + 1
}

// Writes a row of bytes.
pub fn put_bytes(text: &mut [u8], at: usize, bytes: &[u8]) -> usize
    requires { at + length bytes.now ≤ length text.old }
    ensures { Wrote text.old at bytes.now text.new result }
{
    let mut p = at;
    let mut i = 0;
    while i < bytes.len() {
        p = put_byte(text, p, bytes[i]);
        i += 1;
    }
    p
}

// Writes a number in decimal digits: those of its tenth, then the last.
pub fn put_decimal(text: &mut [u8], at: usize, n: usize) -> usize
    requires { at + length (decimal n) ≤ length text.old }
    ensures { Wrote text.old at (decimal n) text.new result }
{
    if n < 10 {
        return put_byte(text, at, (DIGIT_ZERO + n) as u8);
    }
    let p = put_decimal(text, at, n / 10);
    put_byte(text, p, (DIGIT_ZERO + n % 10) as u8)
}

// Writes a space and a number.
pub fn put_number(text: &mut [u8], at: usize, n: usize) -> usize
    requires { at + length (spaced n) ≤ length text.old }
    ensures { Wrote text.old at (spaced n) text.new result }
{
    let p = put_byte(text, at, SPACE);
    put_decimal(text, p, n)
}

// Writes words, each behind a space, from the place `at` on.
pub fn put_numbers(ws: &[u16], text: &mut [u8], at: usize) -> usize
    requires { at + length (each spaced ws.now) ≤ length text.old }
    ensures { Wrote text.old at (each spaced ws.now) text.new result }
{
    let mut p = at;
    let mut i = 0;
    while i < ws.len() {
        p = put_number(text, p, word_at(ws, i));
        i += 1;
    }
    p
}

// Writes a name, a space and a number.
pub fn put_named(text: &mut [u8], at: usize, name: &[u8], n: usize) -> usize
    requires { at + length (name.now ++ spaced n) ≤ length text.old }
    ensures { Wrote text.old at (name.now ++ spaced n) text.new result }
{
    let p = put_bytes(text, at, name);
    put_number(text, p, n)
}
