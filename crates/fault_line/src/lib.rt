// The line that tells a fault of a text: its line, its column and what stood there; and the fault as a value that is printed so.
// Rests on digits and text_form.
#![tactic(auto)]

ghost use Rattle.std.specs.Prelude.{◌≡◌, ◌+◌, ◌<◌, ◌≤◌, length};
ghost use Rattle.digits.specs.Wrote.{Wrote};
ghost use Rattle.text_form.specs.Reading.{most_count};
ghost use Rattle.text_form.specs.Said.{place_text, unseen_text, other_text, what_text, said_text};
ghost use Rattle.fault_line.specs.Faults.{found_limit, place_room, what_room, said_size, what_of, fault_by};

mod kinds;

use digits::{NEWLINE, put_byte, put_bytes, put_decimal, put_named};
pub use kinds::{Fault, TextFault};

/// The room that the line takes.
pub const SAID_SIZE: usize = 62;

/// The faults: 0 is none.
pub const OTHER: usize = 1;

pub const LARGE: usize = 2;

pub const MANY: usize = 3;

pub const NOTHING: usize = 4;

const QUOTE: u8 = 39;

// The bytes that can be seen.
const FIRST_SEEN: usize = 33;

const LAST_SEEN: usize = 126;

// Writes `line 3, column 7: `.
fn say_place(line: usize, column: usize, said: &mut [u8]) -> usize
    requires { (line ≤ most_count) × (column ≤ most_count) × (place_room ≤ length said.old) }
    ensures { Wrote said.old 0 (place_text line column) said.new result × (result ≤ place_room) }
{
    let p = put_named(said, 0, b"line", line);
    let q = put_named(said, p, b", column", column);
    put_bytes(said, q, b": ")
}

// Writes of a byte by its number that it is no digit.
fn say_byte(b: usize, said: &mut [u8], at: usize) -> usize
    requires { (b < found_limit) × (at + what_room ≤ length said.old) }
    ensures { Wrote said.old at (unseen_text b) said.new result }
{
    let p = put_named(said, at, b"byte", b);
    put_bytes(said, p, b" is not a digit")
}

// Writes of a byte that it is no digit: in quotes, where it can be seen.
fn say_other(b: usize, said: &mut [u8], at: usize) -> usize
    requires { (b < found_limit) × (at + what_room ≤ length said.old) }
    ensures { Wrote said.old at (other_text b) said.new result }
{
    if b < FIRST_SEEN {
        return say_byte(b, said, at);
    }
    if LAST_SEEN < b {
        return say_byte(b, said, at);
    }
    let p = put_byte(said, at, QUOTE);
    let q = put_byte(said, p, b as u8);
    let r = put_byte(said, q, QUOTE);
    put_bytes(said, r, b" is not a digit")
}

// Writes what stood where a fault is.
fn say_what(fault: usize, found: usize, said: &mut [u8], at: usize) -> usize
    requires { (found < found_limit) × (at + what_room ≤ length said.old) }
    ensures { Wrote said.old at (what_text (what_of fault found)) said.new result }
{
    if fault == OTHER {
        return say_other(found, said, at);
    }
    if fault == LARGE {
        let p = put_decimal(said, at, found);
        return put_bytes(said, p, b" is above 65535");
    }
    if fault == MANY {
        return put_bytes(said, at, b"more than 262144 words");
    }
    put_bytes(said, at, b"no word")
}

/// Writes the line that tells a fault.
pub fn say(line: usize, column: usize, fault: usize, found: usize, said: &mut [u8]) -> usize
    requires { (line ≤ most_count) × (column ≤ most_count) × (found < found_limit) × (length said.old ≡ said_size) }
    ensures { Wrote said.old 0 (said_text (fault_by line column fault found)) said.new result × (result ≤ length said.new) }
{
    let p = say_place(line, column, said);
    let q = say_what(fault, found, said, p);
    put_byte(said, q, NEWLINE)
}
