// Decimal words in a text, read into a sheet's bytes however the text comes in pieces; a fault is told by line, column and what stood there. In lent
// rows, and by a `Reading` that keeps its own.
// Rests on fault_line, word_bytes, word_reading and byte_reading; for every way of cutting a text it is the same (proofs Pieces `pieces-read`).
#![tactic(auto)]

ghost use Rattle.std.specs.Prelude.{◌≡◌, List, ℕ, ◌≤◌, length};
ghost use Rattle.text_form.specs.Reading.{start, ended};
ghost use Rattle.fault_line.specs.Faults.{said_size};
ghost use Rattle.word_bytes.specs.Modes.{bytes_size};
ghost use Rattle.word_reading.specs.Held.{Holds, Able, Turns};
ghost use Rattle.reading.specs.Fed.{Feeds, Leaves};

mod keeping;

use byte_reading::take_byte;
use fault_line::{NOTHING, say};
pub use keeping::Reading;
use word_bytes::{BETWEEN, flush};
use word_reading::{Reading as Progress, fault_at};

/// What a text came to: how many bytes its words take, and how many tell its fault; one of the two is 0.
#[derive(Clone, Copy, Debug, PartialEq, Eq)]
pub struct Encoded {
    pub size: usize,
    pub said: usize,
}

/// Nothing has been read.
pub fn begin() -> Progress
    ensures by_index { (row : List ℕ) → length row ≡ bytes_size → Able result row }
    ensures by_index_2 { (row : List ℕ) → Holds row start row result }
{
    Progress {
        size: 0,
        line: 1,
        column: 1,
        mode: BETWEEN,
        fault: 0,
        found: 0,
    }
}

/// Reads the next bytes of the text, however many, and writes the words that they end.
pub fn feed(s: Progress, text: &[u8], out: &mut [u8]) -> Progress
    requires { Able s out.old }
    ensures able { Able result out.new }
    ensures feeds { Feeds text.now out.old s out.new result }
{
    let mut t = s;
    let mut i = 0;
    while i < text.len() {
        t = take_byte(out, t, text[i]);
        i += 1;
    }
    t
}

// The text is over: the last word is done, and a text without any is a fault.
fn end_text(out: &mut [u8], s: Progress) -> Progress
    requires { Able s out.old }
    ensures able { Able result out.new }
    ensures turns { Turns ended out.old s out.new result }
{
    if s.fault != 0 {
        return s;
    }
    let size = flush(out, s.size, s.mode);
    let t = Progress {
        size: size,
        line: s.line,
        column: s.column,
        mode: BETWEEN,
        fault: s.fault,
        found: s.found,
    };
    if size == 0 {
        return fault_at(t, NOTHING, 0);
    }
    t
}

/// The text is over: leaves the bytes of its words, or the line that tells its fault.
pub fn finish(s: Progress, out: &mut [u8], said: &mut [u8]) -> Encoded
    requires able { Able s out.old }
    requires said_len { length said.old ≡ said_size }
    ensures size_in_bounds { (result.size ≤ length out.new) × (result.said ≤ length said.new) }
    ensures leaves { Leaves out.old s out.new said.old said.new result }
{
    let t = end_text(out, s);
    if t.fault != 0 {
        let n = say(t.line, t.column, t.fault, t.found, said);
        return Encoded { size: 0, said: n };
    }
    Encoded {
        size: t.size,
        said: 0,
    }
}
