// A reading that keeps the bytes of its words, and answers them or the text's first fault as a value; fed and finished by the functions over lent rows.
// Rests on fault_line, word_bytes, word_reading; for every way of cutting a text it is the same (proofs KeptPieces `pieces-read`).
#![tactic(auto)]

ghost use Rattle.std.specs.Prelude.{◌≡◌, ◌<◌, length};
ghost use Rattle.text_form.specs.Reading.{start};
ghost use Rattle.word_bytes.specs.Modes.{bytes_size};
ghost use Rattle.fault_line.specs.Faults.{found_limit, what_of as what_by};
ghost use Rattle.fault_line.specs.Kinds.{what_of};
ghost use Rattle.reading.specs.Held.{Holds, Able};
ghost use Rattle.reading.specs.Comes.{Feeds, Leaves};

use crate::{begin, feed, finish};
use fault_line::{Fault, LARGE, MANY, OTHER, SAID_SIZE, TextFault};
use word_bytes::BYTES_SIZE;
use word_reading::Reading as Progress;

/// How far a text has been read.
#[derive(Debug, Drop)]
pub struct Reading {
    // The bytes of the words that ended.
    row: [u8; BYTES_SIZE],
    progress: Progress,
}

// What stood where a fault is, by its number and what was found there: of a byte that is no digit its value, which is below 256 then.
fn fault_by(fault: usize, found: usize) -> Fault
    requires { found < found_limit }
    ensures { (fault ≡ 1 → found < 256) → what_of result ≡ what_by fault found }
{
    if fault == OTHER {
        return Fault::NotADigit((found % 256) as u8);
    }
    if fault == LARGE {
        return Fault::AboveLargest(found as u32);
    }
    if fault == MANY {
        return Fault::TooManyWords;
    }
    Fault::NoWord
}

// Nothing has been read into this row.
fn begun(row: [u8; BYTES_SIZE]) -> Reading
    requires { length row ≡ bytes_size }
    ensures able { Able result }
    ensures held { Holds start result }
{
    let progress = begin();
    Reading { row, progress }
}

impl Reading {
    /// Nothing has been read.
    pub fn new() -> Reading
        ensures able { Able result }
        ensures held { Holds start result }
    {
        begun([0; BYTES_SIZE])
    }

    /// Reads the next bytes of the text, however many, and writes the words that they end.
    pub fn feed(&mut self, text: &[u8])
        requires { Able self.old }
        ensures able { Able self.new }
        ensures feeds { Feeds text.now self.old self.new }
    {
        self.progress = feed(self.progress, text, &mut self.row);
    }

    /// The text is over: the bytes of its words, or its first fault. Nothing is promised of the reading behind that.
    pub fn finish(&mut self) -> Result<&[u8], TextFault>
        requires { Able self.old }
        ensures { Leaves self.old result }
    {
        let progress = self.progress;
        let mut said = [0u8; SAID_SIZE];
        let encoded = finish(progress, &mut self.row, &mut said);
        if encoded.said == 0 {
            return Ok(&self.row[..encoded.size]);
        }
        Err(TextFault {
            line: progress.line,
            column: progress.column,
            fault: fault_by(progress.fault, progress.found),
        })
    }
}

#[cfg(test)]
mod tests {
    use super::Reading;
    use fault_line::{Fault, TextFault};

    #[test]
    fn words_in_two_pieces(rt: HostRuntime) {
        let mut reading = Reading::new();
        reading.feed(b"1 51");
        reading.feed(b"3 # a comment 7\n65535");
        match reading.finish() {
            Ok(bytes) => assert_eq!(rt; bytes, &[1, 0, 1, 2, 255, 255][..]),
            Err(_) => panic!(rt; "a fault"),
        }
    }

    #[test]
    fn a_fault_behind_a_word(rt: HostRuntime) {
        let mut reading = Reading::new();
        reading.feed(b"1\n 2x");
        let fault = TextFault {
            line: 2,
            column: 3,
            fault: Fault::NotADigit(b'x'),
        };
        match reading.finish() {
            Ok(_) => panic!(rt; "no fault"),
            Err(found) => assert_eq!(rt; found, fault),
        }
    }

    #[test]
    fn no_word(rt: HostRuntime) {
        let mut reading = Reading::new();
        reading.feed(b"# 1\n");
        let fault = TextFault {
            line: 2,
            column: 1,
            fault: Fault::NoWord,
        };
        match reading.finish() {
            Ok(_) => panic!(rt; "no fault"),
            Err(found) => assert_eq!(rt; found, fault),
        }
    }
}
