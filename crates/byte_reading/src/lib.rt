// One byte of a text, read into a row of bytes.
// Rests on text_form, word_bytes and word_reading.
#![tactic(auto)]

ghost use Rattle.std.specs.Prelude.{◌≡◌};
ghost use Rattle.text_form.specs.Reading.{line_byte, text_byte, step};
ghost use Rattle.word_reading.specs.Held.{Able, Turns};

use digits::NEWLINE;
use text_form::{counted, is_blank};
use word_bytes::{BETWEEN, COMMENT, flush};
use word_reading::{Reading, onward, word_byte};

const HASH: u8 = 35;

// A byte of a line, outside comments.
fn line_byte(out: &mut [u8], s: Reading, b: u8) -> Reading
    requires { Able s out.old × (s.fault ≡ 0) }
    ensures able { Able result out.new }
    ensures turns { Turns (λ x. line_byte x b) out.old s out.new result }
{
    if b == HASH {
        let p = flush(out, s.size, s.mode);
        return onward(s, p, COMMENT);
    }
    if is_blank(b) {
        let p = flush(out, s.size, s.mode);
        return onward(s, p, BETWEEN);
    }
    word_byte(s, b)
}

// A byte of a text.
fn text_byte(out: &mut [u8], s: Reading, b: u8) -> Reading
    requires { Able s out.old × (s.fault ≡ 0) }
    ensures able { Able result out.new }
    ensures turns { Turns (λ x. text_byte x b) out.old s out.new result }
{
    if b == NEWLINE {
        let p = flush(out, s.size, s.mode);
        let line = counted(s.line);
        return Reading {
            size: p,
            line: line,
            column: 1,
            mode: BETWEEN,
            fault: s.fault,
            found: s.found,
        };
    }
    if COMMENT <= s.mode {
        return onward(s, s.size, s.mode);
    }
    line_byte(out, s, b)
}

/// A byte of a text, unless there is a fault.
pub fn take_byte(out: &mut [u8], s: Reading, b: u8) -> Reading
    requires { Able s out.old }
    ensures able { Able result out.new }
    ensures turns { Turns (λ x. step x b) out.old s out.new result }
{
    if s.fault == 0 {
        return text_byte(out, s, b);
    }
    s
}
