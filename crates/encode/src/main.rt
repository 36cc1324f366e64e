// The encode program: decimal words on standard input, the bytes of the sheet on standard output, or a fault in one line on standard error.
// Rests on input, and on reading, which is fed with what comes and leaves both.
#![tactic(auto)]

ghost use Rattle.std.specs.Prelude.{◌≡◌, List, ℕ, length, IfOk, IfErr, OnOk, OnErr, IfSome};
ghost use Rattle.std.specs.Io.KnownBytes.{Appends, Keeps, Consumes, IsAtEnd};
ghost use Rattle.input.specs.Failed.{OfInput, OfErrors, WritesNothing};
ghost use Rattle.text_form.specs.Reading.{start, read_on};
ghost use Rattle.text_form.specs.Said.{encoded_bytes, encoded_said};
ghost use Rattle.fault_line.specs.Faults.{said_size};
ghost use Rattle.word_bytes.specs.Modes.{bytes_size};
ghost use Rattle.word_reading.specs.Held.{Able, Holds};
ghost use Rattle.word_reading.specs.declared.Reading.{Reading as Progress};

use fault_line::SAID_SIZE;
use input::{Failure, PIECE, ending, no_end, print, print_error, read_piece};
use reading::{begin, feed, finish};
use std::io::{Read, Write};
use std::process::ExitCode;
use word_bytes::BYTES_SIZE;
use word_reading::Reading;

// Feeds the reading with an input, piece by piece, to its end.
fn read_text<R: Read>(reader: &mut R, out: &mut [u8]) -> Result<Reading, Failure>
    requires { length out.old ≡ bytes_size }
    ensures able { IfOk result (λ s. Able s out.new) }
    ensures end { OnOk result (IsAtEnd (R.remaining reader.new)) }
    ensures held { IfOk result (λ s. IfSome (R.remaining reader.old)
        (λ xs. Holds out.old (read_on start xs) out.new s)) }
    ensures err { OnErr result ((s : Progress) × Able s out.new × ((xs : List ℕ)
        × Holds out.old (read_on start xs) out.new s × Consumes (R.remaining reader.old) (R.remaining reader.new) xs)) }
    ensures failure { IfErr result OfInput }
{
    let mut s = begin();
    let mut space = [0u8; PIECE];
    for _ in 0..u64::MAX {
        let n = read_piece(reader, &mut space)?;
        if n == 0 {
            return Ok(s);
        }
        s = feed(s, &space[..n], out);
    }
    Err(no_end())
}

// Reads a text to its end, and then writes its fault, if it has one, and its bytes; in rows that are lent.
fn encode_in_rows<R: Read, W: Write, E: Write>(
    reader: &mut R,
    writer: &mut W,
    errors: &mut E,
    out: &mut [u8],
    said: &mut [u8],
) -> Result<(), Failure>
    requires out_len { length out.old ≡ bytes_size }
    requires said_len { length said.old ≡ said_size }
    ensures bytes { OnOk result (IfSome (R.remaining reader.old)
        (λ xs. Appends (W.contents writer.old) (W.contents writer.new) (encoded_bytes xs))) }
    ensures fault { OnOk result (IfSome (R.remaining reader.old)
        (λ xs. Appends (E.contents errors.old) (E.contents errors.new) (encoded_said xs))) }
    ensures silent { WritesNothing result (W.contents writer.old) (W.contents writer.new) }
    ensures silent_too { WritesNothing result (E.contents errors.old) (E.contents errors.new) }
    ensures unsaid { IfErr result (λ e. OfErrors e → Keeps (W.contents writer.old) (W.contents writer.new)) }
{
    let reading = read_text(reader, out)?;
    let encoded = finish(reading, out, said);
    print_error(errors, &said[..encoded.said])?;
    print(writer, &out[..encoded.size])
}

// The same; the rows are local, once.
fn encode<R: Read, W: Write, E: Write>(
    reader: &mut R,
    writer: &mut W,
    errors: &mut E,
) -> Result<(), Failure>
    ensures bytes { OnOk result (IfSome (R.remaining reader.old)
        (λ xs. Appends (W.contents writer.old) (W.contents writer.new) (encoded_bytes xs))) }
    ensures fault { OnOk result (IfSome (R.remaining reader.old)
        (λ xs. Appends (E.contents errors.old) (E.contents errors.new) (encoded_said xs))) }
    ensures silent { WritesNothing result (W.contents writer.old) (W.contents writer.new) }
    ensures silent_too { WritesNothing result (E.contents errors.old) (E.contents errors.new) }
    ensures unsaid { IfErr result (λ e. OfErrors e → Keeps (W.contents writer.old) (W.contents writer.new)) }
{
    let mut out = [0u8; BYTES_SIZE];
    let mut said = [0u8; SAID_SIZE];
    encode_in_rows(reader, writer, errors, &mut out, &mut said)
}

fn main(rt: HostRuntime) -> ExitCode {
    ending(
        &rt,
        encode(&mut rt.stdin(), &mut rt.stdout(), &mut rt.stderr()),
    )
}
