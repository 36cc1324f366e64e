//! The decode program: a sheet's bytes on standard input, its decimal words on standard output, or `refused` and a number.
//! Rests on input, which reads to the end of an input of any length, and on show, where the text is made.
#![tactic(auto)]

ghost use Rattle.std.specs.Prelude.{◌≡◌, ◌≤◌, length, IfErr, OnOk, IfSome};
ghost use Rattle.std.specs.Io.KnownBytes.{Appends};
ghost use Rattle.show.specs.Shown.{shown_file, shown_room, shown};
ghost use Rattle.input.specs.Failed.{OfInputOrOutput, WritesNothing};

use input::{Failure, ending, print, read_to_end};
use show::{SHOWN_FILE, SHOWN_TEXT, show_kept};
use std::io::{Read, Write};
use std::process::ExitCode;

/// Reads a sheet to its end, and then writes its words; in rows that are lent.
fn decode_in_rows<R: Read, W: Write>(
    reader: &mut R,
    writer: &mut W,
    row: &mut [u8],
    text: &mut [u8],
) -> Result<(), Failure>
    requires row_len { length row.old ≡ shown_file }
    requires room { shown_room ≤ length text.old }
    ensures ok { OnOk result (IfSome (R.remaining reader.old)
        (λ xs. Appends (W.contents writer.old) (W.contents writer.new) (shown xs))) }
    ensures failure { IfErr result OfInputOrOutput }
    ensures silent { WritesNothing result (W.contents writer.old) (W.contents writer.new) }
{
    let kept = read_to_end(reader, row)?;
    let size = show_kept(kept, row, text);
    print(writer, &text[..size])
}

/// The same; the rows are local, once.
fn decode<R: Read, W: Write>(reader: &mut R, writer: &mut W) -> Result<(), Failure>
    ensures ok { OnOk result (IfSome (R.remaining reader.old)
        (λ xs. Appends (W.contents writer.old) (W.contents writer.new) (shown xs))) }
    ensures failure { IfErr result OfInputOrOutput }
    ensures silent { WritesNothing result (W.contents writer.old) (W.contents writer.new) }
{
    let mut row = [0u8; SHOWN_FILE];
    let mut text = [0u8; SHOWN_TEXT];
    decode_in_rows(reader, writer, &mut row, &mut text)
}

fn main(rt: HostRuntime) -> ExitCode {
    ending(&rt, decode(&mut rt.stdin(), &mut rt.stdout()))
}
