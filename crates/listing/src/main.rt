//! The listing program: a graph sheet on standard input, its listing or `refused` and a number on standard output.
//! Rests on input, which reads to the end of an input of any length, and on list, where the text is made.
#![tactic(auto)]

ghost use Rattle.std.specs.Prelude.{IfErr, OnOk, IfSome};
ghost use Rattle.std.specs.Io.KnownBytes.{Appends};
ghost use Rattle.calls.specs.Program.{listing};
ghost use Rattle.input.specs.Failed.{OfInputOrOutput, WritesNothing};

use file_words::LONGER_FILE;
use input::{Failure, ending, print, read_to_end};
use list::list_kept;
use std::io::{Read, Write};
use std::process::ExitCode;
use text::TEXT_SIZE;

/// Reads a graph sheet to its end, and then writes its listing.
fn list<R: Read, W: Write>(reader: &mut R, writer: &mut W) -> Result<(), Failure>
    ensures ok { OnOk result (IfSome (R.remaining reader.old)
        (λ xs. Appends (W.contents writer.old) (W.contents writer.new) (listing xs))) }
    ensures failure { IfErr result OfInputOrOutput }
    ensures silent { WritesNothing result (W.contents writer.old) (W.contents writer.new) }
{
    let mut row = [0u8; LONGER_FILE];
    let kept = read_to_end(reader, &mut row)?;
    let mut text = [0u8; TEXT_SIZE];
    let size = list_kept(kept, &row, &mut text);
    print(writer, &text[..size])
}

fn main(rt: HostRuntime) -> ExitCode {
    ending(&rt, list(&mut rt.stdin(), &mut rt.stdout()))
}
