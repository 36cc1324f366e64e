//! The operations program: an operation sheet on standard input, its graph sheet or `refused` and a number on standard output.
//! Rests on input, which reads to the end of an input of any length, and on operation_file, where the bytes are made.
#![tactic(auto)]

ghost use Rattle.std.specs.Prelude.{◌≡◌, ◌≤◌, length, IfErr, OnOk, IfSome};
ghost use Rattle.std.specs.Io.KnownBytes.{Appends};
ghost use Rattle.operation_file.specs.Longer.{longer_file, graph_file};
ghost use Rattle.operation_file.specs.Program.{converted};
ghost use Rattle.input.specs.Failed.{OfInputOrOutput, WritesNothing};

use input::{Failure, ending, print, read_to_end};
use operation_file::{GRAPH_FILE, LONGER_FILE, convert_kept};
use std::io::{Read, Write};
use std::process::ExitCode;

/// Reads an operation sheet to its end, and then writes its graph sheet; in rows that are lent.
fn convert_in_rows<R: Read, W: Write>(
    reader: &mut R,
    writer: &mut W,
    row: &mut [u8],
    bytes: &mut [u8],
) -> Result<(), Failure>
    requires row_len { length row.old ≡ longer_file }
    requires room { graph_file ≤ length bytes.old }
    ensures ok { OnOk result (IfSome (R.remaining reader.old)
        (λ xs. Appends (W.contents writer.old) (W.contents writer.new) (converted xs))) }
    ensures failure { IfErr result OfInputOrOutput }
    ensures silent { WritesNothing result (W.contents writer.old) (W.contents writer.new) }
{
    let kept = read_to_end(reader, row)?;
    let size = convert_kept(kept, row, bytes);
    print(writer, &bytes[..size])
}

/// The same; the rows are local, once.
fn convert<R: Read, W: Write>(reader: &mut R, writer: &mut W) -> Result<(), Failure>
    ensures ok { OnOk result (IfSome (R.remaining reader.old)
        (λ xs. Appends (W.contents writer.old) (W.contents writer.new) (converted xs))) }
    ensures failure { IfErr result OfInputOrOutput }
    ensures silent { WritesNothing result (W.contents writer.old) (W.contents writer.new) }
{
    let mut row = [0u8; LONGER_FILE];
    let mut bytes = [0u8; GRAPH_FILE];
    convert_in_rows(reader, writer, &mut row, &mut bytes)
}

fn main(rt: HostRuntime) -> ExitCode {
    ending(&rt, convert(&mut rt.stdin(), &mut rt.stdout()))
}
