//! Lists every sheet of a corpus on standard input, each preceded by a word with its length in words.
//! Rests on list and input; what it writes is compared with the reference's listings by the gate.
#![tactic(auto)]

ghost use Rattle.std.specs.Prelude.{◌<◌, ◌≤◌, length, IfOk, IfErr};
ghost use Rattle.file_words.specs.Longer.{longer_file};
ghost use Rattle.text.specs.Texts.{listing_room};
ghost use Rattle.input.specs.Failed.{OfInput, OfInputOrOutput, WritesNothing};

use file_words::LONGER_FILE;
use input::{Failure, ending, no_end, print, read_piece};
use list::list_file;
use std::io::{Read, Write};
use std::process::ExitCode;
use text::TEXT_SIZE;

/// Reads until a row is full or the input ends: how many bytes.
fn read_full<R: Read>(reader: &mut R, row: &mut [u8]) -> Result<usize, Failure>
    ensures ok { IfOk result (λ n. n ≤ length row.new) }
    ensures failure { IfErr result OfInput }
{
    let mut count = 0;
    for _ in 0..u64::MAX {
        if row.len() <= count {
            return Ok(count);
        }
        let more = read_piece(reader, &mut row[count..])?;
        if more == 0 {
            return Ok(count);
        }
        count += more;
    }
    Err(no_end())
}

/// Reads one sheet of so many bytes to the front of a row and writes its listing.
fn list_sheet<R: Read, W: Write>(
    reader: &mut R,
    writer: &mut W,
    row: &mut [u8],
    text: &mut [u8],
    size: usize,
) -> Result<(), Failure>
    requires { (size ≤ length row.old) × (length row.old ≤ longer_file) × (listing_room ≤ length text.old) }
    ensures failure { IfErr result OfInputOrOutput }
    ensures silent { WritesNothing result (W.contents writer.old) (W.contents writer.new) }
{
    let count = read_full(reader, &mut row[..size])?;
    let listed = list_file(&row[..count], false, text);
    print(writer, &text[..listed])
}

/// A sheet's length in bytes, from the word before it.
fn size_of(head: [u8; 2]) -> usize
    ensures { result < 131072 }
{
    2 * u16::from_le_bytes(head) as usize
}

fn list_corpus<R: Read, W: Write>(reader: &mut R, writer: &mut W) -> Result<(), Failure>
    ensures { IfErr result OfInputOrOutput }
{
    let mut row = [0u8; LONGER_FILE];
    let mut text = [0u8; TEXT_SIZE];
    for _ in 0..65535 {
        let mut head = [0u8; 2];
        if read_full(reader, &mut head)? < 2 {
            return Ok(());
        }
        list_sheet(reader, writer, &mut row, &mut text, size_of(head))?;
    }
    Ok(())
}

fn main(rt: HostRuntime) -> ExitCode {
    ending(&rt, list_corpus(&mut rt.stdin(), &mut rt.stdout()))
}
