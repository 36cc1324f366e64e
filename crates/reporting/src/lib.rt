// The report program: reads an input piece by piece, feeds each byte, and writes what is handed back (document 02, K1).
// Rests on input, framing and stream, where the text is made; this decides nothing but when to stop: at the end, at a failure, or where no sheet may come.
#![tactic(auto)]

ghost use Rattle.std.specs.Prelude.{◌<◌, ◌*◌, true, ◌≡◌, List, ℕ, length, IfOk, IfErr, OnOk, OnErr, IfSome};
ghost use Rattle.std.specs.Io.KnownBytes.{Appends};
ghost use Rattle.formats.specs.Limits.{most_blocks, most_sheets};
ghost use Rattle.calls.specs.Report.{report};
ghost use Rattle.file_words.specs.Longer.{longer_file};
ghost use Rattle.catalogue.specs.Standing.{Ready};
ghost use Rattle.framing.specs.Came.{may_come};
ghost use Rattle.framing.specs.Feeding.{Able};
ghost use Rattle.stream.specs.Ending.{Closable};
ghost use Rattle.input.specs.Failed.{OfInput, OfOutput, OfInputOrOutput};
ghost use Rattle.reporting.specs.Taken.{Takes};
ghost use Rattle.reporting.specs.Printed.{Printed, Prints, Closes, Finishes};
ghost use Rattle.reporting.specs.Failed.{Unwritten, Unread, Stood};

use catalogue::MARKS;
use file_words::LONGER_FILE;
use framing::{Frame, Progress, begin, feed_byte};
use input::{Failure, PIECE, no_end, print, read_piece};
use sheet_lines::LINE_SIZE;
use std::io::{Read, Write};
use stream::{Closing, finish, next_part};
use unused_lines::UNUSED_SIZE;

// Feeds the next bytes, and writes what is handed back for each.
fn feed_piece<W: Write>(
    first: Progress,
    bytes: &[u8],
    row: &mut [u8],
    marks: &mut [u8],
    writer: &mut W,
) -> Result<Progress, Failure>
    requires { Able first row.old marks.old }
    ensures able { IfOk result (λ t. Able t row.new marks.new) }
    ensures takes { IfOk result (λ t. Takes bytes.now first row.old marks.old t row.new marks.new) }
    ensures prints { IfOk result (λ t. Prints bytes.now (W.contents writer.old) first row.old marks.old
        (W.contents writer.new) t row.new marks.new) }
    ensures err { OnErr result (Unwritten bytes.now first row.old marks.old row.new marks.new) }
    ensures failure { IfErr result OfOutput }
{
    let mut text = [0u8; LINE_SIZE];
    let mut progress = first;
    for byte in bytes {
        let fed = feed_byte(progress, *byte, row, marks, &mut text);
        progress = fed.now;
        print(writer, &text[..fed.size])?;
    }
    Ok(progress)
}

// Reads and feeds to the end, or as long as another sheet may come.
fn read_catalogue<R: Read, W: Write>(
    reader: &mut R,
    row: &mut [u8],
    marks: &mut [u8],
    writer: &mut W,
) -> Result<Progress, Failure>
    requires { (length row.old ≡ longer_file) × (length marks.old ≡ most_sheets * most_blocks) }
    ensures able { IfOk result (λ s. Able s row.new marks.new) }
    ensures prints { IfOk result (λ s. IfSome (R.remaining reader.old)
        (λ xs. Printed xs (W.contents writer.old) (W.contents writer.new) s row.new marks.new)) }
    ensures err { OnErr result (Stood row.new marks.new) }
    ensures unread { IfErr result (λ e. OfInput e → Unread (R.remaining reader.old) (R.remaining reader.new)
        (W.contents writer.old) (W.contents writer.new) row.new marks.new) }
    ensures failure { IfErr result OfInputOrOutput }
{
    let mut progress = begin();
    let mut space = [0u8; PIECE];
    for _ in 0..u64::MAX {
        if progress.frame == Frame::Full {
            return Ok(progress);
        }
        let count = read_piece(reader, &mut space)?;
        if count == 0 {
            return Ok(progress);
        }
        progress = feed_piece(progress, &space[..count], row, marks, writer)?;
    }
    Err(no_end())
}

// Writes the closing parts.
fn print_parts<W: Write>(first: Closing, marks: &[u8], writer: &mut W) -> Result<(), Failure>
    requires { Closable first marks.now }
    ensures ok { OnOk result (Closes (W.contents writer.old) first marks.now (W.contents writer.new)) }
    ensures failure { IfErr result OfOutput }
{
    let mut text = [0u8; UNUSED_SIZE];
    let mut closing = first;
    while let Some(part) = closing.next {
        let handed = next_part(part, closing.tally, marks, &mut text);
        closing = handed.now;
        print(writer, &text[..handed.size])?;
    }
    Ok(())
}

// Writes what is still to be printed.
fn print_last<W: Write>(progress: Progress, marks: &mut [u8], writer: &mut W) -> Result<(), Failure>
    requires { Ready progress.tally marks.old × (may_come progress.frame ≡ true → progress.tally.place < most_sheets) }
    ensures ok { OnOk result (Finishes (W.contents writer.old) progress marks.old (W.contents writer.new)) }
    ensures failure { IfErr result OfOutput }
{
    let mut text = [0u8; LINE_SIZE];
    let line = finish(progress, marks, &mut text);
    print(writer, &text[..line.size])?;
    print_parts(line.now, marks, writer)
}

/// Reads a catalogue to its end, and writes its report.
pub fn run<R: Read, W: Write>(reader: &mut R, writer: &mut W) -> Result<(), Failure>
    ensures ok { OnOk result (IfSome (R.remaining reader.old)
        (λ xs. Appends (W.contents writer.old) (W.contents writer.new) (report xs))) }
    ensures unread { IfErr result (λ e. OfInput e → (row : List ℕ) × (marks : List ℕ)
        × Unread (R.remaining reader.old) (R.remaining reader.new) (W.contents writer.old) (W.contents writer.new) row marks) }
    ensures failure { IfErr result OfInputOrOutput }
{
    let mut row = [0u8; LONGER_FILE];
    let mut marks = [0u8; MARKS];
    let progress = read_catalogue(reader, &mut row, &mut marks, writer)?;
    print_last(progress, &mut marks, writer)
}
