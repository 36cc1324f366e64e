// The sheets of a catalogue, each behind its length, as their bytes come: a byte more, and the line of the sheet that it makes whole.
// Rests on catalogue, kept and file_words; what the state and the rows stand for is specs Came. Below stream and the report program.
#![tactic(auto)]

ghost use Rattle.std.specs.Prelude.{◌≡◌, List, [], ℕ, ◌*◌, ◌≤◌, ◌<◌, length, true};
ghost use Rattle.formats.specs.Limits.{most_blocks, most_sheets};
ghost use Rattle.file_words.specs.Longer.{longer_file};
ghost use Rattle.sheet_lines.specs.Room.{sheet_room};
ghost use Rattle.catalogue.specs.Standing.{Ready};
ghost use Rattle.framing.specs.Came.{may_come, Came};
ghost use Rattle.framing.specs.Feeding.{Able, Closes, Feeds, half_of, within_of};

use catalogue::{Handed, next_sheet};
use file_words::joined;
use kept::keep_byte;
use tally::Tally;

/// What came behind the last whole sheet.
#[derive(Clone, Copy, Debug, PartialEq, Eq)]
pub enum Frame {
    /// Nothing: the next byte begins a length.
    Between,
    /// The first byte of a length.
    Half(u8),
    /// A length, and fewer bytes than it says: how many are still to come, and how many the row has.
    Within { left: usize, count: usize },
    /// Whatever came: no other sheet may come.
    Full,
}

/// How far a catalogue came: the sheets so far, and what came behind them.
#[derive(Clone, Copy, Debug, PartialEq, Eq)]
pub struct Progress {
    pub tally: Tally,
    pub frame: Frame,
}

/// Nothing came yet.
pub fn begin() -> Progress
    ensures by_index { (row marks : List ℕ) → Came [] [] result row marks }
    ensures by_index_2 { (row marks : List ℕ) → length row ≡ longer_file → length marks ≡ most_sheets * most_blocks → Able result row marks }
{
    Progress {
        tally: Tally::start(),
        frame: Frame::Between,
    }
}

// A sheet is whole: its line, and what comes then is the next length, if another sheet may come.
fn whole_sheet(bytes: &[u8], tally: Tally, marks: &mut [u8], text: &mut [u8]) -> Handed<Progress>
    requires bytes_len_bound { length bytes.now ≤ longer_file }
    requires ready { Ready tally marks.old × (tally.place < most_sheets) }
    requires sheet_room_in_bounds { sheet_room ≤ length text.old }
    ensures able { (row : List ℕ) → length row ≡ longer_file → Able result.now row marks.new }
    ensures size_in_bounds { result.size ≤ length text.new }
    ensures closes { Closes bytes.now tally marks.old text.old result marks.new text.new }
{
    let step = next_sheet(Some(bytes), tally, marks, text);
    let frame = if step.more {
        Frame::Between
    } else {
        Frame::Full
    };
    Handed {
        now: Progress {
            tally: step.tally,
            frame,
        },
        size: step.size,
    }
}

// A byte of a sheet of which some are still to come; the last one makes it whole.
fn sheet_byte(
    tally: Tally,
    left: usize,
    count: usize,
    byte: u8,
    row: &mut [u8],
    marks: &mut [u8],
    text: &mut [u8],
) -> Handed<Progress>
    requires able { Able (within_of tally left count) row.old marks.old }
    requires sheet_room_in_bounds { sheet_room ≤ length text.old }
    ensures able_2 { Able result.now row.new marks.new × (result.size ≤ length text.new) }
    ensures feeds { Feeds byte (within_of tally left count) row.old marks.old text.old result row.new marks.new text.new }
{
    let count = keep_byte(row, count, byte);
    if left <= 1 {
        return whole_sheet(&row[..count], tally, marks, text);
    }
    Handed {
        now: Progress {
            tally,
            frame: Frame::Within {
                left: left - 1,
                count,
            },
        },
        size: 0,
    }
}

// A length's second byte behind its first; a sheet of no words is whole with it.
fn length_byte(
    tally: Tally,
    low: u8,
    byte: u8,
    row: &[u8],
    marks: &mut [u8],
    text: &mut [u8],
) -> Handed<Progress>
    requires able { Able (half_of tally low) row.now marks.old }
    requires sheet_room_in_bounds { sheet_room ≤ length text.old }
    ensures able_2 { Able result.now row.now marks.new × (result.size ≤ length text.new) }
    ensures feeds { Feeds byte (half_of tally low) row.now marks.old text.old result row.now marks.new text.new }
{
    let words = joined(low, byte);
    if words == 0 {
        return whole_sheet(&row[..0], tally, marks, text);
    }
    Handed {
        now: Progress {
            tally,
            frame: Frame::Within {
                left: 2 * (words as usize),
                count: 0,
            },
        },
        size: 0,
    }
}

/// The next byte; none matters where no sheet may come.
pub fn feed_byte(
    progress: Progress,
    byte: u8,
    row: &mut [u8],
    marks: &mut [u8],
    text: &mut [u8],
) -> Handed<Progress>
    requires able { Able progress row.old marks.old }
    requires sheet_room_in_bounds { sheet_room ≤ length text.old }
    ensures able_2 { Able result.now row.new marks.new × (result.size ≤ length text.new) }
    ensures feeds { Feeds byte progress row.old marks.old text.old result
        row.new marks.new text.new }
{
    let tally = progress.tally;
    match progress.frame {
        Frame::Between => Handed {
            now: Progress {
                tally,
                frame: Frame::Half(byte),
            },
            size: 0,
        },
        Frame::Half(low) => length_byte(tally, low, byte, row, marks, text),
        Frame::Within { left, count } => sheet_byte(tally, left, count, byte, row, marks, text),
        Frame::Full => Handed {
            now: progress,
            size: 0,
        },
    }
}
