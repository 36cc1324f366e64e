// The end of a catalogue's report: the input is over, and then one closing part after the other. Below the report program.
// Rests on framing and catalogue; for every catalogue, byte by byte, what is handed back is its report (proofs Bytes).
#![tactic(auto)]

ghost use Rattle.std.specs.Prelude.{◌≡◌, true, suc, ◌+◌, ◌≤◌, ◌<◌, length, Some};
ghost use Rattle.formats.specs.Limits.{most_sheets};
ghost use Rattle.sheet_lines.specs.Room.{sheet_room};
ghost use Rattle.unused_lines.specs.Room.{unused_room};
ghost use Rattle.catalogue.specs.Parts.{place_of, parts_before};
ghost use Rattle.catalogue.specs.Standing.{Ready};
ghost use Rattle.framing.specs.Came.{may_come};
ghost use Rattle.stream.specs.Ending.{Lists, Closable, Finishes, Parts, closing_of};

use catalogue::{Handed, Part, closing_part, next_sheet};
use framing::{Frame, Progress};
use tally::Tally;

/// The sheets, and the closing part that comes next, if there is one.
#[derive(Clone, Copy, Debug, PartialEq, Eq)]
pub struct Closing {
    pub tally: Tally,
    pub next: Option<Part>,
}

// The line of a sheet that is cut, where a length and fewer bytes came; else none.
fn last_line(progress: Progress, marks: &mut [u8], text: &mut [u8]) -> Handed<Tally>
    requires ready { Ready progress.tally marks.old × (may_come progress.frame ≡ true → progress.tally.place < most_sheets) }
    requires sheet_room_in_bounds { sheet_room ≤ length text.old }
    ensures ready_2 { Ready result.now marks.new × (result.size ≤ length text.new) }
    ensures lists { Lists progress marks.old text.old result marks.new text.new }
{
    let tally = progress.tally;
    match progress.frame {
        Frame::Within { .. } => {
            let step = next_sheet(None, tally, marks, text);
            Handed {
                now: step.tally,
                size: step.size,
            }
        }
        Frame::Between | Frame::Half(_) | Frame::Full => Handed {
            now: tally,
            size: 0,
        },
    }
}

/// The input is over: what is still to be printed of the sheets stands in the front of the text.
pub fn finish(progress: Progress, marks: &mut [u8], text: &mut [u8]) -> Handed<Closing>
    requires ready { Ready progress.tally marks.old × (may_come progress.frame ≡ true → progress.tally.place < most_sheets) }
    requires sheet_room_in_bounds { sheet_room ≤ length text.old }
    ensures closable { Closable result.now marks.new × (result.size ≤ length text.new) }
    ensures finishes { Finishes progress marks.old text.old result marks.new text.new }
{
    let line = last_line(progress, marks, text);
    Handed {
        now: Closing {
            tally: line.now,
            next: Some(Part::Totals),
        },
        size: line.size,
    }
}

/// A closing part, and the one behind it.
pub fn next_part(part: Part, tally: Tally, marks: &[u8], text: &mut [u8]) -> Handed<Closing>
    requires closable { Closable (closing_of tally part) marks.now }
    requires unused_room_in_bounds { unused_room ≤ length text.old }
    ensures closable_2 { Closable result.now marks.now × (result.size ≤ length text.new) }
    ensures next_value { (parts_before tally.place result.now.next ≡ suc (place_of part)) × (result.now.tally ≡ tally) }
    ensures parts { Parts (closing_of tally part) marks.now text.old result text.new }
{
    let size = closing_part(part, tally, marks, text);
    Handed {
        now: Closing {
            tally,
            next: part.next(tally.place),
        },
        size,
    }
}
