// The bounded sheet with which a row begins, and the room that any takes; below the public calls.
// Rests on words, headers; the definitions are formats BoundedSheet.
#![tactic(auto)]

ghost use Rattle.std.specs.Prelude.{◌≡◌, ◌≤◌, length};
ghost use Rattle.formats.specs.BoundedSheet.{heading, bounded_length};
ghost use Rattle.front.specs.Front.{front_sheet};

use headers::read_heading;
use words::{MOST_BOUNDED_EDGES, MOST_BUDGETS, MOST_COPIES};

// The most words of a bounded sheet: four, the most budgets and an entry for each, and the records.
pub const MOST_WORDS: usize = 4 + 2 * MOST_BUDGETS + 3 * MOST_COPIES + 2 * MOST_BOUNDED_EDGES;

// The bounded sheet with which a row begins, as long as its header says.
pub fn front_sheet(row: &[u16]) -> &[u16]
    requires { bounded_length (heading row.now) ≤ length row.now }
    ensures { result.now ≡ front_sheet row.now }
{
    let h = read_heading(row);
    let size = h.records + 3 * h.copies + 2 * h.edges;
    &row[..size]
}
