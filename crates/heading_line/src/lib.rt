//! The heading of a listing, written into a lent row of bytes.
//! Rests on digits; the promises say the whole row, by digits Wrote and specs Heading.
#![tactic(auto)]

ghost use Rattle.std.specs.Prelude.{◌≤◌, length};
ghost use Rattle.digits.specs.Wrote.{Wrote};
ghost use Rattle.heading_line.specs.Heading.{heading_text};

use digits::{NEWLINE, put_byte, put_bytes, put_named, put_numbers};

/// Writes the heading: how many copies and edges the sheet has, and its budgets in cycles.
pub fn write_heading(text: &mut [u8], copies: usize, edges: usize, budgets: &[u16]) -> usize
    requires { length (heading_text copies edges budgets.now) ≤ length text.old }
    ensures { Wrote text.old 0 (heading_text copies edges budgets.now) text.new result }
{
    let behind_copies = put_named(text, 0, b"copies", copies);
    let behind_edges = put_named(text, behind_copies, b" edges", edges);
    let behind_name = put_bytes(text, behind_edges, b" budget");
    let behind_budgets = put_numbers(budgets, text, behind_name);
    put_byte(text, behind_budgets, NEWLINE)
}
