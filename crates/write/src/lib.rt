// The records of the bounded sheet, for the marked copies in order. Below the public calls.
// Rests on tables, put_words, chain_records.
#![tactic(auto)]

ghost use Rattle.std.specs.Prelude.{◌≡◌, ◌+◌, ◌*◌, ◌≤◌, length};
ghost use Rattle.formats.specs.Limits.{most_bounded_edges};
ghost use Rattle.formats.specs.BoundedSheet.{copy_words, edge_words, record_words};
ghost use Rattle.tables.specs.Rows.{edges_of};
ghost use Rattle.put_words.specs.Put.{put_words};
ghost use Rattle.chain_records.specs.Founds.{graph_of, copies_of};
ghost use Rattle.write.specs.Rows.{rows_in};

use chain_records::{Numbered, first_edge};
use put_words::put_three;
use tables::{cell_at, marked_cells};

// Puts the copy records from the word `at` on.
fn write_copies(numbered: &Numbered, output: &mut [u16], at: usize)
    requires few { edges_of (graph_of numbered.now) (copies_of numbered.now) ≤ most_bounded_edges }
    requires room { at + 3 * length (copies_of numbered.now) ≤ length output.old }
    ensures { output.new ≡ put_words output.old at (copy_words 1 (rows_in numbered.now)) }
{
    let mut place = at;
    let mut edge = 1;
    for index in marked_cells(numbered.marks, numbered.layout) {
        let copy = cell_at(numbered.layout, index);
        let degree = numbered.graph.successors(copy.block).len();
        let first = first_edge(edge, degree);
        put_three(output, place, copy.block, copy.low, first);
        place += 3;
        edge += degree;
    }
}

// Puts the edge records from the word `at` on.
fn write_edges(numbered: &Numbered, output: &mut [u16], at: usize)
    requires few { edges_of (graph_of numbered.now) (copies_of numbered.now) ≤ most_bounded_edges }
    requires room { at + 2 * edges_of (graph_of numbered.now) (copies_of numbered.now) ≤ length output.old }
    ensures { output.new ≡ put_words output.old at (edge_words 1 (rows_in numbered.now)) }
{
    let mut edge = 1;
    for index in marked_cells(numbered.marks, numbered.layout) {
        let copy = cell_at(numbered.layout, index);
        edge = numbered.write_chain(output, at, copy.block, copy.low, edge);
    }
}

/// Puts the copy records of the marked copies, which are counted, from the word `at` on, and behind them the edge records.
pub fn write_records(numbered: &Numbered, output: &mut [u16], at: usize, copies: usize)
    requires counted { copies ≡ length (copies_of numbered.now) }
    requires few { edges_of (graph_of numbered.now) (copies_of numbered.now) ≤ most_bounded_edges }
    requires room { at + length (record_words (rows_in numbered.now)) ≤ length output.old }
    ensures { output.new ≡ put_words output.old at (record_words (rows_in numbered.now)) }
{
    write_copies(numbered, output, at);
    write_edges(numbered, output, at + 3 * copies);
}
