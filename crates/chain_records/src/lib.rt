// The copies that are marked and numbered, those that a build found, and the edge records of one of them. Below the public calls.
// Rests on graph_row, cells, number, put_words.
#![tactic(auto)]

ghost use Rattle.std.specs.Prelude.{◌≡◌, false, List, ℕ, ◌+◌, ◌-◌, ◌*◌, ◌<◌, ◌≤◌, length};
ghost use Rattle.base.specs.Copy.{copy_of};
ghost use Rattle.base.specs.Lists.{is_none, last_of};
ghost use Rattle.theory.specs.Completions.{low_of};
ghost use Rattle.theory.specs.Tasks.{copies_in};
ghost use Rattle.theory.specs.Copies.{copy_for, target_number};
ghost use Rattle.formats.specs.Limits.{most_bounded_edges, word_limit};
ghost use Rattle.formats.specs.Versions.{Claimed};
ghost use Rattle.formats.specs.BoundedSheet.{first_edge, edge_records};
ghost use Rattle.calls.specs.SheetGraph.{row_of};
ghost use Rattle.tables.specs.Tables.{marked_copies, Numbers};
ghost use Rattle.tables.specs.Rows.{edges_of};
ghost use Rattle.graph_row.specs.GraphRow.{blocks_in, graph_in, task_in};
ghost use Rattle.put_words.specs.Put.{put_words};
ghost use Rattle.chain_records.specs.Marked.{Marked};

use cells::Layout;
use graph_row::Graph;
use number::number_of;
use put_words::put_two;

/// A graph with marked copies, each of them numbered. No budgets belong to it: which copies are marked is not said.
#[derive(Clone, Copy, Debug)]
pub struct Numbered<'a> {
    pub graph: Graph<'a>,
    pub layout: Layout,
    pub marks: &'a [u8],
    pub numbers: &'a [u16],
    pub ghost blocks: { layout.blocks ≡ blocks_in graph.row.now },
    pub ghost marked: { Marked (graph_in graph.row.now) layout.blocks layout.budget marks.now },
    pub ghost numbered: { Numbers (low_of (graph_in graph.row.now)) layout.blocks layout.budget marks.now numbers.now },
}

/// The copies of a graph within some budgets, of which the layout's is the largest: all are marked and numbered, and their edges are few.
#[derive(Clone, Copy, Debug)]
pub struct Found<'a> {
    pub numbered: Numbered<'a>,
    pub budgets: &'a [u16],
    pub copies: usize,
    pub edges: usize,
    pub ghost claimed: { Claimed budgets.now × (numbered.layout.budget ≡ last_of budgets.now)
        × (is_none (low_of (graph_in numbered.graph.row.now) 1 numbered.layout.budget) ≡ false) },
    pub ghost whole: { marked_copies numbered.layout.blocks numbered.layout.budget numbered.marks.now
        ≡ copies_in (task_in numbered.graph.row.now budgets.now numbered.layout.budget) },
    pub ghost copies_counted: { copies ≡ length (marked_copies numbered.layout.blocks numbered.layout.budget numbered.marks.now) },
    pub ghost edges_counted: { (edges ≡ edges_of (graph_in numbered.graph.row.now) (marked_copies numbered.layout.blocks numbered.layout.budget numbered.marks.now))
        × (edges ≤ most_bounded_edges) },
}

impl<'a> Numbered<'a> {
    ghost use Rattle.chain_records.specs.Founds.{graph_of, copies_of};

    /// The number of the copy that serves so many cycles in a block, 0 where none does.
    pub fn number(&self, block: usize, cycles: usize) -> usize
        requires { (1 ≤ block) × (block ≤ self.now.layout.blocks) × (cycles ≤ self.now.layout.budget) }
        ensures value { result ≡ target_number (copies_of self.now) (copy_for (graph_of self.now) cycles block) }
        ensures limit { result < word_limit }
    {
        number_of(self.marks, self.numbers, self.layout, block, cycles)
    }

    /// Puts the edge records of a copy, its edges numbered from `first`; they stand from the word `at` on, so that edge e stands at
    /// `at` + 2 × (e − 1). The number behind its last edge.
    pub fn write_chain(
        &self,
        output: &mut [u16],
        at: usize,
        block: usize,
        low: usize,
        first: usize,
    ) -> usize
        requires copy { (1 ≤ block) × (block ≤ self.now.layout.blocks) × ((graph_of self.now).cost block ≤ low) × (low ≤ self.now.layout.budget) }
        requires first { (1 ≤ first) × (first + length ((graph_of self.now).next block) < word_limit) }
        requires room { at + 2 * (first + length ((graph_of self.now).next block)) ≤ length output.old + 2 }
        ensures value { result ≡ first + length ((graph_of self.now).next block) }
        ensures out_after { output.new ≡ put_words output.old (at + 2 * (first - 1))
            (edge_records first (row_of (graph_of self.now) (copies_of self.now) (copy_of block low)).target_words) }
    {
        let cycles = low - self.graph.cost(block);
        let targets = self.graph.successors(block);
        let behind = first + targets.len();
        let mut edge = first;
        for &target in targets {
            let number = self.number(target as usize, cycles);
            edge += 1;
            let next = first_edge(edge, behind - edge);
            put_two(output, at + 2 * (edge - 2), number, next);
        }
        behind
    }
}

/// The number of the first of so many edges that are numbered from `edge`, 0 where there is none.
pub fn first_edge(edge: usize, count: usize) -> usize
    ensures { (result ≤ edge) × ((targets : List ℕ) → length targets ≡ count → result ≡ first_edge edge targets) }
{
    if count == 0 {
        return 0;
    }
    edge
}
