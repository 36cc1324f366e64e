// The descent over the copies: a copy hands on to its chain, the chain to each copy it names; no copy is descended into twice.
// Rests on graph_row, cells, tables. The calls are at most two deep for each cycle of the budget. Below the public calls.
#![tactic(auto)]

ghost use Rattle.std.specs.Prelude.{◌≡◌, ◌≤◌, ◌<◌, ◌↔◌, true, false, length, IsOk, OnOk, MatchResult};
ghost use Rattle.base.specs.Cells.{cell_count};
ghost use Rattle.base.specs.Lists.{is_none, last_of};
ghost use Rattle.base.specs.Options.{option_in};
ghost use Rattle.theory.specs.Completions.{completes, low_of};
ghost use Rattle.theory.specs.Tasks.{copies_in};
ghost use Rattle.formats.specs.Limits.{most_bounded_edges};
ghost use Rattle.formats.specs.Versions.{Claimed};
ghost use Rattle.tables.specs.Tables.{Lows, marked, marked_copies};
ghost use Rattle.tables.specs.Rows.{edges_of};
ghost use Rattle.graph_row.specs.GraphRow.{blocks_in, graph_in, task_in};
ghost use Rattle.descend.specs.Marks.{Clear, AllMet, Grown, FromCopy, FromChain};

use cells::Layout;
use graph_row::Graph;
use words::MOST_BOUNDED_EDGES;

/// The copies have more edges than a bounded sheet may have.
#[derive(Clone, Copy, Debug, PartialEq, Eq)]
pub struct TooManyEdges;

/// A descent on its way: the lows by block and cycles, one more than each and 0 for none; the marks of the copies, and their edges.
#[derive(Drop)]
struct Descent<'a> {
    graph: Graph<'a>,
    layout: Layout,
    lows: &'a [u16],
    marks: &'a mut [u8],
    edges: usize,
    ghost blocks: { layout.blocks ≡ blocks_in graph.row.now },
    ghost table: { Lows (low_of (graph_in graph.row.now)) layout.blocks layout.budget lows.now },
}

impl<'a> Descent<'a> {
    ghost use Rattle.descend.specs.Descents.{graph_of, copies_of, IsCounted};

    /// The low of the copy that serves so many cycles in a block.
    fn low(&self, block: usize, cycles: usize) -> Option<usize>
        requires { (1 ≤ block) × (block ≤ self.now.layout.blocks) × (cycles ≤ self.now.layout.budget) }
        ensures { option_in result ≡ low_of (graph_of self.now) block cycles }
    {
        let entry = self.lows[self.layout.cell(block, cycles)] as usize;
        if entry == 0 {
            return None;
        }
        Some(entry - 1)
    }

    /// One copy. Where there are too many edges the descent stops.
    #[cycle(descent)]
    #[inline(always)]
    fn visit(&mut self, block: usize, low: usize) -> Result<(), TooManyEdges>
        requires counted { IsCounted self.old self.old.edges }
        requires few { self.old.edges ≤ most_bounded_edges }
        requires place { (1 ≤ block) × (block ≤ self.old.layout.blocks) × (low ≤ self.old.layout.budget) }
        requires completes { completes (graph_of self.old) block low ≡ true }
        ensures same_marks { self.new.marks.ghost_name ≡ self.old.marks.ghost_name }
        ensures graph { self.new.graph ≡ self.old.graph }
        ensures layout { self.new.layout ≡ self.old.layout }
        ensures lows { self.new.lows ≡ self.old.lows }
        ensures counted { IsCounted self.new self.new.edges }
        ensures ok { IsOk result ↔ (self.new.edges ≤ most_bounded_edges) }
        ensures source { FromCopy (graph_of self.old) self.old.layout.budget block low self.old.marks.now self.new.marks.now }
        ensures grown { OnOk result (Grown (graph_of self.old) self.old.layout.budget self.old.marks.now self.new.marks.now) }
        ensures met { OnOk result (marked self.old.layout.budget self.new.marks.now block low ≡ true) }
    {
        let place = self.layout.cell(block, low);
        if self.marks[place] != 0 {
            return Ok(());
        }
        self.marks[place] = 1;
        if block == 2 {
            return Ok(());
        }
        let graph = self.graph;
        self.edges += graph.successors(block).len();
        if MOST_BOUNDED_EDGES < self.edges {
            return Err(TooManyEdges);
        }
        self.follow(block, low - graph.cost(block))
    }

    /// The chain of a block, with the cycles left behind it.
    #[cycle(descent)]
    #[inline(never)]
    fn follow(&mut self, block: usize, cycles: usize) -> Result<(), TooManyEdges>
        requires counted { IsCounted self.old self.old.edges }
        requires few { self.old.edges ≤ most_bounded_edges }
        requires place { (1 ≤ block) × (block ≤ self.old.layout.blocks) × (cycles ≤ self.old.layout.budget) }
        ensures same_marks { self.new.marks.ghost_name ≡ self.old.marks.ghost_name }
        ensures graph { self.new.graph ≡ self.old.graph }
        ensures layout { self.new.layout ≡ self.old.layout }
        ensures lows { self.new.lows ≡ self.old.lows }
        ensures counted { IsCounted self.new self.new.edges }
        ensures ok { IsOk result ↔ (self.new.edges ≤ most_bounded_edges) }
        ensures source { FromChain (graph_of self.old) self.old.layout.budget block cycles self.old.marks.now self.new.marks.now }
        ensures grown { OnOk result (Grown (graph_of self.old) self.old.layout.budget self.old.marks.now self.new.marks.now) }
        ensures met { OnOk result (AllMet (graph_of self.old) self.old.layout.budget self.new.marks.now block cycles) }
    {
        let graph = self.graph;
        for &target in graph.successors(block) {
            let target = target as usize;
            if let Some(low) = self.low(target, cycles) {
                self.visit(target, low)?;
            }
        }
        Ok(())
    }

    /// The start copy of each budget.
    fn set_out(&mut self, budgets: &[u16]) -> Result<(), TooManyEdges>
        requires claimed { Claimed budgets.now × (self.old.layout.budget ≡ last_of budgets.now) × (is_none (low_of (graph_of self.old) 1 self.old.layout.budget) ≡ false) }
        requires clear { Clear self.old.marks.now × (self.old.edges ≡ 0) }
        requires room { cell_count self.old.layout.blocks self.old.layout.budget ≤ length self.old.marks.now }
        ensures same_marks { self.new.marks.ghost_name ≡ self.old.marks.ghost_name }
        ensures edges { MatchResult result
            (λ _. (self.new.edges ≡ edges_of (graph_of self.old) (copies_of self.old budgets.now)) × (self.new.edges ≤ most_bounded_edges))
            (λ _. most_bounded_edges < edges_of (graph_of self.old) (copies_of self.old budgets.now)) }
        ensures marks { OnOk result (marked_copies self.old.layout.blocks self.old.layout.budget self.new.marks.now ≡ copies_of self.old budgets.now) }
    {
        for &budget in budgets {
            if let Some(low) = self.low(1, budget as usize) {
                self.visit(1, low)?;
            }
        }
        Ok(())
    }
}

/// Marks exactly the copies within the budgets, of which the layout's is the largest, from the start copy of each, and answers the number of
/// their edges. Where they have too many, the descent stops.
#[inline(never)]
pub fn reach(
    graph: Graph,
    layout: Layout,
    lows: &[u16],
    marks: &mut [u8],
    budgets: &[u16],
) -> Result<usize, TooManyEdges>
    requires blocks { layout.blocks ≡ blocks_in graph.row.now }
    requires claimed { Claimed budgets.now × (layout.budget ≡ last_of budgets.now) × (is_none (low_of (graph_in graph.row.now) 1 layout.budget) ≡ false) }
    requires lows { Lows (low_of (graph_in graph.row.now)) layout.blocks layout.budget lows.now }
    requires room { cell_count layout.blocks layout.budget ≤ length marks.old }
    requires clear { Clear marks.old }
    ensures marks_len_unchanged { length marks.new ≡ length marks.old }
    ensures edges { MatchResult result
        (λ edges. (edges ≡ edges_of (graph_in graph.entry.row.now) (copies_in (task_in graph.entry.row.now budgets.now layout.budget))) × (edges ≤ most_bounded_edges))
        (λ _. most_bounded_edges < edges_of (graph_in graph.entry.row.now) (copies_in (task_in graph.entry.row.now budgets.now layout.budget))) }
    ensures marks { OnOk result (marked_copies layout.blocks layout.budget marks.new ≡ copies_in (task_in graph.entry.row.now budgets.now layout.budget)) }
{
    let mut descent = Descent {
        graph,
        layout,
        lows,
        marks,
        edges: 0,
    };
    descent.set_out(budgets)?;
    Ok(descent.edges)
}
