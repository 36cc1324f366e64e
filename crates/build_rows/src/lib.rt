// THE BUILD IN ROWS THAT ARE LENT: a weighed sheet's copies, their numbers and the words of its bounded sheet. Below the public calls.
// Rests on graph_check, lowered, weigh_sheet, look, descend, number, output.
#![tactic(auto)]

ghost use Rattle.std.specs.Prelude.{◌≡◌, false, ◌≤◌, length};
ghost use Rattle.base.specs.Cells.{cell_count};
ghost use Rattle.base.specs.Lists.{is_none, last_of};
ghost use Rattle.base.specs.Refusals.{answer_of};
ghost use Rattle.theory.specs.Completions.{low_of};
ghost use Rattle.formats.specs.Versions.{Claimed};
ghost use Rattle.formats.specs.GraphSheet.{handled_refusal};
ghost use Rattle.calls.specs.SheetGraph.{task};
ghost use Rattle.calls.specs.Area.{Table};
ghost use Rattle.calls.specs.Build.{built};
ghost use Rattle.calls.specs.Weigh.{task_area};
ghost use Rattle.graph_row.specs.GraphRow.{blocks_in, graph_in, task_in};
ghost use Rattle.descend.specs.Marks.{Clear};
ghost use Rattle.weigh_sheet.specs.Rows.{Rows};
ghost use Rattle.output.specs.Answer.{answer_at, output_at};

use base::Refusal;
use cells::Layout;
use chain_records::{Found, Numbered};
use descend::{TooManyEdges, reach};
use graph_check::SoundSheet;
use graph_row::Graph;
use headers::is_second;
use look::fill_lows;
use lowered::put_lowered;
use number::number;
use output::write_numbered;
use weigh_sheet::weigh_into;
use words::MOST_BUDGETS;

/// A graph sheet that passed its conditions with a handler's cost, which no budget is below, and its largest budget less that cost.
#[derive(Clone, Copy)]
pub struct LoweredSheet<'a> {
    pub sheet: SoundSheet<'a>,
    pub handler: u16,
    pub largest: usize,
    pub ghost accepted: { handled_refusal sheet.records.words.now handler ≡ 0 },
    pub ghost lowered: { largest ≡ (task sheet.records.words.now handler).largest },
}

// BEHIND WEIGHING

// The bounded sheet of a weighed graph within these budgets, of which the layout's is the largest, in rows that are lent.
fn build_weighed<'a>(
    graph: Graph<'a>,
    layout: Layout,
    area: &[u8],
    table: &mut [u16],
    marks: &mut [u8],
    output: &mut [u16],
    budgets: &'a [u16],
    second: bool,
) -> Result<(), Refusal>
    requires blocks { layout.blocks ≡ blocks_in graph.row.now }
    requires claimed { Claimed budgets.now × (layout.budget ≡ last_of budgets.now) × (is_none (low_of (graph_in graph.row.now) 1 layout.budget) ≡ false) }
    requires table { Table (graph_in graph.row.now) layout.blocks layout.budget area.now }
    requires room { (cell_count layout.blocks layout.budget ≤ length table.old) × (cell_count layout.blocks layout.budget ≤ length marks.old) }
    requires clear { Clear marks.old }
    ensures value { answer_of result ≡ answer_at second (task_in graph.entry.row.now budgets.now layout.budget) (length output.old) }
    ensures out_after { output.new ≡ output_at second (task_in graph.entry.row.now budgets.now layout.budget) (answer_of result) output.old }
{
    fill_lows(area, table, layout);
    let edges = match reach(graph, layout, table, marks, budgets) {
        Ok(edges) => edges,
        Err(TooManyEdges) => return Err(Refusal::TooLarge),
    };
    let copies = number(marks, table, layout);
    let numbered = Numbered {
        graph,
        layout,
        marks,
        numbers: table,
    };
    let found = Found {
        numbered,
        budgets,
        copies,
        edges,
    };
    write_numbered(&found, output, second)
}

// BEHIND 1 TO 8, 41, 43 AND 21

/// The build in rows that are lent: the sheet is decoded into `row` and weighed with the masks `nexts` and `has`, the work area then holds its
/// completions, and the first words of the output row its bounded sheet. `table` and `marks` have a place for each cell of the area.
/// `NothingFits`, `TooLarge` or `SmallOutput` where there is none.
pub fn build_in_rows(
    lowered: LoweredSheet<'_>,
    area: &mut [u8],
    output: &mut [u16],
    row: &mut [u16],
    nexts: &mut [u64],
    has: &mut [u64],
    table: &mut [u16],
    marks: &mut [u8],
) -> Result<(), Refusal>
    requires area { task_area (task lowered.sheet.records.words.now lowered.handler) ≤ length area.old }
    requires rows { Rows lowered.sheet.records.words.now lowered.largest row.old nexts.old has.old }
    requires cells { (cell_count lowered.sheet.records.blocks lowered.largest ≤ length table.old)
        × (cell_count lowered.sheet.records.blocks lowered.largest ≤ length marks.old) }
    requires clear { Clear marks.old }
    ensures value { answer_of result ≡ (built lowered.entry.sheet.records.words.now lowered.entry.handler area.old output.old).answer }
    ensures area_after { area.new ≡ (built lowered.entry.sheet.records.words.now lowered.entry.handler area.old output.old).area }
    ensures out_after { output.new ≡ (built lowered.entry.sheet.records.words.now lowered.entry.handler area.old output.old).output }
{
    let sheet = lowered.sheet;
    weigh_into(sheet, row, nexts, has, area, lowered.largest)?;
    let second = is_second(sheet.records.words);
    // as many as a sheet may have, of which the front is used: fixed memory
    let mut four = [0u16; MOST_BUDGETS];
    put_lowered(sheet.records.words, lowered.handler, &mut four);
    let graph = Graph { row };
    let layout = Layout {
        blocks: sheet.records.blocks,
        budget: lowered.largest,
    };
    build_weighed(
        graph,
        layout,
        area,
        table,
        marks,
        output,
        &four[..sheet.budgets.len()],
        second,
    )
}
