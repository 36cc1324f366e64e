// A public call: a guarded move on a graph sheet with the handler's cost, with the walk by value.
// Rests on weigh_sheet, graph_check, lowered, graph_row, look, walk; the promise is calls Moves.
#![tactic(auto)]

ghost use Rattle.std.specs.Prelude.{◌≡◌, ◌≤◌};
ghost use Rattle.base.specs.Checks.{refused};
ghost use Rattle.base.specs.Refusals.{answer_of};
ghost use Rattle.theory.specs.Machines.{reply};
ghost use Rattle.theory.specs.Walks.{InShape, monitor};
ghost use Rattle.calls.specs.Area.{Table};
ghost use Rattle.calls.specs.Weigh.{front_order};
ghost use Rattle.calls.specs.Moves.{reply_with, guarded_move};
ghost use Rattle.graph_row.specs.GraphRow.{blocks_in, graph_in};
ghost use Rattle.walk.specs.Walks.{state_of, walk_of, after_of, reply_of};

use base::Refusal;
use cells::Layout;
use graph_check::SoundSheet;
use graph_row::{Graph, ROW_WORDS};
use look::look_up;
use lowered::{lowered_budget, lowered_largest};
use walk::Walk;
use weigh_sheet::{BLOCK_MASKS, COST_MASKS, front, weigh_into};
use words::is_outside;

// The monitor's reply to a choice, for a walk in shape with this budget: the walk after the edge. The area is laid out for the largest budget.
fn monitor_reply(
    graph: Graph<'_>,
    area: &[u8],
    layout: Layout,
    budget: usize,
    walk: Walk,
    choice: u16,
) -> Result<Walk, Refusal>
    requires table { Table (graph_in graph.row.now) (blocks_in graph.row.now) layout.budget area.now }
    requires in_shape { (layout.blocks ≡ blocks_in graph.row.now) × (budget ≤ layout.budget) × InShape (blocks_in graph.row.now) 2 budget (state_of walk) }
    ensures { reply_of walk result ≡ reply_with walk.budget (reply (monitor (graph_in graph.entry.row.now) budget) (state_of walk) choice) }
{
    if walk.end.has_ended() {
        return Err(Refusal::Ended);
    }
    let choice = choice as usize;
    let successors = graph.successors(walk.place as usize);
    if is_outside(1, successors.len(), choice) {
        return Err(Refusal::NoChoice);
    }
    let target = successors[choice - 1] as usize;
    let count = walk.count as usize;
    match look_up(area, layout, target, budget - count).low {
        None => Ok(walk.divert(walk.count)),
        Some(_) => {
            let cost = graph.cost(target);
            Ok(walk.enter(target, Walk::EXIT_PLACE, count + cost))
        }
    }
}

// A move on a sheet that passes 1 to 8, 41 and 43, with area enough: it is decoded and weighed into the area, 9, the budget's number and the
// walk are checked, and the monitor replies. The budgets are lowered by the handler's cost.
fn guard(
    sheet: SoundSheet<'_>,
    handler: u16,
    area: &mut [u8],
    walk: Walk,
    choice: u16,
) -> Result<Walk, Refusal>
    requires { 0 ≡ refused front_order (record { sheet = sheet.records.words.now; handler = handler; area = area.old }) }
    ensures answer_value { answer_of result
        ≡ (guarded_move sheet.entry.records.words.now handler (walk_of walk) (record { choice = choice; area = area.old })).answer }
    ensures walk_value { after_of walk result
        ≡ (guarded_move sheet.entry.records.words.now handler (walk_of walk) (record { choice = choice; area = area.old })).walk }
    ensures area_after { area.new
        ≡ (guarded_move sheet.entry.records.words.now handler (walk_of walk) (record { choice = choice; area = area.old })).area }
{
    let words = sheet.records.words;
    let largest = lowered_largest(words, handler);
    let mut row = [0u16; ROW_WORDS];
    let mut nexts = [0u64; BLOCK_MASKS];
    let mut has = [0u64; COST_MASKS];
    weigh_into(sheet, &mut row, &mut nexts, &mut has, area, largest)?;
    let number = walk.budget as usize;
    if is_outside(1, sheet.budgets.len(), number) {
        return Err(Refusal::Outside);
    }
    let layout = Layout {
        blocks: sheet.records.blocks,
        budget: largest,
    };
    let budget = lowered_budget(words, handler, number);
    if walk.out_of_shape(layout.blocks, Walk::EXIT_PLACE, budget) {
        return Err(Refusal::Outside);
    }
    monitor_reply(Graph { row: &row }, area, layout, budget, walk, choice)
}

/// The walk after a guarded move, with the sheet's budgets lowered by the handler's cost; else the first condition that holds of 1 to 8, 41, 43,
/// 21, 9, and 33, 32, 31 of the walk and the choice. The work area has at least a byte for each block and each number up to the largest budget.
pub fn guarded_move(
    sheet: &[u16],
    handler: u16,
    area: &mut [u8],
    walk: Walk,
    choice: u16,
) -> Result<Walk, Refusal>
    ensures answer_value { answer_of result
        ≡ (guarded_move sheet.now handler (walk_of walk) (record { choice = choice; area = area.old })).answer }
    ensures walk_value { after_of walk result
        ≡ (guarded_move sheet.now handler (walk_of walk) (record { choice = choice; area = area.old })).walk }
    ensures area_after { area.new
        ≡ (guarded_move sheet.now handler (walk_of walk) (record { choice = choice; area = area.old })).area }
{
    let sound = front(sheet, handler, area)?;
    guard(sound, handler, area, walk, choice)
}
