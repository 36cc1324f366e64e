// A public call: the start of a walk on a graph sheet with a chosen budget and the handler's cost.
// Rests on weigh_sheet, graph_check, lowered, look, walk; the promise is calls Starts.
#![tactic(auto)]

ghost use Rattle.std.specs.Prelude.{◌≡◌};
ghost use Rattle.base.specs.Checks.{refused};
ghost use Rattle.base.specs.Refusals.{answer_of};
ghost use Rattle.calls.specs.Weigh.{front_order};
ghost use Rattle.calls.specs.Moves.{Budgeted};
ghost use Rattle.calls.specs.Starts.{guarded_start};
ghost use Rattle.walk.specs.Walks.{set_on};

use base::Refusal;
use cells::Layout;
use graph_check::SoundSheet;
use look::look_up;
use lowered::{lowered_budget, lowered_largest};
use walk::Walk;
use weigh_sheet::{front, weigh_passed};
use words::is_outside;

// A walk sets out from block 1.
const START_BLOCK: usize = 1;

// A start on a sheet that passes 1 to 8, 41 and 43, with area enough: it is weighed into the area, 9, the budget's number is checked, and block 1
// is looked up at the budget. The budgets are lowered by the handler's cost, and the area is laid out for the largest one.
fn begin(sheet: SoundSheet<'_>, handler: u16, area: &mut [u8], budget: u16) -> Result<Walk, Refusal>
    requires { 0 ≡ refused front_order (record { sheet = sheet.records.words.now; handler = handler; area = area.old }) }
    ensures answer_value { (before : Budgeted) → answer_of result
        ≡ (guarded_start sheet.entry.records.words.now handler before (record { number = budget; area = area.old })).answer }
    ensures walk_value { (before : Budgeted) → set_on before result
        ≡ (guarded_start sheet.entry.records.words.now handler before (record { number = budget; area = area.old })).walk }
    ensures area_after { (before : Budgeted) → area.new
        ≡ (guarded_start sheet.entry.records.words.now handler before (record { number = budget; area = area.old })).area }
{
    let words = sheet.records.words;
    let largest = lowered_largest(words, handler);
    weigh_passed(sheet, area, largest)?;
    let number = budget as usize;
    if is_outside(1, sheet.budgets.len(), number) {
        return Err(Refusal::Outside);
    }
    let layout = Layout {
        blocks: sheet.records.blocks,
        budget: largest,
    };
    let most = lowered_budget(words, handler, number);
    match look_up(area, layout, START_BLOCK, most).low {
        None => Ok(Walk::stop(budget)),
        Some(_) => Ok(Walk::set_out(START_BLOCK, budget)),
    }
}

/// The walk that sets out with the budget of this number, diverted at once where nothing fits it; else the first condition that holds of 1 to 8,
/// 41, 43, 21, 9 and 33. The promise is that of whatever walk the result is set on: a refusal leaves it as it is.
pub fn start_guarded(
    sheet: &[u16],
    handler: u16,
    area: &mut [u8],
    budget: u16,
) -> Result<Walk, Refusal>
    ensures answer_value { (before : Budgeted) → answer_of result
        ≡ (guarded_start sheet.now handler before (record { number = budget; area = area.old })).answer }
    ensures walk_value { (before : Budgeted) → set_on before result
        ≡ (guarded_start sheet.now handler before (record { number = budget; area = area.old })).walk }
    ensures area_after { (before : Budgeted) → area.new
        ≡ (guarded_start sheet.now handler before (record { number = budget; area = area.old })).area }
{
    let sound = front(sheet, handler, area)?;
    begin(sound, handler, area, budget)
}
