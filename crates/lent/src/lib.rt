// Public calls: the two starts and the two moves on a lent walk, which is changed where it stands.
// Rests on guarded_starts, bounded_starts, guarded_moves and bounded_moves, whose calls answer the walk by value; the promises are calls Starts and
// Moves.
#![tactic(auto)]

ghost use Rattle.std.specs.Prelude.{◌≡◌};
ghost use Rattle.base.specs.Refusals.{answer_of};
ghost use Rattle.calls.specs.Moves.{guarded_move, bounded_move};
ghost use Rattle.calls.specs.Starts.{guarded_start, bounded_start};
ghost use Rattle.walk.specs.Walks.{walk_of};

use base::Refusal;
use bounded_moves::bounded_move;
use bounded_starts::start_bounded;
use guarded_moves::guarded_move;
use guarded_starts::start_guarded;
use walk::Walk;

/// A guarded start in place; a refused walk is left as it was.
pub fn start_guarded_in_place(
    sheet: &[u16],
    handler: u16,
    area: &mut [u8],
    walk: &mut Walk,
    budget: u16,
) -> Result<(), Refusal>
    ensures value { answer_of result
        ≡ (guarded_start sheet.now handler (walk_of walk.old) (record { number = budget; area = area.old })).answer }
    ensures walk_after { walk_of walk.new
        ≡ (guarded_start sheet.now handler (walk_of walk.old) (record { number = budget; area = area.old })).walk }
    ensures area_after { area.new
        ≡ (guarded_start sheet.now handler (walk_of walk.old) (record { number = budget; area = area.old })).area }
{
    *walk = start_guarded(sheet, handler, area, budget)?;
    Ok(())
}

/// A bounded start in place; a refused walk is left as it was.
pub fn start_bounded_in_place(sheet: &[u16], walk: &mut Walk, budget: u16) -> Result<(), Refusal>
    ensures value { answer_of result ≡ (bounded_start sheet.now (walk_of walk.old) budget).answer }
    ensures walk_after { walk_of walk.new ≡ (bounded_start sheet.now (walk_of walk.old) budget).after }
{
    *walk = start_bounded(sheet, budget)?;
    Ok(())
}

/// A guarded move in place; a refused walk is left as it was.
pub fn guarded_move_in_place(
    sheet: &[u16],
    handler: u16,
    area: &mut [u8],
    walk: &mut Walk,
    choice: u16,
) -> Result<(), Refusal>
    ensures value { answer_of result
        ≡ (guarded_move sheet.now handler (walk_of walk.old) (record { choice = choice; area = area.old })).answer }
    ensures walk_after { walk_of walk.new
        ≡ (guarded_move sheet.now handler (walk_of walk.old) (record { choice = choice; area = area.old })).walk }
    ensures area_after { area.new
        ≡ (guarded_move sheet.now handler (walk_of walk.old) (record { choice = choice; area = area.old })).area }
{
    *walk = guarded_move(sheet, handler, area, *walk, choice)?;
    Ok(())
}

/// A bounded move in place; a refused walk is left as it was.
pub fn bounded_move_in_place(sheet: &[u16], walk: &mut Walk, choice: u16) -> Result<(), Refusal>
    ensures value { answer_of result ≡ (bounded_move sheet.now (walk_of walk.old) choice).answer }
    ensures walk_after { walk_of walk.new ≡ (bounded_move sheet.now (walk_of walk.old) choice).after }
{
    *walk = bounded_move(sheet, *walk, choice)?;
    Ok(())
}
