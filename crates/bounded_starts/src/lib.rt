// A public call: the start of a walk on a bounded sheet with a chosen budget, with the walk by value.
// Rests on words, bounded_check, walk; the promise is calls Starts.
#![tactic(auto)]

ghost use Rattle.std.specs.Prelude.{◌≡◌};
ghost use Rattle.base.specs.Refusals.{answer_of};
ghost use Rattle.calls.specs.Moves.{Budgeted};
ghost use Rattle.calls.specs.Starts.{bounded_start};
ghost use Rattle.walk.specs.Walks.{set_on};

use base::Refusal;
use bounded_check::RuledSheet;
use walk::Walk;
use words::is_outside;

/// The walk that sets out from the entry of the budget of this number, diverted at once where that is 0; else 11 of the sheet, or 33 of the number.
/// The promise is that of whatever walk the result is set on: a refusal leaves it as it is.
pub fn start_bounded(words: &[u16], budget: u16) -> Result<Walk, Refusal>
    ensures answer_value { (before : Budgeted) → answer_of result ≡ (bounded_start words.now before budget).answer }
    ensures walk_value { (before : Budgeted) → set_on before result ≡ (bounded_start words.now before budget).after }
{
    let sheet = RuledSheet::check(words)?;
    let number = budget as usize;
    if is_outside(1, sheet.budgets.len(), number) {
        return Err(Refusal::Outside);
    }
    match sheet.entry(number) {
        None => Ok(Walk::stop(budget)),
        Some(copy) => Ok(Walk::set_out(copy, budget)),
    }
}
