// A public call: a bounded move on a bounded sheet, with the walk by value.
// Rests on words, chains, bounded_records, bounded_check, walk; the promise is calls Moves.
#![tactic(auto)]

ghost use Rattle.std.specs.Prelude.{◌≡◌, suc, ◌≤◌};
ghost use Rattle.base.specs.Lists.{chosen};
ghost use Rattle.base.specs.Options.{option_in};
ghost use Rattle.base.specs.Refusals.{answer_of};
ghost use Rattle.theory.specs.Machines.{reply};
ghost use Rattle.theory.specs.Walks.{bounded_walk};
ghost use Rattle.formats.specs.Limits.{most_budget};
ghost use Rattle.formats.specs.BoundedSheet.{targets_at};
ghost use Rattle.calls.specs.Moves.{reply_with, bounded_move};
ghost use Rattle.bounded_records.specs.Records.{heading_in};
ghost use Rattle.walk.specs.Walks.{state_of, walk_of, after_of, reply_of};
ghost use Rattle.bounded_moves.specs.Bounded.{bounded_at};

use base::Refusal;
use bounded_check::RuledSheet;
use chains::nth_target;
use walk::Walk;
use words::is_outside;

/// The target with the number `choice` of a copy; a target of 0 is the exception exit.
fn bounded_target(sheet: RuledSheet<'_>, copy: usize, choice: usize) -> Option<u16>
    requires { (1 ≤ copy) × (copy ≤ sheet.records.copies) }
    ensures { option_in result ≡ chosen (targets_at (heading_in sheet.entry.records) sheet.entry.records.words.now copy) choice }
{
    let records = sheet.records;
    let first = records.first_edge(copy);
    nth_target(
        records.words,
        records.start + 3 * records.copies,
        records.edges,
        first,
        choice,
    )
}

// Its order of refusals is that of a guarded move; what is left twice are these three lines, for the successors are a chain here and a slice there.
/// The bounded walk's reply to a choice, for a walk on one of the copies: 32 after the end, 31 for no such choice, else the walk after the edge.
/// Each move counts one, and target 0 diverts.
fn bounded_reply(
    sheet: RuledSheet<'_>,
    exit: usize,
    walk: Walk,
    choice: u16,
) -> Result<Walk, Refusal>
    requires { ((1 ≤ walk.place) × (walk.place ≤ sheet.records.copies)) × (walk.count ≤ suc most_budget) }
    ensures { reply_of walk result
        ≡ reply_with walk.budget (reply (bounded_walk (bounded_at (heading_in sheet.entry.records) exit sheet.entry.records.words.now)) (state_of walk) choice) }
{
    if walk.end.has_ended() {
        return Err(Refusal::Ended);
    }
    let moves = walk.count + 1;
    match bounded_target(sheet, walk.place as usize, choice as usize) {
        None => Err(Refusal::NoChoice),
        Some(0) => Ok(walk.divert(moves)),
        Some(target) => Ok(walk.enter(target as usize, exit, moves as usize)),
    }
}

/// The walk after a bounded move; else the first condition that holds: 11 of the sheet, and 33, 32, 31 of the walk and the choice.
pub fn bounded_move(words: &[u16], walk: Walk, choice: u16) -> Result<Walk, Refusal>
    ensures answer_value { answer_of result ≡ (bounded_move words.now (walk_of walk) choice).answer }
    ensures walk_value { after_of walk result ≡ (bounded_move words.now (walk_of walk) choice).after }
{
    let sheet = RuledSheet::check(words)?;
    let number = walk.budget as usize;
    if is_outside(1, sheet.budgets.len(), number) {
        return Err(Refusal::Outside);
    }
    let exit = sheet.exit();
    let budget = sheet.budget(number);
    let most = walk.end.most_moves(budget);
    if walk.out_of_shape(sheet.records.copies, exit, most) {
        return Err(Refusal::Outside);
    }
    bounded_reply(sheet, exit, walk, choice)
}
