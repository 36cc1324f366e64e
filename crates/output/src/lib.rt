// The bounded sheet of the copies that a build found, in the output row. Below the public calls.
// Rests on chain_records, heading_words, write.
#![tactic(auto)]

ghost use Rattle.std.specs.Prelude.{◌≡◌, ◌++◌, ◌≤◌, length, drop};
ghost use Rattle.base.specs.Refusals.{answer_of};
ghost use Rattle.formats.specs.Limits.{most_copies};
ghost use Rattle.calls.specs.SheetGraph.{bounded_for};
ghost use Rattle.chain_records.specs.Founds.{task_of};
ghost use Rattle.output.specs.Answer.{answer_at, output_at};

use base::Refusal;
use chain_records::Found;
use heading_words::{heading_size, write_heading};
use words::MOST_COPIES;
use write::write_records;

// Writes the bounded sheet: the header, then the records.
fn write_sheet(found: &Found, output: &mut [u16], second: bool)
    requires few { found.now.copies ≤ most_copies }
    requires room { length (bounded_for second (task_of found.now)) ≤ length output.old }
    ensures { output.new ≡ bounded_for second (task_of found.now) ++ drop (length (bounded_for second (task_of found.now))) output.old }
{
    let at = heading_size(second, found.budgets.len());
    write_heading(
        &found.numbered,
        found.budgets,
        found.copies,
        found.edges,
        output,
        second,
    );
    write_records(&found.numbered, output, at, found.copies);
}

/// Writes the bounded sheet into the first words of the output row. `TooLarge` for more than 4,096 copies, `SmallOutput` where the row is too
/// short for the sheet; the row then stays as it was.
pub fn write_numbered(found: &Found, output: &mut [u16], second: bool) -> Result<(), Refusal>
    ensures value { answer_of result ≡ answer_at second (task_of found.now) (length output.old) }
    ensures out_after { output.new ≡ output_at second (task_of found.now) (answer_of result) output.old }
{
    if MOST_COPIES < found.copies {
        return Err(Refusal::TooLarge);
    }
    let size = heading_size(second, found.budgets.len());
    if output.len() < size + 3 * found.copies + 2 * found.edges {
        return Err(Refusal::SmallOutput);
    }
    write_sheet(found, output, second);
    Ok(())
}
