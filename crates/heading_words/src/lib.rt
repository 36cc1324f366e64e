// THE HEADER of a bounded sheet, in either version, put at the front of a row: the counts, the budgets and their entries. Below the public calls.
// Rests on put_words, chain_records; the definition is formats BoundedSheet `heading_words`.
#![tactic(auto)]

ghost use Rattle.std.specs.Prelude.{◌≡◌, ◌∷◌, ◌++◌, ◌+◌, ◌<◌, ◌≤◌, length};
ghost use Rattle.base.specs.Lists.{last_of};
ghost use Rattle.formats.specs.Limits.{most_budgets, word_limit};
ghost use Rattle.formats.specs.Versions.{Claimed};
ghost use Rattle.formats.specs.BoundedSheet.{heading_words};
ghost use Rattle.put_words.specs.Put.{put_words};
ghost use Rattle.heading_words.specs.Entries.{heading_size, entries_in};

use chain_records::Numbered;
use put_words::{put_one, put_part, put_three, put_two};

/// The words of a header with so many budgets. The version is a truth value, as in the definitions of formats, which each clause cites: of an
/// enum of two they would need it back.
pub fn heading_size(second: bool, budgets: usize) -> usize
    requires { budgets ≤ most_budgets }
    ensures { result ≡ heading_size second budgets }
{
    if second {
        return 4 + 2 * budgets;
    }
    3
}

// Puts the entry of each budget, the number of its start copy or 0, from the word `at` on.
fn put_entries(numbered: &Numbered, budgets: &[u16], output: &mut [u16], at: usize)
    requires claimed { Claimed budgets.now × (numbered.now.layout.budget ≡ last_of budgets.now) }
    requires room { at + length budgets.now ≤ length output.old }
    ensures { output.new ≡ put_words output.old at (entries_in numbered.now budgets.now) }
{
    for (i, &budget) in budgets.iter().enumerate() {
        put_one(output, at + i, numbered.number(1, budget as usize));
    }
}

// The header of the second version: 0, the copies, the edges, the number of the budgets, the budgets, one entry word each.
fn write_second(
    numbered: &Numbered,
    budgets: &[u16],
    copies: usize,
    edges: usize,
    output: &mut [u16],
)
    requires claimed { Claimed budgets.now × (numbered.now.layout.budget ≡ last_of budgets.now) }
    requires counts { (copies < word_limit) × (edges < word_limit) }
    requires room { 4 + length budgets.now + length budgets.now ≤ length output.old }
    ensures { output.new ≡ put_words output.old 0 (0 ∷ copies ∷ edges ∷ length budgets.now
        ∷ (budgets.now ++ entries_in numbered.now budgets.now)) }
{
    let n = budgets.len();
    put_two(output, 0, 0, copies);
    put_two(output, 2, edges, n);
    put_part(output, 4, budgets);
    put_entries(numbered, budgets, output, 4 + n);
}

/// Puts the header of a bounded sheet with so many copies and edges at the front of a row. The layout's budget is the largest of the budgets.
pub fn write_heading(
    numbered: &Numbered,
    budgets: &[u16],
    copies: usize,
    edges: usize,
    output: &mut [u16],
    second: bool,
)
    requires claimed { Claimed budgets.now × (numbered.now.layout.budget ≡ last_of budgets.now) }
    requires counts { (copies < word_limit) × (edges < word_limit) }
    requires room { heading_size second (length budgets.now) ≤ length output.old }
    ensures { output.new ≡ put_words output.old 0
        (heading_words second budgets.now (entries_in numbered.now budgets.now) copies edges) }
{
    if second {
        write_second(numbered, budgets, copies, edges, output);
        return;
    }
    put_three(output, 0, copies, edges, numbered.layout.budget);
}
