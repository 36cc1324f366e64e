// THE BUDGETS OF A GRAPH SHEET LESS THE HANDLER'S COST, 0 where that is above: the largest, the one with a number, and all of them as a row. Below the public calls.
// Rests on words, headers, put_words; the definition is formats Versions `lowered`.
#![tactic(auto)]

ghost use Rattle.std.specs.Prelude.{◌≡◌, ◌+◌, ◌-◌, ◌≤◌, ◌<◌, length};
ghost use Rattle.base.specs.Lists.{last_of, nth};
ghost use Rattle.formats.specs.Limits.{least_words, word_limit};
ghost use Rattle.formats.specs.Versions.{budgets_at, budget_count, budgets_in, lowered};
ghost use Rattle.put_words.specs.Put.{put_words};

use headers::{budget, budgets_part, largest};

/// The largest budget.
pub fn lowered_largest(words: &[u16], handler: u16) -> usize
    requires { least_words ≤ length words.now }
    ensures { (result ≡ last_of (lowered handler (budgets_in words.now))) × (result < word_limit) }
{
    largest(words).saturating_sub(handler as usize)
}

/// The budget with the number `index`, counted from 1.
pub fn lowered_budget(words: &[u16], handler: u16, index: usize) -> usize
    requires least_words_in_bounds { (least_words ≤ length words.now) × (budgets_at words.now + budget_count words.now ≤ length words.now) }
    requires le_index { (1 ≤ index) × (index ≤ budget_count words.now) }
    ensures { (result ≡ nth (lowered handler (budgets_in words.now)) index) × (result < word_limit) }
{
    budget(words, index).saturating_sub(handler as usize)
}

// Each of some budgets, put at the front of a row.
fn put_less(budgets: &[u16], handler: u16, row: &mut [u16])
    requires { length budgets.now ≤ length row.old }
    ensures { row.new ≡ put_words row.old 0 (lowered handler budgets.now) }
{
    for (place, &budget) in budgets.iter().enumerate() {
        row[place] = budget.saturating_sub(handler);
    }
}

/// All budgets, put at the front of a row.
pub fn put_lowered(words: &[u16], handler: u16, row: &mut [u16])
    requires least_words_in_bounds { (least_words ≤ length words.now) × (budgets_at words.now + budget_count words.now ≤ length words.now) }
    requires words_in_bounds { budget_count words.now ≤ length row.old }
    ensures { row.new ≡ put_words row.old 0 (lowered handler (budgets_in words.now)) }
{
    put_less(budgets_part(words), handler, row);
}
