// Conditions 4 and 41, on the budgets that both kinds of sheet name in their header, and 43, on a graph sheet's. Below the public calls.
// Rests on words, headers; the promises are equations with formats Versions and GraphSheet.
#![tactic(auto)]

ghost use Rattle.std.specs.Prelude.{◌≡◌, ◌↔◌, ◌+◌, ◌≤◌, nat_lt, length, IsTrue, IfOk};
ghost use Rattle.std.specs.List.{list_any};
ghost use Rattle.std.specs.List.Sorted.{IsStrictlyIncreasing};
ghost use Rattle.base.specs.Checks.{refused};
ghost use Rattle.base.specs.Refusals.{answer_of};
ghost use Rattle.formats.specs.Limits.{least_words, most_budget};
ghost use Rattle.formats.specs.Versions.{budgets_at, budget_count, budgets_in, bad_budgets, bad_handler};
ghost use Rattle.formats.specs.GraphSheet.{budget_order};

use base::Refusal;
use headers::{budget, budgets_part};
use words::{LEAST_BUDGETS, MOST_BUDGET, MOST_BUDGETS, is_outside};

// THE BUDGETS as a row of their own

// One of them is above 500.
fn any_above(budgets: &[u16]) -> bool
    ensures { result ≡ list_any (λ b. nat_lt most_budget b) budgets.now }
{
    budgets.iter().any(|&budget| MOST_BUDGET < budget as usize)
}

// Each is below the next.
fn is_rising(budgets: &[u16]) -> bool
    ensures { IsTrue result ↔ IsStrictlyIncreasing budgets.now }
{
    budgets.windows(2).all(|pair| pair[0] < pair[1])
}

// THE CONDITIONS, on a sheet that has its budgets

/// Condition 41: a number of budgets outside 1 to 4, or budgets that do not rise.
pub fn bad_budgets(words: &[u16]) -> bool
    requires { (least_words ≤ length words.now) × (budgets_at words.now + budget_count words.now ≤ length words.now) }
    ensures { result ≡ bad_budgets words.now }
{
    let budgets = budgets_part(words);
    if is_outside(LEAST_BUDGETS, MOST_BUDGETS, budgets.len()) {
        return true;
    }
    !is_rising(budgets)
}

/// Condition 43: a handler's cost above the smallest budget, which is the first.
pub fn bad_handler(words: &[u16], handler: u16) -> bool
    requires { (least_words ≤ length words.now) × (budgets_at words.now + budget_count words.now ≤ length words.now) × (1 ≤ budget_count words.now) }
    ensures { result ≡ bad_handler handler words.now }
{
    let smallest = budget(words, 1);
    smallest < handler as usize
}

/// The budgets, a part of the sheet: 1 to 4 that rise, none above 500. Else 4, then 41.
pub fn claimed_budgets(words: &[u16]) -> Result<&[u16], Refusal>
    requires { (least_words ≤ length words.now) × (budgets_at words.now + budget_count words.now ≤ length words.now) }
    ensures answer { answer_of result ≡ refused budget_order words.now }
    ensures budgets { IfOk result (λ budgets. budgets.now ≡ budgets_in words.now) }
{
    let budgets = budgets_part(words);
    if any_above(budgets) {
        return Err(Refusal::BudgetTooLarge);
    }
    if bad_budgets(words) {
        return Err(Refusal::BadBudgets);
    }
    Ok(budgets)
}
