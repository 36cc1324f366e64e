// The entries of a bounded sheet, behind any header, each with its budget.
// Rests on words, bounded_records; the promise is an equation with specs Entries, over formats Rule11.
#![tactic(auto)]

ghost use Rattle.std.specs.Prelude.{◌≡◌, not, ◌≤◌, length};
ghost use Rattle.std.specs.List.{list_any, zip};
ghost use Rattle.base.specs.Lists.{any, from, member};
ghost use Rattle.formats.specs.Limits.{most_copies};
ghost use Rattle.formats.specs.Rule11.{copies_of, entry_fits};
ghost use Rattle.bounded_records.specs.Records.{heading_in};
ghost use Rattle.entry_check.specs.Entries.{bad_entry_words};

use bounded_records::BoundedRecords;
use words::is_outside;

// THE ENTRIES, each with its budget

/// Whether an entry is 0, or a copy of block 1 with a low of at most its budget.
fn entry_fits(records: BoundedRecords<'_>, budget: u16, entry: u16) -> bool
    ensures { result ≡ entry_fits (heading_in records.entry) records.entry.words.now budget entry }
{
    let copy = entry as usize;
    if copy == 0 {
        return true;
    }
    if is_outside(1, records.copies, copy) {
        return false;
    }
    records.block(copy) == 1 && records.low(copy) <= budget as usize
}

/// Whether an entry does not fit its budget.
fn any_misfit(records: BoundedRecords<'_>, budgets: &[u16], entries: &[u16]) -> bool
    ensures { result ≡ list_any (λ p. not (entry_fits (heading_in records.entry) records.entry.words.now p.0 p.1)) (zip budgets.now entries.now) }
{
    budgets
        .iter()
        .zip(entries)
        .any(|(&budget, &entry)| !entry_fits(records, budget, entry))
}

// THE START COPIES, the first ones

/// Whether an entry is the copy.
#[tactic(auto, using(crate::proofs::Places::member_any))]
fn is_named(entries: &[u16], copy: u16) -> bool
    ensures { result ≡ member copy entries.now }
{
    entries.contains(&copy)
}

/// Whether no entry names one of the start copies. It is found at the latest behind as many as there are entries.
fn has_unnamed(entries: &[u16], starts: usize) -> bool
    requires { starts ≤ most_copies }
    ensures { result ≡ any (λ i. not (member i entries.now)) (from 1 starts) }
{
    for copy in 1..starts + 1 {
        if !is_named(entries, copy as u16) {
            return true;
        }
    }
    false
}

/// Whether an entry does not fit its budget, the last entry is 0, or no entry names one of the start copies.
pub fn bad_entry_words(
    records: BoundedRecords<'_>,
    starts: usize,
    budgets: &[u16],
    entries: &[u16],
) -> bool
    requires starts { (copies_of (heading_in records) records.words.now 1 ≡ from 1 starts) × (starts ≤ records.copies) }
    requires entries { (length entries.now ≡ length budgets.now) × (1 ≤ length budgets.now) }
    ensures { result ≡ bad_entry_words (heading_in records.entry) records.entry.words.now budgets.now entries.now }
{
    if any_misfit(records, budgets, entries) {
        return true;
    }
    if entries[entries.len() - 1] == 0 {
        return true;
    }
    has_unnamed(entries, starts)
}
