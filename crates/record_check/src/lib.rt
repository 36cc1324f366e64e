// The records of a bounded sheet, behind any header: one pass over the copies, each with its chain of edges and their targets.
// Rests on words, bounded_records, copy_check; the promise is an equation with specs Records, over formats Rule11.
#![tactic(auto)]

ghost use Rattle.std.specs.Prelude.{◌≡◌, suc, ◌≤◌};
ghost use Rattle.formats.specs.Limits.{most_copies};
ghost use Rattle.formats.specs.BoundedSheet.{next_at, target_at};
ghost use Rattle.bounded_records.specs.Records.{heading_in};
ghost use Rattle.record_check.specs.Records.{is_stray, bad_records};
ghost use Rattle.record_check.specs.Chains.{Consecutive};

use bounded_records::BoundedRecords;
use copy_check::CopyKey;
use words::is_outside;

/// Whether a target is neither 0 nor one of the copies behind the start copies.
#[tactic(auto, unfolding(crate::specs::Records::is_stray))]
fn is_stray(starts: usize, copies: usize, target: usize) -> bool
    requires { starts ≤ most_copies }
    ensures { result ≡ is_stray starts copies target }
{
    target != 0 && is_outside(starts + 1, copies, target)
}

/// Follows the chain from `first` on, whose edges are to be `due`, `due` + 1, .., with targets 0 or copies behind the start copies: the edge
/// that is due behind its last, None where it has others.
fn chain_end(records: BoundedRecords<'_>, first: usize, due: usize, starts: usize) -> Option<usize>
    requires due_in_bounds { (1 ≤ due) × (due ≤ suc records.edges) }
    requires starts_in_bounds { starts ≤ most_copies }
    ensures { Consecutive (next_at (heading_in records.entry) records.entry.words.now)
        (λ edge. is_stray starts records.entry.copies (target_at (heading_in records.entry) records.entry.words.now edge))
        records.entry.edges first due result }
{
    let mut met = first;
    for edge in due..records.edges + 1 {
        if met == 0 {
            return Some(edge);
        }
        if met != edge {
            return None;
        }
        if is_stray(starts, records.copies, records.target(edge)) {
            return None;
        }
        met = records.next_edge(edge);
    }
    if met != 0 {
        return None;
    }
    Some(records.edges + 1)
}

/// One pass over the copies: one of them is bad, or their chains do not meet the edges 1 to F in this order, with targets 0 or copies behind
/// the start copies.
pub fn has_bad_record(records: BoundedRecords<'_>, starts: usize) -> bool
    requires { starts ≤ records.copies }
    ensures { result ≡ bad_records (heading_in records.entry) records.entry.words.now starts }
{
    let mut previous = CopyKey { block: 0, low: 0 };
    let mut due = 1;
    for copy in 1..records.copies + 1 {
        let key = CopyKey {
            block: records.block(copy),
            low: records.low(copy),
        };
        if key.is_bad(previous, records.largest) {
            return true;
        }
        match chain_end(records, records.first_edge(copy), due, starts) {
            Some(end) => due = end,
            None => return true,
        }
        previous = key;
    }
    due != records.edges + 1
}
