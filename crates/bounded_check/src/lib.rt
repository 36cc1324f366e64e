// A public call on a bounded sheet of either version: rule 11, each word of the sheet looked at a few times at most. A sheet that keeps it is
// a view that carries it, so that nothing behind asks for it again.
// Rests on words, headers, budgets, bounded_records, record_check, entry_check; the promise is an equation with formats Rule11.
#![tactic(auto)]

ghost use Rattle.std.specs.Prelude.{◌≡◌, false, not, eqb, ◌||◌, ◌+◌, ◌*◌, ◌≤◌, ◌<◌, length, IfOk, IfSome};
ghost use Rattle.base.specs.Checks.{outside};
ghost use Rattle.base.specs.Lists.{nth};
ghost use Rattle.base.specs.Refusals.{answer_of};
ghost use Rattle.formats.specs.Limits.{least_words, word_limit, most_budget, least_copies, most_copies, least_bounded_edges, most_bounded_edges};
ghost use Rattle.formats.specs.Versions.{budgets_in};
ghost use Rattle.formats.specs.BoundedSheet.{heading_of, heading, first_at, entries_in};
ghost use Rattle.formats.specs.Rule11.{copies_of, start_count, bounded_refusal};
ghost use Rattle.bounded_records.specs.Records.{heading_in};
ghost use Rattle.record_check.specs.Records.{bad_records};
ghost use Rattle.bounded_check.specs.Form.{bad_form};
ghost use Rattle.bounded_check.specs.Behind.{bad_exits, bad_behind};
ghost use Rattle.bounded_check.specs.Starts.{Leading};
ghost use Rattle.bounded_check.specs.Ruled.{IsRuled, Listed, entry_word};

use base::Refusal;
use bounded_records::BoundedRecords;
use budgets::bad_budgets;
use entry_check::bad_entry_words;
use headers::{Heading, budgets_part, entries_part, entry, is_second, read_heading};
use record_check::has_bad_record;
use words::{
    LEAST_BOUNDED_EDGES, LEAST_COPIES, LEAST_WORDS, MOST_BOUNDED_EDGES, MOST_BUDGET, MOST_COPIES,
    is_either_outside,
};

// The entries of a sheet of the first version.
const FIRST_ENTRIES: &[u16] = &[1];

// "The exit is the only copy of block 2"
const EXIT_BLOCK: usize = 2;

/// A bounded sheet that keeps rule 11: its header is read, and its records, budgets and entries are there.
#[derive(Clone, Copy)]
pub struct RuledSheet<'a> {
    pub records: BoundedRecords<'a>,
    pub budgets: &'a [u16],
    pub entries: &'a [u16],
    pub ghost ruled: { IsRuled (heading_of records.start records.copies records.edges records.largest) budgets.now entries.now records.words.now },
}

// THE HEADER AND THE LENGTH

/// C or F outside its limits.
fn bad_limits(copies: usize, edges: usize) -> bool
    ensures { result ≡ (outside least_copies most_copies copies || outside least_bounded_edges most_bounded_edges edges) }
{
    is_either_outside(
        LEAST_COPIES,
        MOST_COPIES,
        copies,
        LEAST_BOUNDED_EDGES,
        MOST_BOUNDED_EDGES,
        edges,
    )
}

/// The clauses that go by the header and the length alone. Budgets that rise are within their limit where the last is.
fn bad_form(words: &[u16], header: Heading) -> bool
    requires header { (least_words ≤ length words.now) × (heading_of header.records header.copies header.edges header.largest ≡ heading words.now) }
    requires limits { (header.copies < word_limit) × (header.edges < word_limit) × (header.records ≤ 4 + 2 * word_limit) }
    ensures { result ≡ bad_form (heading_of header.records header.copies header.edges header.largest) words.now }
{
    if bad_limits(header.copies, header.edges) {
        return true;
    }
    if words.len() != header.records + 3 * header.copies + 2 * header.edges {
        return true;
    }
    if MOST_BUDGET < header.largest {
        return true;
    }
    bad_budgets(words)
}

// THE START COPIES, THE EXIT AND THE ENTRIES, behind any header

/// The number of start copies, those of block 1, which are the first ones: the first copy of another block ends them.
fn count_starts(records: BoundedRecords<'_>) -> usize
    ensures { Leading (heading_in records.entry) records.entry.words.now result }
{
    for copy in 1..records.copies + 1 {
        if records.block(copy) != 1 {
            return copy - 1;
        }
    }
    records.copies
}

/// A copy has a chain.
fn has_chain(records: BoundedRecords<'_>, copy: usize) -> bool
    requires { (1 ≤ copy) × (copy ≤ records.copies) }
    ensures { result ≡ not (eqb (first_at (heading_in records.entry) records.entry.words.now copy) 0) }
{
    records.first_edge(copy) != 0
}

/// The exit is not the only copy of block 2, or has a low or a chain. In copies in order it stands behind the start copies, and no copy of its
/// block behind it.
fn bad_exits(records: BoundedRecords<'_>, starts: usize) -> bool
    requires kept { bad_records (heading_in records) records.words.now starts ≡ false }
    requires starts { (starts ≡ start_count (heading_in records) records.words.now) × (starts ≤ records.copies) }
    ensures { result ≡ bad_exits (heading_in records.entry) records.entry.words.now }
{
    if starts == records.copies {
        return true;
    }
    let exit = starts + 1;
    if records.block(exit) != EXIT_BLOCK {
        return true;
    }
    if records.low(exit) != 0 {
        return true;
    }
    if has_chain(records, exit) {
        return true;
    }
    if exit == records.copies {
        return false;
    }
    records.block(exit + 1) == EXIT_BLOCK
}

/// The clauses behind the header: the copies and their edges, then the exit, then the entries.
fn bad_behind(records: BoundedRecords<'_>, budgets: &[u16], entries: &[u16]) -> bool
    requires listed { Listed records.words.now budgets.now entries.now }
    ensures { result ≡ bad_behind (heading_in records.entry) records.entry.words.now }
{
    let starts = count_starts(records);
    if has_bad_record(records, starts) {
        return true;
    }
    if bad_exits(records, starts) {
        return true;
    }
    bad_entry_words(records, starts, budgets, entries)
}

/// The entries, a part of a sheet of the second version; a sheet of the first version has one, which is 1.
fn all_entries(words: &[u16]) -> &[u16]
    requires { (least_words ≤ length words.now) × ((heading words.now).records ≤ length words.now) }
    ensures { result.now ≡ entries_in words.now }
{
    if is_second(words) {
        return entries_part(words);
    }
    FIRST_ENTRIES
}

impl<'a> RuledSheet<'a> {
    /// 11 where a clause of rule 11 is broken, else the sheet.
    pub fn check(words: &'a [u16]) -> Result<RuledSheet<'a>, Refusal>
        ensures answer { answer_of result ≡ bounded_refusal words.now }
        ensures words { IfOk result (λ sheet. sheet.records.words.now ≡ words.now) }
    {
        if words.len() < LEAST_WORDS {
            return Err(Refusal::BrokenRule);
        }
        let header = read_heading(words);
        if bad_form(words, header) {
            return Err(Refusal::BrokenRule);
        }
        let records = BoundedRecords {
            words,
            start: header.records,
            copies: header.copies,
            edges: header.edges,
            largest: header.largest,
        };
        let budgets = budgets_part(words);
        let entries = all_entries(words);
        if bad_behind(records, budgets, entries) {
            return Err(Refusal::BrokenRule);
        }
        Ok(RuledSheet {
            records,
            budgets,
            entries,
        })
    }

    /// The budget with a number.
    pub fn budget(self, number: usize) -> usize
        requires { (1 ≤ number) × (number ≤ length self.budgets.now) }
        ensures { (result ≡ nth (budgets_in self.entry.records.words.now) number) × (result ≤ most_budget) }
    {
        self.budgets[number - 1] as usize
    }

    /// The entry of the budget with a number, a start copy; None where nothing fits the budget.
    pub fn entry(self, number: usize) -> Option<usize>
        requires { (1 ≤ number) × (number ≤ length self.budgets.now) }
        ensures word { entry_word result ≡ nth (entries_in self.entry.records.words.now) number }
        ensures copy { IfSome result (λ copy. (1 ≤ copy) × (copy < word_limit)) }
    {
        match entry(self.records.words, number) {
            0 => None,
            copy => Some(copy),
        }
    }

    /// The exit's place, that of the only copy of block 2: it stands behind the start copies.
    pub fn exit(self) -> usize
        ensures value { result ≡ nth (copies_of (heading_in self.entry.records) self.entry.records.words.now 2) 1 }
        ensures inside { (1 ≤ result) × (result ≤ self.entry.records.copies) }
    {
        for copy in 1..self.records.copies {
            if self.records.block(copy) == EXIT_BLOCK {
                return copy;
            }
        }
        self.records.copies
    }
}

/// 11 where a clause of rule 11 is broken, else the sheet.
pub fn check_bounded(words: &[u16]) -> Result<RuledSheet<'_>, Refusal>
    ensures answer { answer_of result ≡ bounded_refusal words.now }
    ensures words { IfOk result (λ sheet. sheet.records.words.now ≡ words.now) }
{
    RuledSheet::check(words)
}
