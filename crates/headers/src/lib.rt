// THE HEADERS of both kinds of sheet, in both versions, each read once: everything behind them takes what they say as numbers. Below the
// public calls. Rests on words; the definitions are formats Versions, GraphSheet and BoundedSheet.
#![tactic(auto)]

ghost use Rattle.std.specs.Prelude.{◌≡◌, true, ◌+◌, ◌*◌, ◌≤◌, ◌<◌, length};
ghost use Rattle.base.specs.Lists.{nth};
ghost use Rattle.formats.specs.Limits.{least_words, word_limit};
ghost use Rattle.formats.specs.Words.{word};
ghost use Rattle.formats.specs.Versions.{is_second, budgets_at, budget_count, budgets_in, largest_in};
ghost use Rattle.formats.specs.GraphSheet.{header_of, header};
ghost use Rattle.formats.specs.BoundedSheet.{heading_of, heading, entries_in};

use words::word_at;

// THE VERSION AND THE BUDGETS, of both kinds of sheet

/// The second version begins with 0.
pub fn is_second(words: &[u16]) -> bool
    requires { least_words ≤ length words.now }
    ensures { result ≡ is_second words.now }
{
    word_at(words, 0) == 0
}

/// Where the budgets stand: the word of the first, counted from 0, and how many there are.
#[derive(Clone, Copy, Debug, PartialEq, Eq)]
pub struct Budgets {
    pub first: usize,
    pub count: usize,
}

// Word 3 of a row, 0 where it ends before.
fn third_word(words: &[u16]) -> usize
    ensures { (result ≡ word words.now 3) × (result < word_limit) }
{
    if words.len() < 4 {
        return 0;
    }
    word_at(words, 3)
}

/// One budget in the third word, or so many behind the fourth.
pub fn read_budgets(words: &[u16]) -> Budgets
    requires { least_words ≤ length words.now }
    ensures first_value { (result.first ≡ budgets_at words.now) × (result.count ≡ budget_count words.now) }
    ensures first_bound { (result.first ≤ 4) × (result.count < word_limit) }
{
    if is_second(words) {
        let count = third_word(words);
        return Budgets { first: 4, count };
    }
    Budgets { first: 2, count: 1 }
}

/// The budgets, a part of the sheet.
pub fn budgets_part(words: &[u16]) -> &[u16]
    requires { (least_words ≤ length words.now) × (budgets_at words.now + budget_count words.now ≤ length words.now) }
    ensures { result.now ≡ budgets_in words.now }
{
    let at = read_budgets(words);
    let first = at.first;
    let count = at.count;
    let end = first + count;
    &words[first..end]
}

/// The largest budget: the last of those that stand in the row, 0 where none does.
pub fn largest(words: &[u16]) -> usize
    requires { least_words ≤ length words.now }
    ensures { (result ≡ largest_in words.now) × (result < word_limit) }
{
    let at = read_budgets(words);
    if words.len() <= at.first {
        return 0;
    }
    if at.count == 0 {
        return 0;
    }
    if at.first + at.count <= words.len() {
        return word_at(words, at.first + at.count - 1);
    }
    word_at(words, words.len() - 1)
}

/// The budget with the number `index`, counted from 1.
pub fn budget(words: &[u16], index: usize) -> usize
    requires least_words_in_bounds { (least_words ≤ length words.now) × (budgets_at words.now + budget_count words.now ≤ length words.now) }
    requires le_index { (1 ≤ index) × (index ≤ budget_count words.now) }
    ensures { (result ≡ nth (budgets_in words.now) index) × (result < word_limit) }
{
    let at = read_budgets(words);
    word_at(words, at.first + (index - 1))
}

// GRAPH SHEETS

/// What a graph sheet's header says of the records: how many blocks and edges, and the word at which they begin.
#[derive(Clone, Copy, Debug, PartialEq, Eq)]
pub struct Header {
    pub blocks: usize,
    pub edges: usize,
    pub records: usize,
}

/// Three words: blocks, edges, the budget in cycles; or 0, blocks, edges, the number of budgets, and the budgets. The records begin behind them.
pub fn read_header(words: &[u16]) -> Header
    requires { least_words ≤ length words.now }
    ensures edges_value { header_of result.records result.blocks result.edges ≡ header words.now }
    ensures blocks_lt_word_limit { (result.blocks < word_limit) × (result.edges < word_limit) × (result.records ≤ 4 + word_limit) }
{
    if is_second(words) {
        let blocks = word_at(words, 1);
        let edges = word_at(words, 2);
        let budgets = third_word(words);
        return Header {
            blocks,
            edges,
            records: 4 + budgets,
        };
    }
    let blocks = word_at(words, 0);
    let edges = word_at(words, 1);
    Header {
        blocks,
        edges,
        records: 3,
    }
}

// BOUNDED SHEETS

/// What a bounded sheet's header says of the records: how many copies and edges, the largest budget, and the word at which they begin.
#[derive(Clone, Copy, Debug, PartialEq, Eq)]
pub struct Heading {
    pub copies: usize,
    pub edges: usize,
    pub largest: usize,
    pub records: usize,
}

/// Three words: copies, edges, the budget; or 0, copies, edges, the number of budgets, the budgets, an entry word each. The records begin behind them.
pub fn read_heading(words: &[u16]) -> Heading
    requires { least_words ≤ length words.now }
    ensures largest_value { heading_of result.records result.copies result.edges result.largest ≡ heading words.now }
    ensures copies_lt_word_limit { (result.copies < word_limit) × (result.edges < word_limit) × (result.largest < word_limit) × (result.records ≤ 4 + 2 * word_limit) }
{
    let largest = largest(words);
    if is_second(words) {
        let copies = word_at(words, 1);
        let edges = word_at(words, 2);
        let budgets = third_word(words);
        return Heading {
            copies,
            edges,
            largest,
            records: 4 + 2 * budgets,
        };
    }
    let copies = word_at(words, 0);
    let edges = word_at(words, 1);
    Heading {
        copies,
        edges,
        largest,
        records: 3,
    }
}

/// The entry of the budget with the number `index`; a sheet of the first version has one, which is 1.
pub fn entry(words: &[u16], index: usize) -> usize
    requires least_words_in_bounds { (least_words ≤ length words.now) × ((heading words.now).records ≤ length words.now) }
    requires le_index { (1 ≤ index) × (index ≤ budget_count words.now) }
    ensures { (result ≡ nth (entries_in words.now) index) × (result < word_limit) }
{
    if is_second(words) {
        let count = third_word(words);
        return word_at(words, 4 + count + (index - 1));
    }
    1
}

/// The entries of a sheet of the second version, a part of it.
pub fn entries_part(words: &[u16]) -> &[u16]
    requires { (least_words ≤ length words.now) × (is_second words.now ≡ true) × ((heading words.now).records ≤ length words.now) }
    ensures { result.now ≡ entries_in words.now }
{
    let count = third_word(words);
    let first = 4 + count;
    let end = first + count;
    &words[first..end]
}
