// The chains of all numbers 1 to n, whose first records stand in a table of two words each: followed one after the other, with one row of marks.
// Rests on words, chains; the promise is an equation with formats Words `unsound`. Below the public calls.
#![tactic(auto)]

ghost use Rattle.std.specs.Prelude.{◌≡◌, suc, ◌+◌, ◌*◌, ◌≤◌, ◌<◌, length, replicate};
ghost use Rattle.base.specs.Lists.{each, from};
ghost use Rattle.formats.specs.Words.{field as field_at, edges_from, unsound};

use chains::mark_chain;
use words::field;

/// Whether following all chains meets a record above `records`, or a record twice, or misses one: the first record of the chain of a number is word
/// `word` of its entry, of two words, in the table from the word `table` on, and the records that are chained stand from the word `base` on. The
/// marks are lent, and clear.
// Places and counts, and no view: the tables of two kinds of sheet, blocks with their edges and blocks with their operations, are followed so.
pub fn unsound_chains(
    words: &[u16],
    marks: &mut [u8],
    table: usize,
    numbers: usize,
    word: usize,
    base: usize,
    records: usize,
) -> bool
    requires word_bound { (word < 2) × (table + 2 * numbers ≤ length words.now) × (base + 2 * records ≤ length words.now) }
    requires records_in_bounds { (records < length marks.old) × (marks.old ≡ replicate (length marks.old) 0) }
    ensures { result ≡ unsound records (each (λ v. edges_from words.now base (suc records) (field_at words.now table 2 v word)) (from 1 numbers)) }
{
    let mut left = records;
    for number in 1..numbers + 1 {
        let first = field(words, table, 2, number, word);
        let Some(fewer) = mark_chain(words, marks, base, records, first, left) else {
            return true;
        };
        left = fewer;
    }
    0 < left
}
