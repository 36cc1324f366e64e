//! A row of words written as lines of decimal words: a sheet's header and each of its records in a line, any other row a word a line.
//! Rests on words, headers, digits; the promises say the whole row, by digits Wrote and specs Writing.
#![tactic(auto)]

ghost use Rattle.std.specs.Prelude.{◌≡◌, map, ◌+◌, ◌*◌, ◌≤◌, length, replicate};
ghost use Rattle.formats.specs.Listing.{decimal, line};
ghost use Rattle.digits.specs.Wrote.{Wrote};
ghost use Rattle.decimal.specs.Writing.{records, lines_text, sheet_text, total, sheet_room};

use digits::{NEWLINE, put_byte, put_decimal, put_numbers};
use headers::{read_header, read_heading};
use words::{LEAST_WORDS, word_at};

/// Writes words in a line.
fn put_line(words: &[u16], text: &mut [u8], at: usize) -> usize
    requires in_bounds { 1 ≤ length words.now }
    requires words_in_bounds { at + length (line (map decimal words.now)) ≤ length text.old }
    ensures { Wrote text.old at (line (map decimal words.now)) text.new result }
{
    let behind_first = put_decimal(text, at, word_at(words, 0));
    let behind_others = put_numbers(&words[1..], text, behind_first);
    put_byte(text, behind_others, NEWLINE)
}

/// Writes so many lines of so many words each.
fn put_lines(words: &[u16], count: usize, width: usize, text: &mut [u8], at: usize) -> usize
    requires le_width { 1 ≤ width }
    requires width_in_bounds { total (replicate count width) ≤ length words.now }
    requires words_in_bounds { at + length (lines_text (replicate count width) words.now) ≤ length text.old }
    ensures { Wrote text.old at (lines_text (replicate count width) words.now) text.new result }
{
    let mut place = at;
    let mut first = 0;
    let mut left = count;
    while 0 < left {
        place = put_line(&words[first..first + width], text, place);
        first += width;
        left -= 1;
    }
    place
}

/// Writes a sheet's words: its header, so many records of a width, and from the word `edges_at` on edge records of two words.
fn put_records(
    words: &[u16],
    header: usize,
    count: usize,
    width: usize,
    edges_at: usize,
    edges: usize,
    text: &mut [u8],
) -> usize
    requires le_header { (1 ≤ header) × (1 ≤ width) }
    requires edges_at_value { (edges_at ≡ header + total (replicate count width)) × (edges_at + 2 * edges ≤ length words.now) }
    requires words_in_bounds { length (lines_text (records header count width edges) words.now) ≤ length text.old }
    ensures { Wrote text.old 0 (lines_text (records header count width edges) words.now) text.new result }
{
    let behind_header = put_line(&words[..header], text, 0);
    let behind_records = put_lines(&words[header..], count, width, text, behind_header);
    put_lines(&words[edges_at..], edges, 2, text, behind_records)
}

/// Writes a row of words as lines of decimal words, by its length a graph sheet, a bounded sheet, or neither; answers the length of the text.
pub fn decode(words: &[u16], text: &mut [u8]) -> usize
    requires { sheet_room words.now ≤ length text.old }
    ensures { Wrote text.old 0 (sheet_text words.now) text.new result × (result ≤ length text.new) }
{
    let size = words.len();
    if size < LEAST_WORDS {
        return put_lines(words, size, 1, text, 0);
    }
    let graph = read_header(words);
    let blocks_end = graph.records + 2 * graph.blocks;
    if size == blocks_end + 2 * graph.edges {
        return put_records(
            words,
            graph.records,
            graph.blocks,
            2,
            blocks_end,
            graph.edges,
            text,
        );
    }
    let bounded = read_heading(words);
    let copies_end = bounded.records + 3 * bounded.copies;
    if size == copies_end + 2 * bounded.edges {
        return put_records(
            words,
            bounded.records,
            bounded.copies,
            3,
            copies_end,
            bounded.edges,
            text,
        );
    }
    put_lines(words, size, 1, text, 0)
}
