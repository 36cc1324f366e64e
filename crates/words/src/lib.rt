// The words of a row, by place and by record, and the limits of both kinds of sheet; below the public calls.
// Rests on formats: Limits, Words.
#![tactic(auto)]

ghost use Rattle.std.specs.Prelude.{◌≡◌, ◌||◌, ◌+◌, ◌*◌, ◌<◌, ◌≤◌, length};
ghost use Rattle.base.specs.Checks.{outside};
ghost use Rattle.formats.specs.Limits.{word_limit};
ghost use Rattle.formats.specs.Words.{word, field as field_at};

/// The least words of a sheet.
pub const LEAST_WORDS: usize = 3;

/// The least blocks of a graph sheet.
pub const LEAST_BLOCKS: usize = 2;

/// Its most blocks.
pub const MOST_BLOCKS: usize = 128;

/// The least edges of a graph sheet.
pub const LEAST_EDGES: usize = 1;

/// Its most edges.
pub const MOST_EDGES: usize = 512;

/// The largest budget of either kind of sheet, in cycles.
pub const MOST_BUDGET: usize = 500;

/// The least budgets of either kind of sheet.
pub const LEAST_BUDGETS: usize = 1;

/// Their most.
pub const MOST_BUDGETS: usize = 4;

/// The cells of the largest work area, one for each block and number of cycles.
pub const MOST_CELLS: usize = MOST_BLOCKS * (MOST_BUDGET + 1);

/// The least copies of a bounded sheet.
pub const LEAST_COPIES: usize = 2;

/// Its most copies.
pub const MOST_COPIES: usize = 4096;

/// The least edges of a bounded sheet.
pub const LEAST_BOUNDED_EDGES: usize = 1;

/// Its most edges.
pub const MOST_BOUNDED_EDGES: usize = 8192;

/// The most operation records of an operation sheet.
pub const MOST_OPERATIONS: usize = 4096;

/// The largest operation.
pub const MOST_OPERATION: usize = 15;

/// A number outside the limits `least` to `most`.
pub fn is_outside(least: usize, most: usize, number: usize) -> bool
    ensures { result ≡ outside least most number }
{
    // `contains` of a range says the same, and wants a proof of its own.
    number < least || most < number
}

/// One number outside its limits, or another outside its own.
pub fn is_either_outside(
    least: usize,
    most: usize,
    number: usize,
    other_least: usize,
    other_most: usize,
    other: usize,
) -> bool
    ensures { result ≡ (outside least most number || outside other_least other_most other) }
{
    is_outside(least, most, number) || is_outside(other_least, other_most, other)
}

/// One word of a row.
pub fn word_at(words: &[u16], place: usize) -> usize
    requires { place < length words.now }
    ensures { (result ≡ word words.now place) × (result < word_limit) }
{
    words[place] as usize
}

/// Word `place`, counted from 0, of record `index`, where records of `width` words stand from the word `base` on, numbered from 1.
pub fn field(words: &[u16], base: usize, width: usize, index: usize, place: usize) -> usize
    requires { (1 ≤ index) × (place < width) × (base + width * index ≤ length words.now) }
    ensures { (result ≡ field_at words.now base width index place) × (result < word_limit) }
{
    word_at(words, base + width * (index - 1) + place)
}
