// The first bytes of an input, and whether it has an odd number of them, however it comes in pieces. Below the programs.
// Rests on formats; for every way of cutting the input it is the same (proofs Pieces `pieces-held`).
#![tactic(auto)]

ghost use Rattle.std.specs.Prelude.{◌≡◌, List, [], ◌∷◌, ◌++◌, ℕ, ◌≤◌, length, take};
ghost use Rattle.kept.specs.Held.{Held, none, held_as};

/// How many of the row's bytes are kept, and whether an odd number came.
// A count beside a row that the program owns, and no Vec: what is kept of an input of any length takes fixed memory, and cannot fail.
#[derive(Clone, Copy, Debug, PartialEq, Eq)]
pub struct Kept {
    pub count: usize,
    pub odd: bool,
}

// Nothing came yet.
pub fn nothing() -> Kept
    ensures { held_as result ≡ none }
{
    Kept {
        count: 0,
        odd: false,
    }
}

// Keeps one byte more where there is room; how many are kept then.
pub fn keep_byte(row: &mut [u8], count: usize, b: u8) -> usize
    requires { count ≤ length row.old }
    ensures upper_bound { result ≤ length row.new }
    ensures by_index { (xs : List ℕ) → take count row.old ≡ take (length row.old) xs
        → take result row.new ≡ take (length row.new) (xs ++ (b ∷ [])) }
{
    if row.len() <= count {
        return count;
    }
    row[count] = b;
    count + 1
}

// Keeps the next bytes, however many, behind those that came.
pub fn keep(s: Kept, bytes: &[u8], row: &mut [u8]) -> Kept
    requires { s.count ≤ length row.old }
    ensures count_in_bounds { result.count ≤ length row.new }
    ensures by_index { (xs : List ℕ) → Held xs row.old (held_as s) → Held (xs ++ bytes.now) row.new (held_as result) }
{
    let mut count = s.count;
    let mut odd = s.odd;
    for b in bytes {
        count = keep_byte(row, count, *b);
        odd = !odd;
    }
    Kept { count, odd }
}
