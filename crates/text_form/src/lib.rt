// Decimal words in a text, and the line that tells a fault of it: the definitions and their laws; what is counted, and what is a blank.
// Rests on formats, digits, decimal and file_words; what decode writes reads back (proofs RoundTrip `round_trip`).
#![tactic(auto)]

ghost use Rattle.std.specs.Prelude.{◌≡◌};
ghost use Rattle.text_form.specs.Reading.{next, blank};

/// The most words of a text.
pub const MOST_WORDS: usize = 262144;

// Lines and columns are counted so far.
const MOST_COUNT: usize = 999999999;

/// One more, as far as lines and columns are counted.
#[tactic(auto, unfolding(crate::specs::Reading::next))]
pub fn counted(count: usize) -> usize
    ensures { result ≡ next count }
{
    if count < MOST_COUNT { count + 1 } else { count }
}

/// Whether a byte parts words.
#[tactic(auto, unfolding(crate::specs::Reading::blank))]
pub fn is_blank(byte: u8) -> bool
    ensures { result ≡ blank byte }
{
    matches!(byte, b' ' | b'\t' | b'\r')
}
