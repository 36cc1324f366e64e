// The margins of a bounded sheet's copies, looked up in the work area of its build and written into a lent row of bytes.
// Rests on words, look and digits; the promise says the whole row, by digits Wrote and specs Margins.
#![tactic(auto)]

ghost use Rattle.std.specs.Prelude.{◌+◌, ◌<◌, ◌≤◌, length};
ghost use Rattle.std.specs.Option.{IfSome};
ghost use Rattle.base.specs.Options.{option_in};
ghost use Rattle.formats.specs.Limits.{most_cells};
ghost use Rattle.digits.specs.Wrote.{Wrote};
ghost use Rattle.margins.specs.Margins.{less_low, margin_word, margin_words, Records};

use cells::Layout;
use digits::{put_bytes, put_number};
use look::look_up;
use words::{MOST_BLOCKS, field};

/// Writes a margin behind a space: a next cost less a low, or `none`. The place behind it.
fn put_margin(text: &mut [u8], at: usize, low: usize, next: Option<usize>) -> usize
    requires low_lt_next { IfSome next (λ next. low < next) }
    requires next_in_bounds { at + length (margin_word (less_low low (option_in next))) ≤ length text.old }
    ensures { Wrote text.old at (margin_word (less_low low (option_in next))) text.new result }
{
    match next {
        None => put_bytes(text, at, b" none"),
        Some(cost) => put_number(text, at, cost - low),
    }
}

/// Writes the margins of the copies, whose records stand from the word `at` on; the area has the costs up to the largest budget. The place behind
/// them.
pub fn put_margins(
    sheet: &[u16],
    area: &[u8],
    largest: usize,
    at: usize,
    copies: usize,
    text: &mut [u8],
    place: usize,
) -> usize
    requires records { Records sheet.now largest at copies × (most_cells ≤ length area.now) }
    requires copies_in_bounds { place + length (margin_words sheet.now area.now largest at copies) ≤ length text.old }
    ensures { Wrote text.old place (margin_words sheet.now area.now largest at copies) text.new result }
{
    let layout = Layout {
        blocks: MOST_BLOCKS,
        budget: largest,
    };
    let mut end = place;
    for copy in 1..copies + 1 {
        let block = field(sheet, at, 3, copy, 0);
        let low = field(sheet, at, 3, copy, 1);
        let found = look_up(area, layout, block, low);
        end = put_margin(text, end, low, found.next);
    }
    end
}
