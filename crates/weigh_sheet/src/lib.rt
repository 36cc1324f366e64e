// A public call: conditions 1 to 8, 41 and 43, 21 and 9 in order, and the work area filled where those before 9 pass. Its two halves serve builds,
// moves and starts. Rests on graph_check, lowered, flatten, weigh and look; the promise is calls Weigh.
#![tactic(auto)]

ghost use Rattle.std.specs.Prelude.{◌≡◌, true, false, ◌+◌, ◌*◌, ◌≤◌, length, IfOk};
ghost use Rattle.base.specs.Checks.{refused};
ghost use Rattle.base.specs.Refusals.{answer_of};
ghost use Rattle.formats.specs.Limits.{most_budget};
ghost use Rattle.formats.specs.GraphSheet.{header};
ghost use Rattle.calls.specs.SheetGraph.{graph};
ghost use Rattle.calls.specs.Area.{area_size, filled};
ghost use Rattle.calls.specs.Weigh.{front_order, weighed};
ghost use Rattle.flatten.specs.Decoded.{Decoded};
ghost use Rattle.weigh_sheet.specs.Rows.{Rows, fit_answer};

use base::Refusal;
use cells::Layout;
use flatten::flatten;
use graph_check::SoundSheet;
use graph_row::{Graph, ROW_WORDS};
use look::look_up;
use lowered::lowered_largest;
use weigh::weigh;
use words::{MOST_BLOCKS, MOST_BUDGET};

/// Room for the masks of the blocks of any graph.
pub const BLOCK_MASKS: usize = 2 * MOST_BLOCKS + 2;

/// Room for the masks of its costs.
pub const COST_MASKS: usize = 2 * MOST_BUDGET + 2;

/// The first condition of 1 to 8, 41, 43 of the handler's cost, and 21 that holds, else the sheet.
pub fn front<'a>(words: &'a [u16], handler: u16, area: &[u8]) -> Result<SoundSheet<'a>, Refusal>
    ensures answer { answer_of result ≡ refused front_order (record { sheet = words.now; handler = handler; area = area.now }) }
    ensures words { IfOk result (λ sheet. sheet.records.words.now ≡ words.now) }
{
    let sheet = SoundSheet::check(words, handler)?;
    let largest = lowered_largest(words, handler);
    if area.len() < sheet.records.blocks * (largest + 1) {
        return Err(Refusal::SmallArea);
    }
    Ok(sheet)
}

/// Behind these: the sheet is decoded, once, into a row that is lent, and its graph weighed up to a budget, with masks that are lent. 9 where
/// nothing fits.
pub fn weigh_into(
    sheet: SoundSheet<'_>,
    row: &mut [u16],
    nexts: &mut [u64],
    has: &mut [u64],
    area: &mut [u8],
    budget: usize,
) -> Result<(), Refusal>
    requires room { (budget ≤ most_budget) × (area_size (header sheet.records.words.now).blocks budget ≤ length area.old) }
    requires rows { Rows sheet.records.words.now budget row.old nexts.old has.old }
    ensures value { answer_of result ≡ fit_answer (graph sheet.entry.records.words.now) budget }
    ensures area_after { area.new ≡ filled (graph sheet.entry.records.words.now) (header sheet.entry.records.words.now).blocks budget area.old }
    ensures decoded { Decoded (header sheet.entry.records.words.now) sheet.entry.records.words.now row.new }
{
    flatten(sheet.records, row);
    let layout = Layout {
        blocks: sheet.records.blocks,
        budget,
    };
    weigh(Graph { row }, layout, nexts, has, area);
    match look_up(area, layout, 1, budget).low {
        None => Err(Refusal::NothingFits),
        Some(_) => Ok(()),
    }
}

/// The same with rows for any graph, which are local.
pub fn weigh_passed(sheet: SoundSheet<'_>, area: &mut [u8], budget: usize) -> Result<(), Refusal>
    requires { (budget ≤ most_budget) × (area_size (header sheet.records.words.now).blocks budget ≤ length area.old) }
    ensures value { answer_of result ≡ fit_answer (graph sheet.entry.records.words.now) budget }
    ensures area_after { area.new ≡ filled (graph sheet.entry.records.words.now) (header sheet.entry.records.words.now).blocks budget area.old }
{
    let mut row = [0u16; ROW_WORDS];
    let mut nexts = [0u64; BLOCK_MASKS];
    let mut has = [0u64; COST_MASKS];
    weigh_into(sheet, &mut row, &mut nexts, &mut has, area, budget)
}

/// The first condition of 1 to 8, 41, 43 of the handler's cost, 21 and 9 that holds.
pub fn weigh_sheet(words: &[u16], handler: u16, area: &mut [u8]) -> Result<(), Refusal>
    ensures value { answer_of result ≡ (weighed (record { sheet = words.now; handler = handler; area = area.old })).answer }
    ensures area_after { area.new ≡ (weighed (record { sheet = words.now; handler = handler; area = area.old })).area }
{
    let sheet = front(words, handler, area)?;
    let largest = lowered_largest(words, handler);
    weigh_passed(sheet, area, largest)
}
