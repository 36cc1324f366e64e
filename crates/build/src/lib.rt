// THE BUILD, a public call: from a graph sheet and the handler's cost to its bounded sheet in the output row, with the completion table in the
// work area. Rests on weigh_sheet and build_rows. The rows of a build are local here, once, as large as the sheet asks; the calls below lend them on.
#![tactic(auto)]

ghost use Rattle.std.specs.Prelude.{◌≡◌, true, ◌≤◌, length};
ghost use Rattle.base.specs.Refusals.{answer_of};
ghost use Rattle.calls.specs.SheetGraph.{task};
ghost use Rattle.calls.specs.Build.{built};
ghost use Rattle.calls.specs.Weigh.{task_area};
ghost use Rattle.build.specs.Sizes.{Serves};

use base::Refusal;
use build_rows::{LoweredSheet, build_in_rows};
use cells::Layout;
use graph_row::ROW_WORDS;
use lowered::lowered_largest;
use weigh_sheet::{BLOCK_MASKS, COST_MASKS, front};
use words::MOST_CELLS;

// IN LOCAL ROWS, as large as the sheet asks

// The sizes of a small build, and the cells of a middling one and of one with not the most cells.
const FEW_BLOCKS: usize = 16;

const FEW_EDGES: usize = 64;

const LITTLE_BUDGET: usize = 63;

const FEW_WORDS: usize = 1 + 3 * FEW_BLOCKS + FEW_EDGES;

const FEW_BLOCK_MASKS: usize = 2 * FEW_BLOCKS + 2;

const FEW_COST_MASKS: usize = 2 * LITTLE_BUDGET + 2;

const FEW_CELLS: usize = 256;

const SOME_CELLS: usize = 2048;

const MANY_CELLS: usize = 16384;

// The build in rows of these sizes, each on its own: the frame of a build is that of its size.
#[inline(never)]
fn build_in<const WORDS: usize, const BLOCKS: usize, const COSTS: usize, const CELLS: usize>(
    lowered: LoweredSheet<'_>,
    area: &mut [u8],
    output: &mut [u16],
) -> Result<(), Refusal>
    requires words { WORDS ≤ 65536 }
    requires blocks { BLOCKS ≤ 65536 }
    requires costs { COSTS ≤ 65536 }
    requires cells { CELLS ≤ 65536 }
    requires area { task_area (task lowered.sheet.records.words.now lowered.handler) ≤ length area.old }
    requires serves { Serves WORDS BLOCKS COSTS CELLS lowered.sheet.records.words.now lowered.handler }
    ensures value { answer_of result ≡ (built lowered.entry.sheet.records.words.now lowered.entry.handler area.old output.old).answer }
    ensures area_after { area.new ≡ (built lowered.entry.sheet.records.words.now lowered.entry.handler area.old output.old).area }
    ensures out_after { output.new ≡ (built lowered.entry.sheet.records.words.now lowered.entry.handler area.old output.old).output }
{
    let mut row = [0u16; WORDS];
    let mut nexts = [0u64; BLOCKS];
    let mut has = [0u64; COSTS];
    let mut table = [0u16; CELLS];
    let mut marks = [0u8; CELLS];
    build_in_rows(
        lowered, area, output, &mut row, &mut nexts, &mut has, &mut table, &mut marks,
    )
}

// THE CALL

// Whether a sheet is small.
fn is_small(blocks: usize, edges: usize, budget: usize, cells: usize) -> bool
    ensures { result ≡ true → (blocks ≤ 16) × (edges ≤ 64) × (budget ≤ 63) × (cells ≤ 256) }
{
    blocks <= FEW_BLOCKS && edges <= FEW_EDGES && budget <= LITTLE_BUDGET && cells <= FEW_CELLS
}

// The build of a sheet that passes 1 to 8, 41, 43 and 21, in rows as large as it asks.
fn build_passed(
    lowered: LoweredSheet<'_>,
    area: &mut [u8],
    output: &mut [u16],
) -> Result<(), Refusal>
    requires { task_area (task lowered.sheet.records.words.now lowered.handler) ≤ length area.old }
    ensures value { answer_of result ≡ (built lowered.entry.sheet.records.words.now lowered.entry.handler area.old output.old).answer }
    ensures area_after { area.new ≡ (built lowered.entry.sheet.records.words.now lowered.entry.handler area.old output.old).area }
    ensures out_after { output.new ≡ (built lowered.entry.sheet.records.words.now lowered.entry.handler area.old output.old).output }
{
    let records = lowered.sheet.records;
    let layout = Layout {
        blocks: records.blocks,
        budget: lowered.largest,
    };
    let cells = layout.cells();
    if is_small(records.blocks, records.edges, lowered.largest, cells) {
        return build_in::<FEW_WORDS, FEW_BLOCK_MASKS, FEW_COST_MASKS, FEW_CELLS>(
            lowered, area, output,
        );
    }
    if cells <= SOME_CELLS {
        return build_in::<ROW_WORDS, BLOCK_MASKS, COST_MASKS, SOME_CELLS>(lowered, area, output);
    }
    if cells <= MANY_CELLS {
        return build_in::<ROW_WORDS, BLOCK_MASKS, COST_MASKS, MANY_CELLS>(lowered, area, output);
    }
    build_in::<ROW_WORDS, BLOCK_MASKS, COST_MASKS, MOST_CELLS>(lowered, area, output)
}

/// The first condition of 1 to 4, 41, 43 of the handler's cost, 5 to 8, 21, 9, 10 and 22 that holds; else the bounded sheet stands in the first
/// words of the output row. The work area holds the completions where those before 9 pass.
pub fn build(
    sheet: &[u16],
    handler: u16,
    area: &mut [u8],
    output: &mut [u16],
) -> Result<(), Refusal>
    ensures value { answer_of result ≡ (built sheet.now handler area.old output.old).answer }
    ensures area_after { area.new ≡ (built sheet.now handler area.old output.old).area }
    ensures out_after { output.new ≡ (built sheet.now handler area.old output.old).output }
{
    let sound = front(sheet, handler, area)?;
    let largest = lowered_largest(sheet, handler);
    let lowered = LoweredSheet {
        sheet: sound,
        handler,
        largest,
    };
    build_passed(lowered, area, output)
}
