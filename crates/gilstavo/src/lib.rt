// The public calls on numbers and slices, as gilstavo_c exports them for C and Rust: a walk is a row of four words; `handler` is the
// handler's cost.
// Rests on graph_check, convert_operations, successors, weigh_sheet, build, bounded_check, reader, walk, both starts and both moves; the
// promises are theirs, and Steps for walks. Answers are numbers here, and walks rows of words, as C has no enum that it may be trusted with.
#![tactic(auto)]

ghost use Rattle.std.specs.Prelude.{◌≡◌};
ghost use Rattle.formats.specs.GraphSheet.{sheet_refusal, count_successors};
ghost use Rattle.formats.specs.Rule11.{bounded_refusal, hand_out};
ghost use Rattle.base.specs.Checks.{lent_after};
ghost use Rattle.base.specs.Refusals.{answer_of};
ghost use Rattle.calls.specs.Moves.{starting_walk, guarded_move};
ghost use Rattle.calls.specs.Starts.{guarded_start};
ghost use Rattle.calls.specs.Weigh.{weighed};
ghost use Rattle.calls.specs.Build.{built};
ghost use Rattle.operation_sheet.specs.Operations.{convert};
ghost use Rattle.reader.specs.Placed.{Placed};
ghost use Rattle.walk.specs.WalkWords.{walk_in, walk_words};
ghost use Rattle.gilstavo.specs.Steps.{words_after, guarded_outset, bounded_outset, guarded_step, bounded_step};

use base::{Refusal, answer};
use bounded_check::check_bounded;
use bounded_moves::bounded_move;
use bounded_starts::start_bounded;
use build::build;
use convert_operations::convert_operations;
use graph_check::check_graph;
use guarded_moves::guarded_move;
use guarded_starts::start_guarded;
use reader::edge_words_place;
use successors::count_successors;
use walk::Walk;
use weigh_sheet::weigh_sheet;

/// 1 to 4, 41, 5 to 8, else 0.
pub fn gilstavo_check_graph(sheet: &[u16]) -> u16
    ensures { result ≡ sheet_refusal sheet.now }
{
    answer(&check_graph(sheet))
}

/// 1 to 4, 41, 6 to 8, 42, 22, else 0; the graph sheet of an operation sheet in the first words of the output row.
pub fn gilstavo_convert_operations(sheet: &[u16], output: &mut [u16]) -> u16
    ensures value { result ≡ (convert sheet.now output.old).answer }
    ensures output_after { output.new ≡ (convert sheet.now output.old).output }
{
    answer(&convert_operations(sheet, output))
}

/// 1 to 4, 41, 5 to 8, 33, else 0; the number of successors of a block.
pub fn gilstavo_count_successors(sheet: &[u16], block: u16, count: &mut u16) -> u16
    ensures value { result ≡ (count_successors sheet.now block).answer }
    ensures count_after { count.new ≡ lent_after result count.old (count_successors sheet.now block).count }
{
    match count_successors(sheet, block) {
        Ok(number) => {
            *count = number;
            0
        }
        Err(refusal) => refusal.number(),
    }
}

/// 1 to 4, 41, 43, 5 to 8, 21, 9, else 0; the completion table in the work area.
pub fn gilstavo_weigh(sheet: &[u16], handler: u16, area: &mut [u8]) -> u16
    ensures value { result ≡ (weighed (record { sheet = sheet.entry.now; handler = handler; area = area.old })).answer }
    ensures area_after { area.new ≡ (weighed (record { sheet = sheet.entry.now; handler = handler; area = area.old })).area }
{
    answer(&weigh_sheet(sheet, handler, area))
}

/// 1 to 4, 41, 43, 5 to 8, 21, 9, 10, 22, else 0; the bounded sheet in the first words of the output row.
pub fn gilstavo_build(sheet: &[u16], handler: u16, area: &mut [u8], output: &mut [u16]) -> u16
    ensures value { result ≡ (built sheet.now handler area.old output.old).answer }
    ensures area_after { area.new ≡ (built sheet.now handler area.old output.old).area }
    ensures output_after { output.new ≡ (built sheet.now handler area.old output.old).output }
{
    answer(&build(sheet, handler, area, output))
}

/// 11, else 0.
pub fn gilstavo_check_bounded(sheet: &[u16]) -> u16
    ensures { result ≡ bounded_refusal sheet.now }
{
    answer(&check_bounded(sheet))
}

/// 11, 33, else 0; where the edge words of a copy stand in the sheet: the first word, counted from 0, and their number.
pub fn gilstavo_edge_words(sheet: &[u16], copy: u16, start: &mut usize, size: &mut usize) -> u16
    ensures value { result ≡ (hand_out sheet.now copy).answer }
    ensures placed { Placed sheet.now start.new size.new
        (hand_out sheet.now copy).start (hand_out sheet.now copy).words }
{
    match edge_words_place(sheet, copy) {
        Ok(place) => {
            *start = place.start;
            *size = place.size;
            0
        }
        Err(refusal) => {
            *start = 0;
            *size = 0;
            refusal.number()
        }
    }
}

// WALKS

/// Sets the four words of a walk to those of the walk that a call leaves, and answers its number; a refusal leaves them as they are.
fn set_words(words: &mut [u16; 4], after: Result<Walk, Refusal>) -> u16
    ensures value { result ≡ answer_of after }
    ensures words { words.new ≡ words_after words.old after }
{
    match after {
        Ok(walk) => {
            *words = <[u16; 4]>::from(walk);
            0
        }
        Err(refusal) => refusal.number(),
    }
}

/// The starting walk.
pub fn gilstavo_start(walk: &mut [u16; 4])
    ensures { walk.new ≡ walk_words starting_walk }
{
    *walk = <[u16; 4]>::from(Walk::start());
}

/// 1 to 4, 41, 43, 5 to 8, 21, 9, 33, else 0; a guarded start with a budget's number of a walk that is set in place.
pub fn gilstavo_start_guarded(
    sheet: &[u16],
    handler: u16,
    area: &mut [u8],
    walk: &mut [u16; 4],
    budget: u16,
) -> u16
    ensures value { result ≡ (guarded_outset sheet.now handler walk.old (record { number = budget; area = area.old })).answer }
    ensures walk_after { walk.new
        ≡ (guarded_outset sheet.now handler walk.old (record { number = budget; area = area.old })).after }
    ensures area_after { area.new
        ≡ (guarded_start sheet.now handler (walk_in walk.old) (record { number = budget; area = area.old })).area }
{
    let started = start_guarded(sheet, handler, area, budget);
    set_words(walk, started)
}

/// 11, 33, else 0; a bounded start with a budget's number of a walk that is set in place.
pub fn gilstavo_start_bounded(sheet: &[u16], walk: &mut [u16; 4], budget: u16) -> u16
    ensures value { result ≡ (bounded_outset sheet.now walk.old budget).answer }
    ensures walk_after { walk.new ≡ (bounded_outset sheet.now walk.old budget).after }
{
    let started = start_bounded(sheet, budget);
    set_words(walk, started)
}

/// 1 to 4, 41, 43, 5 to 8, 21, 9, 33, 32, 31, else 0; a guarded move of a walk that is changed in place.
pub fn gilstavo_guarded_move(
    sheet: &[u16],
    handler: u16,
    area: &mut [u8],
    walk: &mut [u16; 4],
    choice: u16,
) -> u16
    ensures value { result ≡ (guarded_step sheet.now handler walk.old (record { choice = choice; area = area.old })).answer }
    ensures walk_after { walk.new
        ≡ (guarded_step sheet.now handler walk.old (record { choice = choice; area = area.old })).after }
    ensures area_after { area.new
        ≡ (guarded_move sheet.now handler (walk_in walk.old) (record { choice = choice; area = area.old })).area }
{
    let moved = guarded_move(sheet, handler, area, Walk::from(*walk), choice);
    set_words(walk, moved)
}

/// 11, 33, 32, 31, else 0; a bounded move of a walk that is changed in place.
pub fn gilstavo_bounded_move(sheet: &[u16], walk: &mut [u16; 4], choice: u16) -> u16
    ensures value { result ≡ (bounded_step sheet.now walk.old choice).answer }
    ensures walk_after { walk.new ≡ (bounded_step sheet.now walk.old choice).after }
{
    let moved = bounded_move(sheet, Walk::from(*walk), choice);
    set_words(walk, moved)
}
