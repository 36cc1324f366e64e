// A public call on an operation sheet: the graph sheet that it says, put into a lent row. Each record is visited once for the sums.
// Rests on words, put_words, chains, graph_records, operation_sheet, operation_check; the promise is an equation with operation_sheet Operations
// `convert`.
#![tactic(auto)]

ghost use Rattle.std.specs.Prelude.{◌≡◌, ◌≤◌, length, map, suc};
ghost use Rattle.base.specs.Lists.{sum};
ghost use Rattle.base.specs.Refusals.{answer_of};
ghost use Rattle.chains.specs.Rest.{rest};
ghost use Rattle.formats.specs.Limits.{most_operations};
ghost use Rattle.formats.specs.GraphSheet.{sheet_length};
ghost use Rattle.graph_records.specs.Records.{header_in};
ghost use Rattle.operation_sheet.specs.Operations.{cycles_of, cycle_sum, operation_word, operations_of, block_words, graph_words, convert, Listed, most_cycles};
ghost use Rattle.put_words.specs.Put.{put_words};
ghost use Rattle.convert_operations.specs.Small.{Small};

use base::Refusal;
use chains::Chain;
use operation_check::{OperationRecords, check_operations};
use operation_sheet::cycles;
use put_words::{put_array, put_part};

// The operations of a block, in order.
fn operations<'a>(sheet: OperationRecords<'a>, block: usize) -> Chain<'a>
    requires listed { Listed (header_in sheet.records) sheet.records.words.now }
    requires block_inside { (1 ≤ block) × (block ≤ sheet.records.blocks) }
    ensures value { rest result ≡ map (operation_word (header_in sheet.entry.records) sheet.entry.records.words.now) (operations_of (header_in sheet.entry.records) sheet.entry.records.words.now block) }
    ensures small { Small (rest result) }
    ensures few { length (rest result) ≤ suc most_operations }
{
    let records = sheet.records;
    let first = records.cost(block);
    Chain::new(records.words, sheet.base, sheet.count, first)
}

// The cycles of some operations, one after the other.
fn sum_cycles(operations: Chain<'_>) -> usize
    requires { Small (rest operations) × (length (rest operations) ≤ suc most_operations) }
    ensures { result ≡ sum (map cycles_of (rest operations.entry)) }
{
    let mut total = 0;
    for operation in operations {
        total += cycles(operation as usize);
    }
    total
}

// The cycles of a block's operations.
fn block_cycles(sheet: OperationRecords<'_>, block: usize) -> usize
    requires listed { Listed (header_in sheet.records) sheet.records.words.now }
    requires block_inside { (1 ≤ block) × (block ≤ sheet.records.blocks) }
    ensures { (result ≡ cycle_sum (header_in sheet.entry.records) sheet.entry.records.words.now block) × (result ≤ most_cycles) }
{
    sum_cycles(operations(sheet, block))
}

// Puts the two words of each block: its operations' cycles, and its first edge.
fn put_blocks(sheet: OperationRecords<'_>, out: &mut [u16])
    requires listed { Listed (header_in sheet.records) sheet.records.words.now }
    requires room { sheet_length (header_in sheet.records) ≤ length out.old }
    ensures { out.new ≡ put_words out.old sheet.entry.records.start (block_words (header_in sheet.entry.records) sheet.entry.records.words.now sheet.entry.records.blocks) }
{
    let records = sheet.records;
    for block in 1..records.blocks + 1 {
        let cost = block_cycles(sheet, block);
        let first = records.first_edge(block);
        put_array(
            out,
            records.start + 2 * (block - 1),
            [cost as u16, first as u16],
        );
    }
}

// Puts the graph sheet: the header as it stands, the blocks, the edges as they stand.
fn put_graph(sheet: OperationRecords<'_>, out: &mut [u16])
    requires listed { Listed (header_in sheet.records) sheet.records.words.now }
    requires room { sheet_length (header_in sheet.records) ≤ length out.old }
    ensures { out.new ≡ put_words out.old 0 (graph_words (header_in sheet.entry.records) sheet.entry.records.words.now) }
{
    let records = sheet.records;
    let edges = records.start + 2 * records.blocks;
    let end = edges + 2 * records.edges;
    put_part(out, 0, &records.words[0..records.start]);
    put_blocks(sheet, out);
    put_part(out, edges, &records.words[edges..end]);
}

/// The first of the conditions 1 to 4, 41, 6 to 8, 42 and 22 that holds; where none does, the graph sheet is in the first words of the row.
pub fn convert_operations(words: &[u16], out: &mut [u16]) -> Result<(), Refusal>
    ensures value { answer_of result ≡ (convert words.now out.old).answer }
    ensures out_after { out.new ≡ (convert words.now out.old).output }
{
    let sheet = check_operations(words)?;
    let records = sheet.records;
    if out.len() < records.start + 2 * records.blocks + 2 * records.edges {
        return Err(Refusal::SmallOutput);
    }
    put_graph(sheet, out);
    Ok(())
}
