// THE DECODER: a graph sheet that passes its checks becomes a flat row, once. No other code behind the checks knows a graph's chains.
// Rests on chains, graph_check; what a decoded row holds is specs Decoded.
#![tactic(auto)]

ghost use Rattle.std.specs.Prelude.{◌≡◌, ◌+◌, ◌-◌, ◌*◌, ◌≤◌, ◌<◌, length, set};
ghost use Rattle.formats.specs.Limits.{most_blocks, word_limit};
ghost use Rattle.formats.specs.GraphSheet.{Sound};
ghost use Rattle.graph_records.specs.Records.{header_in};
ghost use Rattle.flatten.specs.Decoded.{Decoded};

use chains::copy_targets;
use graph_check::successors_in;
use graph_records::GraphRecords;

// Puts the three words of a block: its cost, and where its successors stand and how many they are.
fn put_block(row: &mut [u16], block: usize, cost: usize, start: usize, degree: usize)
    requires le_block { (1 ≤ block) × (block ≤ most_blocks) × (3 * block < length row.old) }
    requires cost_lt_word_limit { (cost < word_limit) × (start < word_limit) × (degree < word_limit) }
    ensures { row.new ≡ set (set (set row.old (3 * block - 2) cost) (3 * block - 1) start) (3 * block) degree }
{
    row[3 * block - 2] = cost as u16;
    row[3 * block - 1] = start as u16;
    row[3 * block] = degree as u16;
}

/// Decodes records that hold a graph into a row with room for it.
pub fn flatten(records: GraphRecords<'_>, row: &mut [u16])
    requires sound { Sound (header_in records) records.words.now }
    requires room { 1 + 3 * records.blocks + records.edges ≤ length row.old }
    ensures row_len_unchanged { length row.new ≡ length row.old }
    ensures decoded { Decoded (header_in records.entry) records.entry.words.now row.new }
{
    row[0] = records.blocks as u16;
    let mut place = 3 * records.blocks + 1;
    for block in 1..records.blocks + 1 {
        let next = copy_targets(successors_in(records, block), row, place);
        let cost = records.cost(block);
        put_block(row, block, cost, place, next - place);
        place = next;
    }
}
