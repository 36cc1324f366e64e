// A public call on a graph sheet: a block's number of successors.
// Rests on words, chains, graph_check; the promise is an equation with formats GraphSheet.
#![tactic(auto)]

ghost use Rattle.std.specs.Prelude.{◌≡◌, ◌≤◌, length};
ghost use Rattle.formats.specs.Limits.{most_edges};
ghost use Rattle.formats.specs.GraphSheet.{successors};
ghost use Rattle.formats.specs.GraphSheet.{count_successors as successors_counted};
ghost use Rattle.graph_records.specs.Records.{header_in};
ghost use Rattle.successors.specs.Counted.{counted_of};

use base::Refusal;
use chains::count_targets;
use graph_check::{SoundSheet, check_graph};
use words::is_outside;

/// The number of successors of a block of a sound sheet.
fn successor_count(sheet: SoundSheet<'_>, block: usize) -> usize
    requires { (1 ≤ block) × (block ≤ sheet.records.blocks) }
    ensures { (result ≡ length (successors (header_in sheet.entry.records) sheet.entry.records.words.now block)) × (result ≤ most_edges) }
{
    count_targets(sheet.successors(block))
}

/// The number of successors of a block; the sheet's own refusals, then 33 for a block outside 1 to N.
pub fn count_successors(words: &[u16], block: u16) -> Result<u16, Refusal>
    ensures { counted_of result ≡ successors_counted words.now block }
{
    let sheet = check_graph(words)?;
    if is_outside(1, sheet.records.blocks, block as usize) {
        return Err(Refusal::Outside);
    }
    Ok(successor_count(sheet, block as usize) as u16)
}
