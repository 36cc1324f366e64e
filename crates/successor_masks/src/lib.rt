// The successors of each block of a graph, as masks. Below the public calls.
// Rests on graph_row and masks.
#![tactic(auto)]

ghost use Rattle.std.specs.Prelude.{◌+◌, ◌≤◌};
ghost use Rattle.graph_row.specs.GraphRow.{blocks_in, graph_in};
ghost use Rattle.successor_masks.specs.Nexts.{Nexts};

use graph_row::Graph;
use masks::put;

/// The successors of one block.
fn list_block(graph: Graph<'_>, nexts: &mut [u64], block: usize)
    requires inside { (1 ≤ block) × (block ≤ blocks_in graph.row.now) }
    requires nexts { Nexts (graph_in graph.row.now) (blocks_in graph.row.now) block nexts.old }
    ensures { Nexts (graph_in graph.entry.row.now) (blocks_in graph.entry.row.now) (block + 1) nexts.new }
{
    let targets = graph.successors(block);
    for &target in targets {
        put(nexts, block, target as usize);
    }
}

/// The successors of all blocks.
pub fn list_all(graph: Graph<'_>, nexts: &mut [u64])
    requires nexts { Nexts (graph_in graph.row.now) (blocks_in graph.row.now) 1 nexts.old }
    ensures { Nexts (graph_in graph.entry.row.now) (blocks_in graph.entry.row.now) (blocks_in graph.entry.row.now + 1) nexts.new }
{
    for block in 1..graph.blocks() + 1 {
        list_block(graph, nexts, block);
    }
}
