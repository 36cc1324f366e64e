// One block's cost, set in the work area and in the mask of the cost; the exit's cost 0 first. Below the public calls.
// Rests on graph_row, cells and masks. A block has a cost where some successor has it less the block's own, which is one test of two masks.
#![tactic(auto)]

ghost use Rattle.std.specs.Prelude.{◌≡◌, ◌≢◌, true, ℕ, ◌+◌, ◌*◌, ◌≤◌, length};
ghost use mathlib.Core.List.{Memᴰ};
ghost use Rattle.theory.specs.Completions.{completes};
ghost use Rattle.calls.specs.Area.{stands, Filling};
ghost use Rattle.graph_row.specs.GraphRow.{blocks_in, graph_in};
ghost use Rattle.masks.specs.Masks.{Empty};
ghost use Rattle.block_cost.specs.States.{Ready, Fair, Wider};
ghost use Rattle.block_cost.specs.Masked.{Mirror, Kept};

use cells::{Layout, clear_cells, set_cell};
use graph_row::Graph;
use masks::{meet, put};

/// Only the exit's cost 0 is set.
pub fn begin(graph: Graph<'_>, layout: Layout, has: &mut [u64], area: &mut [u8])
    requires ready { Ready (graph_in graph.row.now) layout.blocks layout.budget area.old }
    requires empty { Empty has.old × (2 * layout.budget + 2 ≤ length has.old) }
    ensures filling { Filling layout.blocks layout.budget area.old area.new }
    ensures fair { Fair (graph_in graph.entry.row.now) layout.blocks layout.budget area.new }
    ensures mirror { Mirror layout.blocks layout.budget has.new area.new }
{
    clear_cells(area, layout);
    set_cell(area, layout, 2, 0);
    put(has, 0, 2);
}

/// One block's cost, where what is onward from it is settled.
pub fn settle(
    graph: Graph<'_>,
    layout: Layout,
    nexts: &[u64],
    has: &mut [u64],
    area: &mut [u8],
    block: usize,
    cost: usize,
)
    requires blocks { layout.blocks ≡ blocks_in graph.row.now }
    requires kept { Kept (graph_in graph.row.now) layout.blocks layout.budget nexts.now has.old area.old }
    requires inside { (1 ≤ block) × (block ≤ layout.blocks) × (block ≢ 2) × (cost ≤ layout.budget) }
    requires onward { (t d : ℕ) → Memᴰ t ((graph_in graph.row.now).next block) → cost ≡ (graph_in graph.row.now).cost block + d
        → completes (graph_in graph.row.now) t d ≡ true → stands layout.budget area.old t d ≡ true }
    ensures wider { Wider (graph_in graph.entry.row.now) layout.blocks layout.budget area.old area.new }
    ensures kept_2 { Kept (graph_in graph.entry.row.now) layout.blocks layout.budget nexts.now has.new area.new }
    ensures set { completes (graph_in graph.entry.row.now) block cost ≡ true → stands layout.budget area.new block cost ≡ true }
{
    let own = graph.cost(block);
    if cost < own {
        return;
    }
    if !meet(has, cost - own, nexts, block) {
        return;
    }
    put(has, cost, block);
    set_cell(area, layout, block, cost);
}
