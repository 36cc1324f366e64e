// The completion table of a graph, in the work area, by rising costs. Below the public calls.
// Rests on graph_row, cells, successor_masks and block_cost; the promise is calls Area, "a work area that was filled".
#![tactic(auto)]

ghost use Rattle.std.specs.Prelude.{◌≡◌, ◌+◌, ◌*◌, ◌≤◌, length};
ghost use Rattle.calls.specs.Area.{filled};
ghost use Rattle.graph_row.specs.GraphRow.{blocks_in, graph_in};
ghost use Rattle.masks.specs.Masks.{Empty};
ghost use Rattle.block_cost.specs.States.{Ready, Wider, Settled};
ghost use Rattle.block_cost.specs.Masked.{Kept};

use block_cost::{begin, settle};
use cells::Layout;
use graph_row::Graph;
use successor_masks::list_all;

/// All blocks' cost of one number: the start last, whose successors have the same cost.
fn weigh_cost(
    graph: Graph<'_>,
    layout: Layout,
    nexts: &[u64],
    has: &mut [u64],
    area: &mut [u8],
    cost: usize,
)
    requires blocks { layout.blocks ≡ blocks_in graph.row.now }
    requires kept { Kept (graph_in graph.row.now) layout.blocks layout.budget nexts.now has.old area.old }
    requires inside { cost ≤ layout.budget }
    requires settled { Settled (graph_in graph.row.now) layout.blocks layout.budget area.old cost 2 }
    ensures wider { Wider (graph_in graph.entry.row.now) layout.blocks layout.budget area.old area.new }
    ensures kept_2 { Kept (graph_in graph.entry.row.now) layout.blocks layout.budget nexts.now has.new area.new }
    ensures settled_2 { Settled (graph_in graph.entry.row.now) layout.blocks layout.budget area.new (cost + 1) 2 }
{
    for block in 3..layout.blocks + 1 {
        settle(graph, layout, nexts, has, area, block, cost);
    }
    settle(graph, layout, nexts, has, area, 1, cost);
}

/// All costs, by rising cost.
fn weigh_costs(graph: Graph<'_>, layout: Layout, nexts: &[u64], has: &mut [u64], area: &mut [u8])
    requires blocks { layout.blocks ≡ blocks_in graph.row.now }
    requires kept { Kept (graph_in graph.row.now) layout.blocks layout.budget nexts.now has.old area.old }
    ensures wider { Wider (graph_in graph.entry.row.now) layout.blocks layout.budget area.old area.new }
    ensures settled { Settled (graph_in graph.entry.row.now) layout.blocks layout.budget area.new (layout.budget + 1) 2 }
{
    for cost in 0..layout.budget + 1 {
        weigh_cost(graph, layout, nexts, has, area, cost);
    }
}

/// Fills the area for the layout's budget. What lies behind the cells stays.
/// The masks are lent, of the successors of each block and of the blocks that have each cost; none has a block in it yet.
pub fn weigh(graph: Graph<'_>, layout: Layout, nexts: &mut [u64], has: &mut [u64], area: &mut [u8])
    requires blocks { layout.blocks ≡ blocks_in graph.row.now }
    requires ready { Ready (graph_in graph.row.now) layout.blocks layout.budget area.old }
    requires empty { Empty nexts.old × (2 * layout.blocks + 2 ≤ length nexts.old) }
    requires empty_2 { Empty has.old × (2 * layout.budget + 2 ≤ length has.old) }
    ensures { area.new ≡ filled (graph_in graph.entry.row.now) layout.blocks layout.budget area.old }
{
    list_all(graph, nexts);
    begin(graph, layout, has, area);
    weigh_costs(graph, layout, nexts, has, area);
}
