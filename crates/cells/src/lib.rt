// The cells of the work area: the only functions that touch it, and where cells lie. Below the public calls.
// Rests on nothing; the contracts cite calls Area, "which costs an area stands for".
#![tactic(auto)]

ghost use Rattle.std.specs.Prelude.{◌≡◌, ◌≤◌, length};
ghost use Rattle.base.specs.Cells.{cell_of, is_set};
ghost use Rattle.calls.specs.Area.{area_size, HasCell, stands, with_cell, cleared};

mod layout;

pub use layout::Layout;

/// Whether the cell at a place is set.
#[tactic(auto, unfolding(base::specs::Cells::is_set))]
pub fn is_set_at(area: &[u8], place: usize) -> bool
    requires { HasCell area.now place }
    ensures { result ≡ is_set area.now place }
{
    area[place] != 0
}

/// Whether the area stands for a block's cost.
#[tactic(auto, unfolding(calls::specs::Area::stands))]
pub fn is_set(area: &[u8], layout: Layout, block: usize, cost: usize) -> bool
    requires inside { (1 ≤ block) × (block ≤ layout.blocks) × (cost ≤ layout.budget) }
    requires has_cell { HasCell area.now (cell_of layout.budget block cost) }
    ensures { result ≡ stands layout.budget area.now block cost }
{
    is_set_at(area, layout.cell(block, cost))
}

/// Sets a block's cost.
#[tactic(auto, unfolding(calls::specs::Area::with_cell))]
pub fn set_cell(area: &mut [u8], layout: Layout, block: usize, cost: usize)
    requires inside { (1 ≤ block) × (block ≤ layout.blocks) × (cost ≤ layout.budget) }
    requires has_cell { HasCell area.old (cell_of layout.budget block cost) }
    ensures { area.new ≡ with_cell area.old (cell_of layout.budget block cost) }
{
    area[layout.cell(block, cost)] = 1;
}

/// Clears all cells.
#[tactic(auto, unfolding(calls::specs::Area::cleared, calls::specs::Area::area_size))]
pub fn clear_cells(area: &mut [u8], layout: Layout)
    requires { area_size layout.blocks layout.budget ≤ length area.old }
    ensures { area.new ≡ cleared layout.blocks layout.budget area.old }
{
    area[..layout.cells()].fill(0);
}
