ghost use Rattle.std.specs.Prelude.{◌≡◌, ◌≤◌, ◌<◌};
ghost use Rattle.base.specs.Cells.{cell_of, cell_count};
ghost use Rattle.formats.specs.Limits.{most_blocks, most_budget, most_cells};

/// Where the cells of so many blocks and a budget lie: one for each block 1 to `blocks` and each number 0 to `budget`.
#[derive(Clone, Copy, Debug, PartialEq, Eq)]
pub struct Layout {
    pub blocks: usize,
    pub budget: usize,
    pub ghost small: { (blocks ≤ most_blocks) × (budget ≤ most_budget) },
}

impl Layout {
    /// The place of a block's number, below `cells()`.
    #[tactic(auto, unfolding(base::specs::Cells::cell_of))]
    pub fn cell(self, block: usize, number: usize) -> usize
        requires { (1 ≤ block) × (block ≤ self.blocks) × (number ≤ self.budget) }
        ensures value { result ≡ cell_of self.budget block number }
        ensures inside { result < cell_count self.blocks self.budget }
    {
        (block - 1) * (self.budget + 1) + number
    }

    /// How many cells there are.
    #[tactic(auto, unfolding(base::specs::Cells::cell_count))]
    pub fn cells(self) -> usize
        ensures value { result ≡ cell_count self.blocks self.budget }
        ensures limit { result ≤ most_cells }
    {
        self.blocks * (self.budget + 1)
    }
}
