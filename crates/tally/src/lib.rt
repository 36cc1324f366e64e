// The totals of a report and the greatest copies to blocks, sheet by sheet.
// Rests on nothing; the promises are equations with formats Report `plus` and `most_of`.
#![tactic(auto)]

ghost use Rattle.std.specs.Prelude.{◌≡◌, suc, ◌*◌, ◌≤◌, ◌<◌};
ghost use Rattle.formats.specs.Limits.{most_blocks, most_copies, most_bounded_edges, most_sheets};
ghost use Rattle.formats.specs.Report.{no_sums, no_most, greater, most_of};
ghost use Rattle.tally.specs.Tallies.{sums_of, most_from, figured, Fits, Tallied};

/// A sheet whose fraction of copies to blocks is compared: how many sheets stand before it, and the two numbers.
#[derive(Clone, Copy, Debug, PartialEq, Eq)]
pub struct Most {
    pub before: usize,
    pub copies: usize,
    pub blocks: usize,
}

/// How many sheets were seen, the sums of their blocks, copies and edges, and the greatest, if any has a copy.
#[derive(Clone, Copy, Debug, PartialEq, Eq)]
pub struct Tally {
    pub place: usize,
    pub blocks: usize,
    pub copies: usize,
    pub edges: usize,
    pub most: Option<Most>,
}

impl Most {
    /// Whether its fraction is greater than that of the greatest so far.
    fn is_above(self, greatest: Option<Most>) -> bool
        requires small { (self.copies ≤ most_copies) × (self.blocks ≤ most_blocks) }
        requires small_greatest { ((most_from greatest).copies ≤ most_copies) × ((most_from greatest).blocks ≤ most_blocks) }
        ensures { result ≡ greater (figured self.blocks self.copies 0) (most_from greatest) }
    {
        match greatest {
            Some(most) => most.copies * self.blocks < self.copies * most.blocks,
            None => self.copies > 0,
        }
    }

    /// This sheet, or the greatest so far where that is no smaller.
    fn or(self, greatest: Option<Most>) -> Option<Most>
        requires small { (self.copies ≤ most_copies) × (self.blocks ≤ most_blocks) }
        requires small_greatest { ((most_from greatest).copies ≤ most_copies) × ((most_from greatest).blocks ≤ most_blocks) }
        ensures { most_from result ≡ most_of (most_from greatest) (suc self.before) (figured self.blocks self.copies 0) }
    {
        if self.is_above(greatest) {
            return Some(self);
        }
        greatest
    }
}

impl Tally {
    /// No sheet.
    pub fn start() -> Tally
        ensures { (result.place ≡ 0) × (sums_of result ≡ no_sums) × (most_from result.most ≡ no_most) × Fits result }
    {
        Tally {
            place: 0,
            blocks: 0,
            copies: 0,
            edges: 0,
            most: None,
        }
    }

    /// One sheet more, with so many blocks, copies and edges; 0 of each where it was refused.
    pub fn with_sheet(self, blocks: usize, copies: usize, edges: usize) -> Tally
        requires place_lt_most_sheets { (self.place < most_sheets) × Fits self }
        requires blocks_le_most_blocks { (blocks ≤ most_blocks) × (copies ≤ most_copies) × (edges ≤ most_bounded_edges) }
        ensures fits { Fits result }
        ensures tallied { Tallied (figured blocks copies edges) self result }
    {
        let sheet = Most {
            before: self.place,
            copies,
            blocks,
        };
        Tally {
            place: self.place + 1,
            blocks: self.blocks + blocks,
            copies: self.copies + copies,
            edges: self.edges + edges,
            most: sheet.or(self.most),
        }
    }
}
