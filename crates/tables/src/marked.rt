ghost use Rattle.std.specs.Prelude.{◌≡◌, ◌≤◌, length};
ghost use Rattle.std.specs.Iterator.{YieldsFirst, item_count};

use crate::next_marked;

/// The marked cells of a row from the index `from` on, in order.
#[derive(Clone, Copy)]
pub struct MarkedCells<'a> {
    marks: &'a [u8],
    from: usize,
    ghost inside: { from ≤ length marks.now },
}

impl<'a> MarkedCells<'a> {
    ghost use Rattle.tables.specs.Rest.{rest};
    ghost use Rattle.tables.specs.Scan.{set_from};

    /// All of them.
    pub fn new(marks: &'a [u8]) -> MarkedCells<'a>
        ensures { rest result ≡ set_from marks.now 0 (length marks.now) }
    {
        MarkedCells { marks, from: 0 }
    }
}

impl Iterator for MarkedCells<'_> {
    ghost use Rattle.tables.specs.Rest.{rest};

    type Item = usize;

    ghost next_gives = { YieldsFirst rest };

    ghost remaining = { item_count rest };

    fn next(&mut self) -> Option<usize> {
        let size = self.marks.len();
        let index = next_marked(self.marks, size, self.from);
        if index == size {
            return None;
        }
        self.from = index + 1;
        Some(index)
    }
}
