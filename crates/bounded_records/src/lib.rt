// THE RECORDS OF A BOUNDED SHEET, behind its header: a view that carries that they have room, so that no reader of a word asks for it again.
// Rests on words; the definitions are formats BoundedSheet. Below the public calls.
#![tactic(auto)]

ghost use Rattle.std.specs.Prelude.{◌≡◌, ◌≤◌, ◌<◌};
ghost use Rattle.formats.specs.Limits.{word_limit};
ghost use Rattle.formats.specs.BoundedSheet.{heading_of, edges_at, block_at, low_at, first_at, target_at, next_at};
ghost use Rattle.formats.specs.Rule11.{Formed};

/// So many copies, of a block, a low and a first edge each, and so many edges, of a target and a next edge each, from the word `start` on;
/// the lows go by the largest budget. A view beside `GraphRecords`, and no instance of one type: its records have other words, and it carries
/// another fact, `Formed` for `Recorded`.
#[derive(Clone, Copy)]
pub struct BoundedRecords<'a> {
    pub words: &'a [u16],
    pub start: usize,
    pub copies: usize,
    pub edges: usize,
    pub largest: usize,
    pub ghost formed: { Formed (heading_of start copies edges largest) words.now },
}

impl<'a> BoundedRecords<'a> {
    ghost use Rattle.bounded_records.specs.Records.{heading_in};

    /// The word at which the edges begin.
    pub fn edges_at(self) -> usize
        ensures { result ≡ edges_at (heading_in self.entry) }
    {
        self.start + 3 * self.copies
    }

    /// The block of a copy.
    pub fn block(self, copy: usize) -> usize
        requires { (1 ≤ copy) × (copy ≤ self.copies) }
        ensures { (result ≡ block_at (heading_in self.entry) self.entry.words.now copy) × (result < word_limit) }
    {
        self.words[self.start + 3 * (copy - 1)] as usize
    }

    /// The low of a copy.
    pub fn low(self, copy: usize) -> usize
        requires { (1 ≤ copy) × (copy ≤ self.copies) }
        ensures { (result ≡ low_at (heading_in self.entry) self.entry.words.now copy) × (result < word_limit) }
    {
        self.words[self.start + 3 * (copy - 1) + 1] as usize
    }

    /// The first edge of a copy, 0 for none. The stored word as it is, for the chain that it begins takes it so.
    pub fn first_edge(self, copy: usize) -> usize
        requires { (1 ≤ copy) × (copy ≤ self.copies) }
        ensures { (result ≡ first_at (heading_in self.entry) self.entry.words.now copy) × (result < word_limit) }
    {
        self.words[self.start + 3 * (copy - 1) + 2] as usize
    }

    /// The target of an edge, 0 for the exception exit.
    pub fn target(self, edge: usize) -> usize
        requires { (1 ≤ edge) × (edge ≤ self.edges) }
        ensures { (result ≡ target_at (heading_in self.entry) self.entry.words.now edge) × (result < word_limit) }
    {
        self.words[self.start + 3 * self.copies + 2 * (edge - 1)] as usize
    }

    /// The edge behind an edge in its chain, 0 for none.
    pub fn next_edge(self, edge: usize) -> usize
        requires { (1 ≤ edge) × (edge ≤ self.edges) }
        ensures { (result ≡ next_at (heading_in self.entry) self.entry.words.now edge) × (result < word_limit) }
    {
        self.words[self.start + 3 * self.copies + 2 * (edge - 1) + 1] as usize
    }
}
