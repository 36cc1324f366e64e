// THE RECORDS OF A GRAPH SHEET, behind its header: a view that carries that they have room, so that no reader of a word asks for it again.
// Rests on words; the definitions are formats GraphSheet. Below the public calls.
#![tactic(auto)]

ghost use Rattle.std.specs.Prelude.{◌≡◌, ◌≤◌, ◌<◌};
ghost use Rattle.formats.specs.Limits.{word_limit};
ghost use Rattle.formats.specs.GraphSheet.{header_of, Recorded, edges_at, first_word, target_word, next_word};
ghost use Rattle.formats.specs.Words.{field};

/// So many blocks, of a cost and a first edge each, and so many edges, of a target and a next edge each, from the word `start` on.
#[derive(Clone, Copy)]
pub struct GraphRecords<'a> {
    pub words: &'a [u16],
    pub start: usize,
    pub blocks: usize,
    pub edges: usize,
    pub ghost recorded: { Recorded (header_of start blocks edges) words.now },
}

impl<'a> GraphRecords<'a> {
    ghost use Rattle.graph_records.specs.Records.{header_in};

    /// The word at which the edges begin.
    pub fn edges_at(self) -> usize
        ensures { result ≡ edges_at (header_in self.entry) }
    {
        self.start + 2 * self.blocks
    }

    /// The cost of a block.
    pub fn cost(self, block: usize) -> usize
        requires { (1 ≤ block) × (block ≤ self.blocks) }
        ensures { (result ≡ field self.entry.words.now self.entry.start 2 block 0) × (result < word_limit) }
    {
        self.words[self.start + 2 * (block - 1)] as usize
    }

    /// The first edge of a block, 0 for none. The stored word as it is, for the chain that it begins takes it so.
    pub fn first_edge(self, block: usize) -> usize
        requires { (1 ≤ block) × (block ≤ self.blocks) }
        ensures { (result ≡ first_word (header_in self.entry) self.entry.words.now block) × (result < word_limit) }
    {
        self.words[self.start + 2 * (block - 1) + 1] as usize
    }

    /// The target of an edge.
    pub fn target(self, edge: usize) -> usize
        requires { (1 ≤ edge) × (edge ≤ self.edges) }
        ensures { (result ≡ target_word (header_in self.entry) self.entry.words.now edge) × (result < word_limit) }
    {
        self.words[self.start + 2 * self.blocks + 2 * (edge - 1)] as usize
    }

    /// The edge behind an edge in its chain, 0 for none.
    pub fn next_edge(self, edge: usize) -> usize
        requires { (1 ≤ edge) × (edge ≤ self.edges) }
        ensures { (result ≡ next_word (header_in self.entry) self.entry.words.now edge) × (result < word_limit) }
    {
        self.words[self.start + 2 * self.blocks + 2 * (edge - 1) + 1] as usize
    }
}
