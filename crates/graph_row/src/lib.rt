// A graph in one row of words: its words by number. Everything behind the checks reads a graph so, and knows no sheet.
// Rests on words; the graph that a row holds is specs GraphRow.
#![tactic(auto)]

use words::{MOST_BLOCKS, MOST_EDGES};

mod view;

pub use view::Graph;

// Room for any graph within the limits.
pub const ROW_WORDS: usize = 1 + 3 * MOST_BLOCKS + MOST_EDGES;
