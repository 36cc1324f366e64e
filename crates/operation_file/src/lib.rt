//! The graph sheet of an operation sheet's file, on slices: below the program, which reads the file and writes the bytes.
//! Rests on file_words, convert_operations, file_bytes, text; the bytes are specs Program `converted` of the whole file (proofs Files).
#![tactic(auto)]

ghost use Rattle.std.specs.Prelude.{◌≡◌, List, ℕ, ◌≤◌, length};
ghost use Rattle.digits.specs.Wrote.{Wrote};
ghost use Rattle.kept.specs.Held.{Held, held_as};
ghost use Rattle.operation_file.specs.Longer.{longer_file, graph_file};
ghost use Rattle.operation_file.specs.Program.{sheet_converted, converted_from, converted};

use base::Refusal;
use convert_operations::convert_operations;
use file_bytes::put_words;
use file_words::{LONGER_SHEET, words_of};
use headers::read_header;
use kept::Kept;
use text::write_refusal;
use words::{MOST_BLOCKS, MOST_BUDGETS, MOST_EDGES};

/// One word more than the longest operation sheet that 3 lets pass has: a longer file is answered by as many of its words.
pub const LONGER_OPERATIONS: usize = LONGER_SHEET + 1 + 2 * 65535;

/// The same in bytes.
pub const LONGER_FILE: usize = 2 * LONGER_OPERATIONS;

/// The most words of a graph sheet that is accepted.
pub const MOST_GRAPH: usize = 4 + MOST_BUDGETS + 2 * MOST_BLOCKS + 2 * MOST_EDGES;

/// The same in bytes.
pub const GRAPH_FILE: usize = 2 * MOST_GRAPH;

/// Writes the bytes of the graph sheet that an operation sheet says, or its refusal; answers how many.
fn write_converted(words: &[u16], out: &mut [u8]) -> usize
    requires { graph_file ≤ length out.old }
    ensures { Wrote out.old 0 (sheet_converted words.now) out.new result × (result ≤ length out.new) }
{
    let mut graph = [0u16; MOST_GRAPH];
    match convert_operations(words, &mut graph) {
        Ok(()) => {
            let header = read_header(words);
            let size = header.records + 2 * header.blocks + 2 * header.edges;
            put_words(&graph[..size], out, 0)
        }
        Err(refusal) => write_refusal(refusal.number(), out),
    }
}

/// The same of a file, from its first bytes and whether it has an odd number of them.
fn convert_file(bytes: &[u8], odd: bool, out: &mut [u8]) -> usize
    requires bytes_len_bound { length bytes.now ≤ longer_file }
    requires graph_file_in_bounds { graph_file ≤ length out.old }
    ensures { Wrote out.old 0 (converted_from bytes.now odd) out.new result × (result ≤ length out.new) }
{
    if odd {
        return write_refusal(Refusal::TooShort.number(), out);
    }
    let mut words = [0u16; LONGER_OPERATIONS];
    let count = words_of(bytes, &mut words);
    write_converted(&words[..count], out)
}

/// The same of an input, of which a row has the first bytes.
pub fn convert_kept(kept: Kept, row: &[u8], out: &mut [u8]) -> usize
    requires row_len { (length row.now ≡ longer_file) × (kept.count ≤ length row.now) }
    requires graph_file_in_bounds { graph_file ≤ length out.old }
    ensures upper_bound { result ≤ length out.new }
    ensures by_index { (xs : List ℕ) → Held xs row.now (held_as kept) → Wrote out.old 0 (converted xs) out.new result }
{
    convert_file(&row[..kept.count], kept.odd, out)
}
