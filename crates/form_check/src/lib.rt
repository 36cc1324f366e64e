// Conditions 1 to 4 and 41 of a graph sheet, by its length and its header alone: a sheet that passes them is a view with its records and budgets.
// Rests on words, headers, budgets, graph_records; the promise is an equation with formats GraphSheet.
#![tactic(auto)]

ghost use Rattle.std.specs.Prelude.{◌≡◌, ◌||◌, ◌++◌, IfOk};
ghost use Rattle.base.specs.Checks.{refused, outside};
ghost use Rattle.base.specs.Refusals.{answer_of};
ghost use Rattle.formats.specs.Limits.{least_blocks, most_blocks, least_edges, most_edges};
ghost use Rattle.formats.specs.GraphSheet.{header_of, length_order, counts_order, size_order, budget_order};
ghost use Rattle.form_check.specs.Formed.{IsFormed};

use base::Refusal;
use budgets::claimed_budgets;
use graph_records::GraphRecords;
use headers::read_header;
use words::{LEAST_BLOCKS, LEAST_EDGES, LEAST_WORDS, MOST_BLOCKS, MOST_EDGES, is_either_outside};

/// Condition 2: the number of blocks or of edges is outside its limits.
pub fn bad_counts(blocks: usize, edges: usize) -> bool
    ensures { result ≡ (outside least_blocks most_blocks blocks || outside least_edges most_edges edges) }
{
    is_either_outside(
        LEAST_BLOCKS,
        MOST_BLOCKS,
        blocks,
        LEAST_EDGES,
        MOST_EDGES,
        edges,
    )
}

/// A graph sheet that passed 1 to 4 and 41: its header is read, and its budgets and records are there.
#[derive(Clone, Copy)]
pub struct FormedSheet<'a> {
    pub records: GraphRecords<'a>,
    pub budgets: &'a [u16],
    pub ghost formed: { IsFormed (header_of records.start records.blocks records.edges) budgets.now records.words.now },
}

impl<'a> FormedSheet<'a> {
    /// 1 to 4 and 41, in this order. A row that has its length has its budgets.
    pub fn read(words: &'a [u16]) -> Result<FormedSheet<'a>, Refusal>
        ensures answer { answer_of result ≡ refused (length_order ++ counts_order ++ size_order ++ budget_order) words.now }
        ensures words { IfOk result (λ sheet. sheet.records.words.now ≡ words.now) }
    {
        if words.len() < LEAST_WORDS {
            return Err(Refusal::TooShort);
        }
        let header = read_header(words);
        if bad_counts(header.blocks, header.edges) {
            return Err(Refusal::CountsOutside);
        }
        if words.len() != header.records + 2 * header.blocks + 2 * header.edges {
            return Err(Refusal::WrongLength);
        }
        let budgets = claimed_budgets(words)?;
        let records = GraphRecords {
            words,
            start: header.records,
            blocks: header.blocks,
            edges: header.edges,
        };
        Ok(FormedSheet { records, budgets })
    }
}
