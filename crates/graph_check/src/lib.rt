// A public call on a graph sheet: its conditions 1 to 8 in order, with 41 behind 4; and with the handler's cost, which brings 43 behind 41. A
// sheet that passes them is a view that carries it, so that nothing behind asks for it again.
// Rests on words, chains, budgets, graph_records, form_check, edge_check; the promises are equations with formats GraphSheet.
#![tactic(auto)]

ghost use Rattle.std.specs.Prelude.{◌≡◌, ◌≤◌, length, IfOk};
ghost use Rattle.base.specs.Checks.{refused};
ghost use Rattle.base.specs.Refusals.{answer_of};
ghost use Rattle.formats.specs.Limits.{most_edges};
ghost use Rattle.formats.specs.GraphSheet.{header_of, cost_fits, bad_costs, successors, Sound};
ghost use Rattle.formats.specs.GraphSheet.{sheet_refusal, handled_refusal};
ghost use Rattle.chains.specs.Rest.{rest};
ghost use Rattle.graph_records.specs.Records.{header_in};
ghost use Rattle.graph_check.specs.Headers.{edge_stage, IsSound};

use base::Refusal;
use budgets::bad_handler;
use chains::Chain;
use edge_check::{has_bad_chain, has_bad_target};
use form_check::FormedSheet;
use graph_records::GraphRecords;

/// A graph sheet that passed all its conditions: its header is read, its budgets are 1 to 4 that rise, and its records hold a graph.
#[derive(Clone, Copy)]
pub struct SoundSheet<'a> {
    pub records: GraphRecords<'a>,
    pub budgets: &'a [u16],
    pub ghost sound: { IsSound (header_of records.start records.blocks records.edges) budgets.now records.words.now },
}

// Blocks 1 and 2 cost 0, every other block more.
fn cost_fits(block: usize, cost: usize) -> bool
    ensures { result ≡ cost_fits block cost }
{
    if block < 3 {
        return cost == 0;
    }
    0 < cost
}

/// Condition 5: a block whose cost does not fit.
pub fn has_bad_cost(records: GraphRecords<'_>) -> bool
    ensures { result ≡ bad_costs (header_in records.entry) records.entry.words.now }
{
    for block in 1..records.blocks + 1 {
        let cost = records.cost(block);
        if !cost_fits(block, cost) {
            return true;
        }
    }
    false
}

/// Conditions 6 to 8 of a sheet whose records are there.
pub fn check_edges(records: GraphRecords<'_>) -> Result<(), Refusal>
    ensures { answer_of result ≡ refused (edge_stage (header_in records.entry)) records.entry.words.now }
{
    if has_bad_target(records) {
        return Err(Refusal::BadTarget);
    }
    if has_bad_chain(records) {
        return Err(Refusal::BadChains);
    }
    if records.first_edge(2) != 0 {
        return Err(Refusal::ExitChain);
    }
    Ok(())
}

/// The successors of a block of records that hold a graph, in order.
pub fn successors_in<'a>(records: GraphRecords<'a>, block: usize) -> Chain<'a>
    requires sound { Sound (header_in records) records.words.now }
    requires block { (1 ≤ block) × (block ≤ records.blocks) }
    ensures value { rest result ≡ successors (header_in records.entry) records.entry.words.now block }
    ensures few { length (rest result) ≤ most_edges }
{
    let first = records.first_edge(block);
    Chain::new(
        records.words,
        records.start + 2 * records.blocks,
        records.edges,
        first,
    )
}

impl<'a> SoundSheet<'a> {
    /// The first of the conditions 1 to 4, 41, 43 of the handler's cost, and 5 to 8 that holds; else the sheet.
    pub fn check(words: &'a [u16], handler: u16) -> Result<SoundSheet<'a>, Refusal>
        ensures answer { answer_of result ≡ handled_refusal words.now handler }
        ensures words { IfOk result (λ sheet. sheet.records.words.now ≡ words.now) }
    {
        let formed = FormedSheet::read(words)?;
        if bad_handler(words, handler) {
            return Err(Refusal::DearHandler);
        }
        if has_bad_cost(formed.records) {
            return Err(Refusal::BadCost);
        }
        check_edges(formed.records)?;
        Ok(SoundSheet {
            records: formed.records,
            budgets: formed.budgets,
        })
    }

    /// The successors of a block, in order.
    pub fn successors(self, block: usize) -> Chain<'a>
        requires { (1 ≤ block) × (block ≤ self.records.blocks) }
        ensures value { rest result ≡ successors (header_in self.entry.records) self.entry.records.words.now block }
        ensures few { length (rest result) ≤ most_edges }
    {
        successors_in(self.records, block)
    }
}

/// The first of the conditions 1 to 4, 41 and 5 to 8 that holds, else the sheet: no budget is below 0.
pub fn check_graph(words: &[u16]) -> Result<SoundSheet<'_>, Refusal>
    ensures answer { answer_of result ≡ sheet_refusal words.now }
    ensures words { IfOk result (λ sheet. sheet.records.words.now ≡ words.now) }
{
    SoundSheet::check(words, 0)
}
