// Public calls: the edge words of one copy of a bounded sheet, handed back as a part of the caller's slice, and their place.
// Rests on words, chains, bounded_records, bounded_check; the promises are equations with formats Rule11.
#![tactic(auto)]

ghost use Rattle.std.specs.Prelude.{◌≡◌, ◌≤◌, IfOk, IfErr};
ghost use Rattle.base.specs.Refusals.{answer_of};
ghost use Rattle.formats.specs.Rule11.{hand_out};
ghost use Rattle.bounded_records.specs.Records.{heading_in};
ghost use Rattle.reader.specs.Placed.{Placed, PlacedRecords, words_on};

use base::Refusal;
use bounded_check::RuledSheet;
use chains::chain_length;
use words::is_outside;

/// Where words stand in a row: the first, counted from 0, and how many there are.
#[derive(Clone, Copy, Debug, PartialEq, Eq)]
pub struct Place {
    pub start: usize,
    pub size: usize,
}

/// The place of the edge records of a copy.
fn place_of(sheet: RuledSheet<'_>, copy: usize) -> Place
    requires { (1 ≤ copy) × (copy ≤ sheet.records.copies) }
    ensures { PlacedRecords (heading_in sheet.entry.records) sheet.entry.records.words.now copy result.start result.size }
{
    let records = sheet.records;
    let base = records.edges_at();
    let first = records.first_edge(copy);
    if first == 0 {
        return Place {
            start: base,
            size: 0,
        };
    }
    let count = chain_length(records.words, base, records.edges, first);
    Place {
        start: base + 2 * (first - 1),
        size: 2 * count,
    }
}

/// The place of the edge words of a copy, empty for the exit. 11 where the sheet breaks rule 11, 33 for a copy outside 1 to C: then no words are
/// handed out, and their place is the sheet's start.
pub fn edge_words_place(words: &[u16], copy: u16) -> Result<Place, Refusal>
    ensures answer { answer_of result ≡ (hand_out words.now copy).answer }
    ensures placed { IfOk result (λ place. Placed words.now place.start place.size (hand_out words.now copy).start (hand_out words.now copy).words) }
    ensures refused { IfErr result (λ _. Placed words.now 0 0 (hand_out words.now copy).start (hand_out words.now copy).words) }
{
    let sheet = RuledSheet::check(words)?;
    let copy = copy as usize;
    if is_outside(1, sheet.records.copies, copy) {
        return Err(Refusal::Outside);
    }
    Ok(place_of(sheet, copy))
}

/// The edge records of a copy, a part of the caller's sheet, empty for the exit. 11, then 33.
/// Two copies may have equal words, so the part's place is promised too: the word of the sheet with which it begins.
pub fn edge_part<'a>(words: &'a [u16], copy: u16) -> Result<&'a [u16], Refusal>
    ensures answer { answer_of result ≡ (hand_out words.now copy).answer }
    ensures part { IfOk result (λ part. part.now ≡ (hand_out words.now copy).words) }
    ensures place { IfOk result (λ part. part.ref_ptr ≡ words_on words.entry.ref_ptr (hand_out words.now copy).start) }
{
    let place = edge_words_place(words, copy)?;
    Ok(&words[place.start..place.start + place.size])
}

/// The same with the answer, 0 where nothing is turned back, beside the part, which is then empty and at the sheet's start.
pub fn edge_words<'a>(words: &'a [u16], copy: u16, answer: &mut u16) -> &'a [u16]
    ensures answer_after { answer.new ≡ (hand_out words.now copy).answer }
    ensures result_value { result.now ≡ (hand_out words.now copy).words }
    ensures ref_ptr_value { result.ref_ptr ≡ words_on words.entry.ref_ptr (hand_out words.now copy).start }
{
    match edge_part(words, copy) {
        Ok(part) => {
            *answer = 0;
            part
        }
        Err(refusal) => {
            *answer = refusal.number();
            &words[..0]
        }
    }
}
