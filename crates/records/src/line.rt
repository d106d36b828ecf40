// A line is read as the record whose text it is, or refused because no record has that text.
ghost use Rattle.std.specs.Prelude.{◌≡◌, ℕ, List, decimal, MatchResult, ◌≢◌};
ghost use Rattle.text.specs.Fields.{Small, commas};
ghost use Rattle.records.specs.Lines.{Deed, IsActionList, ProperDeed, deed_text, Line, Proper, word as word_of, fields as fields_of, text as text_of};
ghost use Rattle.records.specs.Records.{ActSays, Says};
ghost use Rattle.records.specs.Tabs.{◌·◌};

use crate::fault::RecordFault;
use crate::fields::{name_field, number_field, set, set_field};
use crate::record::{Act, Edit, Record, Side};
use crate::word::Word;
use text::{FieldFault, cut, name, number, numbers};

fn act(bytes: &[u8]) -> Result<Act<'_>, FieldFault>
    ensures { MatchResult result
        (λ a. (d : Deed) × ProperDeed d × (bytes.now ≡ deed_text d) × ActSays a d)
        (λ _. (d : Deed) → ProperDeed d → bytes.now ≢ deed_text d) }
{
    let (name, rest) = name_field(bytes)?;
    let (price, rest) = number_field(rest)?;
    let (needs, rest) = set_field(rest)?;
    let (adds, rest) = set_field(rest)?;
    let deletes = set(rest)?;
    Ok(Act {
        name,
        price,
        needs,
        adds,
        deletes,
    })
}

fn pair(bytes: &[u8]) -> Result<(u32, u32), FieldFault>
    ensures { MatchResult result
        (λ p. Small p.0 × Small p.1 × (bytes.now ≡ decimal p.0 · decimal p.1))
        (λ _. (a b : ℕ) → Small a → Small b → bytes.now ≡ decimal a · decimal b → ⊥) }
{
    let (first, rest) = number_field(bytes)?;
    Ok((first, number(rest)?))
}

fn offer(bytes: &[u8]) -> Result<(u32, u32, &[u8]), FieldFault>
    ensures { MatchResult result
        (λ p. Small p.0 × Small p.1 × ((list : List ℕ) × IsActionList list × (p.2.now ≡ commas list) × (bytes.now ≡ decimal p.0 · decimal p.1 · commas list)))
        (λ _. (a b : ℕ) (list : List ℕ) → Small a → Small b → IsActionList list → bytes.now ≡ decimal a · decimal b · commas list → ⊥) }
{
    let (first, rest) = number_field(bytes)?;
    let (last, rest) = number_field(rest)?;
    Ok((first, last, numbers(rest, false)?))
}

// The record of a line that begins with `word`, by the fields behind it.
fn record_of(word: Word, fields: &[u8]) -> Result<Record<'_>, FieldFault>
    ensures { MatchResult result
        (λ x. (l : Line) × Proper l × (word_of l ≡ word) × (fields.now ≡ fields_of l) × Says x l)
        (λ _. (l : Line) → Proper l → word_of l ≡ word → fields.now ≢ fields_of l) }
{
    match word {
        Word::Fact => Ok(Record::Fact(name(fields)?)),
        Word::Act => Ok(Record::Act(act(fields)?)),
        Word::Start => Ok(Record::Set(Side::Start, set(fields)?)),
        Word::Goal => Ok(Record::Set(Side::Goal, set(fields)?)),
        Word::Step => Ok(Record::Step(number(fields)?)),
        Word::Swap => Ok(Record::Edit(Edit::Swap(number(fields)?))),
        // Three arms read a pair, here and below: each names another variant, and a closure for it would be no shorter.
        Word::Group => {
            let (first, last) = pair(fields)?;
            Ok(Record::Edit(Edit::Group(first, last)))
        }
        Word::Ungroup => {
            let (first, last) = pair(fields)?;
            Ok(Record::Edit(Edit::Ungroup(first, last)))
        }
        Word::Loosen => {
            let (before, behind) = pair(fields)?;
            Ok(Record::Edit(Edit::Loosen(before, behind)))
        }
        Word::Replace => {
            let (first, last, list) = offer(fields)?;
            Ok(Record::Edit(Edit::Replace(first, last, list)))
        }
    }
}

/// The record whose text the line is.
pub fn read_record(line: &[u8]) -> Result<Record<'_>, RecordFault>
    ensures { MatchResult result
        (λ x. (l : Line) × Proper l × (line.now ≡ text_of l) × Says x l)
        (λ _. (l : Line) → Proper l → line.now ≢ text_of l) }
{
    let (first, fields) = cut(line, b'\t').ok_or(RecordFault::Word)?;
    let word = Word::try_from(first)?;
    Ok(record_of(word, fields)?)
}
