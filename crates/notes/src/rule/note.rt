// Rules and their notes.
ghost use Rattle.std.specs.Prelude.{◌≡◌, ◌<◌, ◌≤◌, true, false, length, take, Ok, Err, MatchOption, MatchResult, slice_index_or};
ghost use Rattle.bits.specs.Reader.{bytes, source, place};
ghost use Rattle.notes.specs.Faults.{report as report_of, broken};
ghost use Rattle.notes.specs.Notes.{rule_value, rule_note, TextOf, NoText};
ghost use Rattle.texts.specs.Few.{listed};
ghost use Rattle.notes.specs.Originators.{originator_of};
ghost use Rattle.notes.specs.declared.originator.Originator.{Originator as OriginatorRecord};
ghost use Rattle.notes.specs.Rules.{padded, note_reads, rule_of};

use super::super::fault::NoteFault;
use super::{PlainRule, Rule, RuleParts};
use bits::BitReader;
use texts::Few;

// Nothing follows but zero bits up to the end of a byte.
fn read_padding(r: &mut BitReader) -> Result<(), NoteFault>
    ensures { MatchResult result (λ _. padded (source r.old) (place r.old) ≡ true) (λ e. (padded (source r.old) (place r.old) ≡ false) × (report_of e ≡ broken 7 (place r.old))) }
{
    let place = r.place();
    let left = r.left();
    if left >= 8 {
        return Err(NoteFault::Excess { place });
    }
    let rest = r.take(left as usize)?;
    if rest != 0 {
        return Err(NoteFault::Excess { place });
    }
    Ok(())
}

// The parts of the rule of a note; its texts stay where they are.
fn read_parts(note: &[u8]) -> Result<RuleParts, NoteFault>
    ensures { MatchResult result (λ p. note_reads note.now ≡ Ok (rule_of note.now p)) (λ e. note_reads note.now ≡ Err (report_of e)) }
{
    let mut r = BitReader::new(note);
    let parts = RuleParts::read(&mut r)?;
    read_padding(&mut r)?;
    Ok(parts)
}

impl Rule {
    // The rule of a note.
    pub fn read(note: &[u8]) -> Result<Rule, NoteFault>
        ensures { MatchResult result (λ x. (rule_note x ≡ note.now) × (note_reads note.now ≡ Ok (rule_value x))) (λ e. note_reads note.now ≡ Err (report_of e)) }
    {
        let parts = read_parts(note)?;
        // No note of a rule is longer.
        let note = Few::of(note).unwrap();
        Ok(Rule {
            plain: PlainRule { note, parts },
        })
    }

    // The note that the rule was read from.
    pub fn note(&self) -> &[u8]
        ensures { result.now ≡ rule_note self.now }
    {
        self.plain.note()
    }
}

impl RuleParts {
    // The text of the originator `i`.
    fn text_at<'a>(&self, note: &'a [u8], i: usize) -> Option<&'a [u8]>
        ensures { MatchOption result (length (listed self.now.originators) ≤ i) (λ t. (i < length (listed self.now.originators)) × ((o : OriginatorRecord) → (originator_of note.now (slice_index_or (listed self.now.originators) i o)).text ≡ t.now)) }
    {
        self.originators().get(i).map(|o| o.text(note))
    }
}

// The text of the originator `i`, handed out as a part of the caller's note; a text of `all` is empty.
pub fn originator_text(note: &[u8], i: usize) -> Result<Option<&[u8]>, NoteFault>
    ensures { MatchResult result (λ found. MatchOption found (NoText note.now i) (λ t. TextOf note.now i t.now)) (λ e. note_reads note.now ≡ Err (report_of e)) }
{
    let parts = read_parts(note)?;
    Ok(parts.text_at(note, i))
}
