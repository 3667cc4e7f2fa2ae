// The readers of the words of a call, one for each kind of word.
ghost use Rattle.std.specs.Prelude.{length};
ghost use Rattle.journal.specs.Fields.{field_at, Took, TookWord, Named, Ended};
ghost use Rattle.journal.specs.declared.unreadable.Kind.TheVariants.{Name, Instant, Note, End};
ghost use Rattle.journal.specs.Notes.{Noted};
ghost use Rattle.journal.specs.Numbers.{Decimal};
ghost use Rattle.journal.specs.Words.{left, Within};

use crate::name::CallName;
use crate::note;
use crate::number::decimal;
use crate::unreadable::{Field, Kind, Unreadable};
use crate::words::Words;

// The name of the call, which is the first word.
pub fn name(words: &mut Words<'_>) -> Result<CallName, Unreadable>
    ensures { Took Named (field_at 1 Name) (left words.old) result (left words.new) }
{
    let field = Field {
        place: 1,
        kind: Kind::Name,
    };
    let word = next_word(words, field)?;
    CallName::try_from(word).map_err(|_| Unreadable::Other(field))
}

// An instant, not yet held to the years that the calendar has.
pub fn instant(words: &mut Words<'_>, place: u8) -> Result<u32, Unreadable>
    ensures { Took Decimal (field_at place Instant) (left words.old) result (left words.new) }
{
    let field = Field {
        place,
        kind: Kind::Instant,
    };
    let word = next_word(words, field)?;
    decimal(word).ok_or(Unreadable::Other(field))
}

// A note, of which the space takes the bytes.
pub(crate) fn note<'a>(
    words: &mut Words<'_>,
    place: u8,
    space: &'a mut [u8],
) -> Result<&'a [u8], Unreadable>
    requires { Within (length space.old) (left words.old) }
    ensures { Took Noted (field_at place Note) (left words.old) result (left words.new) }
{
    let field = Field {
        place,
        kind: Kind::Note,
    };
    let word = next_word(words, field)?;
    note::note(word, space).ok_or(Unreadable::Other(field))
}

// No word is left, so that `place` is past the last.
pub fn end(words: &mut Words<'_>, place: u8) -> Result<(), Unreadable>
    ensures { Ended (field_at place End) (left words.old) result }
{
    let field = Field {
        place,
        kind: Kind::End,
    };
    match words.next() {
        None => Ok(()),
        Some([]) => Err(Unreadable::Empty(field)),
        Some(_) => Err(Unreadable::Other(field)),
    }
}

// The next word, which may not be empty.
fn next_word<'a>(words: &mut Words<'a>, field: Field) -> Result<&'a [u8], Unreadable>
    ensures { TookWord field (left words.old) result (left words.new) }
{
    match words.next() {
        None => Err(Unreadable::Missing(field)),
        Some([]) => Err(Unreadable::Empty(field)),
        Some(word) => Ok(word),
    }
}
