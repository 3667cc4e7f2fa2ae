// A line read as a call.
ghost use Rattle.std.specs.Prelude.{◌≤◌, length};
ghost use Rattle.journal.specs.Calls.{ReadsCall, ReadsLine};
ghost use Rattle.journal.specs.declared.unreadable.Kind.TheVariants.{Instant, Note};
ghost use Rattle.journal.specs.Fields.{Alone};
ghost use Rattle.journal.specs.Notes.{Noted};
ghost use Rattle.journal.specs.Numbers.{Decimal};
ghost use Rattle.journal.specs.Words.{left, Within};
ghost use Rattle.texts.specs.Pieces.{pieces};

use crate::field;
use crate::name::CallName;
use crate::unreadable::Unreadable;
use crate::words::Words;

#[derive(Clone, Copy)]
pub enum Call<'a> {
    When(u32),
    Read(&'a [u8]),
    Write(&'a [u8]),
}

impl<'a> Call<'a> {
    // The call that the line spells. The space takes the bytes of its note.
    pub(crate) fn read(line: &[u8], space: &'a mut [u8]) -> Result<Call<'a>, Unreadable>
        requires { length line.now ≤ length space.old }
        ensures { ReadsLine (pieces 32 line.now) result }
    {
        let mut words = Words::new(line);
        let name = field::name(&mut words)?;
        arguments(name, &mut words, space)
    }
}

// The call of this name, from the words after the name. The words are lent for the reading, and the space for as long as the
// call, so that they are no one value; a word's place is that of the call's form.
fn arguments<'a>(
    name: CallName,
    words: &mut Words<'_>,
    space: &'a mut [u8],
) -> Result<Call<'a>, Unreadable>
    requires { Within (length space.old) (left words.old) }
    ensures { ReadsCall name (left words.old) result }
{
    // Each arm returns at once: the space is lent on in some of them only, and such ways are not joined.
    match name {
        CallName::When => return Ok(Call::When(instant(words)?)),
        CallName::Read => return Ok(Call::Read(note(words, space)?)),
        CallName::Write => return Ok(Call::Write(note(words, space)?)),
        _ => Err(Unreadable::NotServed(name)),
    }
}

// The instant that is the only word left.
fn instant(words: &mut Words<'_>) -> Result<u32, Unreadable>
    ensures { Alone Decimal Instant (left words.old) result }
{
    let instant = field::instant(words, 2)?;
    field::end(words, 3)?;
    Ok(instant)
}

// The note that is the only word left.
fn note<'a>(words: &mut Words<'_>, space: &'a mut [u8]) -> Result<&'a [u8], Unreadable>
    requires { Within (length space.old) (left words.old) }
    ensures { Alone Noted Note (left words.old) result }
{
    let note = field::note(words, 2, space)?;
    field::end(words, 3)?;
    Ok(note)
}
