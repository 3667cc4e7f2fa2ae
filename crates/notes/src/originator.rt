// Originator entries: a kind, and where its text stands in the note.
ghost use Rattle.std.specs.Prelude.{◌≡◌, ◌+◌, ◌/◌, ◌%◌, ◌<◌, length, IfOk, OnOk};
ghost use Rattle.bits.specs.Reader.{bytes, source, place, Part};
ghost use Rattle.bits.specs.Writer.{Wrote};
ghost use Rattle.notes.specs.Originators.{OriginatorValue, originator_of, originator_form, originator_reads, kind_reads, length_reads, text_reads, text_lawful, code as code_of, part, entry_kind, entry_text, kind_entry};
ghost use Rattle.notes.specs.Told.{Read, ReadAs, Fits};

use super::fault::NoteFault;
use super::lists::Item;
use super::writing::{put, put_bytes};
use bits::{BitReader, BitWriter};
use texts::{is_domain, is_pattern, is_standing};

mod words;

#[derive(Clone, Copy, Default, PartialEq, Eq, Debug)]
pub enum EntryKind {
    #[default]
    All,
    Pattern,
    Domain,
    Standing,
}

// The place is the number of the text's first byte in the note. A slice of the note would tie a rule to a borrowed note, and
// a rule keeps its own. One place and length beside a kind would be no plainer: `all` would have a place that means nothing.
#[derive(Clone, Copy, Default, PartialEq, Eq, Debug)]
enum Entry {
    #[default]
    All,
    Pattern { place: usize, len: usize },
    Domain { place: usize, len: usize },
    Standing { place: usize, len: usize },
}

#[derive(Clone, Copy, Default)]
pub struct Originator {
    entry: Entry,
}

// The number of a kind in its field.
impl From<EntryKind> for u128 {
    ghost from_gives = { λ kind n. n ≡ code_of kind };

    fn from(kind: EntryKind) -> u128 {
        match kind {
            EntryKind::All => 0,
            EntryKind::Pattern => 1,
            EntryKind::Domain => 2,
            EntryKind::Standing => 3,
        }
    }
}

impl EntryKind {
    fn read(r: &mut BitReader) -> Result<EntryKind, NoteFault>
        ensures { Read kind_reads r.old result r.new }
    {
        // Each number of the field is a kind, so that nothing can fail.
        match r.take(2)? {
            0 => Ok(EntryKind::All),
            1 => Ok(EntryKind::Pattern),
            2 => Ok(EntryKind::Domain),
            _ => Ok(EntryKind::Standing),
        }
    }

    // The length of the text.
    fn read_length(self, r: &mut BitReader) -> Result<usize, NoteFault>
        ensures { Read (length_reads self) r.old result r.new }
    {
        let place = r.place();
        let n = r.take(6)?;
        let fits = match self {
            EntryKind::All => n == 0,
            EntryKind::Pattern | EntryKind::Domain | EntryKind::Standing => 1 <= n && n <= 40,
        };
        if !fits {
            return Err(NoteFault::Limit { place });
        }
        Ok(n as usize)
    }

    fn keeps(self, text: &[u8]) -> bool
        ensures { result ≡ text_lawful self text.now }
    {
        match self {
            EntryKind::All => true,
            EntryKind::Pattern => is_pattern(text),
            EntryKind::Domain => is_domain(text),
            EntryKind::Standing => is_standing(text),
        }
    }

    // The text, as a part of the note.
    fn read_text<'a>(self, r: &mut BitReader<'a>, len: usize) -> Result<&'a [u8], NoteFault>
        requires { place r.old % 8 ≡ 0 }
        ensures read { ReadAs (λ t. t.now) (text_reads self len) r.old result r.new }
        ensures part { IfOk result (λ t. Part (bytes r.old) (place r.old) len t.now) }
    {
        let place = r.place();
        let text = r.part(len)?;
        if !self.keeps(text) {
            return Err(NoteFault::Text { place });
        }
        Ok(text)
    }
}

impl Entry {
    // An entry of this kind, with its text at a place of the note.
    fn new(kind: EntryKind, place: usize, len: usize) -> Entry
        ensures { result ≡ kind_entry kind place len }
    {
        match kind {
            EntryKind::All => Entry::All,
            EntryKind::Pattern => Entry::Pattern { place, len },
            EntryKind::Domain => Entry::Domain { place, len },
            EntryKind::Standing => Entry::Standing { place, len },
        }
    }

    fn kind(self) -> EntryKind
        ensures { result ≡ entry_kind self }
    {
        match self {
            Entry::All => EntryKind::All,
            Entry::Pattern { .. } => EntryKind::Pattern,
            Entry::Domain { .. } => EntryKind::Domain,
            Entry::Standing { .. } => EntryKind::Standing,
        }
    }

    // The text, as a part of the note.
    fn text(self, note: &[u8]) -> &[u8]
        ensures { result.now ≡ entry_text note.now self }
    {
        match self {
            Entry::All => &[],
            Entry::Pattern { place, len }
            | Entry::Domain { place, len }
            | Entry::Standing { place, len } => part_of(note, place, len),
        }
    }
}

// At most `len` bytes from `place` on, as far as the note has them.
fn part_of(note: &[u8], place: usize, len: usize) -> &[u8]
    ensures { result.now ≡ part note.now place len }
{
    let start = place.min(note.len());
    let end = start + len.min(note.len() - start);
    &note[start..end]
}

impl Originator {
    pub fn kind(&self) -> EntryKind
        ensures { result ≡ entry_kind self.now.entry }
    {
        self.entry.kind()
    }

    // The text, as a part of the note.
    pub fn text<'a>(&self, note: &'a [u8]) -> &'a [u8]
        ensures { result.now ≡ (originator_of note.now self.now).text }
    {
        self.entry.text(note)
    }
}

impl Item for Originator {
    ghost value = { OriginatorValue };

    ghost meant = { originator_of };

    ghost form = { originator_form };

    ghost reads = { originator_reads };

    // The text stands in whole bytes, so that the entry begins with one.
    ghost begins = { λ p. p % 8 ≡ 0 };

    fn read_item(r: &mut BitReader) -> Result<Originator, NoteFault> {
        let kind = EntryKind::read(r)?;
        let len = kind.read_length(r)?;
        let place = (r.place() / 8) as usize;
        kind.read_text(r, len)?;
        Ok(Originator {
            entry: Entry::new(kind, place, len),
        })
    }

    #[tactic(auto, using(crate::proofs::Room::room))]
    fn write_item(&self, note: &[u8], w: &mut BitWriter) {
        let text = self.text(note);
        put(w, 2, u128::from(self.kind()));
        put(w, 6, text.len() as u128);
        put_bytes(w, text);
    }
}
