// Why a line cannot be read as a call.
use crate::name::CallName;
use std::fmt;

// What is expected of a word.
#[derive(Clone, Copy, Debug, PartialEq, Eq)]
pub enum Kind {
    Name,
    Instant,
    Note,
    // No word: the line has ended.
    End,
}

// What is expected at a place of the line, whose words are counted from 1.
#[derive(Clone, Copy, Debug, PartialEq, Eq)]
pub struct Field {
    pub place: u8,
    pub kind: Kind,
}

// A word is missing, empty or another than the field expects, or the call is known and not served.
#[derive(Clone, Copy, Debug, PartialEq, Eq)]
pub enum Unreadable {
    Missing(Field),
    Empty(Field),
    Other(Field),
    NotServed(CallName),
}

impl fmt::Display for Kind {
    fn fmt<W: fmt::Write>(&self, f: &mut fmt::Formatter<W>) -> fmt::Result {
        f.write_str(match self {
            Kind::Name => "the name of a call",
            Kind::Instant => "an instant (0 to 4294967295, in digits)",
            Kind::Note => "a note (pairs of hexadecimal digits, or -)",
            Kind::End => "the end of the line",
        })
    }
}

impl fmt::Display for Field {
    fn fmt<W: fmt::Write>(&self, f: &mut fmt::Formatter<W>) -> fmt::Result {
        let Field { place, kind } = self;
        write!(f, "expected {kind} at word {place}")
    }
}

impl fmt::Display for Unreadable {
    fn fmt<W: fmt::Write>(&self, f: &mut fmt::Formatter<W>) -> fmt::Result {
        match self {
            Unreadable::Missing(field) => write!(f, "{field}, found none"),
            Unreadable::Empty(field) => write!(f, "{field}, found an empty word"),
            Unreadable::Other(field) => write!(f, "{field}, found another word"),
            Unreadable::NotServed(name) => write!(f, "{name} is not served yet"),
        }
    }
}
