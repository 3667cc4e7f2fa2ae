// Which bytes a text may have.
ghost use Rattle.std.specs.Prelude.{◌≡◌};
ghost use Rattle.std.specs.List.{list_all};
ghost use Rattle.texts.specs.Alphabets.{allowed};

// Each has the visible bytes but '/' and '*', and perhaps one of these two.
#[derive(Clone, Copy)]
pub(super) enum Alphabet {
    Plain,
    // With '*'.
    Starred,
    // With '/'.
    Slashed,
}

impl Alphabet {
    pub(super) fn has(self, b: u8) -> bool
        ensures { result ≡ allowed self b }
    {
        let visible = b.is_ascii_graphic();
        match self {
            Alphabet::Plain => visible && b != b'/' && b != b'*',
            Alphabet::Starred => visible && b != b'/',
            Alphabet::Slashed => visible && b != b'*',
        }
    }

    // Whether each byte of the text is in the alphabet.
    pub(super) fn has_all(self, text: &[u8]) -> bool
        ensures { result ≡ list_all (allowed self) text.now }
    {
        text.iter().all(|b| self.has(*b))
    }
}
