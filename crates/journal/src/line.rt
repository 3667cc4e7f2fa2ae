// What a line of a journal is.
ghost use Rattle.std.specs.Prelude.{◌≡◌};
ghost use Rattle.journal.specs.Lines.{kind, bare};

#[derive(Clone, Copy, Debug, PartialEq, Eq)]
pub enum LineKind {
    Empty,
    Comment,
    Call,
}

// What the line is; it has no LF at its end.
pub fn kind_of(line: &[u8]) -> LineKind
    ensures { result ≡ kind line.now }
{
    match line.first() {
        None => LineKind::Empty,
        Some(b'#') => LineKind::Comment,
        Some(_) => LineKind::Call,
    }
}

// The line without the LF at its end, which the last line of a file may lack.
pub fn without_line_feed(line: &[u8]) -> &[u8]
    ensures { result.now ≡ bare line.now }
{
    line.strip_suffix(b"\n").unwrap_or(line)
}
