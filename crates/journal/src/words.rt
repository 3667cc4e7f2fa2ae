// The words of a line, which stand apart by one blank.
ghost use Rattle.std.specs.Prelude.{◌≡◌};
ghost use Rattle.journal.specs.Words.{left, Handed};
ghost use Rattle.texts.specs.Pieces.{pieces};

use texts::split_once;

const BLANK: u8 = b' ';

// The words that are still to come. A word is empty where two blanks stand together or a blank stands at
// an end of the line.
#[derive(Drop)]
pub struct Words<'a> {
    rest: Option<&'a [u8]>,
}

impl<'a> Words<'a> {
    pub fn new(line: &'a [u8]) -> Words<'a>
        ensures { left result ≡ pieces 32 line.now }
    {
        Words { rest: Some(line) }
    }

    // The next word, as a part of the line.
    pub fn next(&mut self) -> Option<&'a [u8]>
        ensures { Handed (left self.old) result (left self.new) }
    {
        let text = self.rest?;
        match split_once(text, BLANK) {
            Some((word, rest)) => {
                self.rest = Some(rest);
                Some(word)
            }
            None => {
                self.rest = None;
                Some(text)
            }
        }
    }
}
