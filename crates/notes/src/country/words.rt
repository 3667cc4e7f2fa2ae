// A country in words: its two letters.
use super::Country;
use std::fmt;

impl fmt::Display for Country {
    fn fmt<W: fmt::Write>(&self, f: &mut fmt::Formatter<W>) -> fmt::Result {
        f.write_char(char::from(self.first))?;
        f.write_char(char::from(self.second))
    }
}
