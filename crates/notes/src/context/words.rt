// A context in words: its lists that are not empty.
ghost use Rattle.std.specs.Prelude.{◌≡◌, ◌&&◌};
ghost use Rattle.texts.specs.Few.{listed};
ghost use Rattle.texts.specs.Lists.{none};

use super::Context;
use std::fmt;

impl Context {
    fn is_empty(&self) -> bool
        ensures { result ≡ (none (listed self.now.windows) && (none (listed self.now.blocks) && none (listed self.now.countries))) }
    {
        self.windows.as_slice().is_empty()
            && self.blocks.as_slice().is_empty()
            && self.countries.as_slice().is_empty()
    }
}

// A list with a name in front, or nothing if it is empty.
pub(crate) fn write_list<T: fmt::Display, W: fmt::Write>(
    name: &str,
    items: &[T],
    separator: &str,
    f: &mut fmt::Formatter<W>,
) -> fmt::Result {
    if items.is_empty() {
        return Ok(());
    }
    f.write_str(name)?;
    f.write_joined(items.iter(), separator)
}

impl fmt::Display for Context {
    fn fmt<W: fmt::Write>(&self, f: &mut fmt::Formatter<W>) -> fmt::Result {
        f.write_str("in context")?;
        if self.is_empty() {
            return f.write_str(" anything");
        }
        write_list(" windows ", self.windows.as_slice(), " or ", f)?;
        write_list(" blocks ", self.blocks.as_slice(), ",", f)?;
        write_list(" countries ", self.countries.as_slice(), ",", f)
    }
}
