// The names of the calls.
ghost use Rattle.std.specs.Prelude.{◌≡◌, Some};
ghost use Rattle.journal.specs.Names.{spelling, NameOf};

use std::fmt;

#[derive(Clone, Copy, Debug, PartialEq, Eq)]
pub enum CallName {
    Open,
    Add,
    Withdraw,
    Link,
    Unlink,
    Member,
    Present,
    Clear,
    Leave,
    Readmit,
    Judge,
    Role,
    Request,
    Read,
    Write,
    Cover,
    When,
}

// A word is compared with one name after the other: those of calls that come often stand first.
const ALL: [CallName; 17] = [
    CallName::When,
    CallName::Read,
    CallName::Write,
    CallName::Judge,
    CallName::Request,
    CallName::Add,
    CallName::Withdraw,
    CallName::Link,
    CallName::Unlink,
    CallName::Present,
    CallName::Clear,
    CallName::Leave,
    CallName::Readmit,
    CallName::Member,
    CallName::Role,
    CallName::Cover,
    CallName::Open,
];

// A word that is the name of no call.
#[derive(Clone, Copy, Debug, PartialEq, Eq)]
pub struct UnknownName;

impl TryFrom<&[u8]> for CallName {
    type Error = UnknownName;

    ghost try_from_gives = { λ word r. NameOf word.now r };

    fn try_from(word: &[u8]) -> Result<CallName, UnknownName> {
        ALL.iter()
            .copied()
            .find(|name| name.as_str().as_bytes() == word)
            .ok_or(UnknownName)
    }
}

impl CallName {
    // The spellings stand here alone.
    fn as_str(self) -> &'static str
        ensures { result.now ≡ spelling self }
    {
        match self {
            CallName::Open => "open",
            CallName::Add => "add",
            CallName::Withdraw => "withdraw",
            CallName::Link => "link",
            CallName::Unlink => "unlink",
            CallName::Member => "member",
            CallName::Present => "present",
            CallName::Clear => "clear",
            CallName::Leave => "leave",
            CallName::Readmit => "readmit",
            CallName::Judge => "judge",
            CallName::Role => "role",
            CallName::Request => "request",
            CallName::Read => "read",
            CallName::Write => "write",
            CallName::Cover => "cover",
            CallName::When => "when",
        }
    }
}

impl fmt::Display for CallName {
    ghost output = { λ name. Some (spelling name) };

    fn fmt<W: fmt::Write>(&self, f: &mut fmt::Formatter<W>) -> fmt::Result {
        f.write_str(self.as_str())
    }
}
