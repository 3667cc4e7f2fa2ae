// The operations that a request may ask for.
ghost use Rattle.std.specs.Prelude.{◌≡◌, ◌<◌, Some};
ghost use Rattle.notes.specs.Operations.{operation_number, has_operation};
ghost use Rattle.notes.specs.Written.{operation_name};

use super::set::Set;
use std::fmt;

#[derive(Clone, Copy, PartialEq, Eq, Debug)]
pub enum Operation {
    Create,
    Retrieve,
    Update,
    Delete,
    Discover,
    Notify,
}

impl Operation {
    // In the order of their numbers.
    pub(super) const ALL: [Operation; 6] = [
        Operation::Create,
        Operation::Retrieve,
        Operation::Update,
        Operation::Delete,
        Operation::Discover,
        Operation::Notify,
    ];

    // The place of the operation in a set of operations. A method, since callers have its bound from it too.
    pub fn number(self) -> u8
        ensures value { result ≡ operation_number self }
        ensures bound { result < 6 }
    {
        match self {
            Operation::Create => 0,
            Operation::Retrieve => 1,
            Operation::Update => 2,
            Operation::Delete => 3,
            Operation::Discover => 4,
            Operation::Notify => 5,
        }
    }

    // Whether the operation is in the set.
    pub(super) fn is_in(self, operations: &Set<u32, 6>) -> bool
        ensures { result ≡ has_operation operations.now.bits self }
    {
        operations.has(self.number())
    }
}

impl fmt::Display for Operation {
    ghost output = { λ operation. Some (operation_name operation) };

    fn fmt<W: fmt::Write>(&self, f: &mut fmt::Formatter<W>) -> fmt::Result {
        f.write_str(match self {
            Operation::Create => "create",
            Operation::Retrieve => "retrieve",
            Operation::Update => "update",
            Operation::Delete => "delete",
            Operation::Discover => "discover",
            Operation::Notify => "notify",
        })
    }
}
