// The parts of a rule, one by one.
ghost use Rattle.std.specs.Prelude.{◌≡◌};
ghost use Rattle.texts.specs.Few.{listed};
ghost use Rattle.notes.specs.Operations.{has_operation};
ghost use Rattle.notes.specs.Sets.{contains as contains_of};

use super::super::context::Context;
use super::super::operation::Operation;
use super::super::originator::Originator;
use super::{Rule, RuleParts, Side};

impl RuleParts {
    pub fn side(&self) -> Side
        ensures { result ≡ self.now.side }
    {
        self.side
    }

    // Whether the rule is for authenticated requests only.
    pub fn authenticated(&self) -> bool
        ensures { result ≡ self.now.authenticated }
    {
        self.authenticated
    }

    pub fn has_operation(&self, operation: Operation) -> bool
        ensures { result ≡ has_operation self.now.operations.bits operation }
    {
        operation.is_in(&self.operations)
    }

    // Whether each operation of the other rule is one of this.
    pub fn has_operations_of(&self, other: &RuleParts) -> bool
        ensures { result ≡ contains_of self.now.operations.bits other.now.operations.bits }
    {
        self.operations.contains(&other.operations)
    }

    pub fn originators(&self) -> &[Originator]
        ensures { result.now ≡ listed self.now.originators }
    {
        self.originators.as_slice()
    }

    pub fn child_types(&self) -> &[u16]
        ensures { result.now ≡ listed self.now.child_types }
    {
        self.child_types.as_slice()
    }

    pub fn contexts(&self) -> &[Context]
        ensures { result.now ≡ listed self.now.contexts }
    {
        self.contexts.as_slice()
    }
}

impl Rule {
    pub fn parts(&self) -> &RuleParts
        ensures { result.now ≡ self.now.plain.parts }
    {
        self.plain.parts()
    }
}
