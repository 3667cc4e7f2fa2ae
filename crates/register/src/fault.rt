// Why a call of the register is refused.
ghost use Rattle.std.specs.Prelude.{◌≡◌, None as NoName};
ghost use Rattle.notes.specs.Faults.{report as note_report};
ghost use Rattle.register.specs.Faults.{cause_report, refusal_of, in_note};
ghost use Rattle.register.specs.declared.fault.Cause.TheVariants.{Note};

use super::rule_name::RuleName;
use bits::Report;
use notes::NoteFault;

#[derive(Clone, Copy, Debug, PartialEq, Eq)]
pub enum Cause {
    // The note has a fault of its own.
    Note(NoteFault),
    // A policy is above 63, or a rule number above 1,023.
    TooHigh,
    // A target number is not in use.
    UnknownTarget,
    // The policy already has a rule with this number.
    Taken,
    // The policy has no rule with this number.
    Missing,
    // Every used row holds a rule.
    Full,
    // The instant lies after 2099.
    Instant,
    // A letter of the country is not A to Z.
    Country,
}

// The cause, and for a fault in a note the rule that it was to become.
#[derive(Clone, Copy, Debug, PartialEq, Eq)]
pub struct RegisterFault {
    cause: Cause,
    rule: Option<RuleName>,
}

impl From<NoteFault> for Cause {
    ghost from_gives = { λ e c. c ≡ Note e };

    fn from(e: NoteFault) -> Cause {
        Cause::Note(e)
    }
}

impl Cause {
    // The numbers of the register's faults: they are what the product promises, and stand here.
    fn report(self) -> Report
        ensures { result ≡ cause_report self }
    {
        match self {
            Cause::Note(fault) => fault.report(),
            Cause::TooHigh => Report::in_register(8),
            Cause::UnknownTarget => Report::in_register(9),
            Cause::Taken => Report::in_register(10),
            Cause::Missing => Report::in_register(11),
            Cause::Full => Report::in_register(12),
            Cause::Instant => Report::in_register(14),
            Cause::Country => Report::in_register(15),
        }
    }
}

// A fault that names no rule.
impl From<Cause> for RegisterFault {
    ghost from_gives = { λ c x. x ≡ record { cause = c; rule = NoName } };

    fn from(cause: Cause) -> RegisterFault {
        RegisterFault { cause, rule: None }
    }
}

impl RegisterFault {
    // The fault of a note that was to become this rule.
    pub(super) fn in_note(fault: NoteFault, name: RuleName) -> RegisterFault
        ensures { refusal_of result ≡ in_note name.policy name.number (note_report fault) }
    {
        RegisterFault {
            cause: fault.into(),
            rule: Some(name),
        }
    }

    pub fn report(self) -> Report
        ensures { result ≡ (refusal_of self).report }
    {
        self.cause.report()
    }

    // The rule that a fault in a note was to become.
    pub fn rule(self) -> Option<RuleName>
        ensures { result ≡ (refusal_of self).rule }
    {
        self.rule
    }
}
