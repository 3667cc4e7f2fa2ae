// Why a call is refused.
ghost use Rattle.std.specs.Prelude.{◌≡◌};
ghost use Rattle.journal.specs.Refusals.{report as report_of};
ghost use Rattle.journal.specs.declared.refusal.Refusal.TheVariants.{Note};

use bits::Report;
use notes::NoteFault;

#[derive(Clone, Copy, Debug, PartialEq, Eq)]
pub enum Refusal {
    // An instant lies past the calendar's last year: refusal 14 of the register's layer.
    PastCalendar,
    Note(NoteFault),
}

impl From<NoteFault> for Refusal {
    ghost from_gives = { λ fault refusal. refusal ≡ Note fault };

    fn from(fault: NoteFault) -> Refusal {
        Refusal::Note(fault)
    }
}

impl Refusal {
    pub fn report(self) -> Report
        ensures { result ≡ report_of self }
    {
        match self {
            // The register's number, which no crate below the journal has.
            Refusal::PastCalendar => Report::in_register(14),
            Refusal::Note(fault) => fault.report(),
        }
    }
}
