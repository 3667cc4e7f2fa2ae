// What a call is answered.
ghost use Rattle.std.specs.Prelude.{◌≡◌, ◌≤◌, length};
ghost use Rattle.journal.specs.Answers.{when_answer, ReadAnswer, WriteAnswer, Answered, Replied};
ghost use Rattle.journal.specs.Refusals.{report};
ghost use Rattle.journal.specs.declared.answer.Answer.TheVariants.{Refused};
ghost use Rattle.notes.specs.Rules.{note_reads};
ghost use Rattle.texts.specs.Pieces.{pieces};

use crate::call::Call;
use crate::refusal::Refusal;
use crate::unreadable::Unreadable;
use crate::written::Written;
use bits::Report;
use calendar::{CivilTime, Instant};
use notes::Rule;
use std::fmt;

#[derive(Clone, Copy)]
pub enum Answer {
    Refused(Report),
    Civil(CivilTime),
    Rule(Rule),
    Note(Written),
    Unreadable(Unreadable),
}

impl Answer {
    // The answer to a line that is a call, or should be one. The space takes the bytes of its note.
    pub(crate) fn of_line(line: &[u8], space: &mut [u8]) -> Answer
        requires { length line.now ≤ length space.old }
        ensures { Replied (pieces 32 line.now) result }
    {
        match Call::read(line, space) {
            Ok(call) => Answer::of_call(call),
            Err(fault) => Answer::Unreadable(fault),
        }
    }

    // Each kind of call has a function of its own: one for all would make room for a rule and a note at an instant too.
    fn of_call(call: Call) -> Answer
        ensures { Answered call.entry result }
    {
        match call {
            Call::When(seconds) => Answer::of_when(seconds),
            Call::Read(note) => Answer::of_read(note),
            Call::Write(note) => Answer::of_write(note),
        }
    }

    fn of_when(seconds: u32) -> Answer
        ensures { result ≡ when_answer seconds }
    {
        match Instant::new(seconds) {
            Some(instant) => Answer::Civil(instant.civil()),
            None => Answer::refused(Refusal::PastCalendar),
        }
    }

    fn of_read(note: &[u8]) -> Answer
        ensures { ReadAnswer (note_reads note.now) result }
    {
        match Rule::read(note) {
            Ok(rule) => Answer::Rule(rule),
            Err(fault) => Answer::refused(fault.into()),
        }
    }

    fn of_write(note: &[u8]) -> Answer
        ensures { WriteAnswer (note_reads note.now) note.now result }
    {
        match Rule::read(note) {
            Ok(rule) => Answer::Note(Written::of_rule(&rule)),
            Err(fault) => Answer::refused(fault.into()),
        }
    }

    fn refused(refusal: Refusal) -> Answer
        ensures { result ≡ Refused (report refusal) }
    {
        Answer::Refused(refusal.report())
    }
}

impl fmt::Display for Answer {
    fn fmt<W: fmt::Write>(&self, f: &mut fmt::Formatter<W>) -> fmt::Result {
        match self {
            Answer::Refused(report) => write!(f, "refused {report}"),
            Answer::Civil(time) => write!(f, "{time}"),
            Answer::Rule(rule) => write!(f, "{rule}"),
            Answer::Note(note) => write!(f, "note {note}"),
            Answer::Unreadable(fault) => write!(f, "unreadable: {fault}"),
        }
    }
}
