// The replay of a journal, line by line.
ghost use Rattle.std.specs.Prelude.{◌≡◌, ◌≤◌, true, is_ok, vec_len};

use crate::answer::Answer;
use crate::line::{LineKind, kind_of, without_line_feed};
use crate::tally::Tally;
use std::alloc::Global;
use std::io;
use std::io::{BufRead, Write};

// What stops a replay.
#[derive(Drop)]
pub enum Stopped {
    Read(io::Error),
    Write(io::Error),
}

#[derive(Drop)]
pub struct Replay<W> {
    out: W,
    tally: Tally,
    // The line that is read, kept so that its memory serves every line.
    line: Vec<u8>,
    // Space for the bytes of a note on the line.
    note: Vec<u8>,
}

impl<W: Write> Replay<W> {
    pub fn new(heap: Global, out: W) -> Replay<W> {
        Replay {
            out,
            tally: Tally::new(),
            line: Vec::new(heap),
            note: Vec::new(heap),
        }
    }

    // Answers each line of the source, to its end.
    pub fn read_all<R: BufRead>(&mut self, source: &mut R) -> Result<(), Stopped> {
        // No source has so many lines: the bound is there since nothing says that a source ends.
        for _ in 0..u64::MAX {
            if !self.read_line(source).map_err(Stopped::Read)? {
                break;
            }
            self.answer_line().map_err(Stopped::Write)?;
        }
        Ok(())
    }

    // Reads the next line, if there is one, and makes space for its note, which is no longer.
    fn read_line<R: BufRead>(&mut self, source: &mut R) -> io::Result<bool>
        ensures { is_ok result ≡ true → vec_len self.new.line ≤ vec_len self.new.note }
    {
        self.line.clear();
        let size = source.read_until(b'\n', &mut self.line)?;
        self.note.resize(self.line.len(), 0)?;
        Ok(size > 0)
    }

    // Writes the line that was read, with its answer if it is a call.
    fn answer_line(&mut self) -> io::Result<()>
        requires { vec_len self.old.line ≤ vec_len self.old.note }
    {
        let line = without_line_feed(self.line.as_slice());
        self.out.write_all(line)?;
        if kind_of(line) == LineKind::Call {
            let answer = Answer::of_line(line, self.note.as_mut_slice());
            self.tally.count(&answer);
            write!(self.out, " -> {answer}")?;
        }
        self.out.write_all(b"\n")
    }

    // Writes the sum of all lines so far.
    pub fn write_sum(&mut self) -> io::Result<()> {
        let tally = self.tally;
        writeln!(self.out, "{tally}")?;
        self.out.flush()
    }
}
