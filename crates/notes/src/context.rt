// A context: lists of windows, blocks and countries.
ghost use Rattle.std.specs.Prelude.{◌≡◌, ◌<◌, ◌≤◌, IfOk};
ghost use Rattle.bits.specs.Reader.{bytes, source, place};
ghost use Rattle.bits.specs.Writer.{Wrote};
ghost use Rattle.notes.specs.Contexts.{ContextValue, context_of, context_lawful, context_form, context_reads, count_reads, counts_reads, counts_form};
ghost use Rattle.notes.specs.Told.{Read, Fits};
ghost use Rattle.notes.specs.ContextsLemmas.{lawful_context, context_long};
ghost use Rattle.std.proofs.Common.{arith};

use super::block::Block;
use super::country::Country;
use super::fault::NoteFault;
use super::lists::{read_list, write_list};
use super::packed::{Packed, Writable};
use super::window::Window;
use super::writing::put;
use bits::{BitReader, BitWriter};
use texts::Few;

mod admitting;
mod circumstances;
pub(super) mod words;

pub use circumstances::Circumstances;

#[derive(Clone, Copy, Default)]
pub struct Context {
    windows: Few<Window, 4>,
    blocks: Few<Block, 4>,
    countries: Few<Country, 2>,
}

// How many items each list of a context has.
#[derive(Clone, Copy)]
pub struct Counts {
    windows: usize,
    blocks: usize,
    countries: usize,
}

// A count from `low` to `high`.
pub(super) fn read_count(
    r: &mut BitReader,
    width: usize,
    low: u128,
    high: u128,
) -> Result<usize, NoteFault>
    requires { high ≤ 4 }
    ensures read { Read (count_reads width low high) r.old result r.new }
    ensures small { IfOk result (λ n. n ≤ high) }
{
    let place = r.place();
    let n = r.take(width)?;
    if n < low || n > high {
        return Err(NoteFault::Limit { place });
    }
    Ok(n as usize)
}

impl Counts {
    fn read(r: &mut BitReader) -> Result<Counts, NoteFault>
        ensures read { Read counts_reads r.old result r.new }
        ensures small { IfOk result (λ n. (n.windows ≤ 4) × (n.blocks ≤ 4) × (n.countries ≤ 2)) }
    {
        let windows = read_count(r, 3, 0, 4)?;
        let blocks = read_count(r, 3, 0, 4)?;
        let countries = read_count(r, 2, 0, 2)?;
        Ok(Counts {
            windows,
            blocks,
            countries,
        })
    }
}

impl Context {
    #[tactic(auto, using(crate::proofs::Room::room))]
    fn write_counts(&self, w: &mut BitWriter)
        requires { Fits w.old 8 }
        ensures { Wrote w.old w.new (counts_form (context_of self.now)) }
    {
        put(w, 3, self.windows.as_slice().len() as u128);
        put(w, 3, self.blocks.as_slice().len() as u128);
        put(w, 2, self.countries.as_slice().len() as u128);
    }
}

impl Packed for Context {
    const LEAST_WIDTH: usize = 8;

    ghost LEAST_WIDTH = { 8 };

    ghost value = { ContextValue };

    ghost meant = { context_of };

    ghost lawful = { context_lawful };

    ghost form = { context_form };

    ghost reads = { context_reads };

    ghost round = { lawful_context };

    ghost shortest = { λ x h. omega (arith, context_long x) };

    fn read(r: &mut BitReader) -> Result<Context, NoteFault> {
        let counts = Counts::read(r)?;
        let windows = read_list(r, counts.windows)?;
        let blocks = read_list(r, counts.blocks)?;
        let countries = read_list(r, counts.countries)?;
        Ok(Context {
            windows,
            blocks,
            countries,
        })
    }
}

impl Writable for Context {
    fn write(&self, w: &mut BitWriter) {
        self.write_counts(w);
        write_list(self.windows.as_slice(), &[], w);
        write_list(self.blocks.as_slice(), &[], w);
        write_list(self.countries.as_slice(), &[], w);
    }
}
