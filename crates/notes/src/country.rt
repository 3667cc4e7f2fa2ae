// A country: two letters.
ghost use Rattle.std.specs.Prelude.{◌≡◌, ◌<◌};
ghost use Rattle.bits.specs.Reader.{bytes, source, place};
ghost use Rattle.notes.specs.declared.country.Country.{Country as CountryValue};
ghost use Rattle.notes.specs.Told.{Read};
ghost use Rattle.notes.specs.Countries.{country_lawful, country_form, country_reads, country_same, letter_reads};
ghost use Rattle.notes.specs.CountriesLemmas.{lawful_country, country_long};
ghost use Rattle.std.proofs.Common.{arith, rules};

use super::constraint::Constraint;
use super::fault::NoteFault;
use super::packed::{Packed, Writable};
use super::writing::put;
use bits::{BitReader, BitWriter};

pub(super) mod words;

#[derive(Clone, Copy, Default, PartialEq, Eq, Debug)]
pub struct Country {
    first: u8,
    second: u8,
}

impl Country {
    // Two bytes, whatever they are: whether they are letters is tested where it matters.
    pub fn new(first: u8, second: u8) -> Country
        ensures { result ≡ record { first = first; second = second } }
    {
        Country { first, second }
    }

    // Whether both are letters A to Z.
    pub fn is_lawful(&self) -> bool
        ensures { result ≡ country_lawful self.now }
    {
        self.first.is_ascii_uppercase() && self.second.is_ascii_uppercase()
    }
}

fn letter(r: &mut BitReader) -> Result<u8, NoteFault>
    ensures { Read letter_reads r.old result r.new }
{
    let place = r.place();
    let letter = r.take(8)? as u8;
    if !letter.is_ascii_uppercase() {
        return Err(NoteFault::Letter { place });
    }
    Ok(letter)
}

impl Packed for Country {
    const LEAST_WIDTH: usize = 16;

    ghost LEAST_WIDTH = { 16 };

    ghost value = { CountryValue };

    ghost meant = { λ x. x };

    ghost lawful = { country_lawful };

    ghost form = { country_form };

    ghost reads = { country_reads };

    ghost round = { lawful_country };

    ghost shortest = { λ x h. omega (arith, country_long x) };

    fn read(r: &mut BitReader) -> Result<Country, NoteFault> {
        let first = letter(r)?;
        let second = letter(r)?;
        Ok(Country { first, second })
    }
}

impl Writable for Country {
    #[tactic(auto, using(crate::proofs::Room::room))]
    fn write(&self, w: &mut BitWriter) {
        put(w, 8, self.first as u128);
        put(w, 8, self.second as u128);
    }
}

impl Constraint for Country {
    type Value = Country;

    ghost admitted = { country_same };

    ghost covered = { country_same };

    ghost sound = { Prim.search rules };

    fn admits(&self, v: &Country) -> bool {
        self == v
    }

    fn covers(&self, other: &Country) -> bool {
        self.admits(other)
    }
}
