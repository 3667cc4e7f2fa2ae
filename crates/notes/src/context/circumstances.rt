// What a context looks at in a request.
use super::super::block::Address;
use super::super::country::Country;
use calendar::Instant;

// A request has a time, and perhaps an address and a country.
#[derive(Clone, Copy)]
pub struct Circumstances {
    pub instant: Instant,
    pub address: Option<Address>,
    pub country: Option<Country>,
}
