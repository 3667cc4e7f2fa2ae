// Requests to the register.
use notes::{Address, Country, Operation};
use texts::Identity;

mod checking;

#[derive(Clone, Copy)]
pub enum Target {
    // A resource by its target number.
    Number(u32),
    // A policy itself.
    Policy(u32),
}

// The instant counts seconds; it and the letters of the country are tested by judge.
#[derive(Clone, Copy)]
pub struct Request {
    pub identity: Identity,
    pub authenticated: bool,
    pub operation: Operation,
    pub instant: u32,
    pub target: Target,
    pub child_type: Option<u16>,
    pub address: Option<Address>,
    pub country: Option<Country>,
}
