// Requests, as rules look at them.
use notes::{Circumstances, Operation};
use texts::Identity;

// A request whose instant and country were tested.
#[derive(Clone, Copy)]
pub struct CheckedRequest {
    pub identity: Identity,
    pub authenticated: bool,
    pub operation: Operation,
    pub child_type: Option<u16>,
    pub circumstances: Circumstances,
}
