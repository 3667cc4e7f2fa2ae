// The bit layer: numbers of 0 to 128 bits and whole bytes, read from and written to a row of bytes,
// the most significant bit first.
#![tactic(auto)]

mod byte;
mod fault;
mod laws;
mod reader;
mod writer;

pub use fault::{BitFault, Layer, Report};
pub use laws::{bytes_round_trip, field_round_trip};
pub use reader::BitReader;
pub use writer::BitWriter;
