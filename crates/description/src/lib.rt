// Descriptions: bytes to fields, and fields to bytes.
#![tactic(auto)]

mod numbers;
mod reading;
mod writing;

pub use reading::{Reading, parse, read};
pub use writing::{length_of, write};
