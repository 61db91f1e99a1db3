// The check that every call makes first: the refusal, of those that the fields of a generator deserve, with the lowest number.
#![tactic(auto)]

mod coefficients;
mod own;
mod ranges;
mod refusals;

pub use coefficients::coefficient;
pub use ranges::outside;
pub use refusals::{field_refusal, range_refusal};
