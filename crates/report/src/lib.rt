// The whole report of a generator: its reply by value, and the call.
#![tactic(auto)]

mod calling;
mod firsts;
mod making;
mod prepared;
mod reply;

pub use calling::{report, report_refusal};
pub use firsts::first_bits;
pub use making::of_first;
pub use prepared::{report_of, sizes};
pub use reply::Report;
