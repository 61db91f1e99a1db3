// The listing of a report as text in a lent buffer.
#![tactic(auto)]

mod calling;
mod lines;
mod page;
mod whole;

pub use calling::{LINE_BYTES, MOST_TEXT, listing};
pub use whole::put_page;
