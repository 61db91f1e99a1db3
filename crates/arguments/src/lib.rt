// What a call asks of its arguments beside the fields: a dimension, a resolution, a start state, room in a buffer; and k, of the fields alone.
#![tactic(auto)]

mod asked;
mod refusals;
mod sizes;

pub use asked::asked_refusal;
pub use refusals::{dimension_refusal, pair_refusal, room_refusal, state_refusal};
pub use sizes::{SizeReply, size, sized};
