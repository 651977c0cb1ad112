//! What the step machines share: where a machine's next turn is, what a refusal of the door is answered as, and what contracts
//! say of the turns that a line has made. A machine runs one line, turn by turn; which turns it makes is the business of its own
//! crate.
#![tactic(auto)]

mod refusals;
mod turn;

pub use refusals::refusal;
pub use turn::Where;
