//! The course of a get, turn by turn: the node picks a version, the door is asked for it where the node doesn't keep it, and the
//! node answers. It knows nothing of which versions fit, nor of what else goes on at the node or at the door between its turns.
#![tactic(auto)]

mod fetch;
mod read;
mod stage;
mod turns;

pub use read::Read;
