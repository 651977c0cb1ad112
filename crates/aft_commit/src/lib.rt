//! The course of a commit and of an abort, turn by turn: the node fixes what is stored, the door puts each version and then the
//! record, the node learns of it, the UUID is let go, and the attempt ends; one in doubt is settled by its record. It knows nothing of
//! what else goes on at the node or at the door between its turns.
#![tactic(auto)]

mod calls;
mod doors;
mod finish;
mod nodes;
mod outcome;
mod sight;
mod stage;

pub use finish::Finish;
