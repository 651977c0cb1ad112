//! The course of a begin and of a forget, turn by turn: the node admits an attempt, its incarnation claims the UUID at the door and
//! looks for the record and the marker of it. The attempt of a begin then runs, or is taken away; a forget deletes the short marker
//! if it found one, and its attempt is taken away. It knows nothing of what else goes on at the node or at the door between its
//! turns.
#![tactic(auto)]

mod aim;
mod begin;
mod behind;
mod calls;
mod claiming;
mod doors;
mod forget;
mod looked;
mod nodes;
mod sought;
mod stage;

pub use begin::Begin;
pub use forget::Forget;
