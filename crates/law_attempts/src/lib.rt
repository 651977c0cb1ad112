//! Laws of the attempts of one service of a node: who they are, what becomes of them, what they have buffered, and what
//! each act makes of their rows.
//!
//! It has no code. It speaks of a node's own history alone, and knows nothing of the door.
#![tactic(auto)]

mod laws;

pub use laws::{
    attempts_are_numbered, attempts_begin_once, attempts_belong_to_incarnations, attempts_go_on,
    attempts_have_one_uuid, buffers_are_last_puts, rows_follow, rows_tell, serving_is_newest,
};
