//! Laws of one UUID at the open door: an invariant over the door's history alone, which each kind of entry keeps.
//!
//! It has no code, and knows nothing of nodes, lines and courses. What it takes of those are two facts about the door's
//! history: lines put records and versions in their stage, and nothing is retired under who is about to record it.
#![tactic(auto)]

mod laws;

pub use laws::{
    always_kept, closed_while_kept, commits_once_kept, holds_what_was_shown, kept_behind_claims,
    kept_behind_deletes, kept_behind_members, kept_behind_puts, kept_behind_shows,
    look_is_knowledge, orphans_while_kept, reads_till_open, used_no_more_while_kept,
    whole_while_kept,
};
