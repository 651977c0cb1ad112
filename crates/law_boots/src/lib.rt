//! Laws of what nodes know and read, beside what was seen at the door: what is known is committed, so each id that is read was
//! recorded before, and reads are atomic beside all that is committed.
//!
//! It has no code, and knows nothing of lines and courses.
#![tactic(auto)]

mod laws;

pub use laws::{
    blockers_are_named, boots_gave_nothing_up, boots_see_the_greatest, gets_repeat_versions,
    given_up_is_never_known, ids_have_one_commit, ids_were_recorded, known_is_committed,
    own_puts_are_answered, reads_are_atomic, retired_before_is_never_known,
};
