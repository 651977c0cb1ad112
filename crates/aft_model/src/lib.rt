//! The plain data that the layers of AFT pass to one another: who asks, what each history has, what a script
//! says, what is answered.
//!
//! The crate holds data and the words of contracts over it. It makes no call of a store, and it has no machine.
#![tactic(auto)]

mod caller;
mod choice;
mod door;
mod laws;
mod mail;
mod node;
mod node_laws;
mod office;
mod place;
mod read_set;
mod reply;
mod script;
mod trace;

pub use caller::{Attempt, By, Caller, Hold};
pub use choice::{Blocked, Choice, Picked};
pub use door::{DoorAct, DoorEntry};
pub use laws::{
    claims_have_places, contents_tell, facts_grow, honest_everywhere, id_commits_once,
    knowledge_stays, stages_keep_course,
};
pub use mail::{MailAct, MailEntry};
pub use node::{NodeAct, NodeEntry};
pub use node_laws::{
    known_ascends, known_within_incarnation, newest_is_not_superseded, read_commit_fits,
    reads_stay_atomic,
};
pub use office::{OfficeAct, OfficeEntry};
pub use place::Where;
pub use read_set::{ReadPair, ReadSet};
pub use reply::{Judged, Reply, Verdict};
pub use script::{Command, Line, Order, Script, Step};
pub use trace::Trace;
