//! The ledger of a node: its history, and beside it what the history says, found without reading it.
//!
//! Each call that begins with `add` makes one entry, and `answer` one that does nothing but answer. It is the entry that its
//! words say, and the history stays one that a node may have. Which entry a turn makes, and in which order it is refused, is
//! the business of the turns above.
#![tactic(auto)]

mod copies;
mod fresh;
mod ledger;
mod origin;
mod stage;

pub use ledger::Ledger;
