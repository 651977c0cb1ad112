//! Small histories, on which the definitions of what the layers promise are tried: each is a closed list, and each
//! function is a call that does nothing and promises what the definitions say of some of them.
#![tactic(auto)]

mod boxes;
mod copies;
mod doors;
mod facts;
mod honesty;
mod office;
mod refused;
mod replies;
mod stage;

pub use boxes::{boxes_refused, legal_boxes};
pub use copies::{contents, cuts, taken};
pub use doors::legal;
pub use facts::{claims, commits, courses, door, formats, pages, stores};
pub use honesty::{dishonest, honest};
pub use office::{collections_refused, legal_office, office_facts, posts_refused, rounds_refused};
pub use refused::{
    callers_refused, collection_refused, forgets_refused, openings_refused, orphans_refused,
    puts_refused, upgrades_refused,
};
pub use replies::{replies_told_apart, round_texts, transaction_texts, value_texts};
pub use stage::{bytes, orphans, retiring, stages};
