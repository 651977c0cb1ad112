//! The texts of replies.
#![tactic(auto)]

mod fault;
mod finished;
mod head;
mod laws;
mod lists;
mod reading;
mod split;
#[cfg(test)]
mod tests;
mod values;
mod words;
mod writing;

pub use fault::ReplyFault;
pub use finished::write_text;
pub use laws::texts_differ;
pub use reading::read_reply;
pub use writing::write_reply;
