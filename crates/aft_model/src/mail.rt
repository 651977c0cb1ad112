//! The history of a mailbox.

use crate::caller::By;
use aft_id::{List, TxnId};

/// One entry of a mailbox's history.
#[derive(Debug, Drop)]
pub struct MailEntry {
    pub by: By,
    pub act: MailAct,
}

/// What was done with a mailbox.
#[derive(Debug, Drop)]
pub enum MailAct {
    /// Commits of these ids were posted, and the box took the first so many of them.
    Post { ids: List<TxnId>, taken: u64 },
    /// The whole box was taken: commits of these ids.
    Take { ids: List<TxnId> },
}
