//! The history of the office: the fault manager's and the collector's desk.

use crate::caller::By;
use crate::reply::Reply;
use aft_id::{List, TxnId};
use aft_records::Commit;

/// One entry of the office's history.
#[derive(Debug, Drop)]
pub struct OfficeEntry {
    /// How many entries of the door's history the turn had seen.
    pub front: u64,
    pub by: By,
    pub act: OfficeAct,
    /// The line's reply, if this entry gives it.
    pub answer: Option<Reply>,
}

/// What was done at the office.
#[derive(Debug, Drop)]
pub enum OfficeAct {
    /// Nothing but the answer.
    Nothing,
    /// A manager's round heard of these commits, and found that those were missed.
    Round {
        heard: List<Commit>,
        missed: List<Commit>,
    },
    /// The missed commits that every box had room for count as heard.
    Posted {
        ids: List<TxnId>,
    },
    /// A collection began.
    Collecting,
    /// It ended.
    Collected,
}
