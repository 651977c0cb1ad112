//! The history of the door.

use crate::caller::By;
use aft_id::TxnId;
use aft_keeper::{KeeperAnswer, KeeperCall};
use uuid::Uuid;

/// One entry of the door's history.
#[derive(Debug, Drop)]
pub struct DoorEntry {
    pub by: By,
    pub act: DoorAct,
}

/// What was done at the door.
#[derive(Debug, Drop)]
pub enum DoorAct {
    /// An incarnation of a node, or the office, made a call of the store, and got this answer.
    Call {
        node: u32,
        inc: u32,
        call: KeeperCall,
        answer: KeeperAnswer,
    },
    /// The check at the opening ended, and the nodes may come up.
    Opened,
    /// An incarnation came up.
    Up {
        node: u32,
        inc: u32,
    },
    /// An incarnation was shut out, for good.
    Fence {
        node: u32,
        inc: u32,
    },
    /// An incarnation took the claim of a UUID.
    Claim {
        uuid: Uuid,
        node: u32,
        inc: u32,
    },
    /// An incarnation let a claim go.
    Release {
        uuid: Uuid,
        node: u32,
        inc: u32,
    },
    /// An incarnation gave a commit up: it will never read it again.
    GiveUp {
        node: u32,
        inc: u32,
        id: TxnId,
    },
}
