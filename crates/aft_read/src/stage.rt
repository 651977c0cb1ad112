//! How far a get has come.

use aft_id::TxnId;
use aft_model::Attempt;
use aft_node::Got;
use aft_records::Key;

/// How far a get has come.
#[derive(Debug, Drop)]
pub enum Stage {
    /// Nothing is done: the node is to pick a version of this key.
    Begins {
        key: Key,
    },
    /// The attempt reads the version of this id, which is to be asked of the store.
    Fetches {
        attempt: Attempt,
        key: Key,
        id: TxnId,
    },
    /// This came of it, where the store was asked at this place of the door's history.
    Comes {
        attempt: Attempt,
        key: Key,
        id: TxnId,
        got: Got,
        place: u64,
    },
    /// It is answered.
    Ended,
}
