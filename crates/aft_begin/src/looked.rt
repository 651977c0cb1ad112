//! What a look at the store shows.

use aft_id::TxnId;
use aft_model::Reply;

/// What a look for the record or the marker of a UUID shows.
#[derive(Debug, Drop)]
pub enum Looked {
    /// Nothing is there.
    Nothing,
    /// The record or the marker of this id, and whether that is a short marker.
    Shows { id: TxnId, short: bool },
    /// What is to be answered: the look was refused or failed, or what is there is damaged.
    Stops(Reply),
}
