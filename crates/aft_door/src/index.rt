//! What the door finds of its history without reading it.

use aft_id::TxnId;

/// Whose claim of a UUID stands, and where in the history it was claimed.
#[derive(Clone, Copy, Debug, PartialEq, Eq)]
pub(crate) struct Claimed {
    pub(crate) node: u32,
    pub(crate) inc: u32,
    pub(crate) place: u64,
}

/// That an incarnation has given the commit of an id up.
#[derive(Clone, Copy, Debug, PartialEq, Eq, Hash)]
pub(crate) struct GivenUp {
    pub(crate) node: u32,
    pub(crate) inc: u32,
    pub(crate) id: TxnId,
}
