use thiserror::Error;

/// Why a text was not read.
#[derive(Clone, Copy, Debug, PartialEq, Eq, Error)]
pub enum IdFault {
    /// The text names no UUID.
    #[error("not a UUID")]
    BadUuid,
    /// The text is not the text of an id.
    #[error("not an id of a transaction")]
    BadId,
}
