//! What the index holds of a known commit.

ghost use Rattle.std.specs.Prelude.{◌≡◌};
ghost use Rattle.aft_records.specs.Superseded.{wrote};

use aft_id::TxnId;
use aft_records::{Commit, Key, Keys};
use std::collections::BTreeMap;

/// The known commits by their ids.
pub(crate) type Commits = BTreeMap<TxnId, KnownCommit>;

/// What is known of a commit beside its id.
#[derive(Drop)]
pub(crate) struct KnownCommit {
    /// The keys that it wrote.
    pub(crate) keys: Keys,
    /// Of how many of them it is the newest known writer.
    pub(crate) newest: usize,
}

/// Whether a commit wrote a key.
pub(crate) fn wrote(commit: &Commit, key: &Key) -> bool
    ensures { result ≡ wrote key.now commit.now }
{
    commit.keys.list().iter().any(|other| *key == *other)
}
