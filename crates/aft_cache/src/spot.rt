//! Under what a value is kept.

ghost use Rattle.std.specs.Prelude.{◌++◌};
ghost use Rattle.std.specs.Hash as fed;
ghost use Rattle.std.specs.Cmp.Rules.{hashing};
ghost use Rattle.std.proofs.Common.{rules};

use aft_id::TxnId;
use aft_records::Key;
use std::hash::{Hash, Hasher};

/// Under what a value is kept: the key of its version, and the id of the transaction that wrote it.
#[derive(Debug, PartialEq, Eq, Drop)]
pub struct Spot {
    pub key: Key,
    pub id: TxnId,
}

impl Hash for Spot {
    ghost hash_input = { λ spot. fed.slice fed.u8 spot.key ++ ⟦<TxnId as Hash>⟧.hash_input spot.id };

    ghost respects_eq = { Prim.search (hashing, rules) };

    fn hash<H: Hasher>(&self, state: &mut H) {
        self.key.bytes().hash(state);
        self.id.hash(state);
    }
}
