//! What an attempt's commit is fixed by, and what it was fixed as.

ghost use Rattle.std.specs.Prelude.{◌≡◌, IfOk, IsFalse, IsTrue, Some};
ghost use Rattle.aft_model.specs.Attempts.{attempt_state, buffer, fixed_commit, is_gone, written_keys};
ghost use Rattle.aft_model.specs.NodeState.{node_state, part, serves};

use super::Ledger;
use aft_id::{Memory, TxnId};
use aft_model::Attempt;
use aft_records::{Commit, Keys};
use aft_txn::State;

impl Ledger {
    /// The keys that an attempt has put, which are to be its commit's.
    pub fn keys(&self, attempt: &Attempt) -> Result<Keys, Memory>
        requires node { attempt.now.node ≡ self.now.number }
        requires serves { IsTrue (serves attempt.now.inc (node_state self.now.history)) }
        requires there { IsFalse (is_gone (attempt_state attempt.now (part self.now.history))) }
        ensures { IfOk result (λ keys. keys ≡ written_keys (buffer attempt.now (part self.now.history))) }
    {
        let keys = self.written_keys(attempt)?;
        // The keys of an attempt ascend, and are at most 32. One that has put nothing has no such set, and none is asked for.
        match Keys::new(keys) {
            Ok(keys) => Ok(keys),
            Err(_) => Err(Memory),
        }
    }

    /// The commit that an attempt has fixed, if it has.
    pub fn fixed(&self, attempt: &Attempt) -> Result<Option<Commit>, Memory>
        requires node { attempt.now.node ≡ self.now.number }
        requires serves { IsTrue (serves attempt.now.inc (node_state self.now.history)) }
        ensures { IfOk result (λ fixed. fixed ≡ fixed_commit (attempt_state attempt.now (part self.now.history))) }
    {
        let _ = &self.alloc;
        match self.state(attempt) {
            Some(State::Committing(id)) => self.commit_of(attempt, id),
            Some(State::Doubt(id)) => self.commit_of(attempt, id),
            _ => Ok(None),
        }
    }

    /// The commit of an id with the keys that an attempt has put.
    fn commit_of(&self, attempt: &Attempt, id: TxnId) -> Result<Option<Commit>, Memory>
        requires node { attempt.now.node ≡ self.now.number }
        requires serves { IsTrue (serves attempt.now.inc (node_state self.now.history)) }
        requires there { IsFalse (is_gone (attempt_state attempt.now (part self.now.history))) }
        ensures { IfOk result (λ fixed. fixed ≡ Some (record { id = id; keys = written_keys (buffer attempt.now (part self.now.history)) })) }
    {
        let keys = self.keys(attempt)?;
        Ok(Some(Commit { id, keys }))
    }
}
