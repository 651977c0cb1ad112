//! Laws of the order of commits, as calls that do nothing and promise them.

ghost use Rattle.std.specs.Prelude.{◌≡◌, ◌++◌, ℕ, List, [], ◌∷◌, Some, IsTrue};
ghost use Rattle.aft_id.specs.declared.txn_id.TxnId.{TxnId};
ghost use Rattle.aft_records.specs.Commits.{first_known, greatest, ids_ascend, is_ascending, versions, with_commit, without_ids};
ghost use Rattle.aft_records.specs.declared.stored.Commit.{Commit};

/// Known commits stand in the order of their ids, each id once: at first, with one more, and less some.
pub fn commits_ascend()
    ensures first { (commits : List Commit) → IsTrue (ids_ascend (first_known commits)) }
    ensures with { (known : List Commit) (c : Commit) → IsTrue (ids_ascend known) → IsTrue (ids_ascend (with_commit known c)) }
    ensures without { (ids : List TxnId) (known : List Commit) → IsTrue (ids_ascend known) → IsTrue (ids_ascend (without_ids ids known)) }
{}

/// Of commits that ascend, a key's versions ascend, and the greatest of ids that ascend is the last.
pub fn newest_is_last()
    ensures versions { (key : List ℕ) (commits : List Commit) → IsTrue (ids_ascend commits) → IsTrue (is_ascending (versions key commits)) }
    ensures greatest { (ids : List TxnId) (last : TxnId) → IsTrue (is_ascending (ids ++ last ∷ [])) → greatest (ids ++ last ∷ []) ≡ Some last }
{}
