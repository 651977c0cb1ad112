//! Laws of attempts, as calls that do nothing and promise them.

ghost use Rattle.std.specs.Prelude.{◌≡◌, ◌++◌, ◌==◌, ◌∷◌, ℕ, List, [], None, Option, Some, IsTrue, IsFalse, if◌then◌else◌, filter, find, is_none, is_some, length, nat_le, nat_lt, suc};
ghost use Rattle.std.specs.List.{list_any};
ghost use Rattle.std.specs.Str.{bytes_eq};
ghost use Rattle.aft_fields.specs.Order.{ascend};
ghost use Rattle.aft_id.specs.declared.txn_id.TxnId.{TxnId};
ghost use Rattle.aft_id.specs.TxnId.{same_id};
ghost use Rattle.aft_records.specs.declared.stored.Commit.{Commit};
ghost use Rattle.aft_model.specs.declared.caller.Attempt.{Attempt};
ghost use Rattle.aft_model.specs.declared.node.NodeAct.TheVariants.{Admit};
ghost use Rattle.aft_model.specs.declared.node.NodeEntry.{NodeEntry};
ghost use Rattle.aft_model.specs.Attempts.{Row, admitted_by, attempt_state, attempts, buffer, buffered, fixed_commit, is_gone, is_of, is_opening, is_pinned, is_running, open_reads, present_of, row_of, rows, same_attempt, uuid_of, written_keys};
ghost use Rattle.aft_model.specs.LegalNode.{LegalNode};
ghost use Rattle.aft_model.specs.NodeState.{boots, newest, node_state, part, serves};
ghost use Rattle.law_attempts.specs.Acts.{acts_on, first_attempts, last_value, times_begun, times_started};
ghost use Rattle.law_attempts.specs.Rows.{row_at, rows_after};

/// The attempts of a service are the first so many of its incarnation, in order of number; whoever is there was admitted,
/// and whoever is admitted has the next number, and wasn't admitted before.
pub fn attempts_are_numbered()
    ensures numbered { (node capacity inc : ℕ) (history : List NodeEntry) → LegalNode node capacity history → IsTrue (serves inc (node_state history)) → attempts (part history) ≡ first_attempts node inc (length (attempts (part history))) }
    ensures there { (node capacity inc : ℕ) (a : Attempt) (history : List NodeEntry) → LegalNode node capacity history → IsTrue (serves inc (node_state history)) → IsFalse (is_gone (attempt_state a (part history))) → IsTrue (list_any (same_attempt a) (attempts (part history))) }
    ensures next { (node capacity inc : ℕ) (a : Attempt) (uuid : List ℕ) (history : List NodeEntry) (entry : NodeEntry) → LegalNode node capacity (history ++ entry ∷ []) → IsTrue (serves inc (node_state history)) → IsTrue (serves inc (node_state (history ++ entry ∷ []))) → entry.act ≡ Admit a uuid → a ≡ record { node = node; inc = inc; number = suc (length (attempts (part history))) } }
    ensures new { (node capacity inc : ℕ) (a : Attempt) (uuid : List ℕ) (history : List NodeEntry) (entry : NodeEntry) → LegalNode node capacity (history ++ entry ∷ []) → IsTrue (serves inc (node_state history)) → IsTrue (serves inc (node_state (history ++ entry ∷ []))) → entry.act ≡ Admit a uuid → IsFalse (list_any (same_attempt a) (attempts (part history))) }
{}

/// An attempt has one UUID, and of the attempts that are there each has another.
pub fn attempts_have_one_uuid()
    ensures one { (node capacity inc : ℕ) (a : Attempt) (uuid : List ℕ) (history : List NodeEntry) → LegalNode node capacity history → IsTrue (serves inc (node_state history)) → IsTrue (is_of uuid (part history) a) → uuid_of a (part history) ≡ uuid }
    ensures its { (node capacity inc : ℕ) (a : Attempt) (history : List NodeEntry) → LegalNode node capacity history → IsTrue (serves inc (node_state history)) → IsTrue (list_any (same_attempt a) (attempts (part history))) → IsTrue (is_of (uuid_of a (part history)) (part history) a) }
    ensures alone { (node capacity inc : ℕ) (a b : Attempt) (history : List NodeEntry) → LegalNode node capacity history → IsTrue (serves inc (node_state history)) → IsFalse (is_gone (attempt_state a (part history))) → IsFalse (is_gone (attempt_state b (part history))) → uuid_of a (part history) ≡ uuid_of b (part history) → a ≡ b }
    ensures stays { (node capacity inc : ℕ) (a : Attempt) (history more : List NodeEntry) → LegalNode node capacity (history ++ more) → IsTrue (serves inc (node_state history)) → IsTrue (serves inc (node_state (history ++ more))) → IsTrue (list_any (same_attempt a) (attempts (part history))) → uuid_of a (part (history ++ more)) ≡ uuid_of a (part history) }
{}

/// An attempt that was admitted never goes back while its incarnation serves: what is gone stays gone, it opens once and
/// runs once, and a commit that it has fixed it keeps until it is gone.
pub fn attempts_go_on()
    ensures gone { (node capacity inc : ℕ) (a : Attempt) (history more : List NodeEntry) → LegalNode node capacity (history ++ more) → IsTrue (serves inc (node_state history)) → IsTrue (serves inc (node_state (history ++ more))) → IsTrue (list_any (same_attempt a) (attempts (part history))) → IsTrue (is_gone (attempt_state a (part history))) → IsTrue (is_gone (attempt_state a (part (history ++ more)))) }
    ensures opens { (node capacity inc : ℕ) (a : Attempt) (history more : List NodeEntry) → LegalNode node capacity (history ++ more) → IsTrue (serves inc (node_state history)) → IsTrue (serves inc (node_state (history ++ more))) → IsTrue (list_any (same_attempt a) (attempts (part history))) → IsFalse (is_opening (attempt_state a (part history))) → IsFalse (is_opening (attempt_state a (part (history ++ more)))) }
    ensures runs { (node capacity inc : ℕ) (a : Attempt) (history more : List NodeEntry) → LegalNode node capacity (history ++ more) → IsTrue (serves inc (node_state history)) → IsTrue (serves inc (node_state (history ++ more))) → IsTrue (list_any (same_attempt a) (attempts (part history))) → IsFalse (is_opening (attempt_state a (part history))) → IsFalse (is_running (attempt_state a (part history))) → IsFalse (is_running (attempt_state a (part (history ++ more)))) }
    ensures fixed { (node capacity inc : ℕ) (a : Attempt) (c : Commit) (history more : List NodeEntry) → LegalNode node capacity (history ++ more) → IsTrue (serves inc (node_state history)) → IsTrue (serves inc (node_state (history ++ more))) → IsTrue (list_any (same_attempt a) (attempts (part history))) → fixed_commit (attempt_state a (part history)) ≡ Some c → IsFalse (is_gone (attempt_state a (part (history ++ more)))) → fixed_commit (attempt_state a (part (history ++ more))) ≡ Some c }
    ensures admitted { (node capacity inc : ℕ) (a : Attempt) (history more : List NodeEntry) → LegalNode node capacity (history ++ more) → IsTrue (serves inc (node_state history)) → IsTrue (serves inc (node_state (history ++ more))) → IsTrue (list_any (same_attempt a) (attempts (part history))) → IsTrue (list_any (same_attempt a) (attempts (part (history ++ more)))) }
{}

/// An attempt begins at most once and starts at most once; one that runs or is beyond has begun, and one that has fixed a
/// commit has started. One with a fetch that isn't over runs.
pub fn attempts_begin_once()
    ensures begins { (node capacity inc : ℕ) (a : Attempt) (history : List NodeEntry) → LegalNode node capacity history → IsTrue (serves inc (node_state history)) → IsTrue (nat_le (times_begun a (part history)) 1) }
    ensures starts { (node capacity inc : ℕ) (a : Attempt) (history : List NodeEntry) → LegalNode node capacity history → IsTrue (serves inc (node_state history)) → IsTrue (nat_le (times_started a (part history)) 1) }
    ensures begun { (node capacity inc : ℕ) (a : Attempt) (history : List NodeEntry) → LegalNode node capacity history → IsTrue (serves inc (node_state history)) → IsFalse (is_gone (attempt_state a (part history))) → IsFalse (is_opening (attempt_state a (part history))) → times_begun a (part history) ≡ 1 }
    ensures started { (node capacity inc : ℕ) (a : Attempt) (history : List NodeEntry) → LegalNode node capacity history → IsTrue (serves inc (node_state history)) → IsTrue (is_some (fixed_commit (attempt_state a (part history)))) → times_started a (part history) ≡ 1 }
    ensures fetching { (node capacity inc : ℕ) (a : Attempt) (history : List NodeEntry) → LegalNode node capacity history → IsTrue (serves inc (node_state history)) → IsTrue (nat_lt 0 (open_reads a (part history))) → IsTrue (is_running (attempt_state a (part history))) }
{}

/// What an attempt has buffered under a key is its last put, and the keys ascend; there are at most 32; and from when it
/// neither opens nor runs any more they stay, so that a commit that it has fixed has its keys and its UUID.
pub fn buffers_are_last_puts()
    ensures last { (key : List ℕ) (a : Attempt) (part : List NodeEntry) → buffered key (buffer a part) ≡ last_value a key part }
    ensures ascends { (a : Attempt) (part : List NodeEntry) → IsTrue (ascend (written_keys (buffer a part))) }
    ensures few { (node capacity inc : ℕ) (a : Attempt) (history : List NodeEntry) → LegalNode node capacity history → IsTrue (serves inc (node_state history)) → IsTrue (nat_le (length (buffer a (part history))) 32) }
    ensures stays { (node capacity inc : ℕ) (a : Attempt) (history more : List NodeEntry) → LegalNode node capacity (history ++ more) → IsTrue (serves inc (node_state history)) → IsTrue (serves inc (node_state (history ++ more))) → IsTrue (list_any (same_attempt a) (attempts (part history))) → IsFalse (is_opening (attempt_state a (part history))) → IsFalse (is_running (attempt_state a (part history))) → buffer a (part (history ++ more)) ≡ buffer a (part history) }
    ensures keys { (node capacity inc : ℕ) (a : Attempt) (c : Commit) (history : List NodeEntry) → LegalNode node capacity history → IsTrue (serves inc (node_state history)) → fixed_commit (attempt_state a (part history)) ≡ Some c → c.keys ≡ written_keys (buffer a (part history)) }
    ensures uuid { (node capacity inc : ℕ) (a : Attempt) (c : Commit) (history : List NodeEntry) → LegalNode node capacity history → IsTrue (serves inc (node_state history)) → fixed_commit (attempt_state a (part history)) ≡ Some c → c.id.uuid ≡ uuid_of a (part history) }
{}

/// What an entry of a service makes of the rows of attempts, and of who was admitted.
pub fn rows_follow()
    ensures rows { (node capacity inc : ℕ) (history : List NodeEntry) (entry : NodeEntry) → LegalNode node capacity (history ++ entry ∷ []) → IsTrue (serves inc (node_state history)) → IsTrue (serves inc (node_state (history ++ entry ∷ []))) → rows (part (history ++ entry ∷ [])) ≡ rows_after entry.act (rows (part history)) }
    ensures attempts { (node capacity inc : ℕ) (history : List NodeEntry) (entry : NodeEntry) → LegalNode node capacity (history ++ entry ∷ []) → IsTrue (serves inc (node_state history)) → IsTrue (serves inc (node_state (history ++ entry ∷ []))) → attempts (part (history ++ entry ∷ [])) ≡ attempts (part history) ++ admitted_by entry.act }
    ensures part { (node capacity inc : ℕ) (history : List NodeEntry) (entry : NodeEntry) → LegalNode node capacity (history ++ entry ∷ []) → IsTrue (serves inc (node_state history)) → IsTrue (serves inc (node_state (history ++ entry ∷ []))) → part (history ++ entry ∷ []) ≡ part history ++ entry ∷ [] }
{}

/// What rows tell of attempts: which is an attempt's, whether a UUID has one and which, and whether an id was read by one
/// that is there.
pub fn rows_tell()
    ensures number { (node capacity inc : ℕ) (a : Attempt) (history : List NodeEntry) → LegalNode node capacity history → IsTrue (serves inc (node_state history)) → a.node ≡ node → a.inc ≡ inc → row_at a.number (rows (part history)) ≡ (if is_gone (attempt_state a (part history)) then None else Some (row_of (part history) a)) }
    ensures uuid { (node capacity inc : ℕ) (uuid : List ℕ) (history : List NodeEntry) → LegalNode node capacity history → IsTrue (serves inc (node_state history)) → (length (present_of uuid (part history)) == 0) ≡ is_none (find (λ row. bytes_eq uuid row.uuid) (rows (part history))) }
    ensures found { (node capacity inc : ℕ) (uuid : List ℕ) (row : Row) (history : List NodeEntry) → LegalNode node capacity history → IsTrue (serves inc (node_state history)) → find (λ row. bytes_eq uuid row.uuid) (rows (part history)) ≡ Some row → (row ≡ row_of (part history) (record { node = node; inc = inc; number = row.number })) × IsFalse (is_gone row.state) × (row.uuid ≡ uuid) }
    ensures pinned { (id : TxnId) (part : List NodeEntry) → is_pinned id part ≡ list_any (λ row. list_any (λ pair. same_id id pair.id) row.pairs) (rows part) }
{}

/// What a node serves or boots is its newest incarnation.
pub fn serving_is_newest()
    ensures serves { (node capacity inc : ℕ) (history : List NodeEntry) → LegalNode node capacity history → IsTrue (serves inc (node_state history)) → newest history ≡ inc }
    ensures boots { (node capacity inc : ℕ) (history : List NodeEntry) → LegalNode node capacity history → IsTrue (boots inc (node_state history)) → newest history ≡ inc }
{}

/// An attempt acts only while its node serves as its incarnation. So while it does, the acts of the attempt in the whole
/// history are those of the service's part.
pub fn attempts_belong_to_incarnations()
    ensures served { (node capacity : ℕ) (a : Attempt) (history : List NodeEntry) (entry : NodeEntry) → LegalNode node capacity (history ++ entry ∷ []) → IsTrue (acts_on a entry.act) → (a.node ≡ node) × IsTrue (serves a.inc (node_state history)) }
    ensures part { (node capacity inc : ℕ) (a : Attempt) (history : List NodeEntry) → LegalNode node capacity history → IsTrue (serves inc (node_state history)) → a.inc ≡ inc → filter (λ entry. acts_on a entry.act) history ≡ filter (λ entry. acts_on a entry.act) (part history) }
    ensures last { (node capacity inc : ℕ) (a : Attempt) (key : List ℕ) (history : List NodeEntry) → LegalNode node capacity history → IsTrue (serves inc (node_state history)) → a.inc ≡ inc → last_value a key history ≡ last_value a key (part history) }
{}
