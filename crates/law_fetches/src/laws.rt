//! Laws of what is fetched, as calls that do nothing and promise them.

ghost use Rattle.std.specs.Prelude.{◌≡◌, ◌<◌, ◌≤◌, ◌++◌, ◌∷◌, ◌==◌, ℕ, List, [], IsFalse, IsTrue, Option, Some, length, take};
ghost use Rattle.aft_id.specs.declared.txn_id.TxnId.{TxnId};
ghost use Rattle.aft_keeper.specs.declared.keeper.KeeperAnswer.{KeeperAnswer};
ghost use Rattle.aft_keeper.specs.declared.keeper.KeeperCall.TheVariants.{Get};
ghost use Rattle.aft_model.specs.declared.caller.Attempt.{Attempt};
ghost use Rattle.aft_model.specs.declared.door.DoorAct.TheVariants.{Call};
ghost use Rattle.aft_model.specs.declared.door.DoorEntry.{DoorEntry};
ghost use Rattle.aft_model.specs.declared.node.NodeAct.TheVariants.{GiveUp};
ghost use Rattle.aft_model.specs.declared.node.NodeEntry.{NodeEntry};
ghost use Rattle.aft_model.specs.History.{each_after};
ghost use Rattle.aft_model.specs.NodeState.{node_state, part, serves};
ghost use Rattle.aft_model.specs.Readings.{version_name};
ghost use Rattle.aft_model.specs.ScanRun.{same_line};
ghost use Rattle.aft_model.proofs.Histories.{In};
ghost use Rattle.aft_lines.specs.Headline.{reads_own_in, reads_recorded_in};
ghost use Rattle.aft_lines.specs.Holding.{ends_open_fetch, picks_fetch};
ghost use Rattle.law_effects.specs.Effects.{Shows, effect_of};
ghost use Rattle.law_kept.specs.Kept.{Lawful};
ghost use Rattle.law_whole.specs.Values.{VersionIs};
ghost use Rattle.law_boots.specs.Beside.{Beside, backs_give_ups};
ghost use Rattle.law_fetches.specs.Ends.{EndsFetch, come_behind_picks};

/// Where each fetch that ends stood open, the id that a line fetched wasn't given up while the fetch stood open, nor before that in
/// the service; so each give-up of it stands behind the end, at a front that isn't below that of the end.
pub fn fetched_is_not_given_up()
    ensures { (node capacity : ℕ) (a : Attempt) (key : List ℕ) (id : TxnId) (door : List DoorEntry) (history more earlier later : List NodeEntry) (entry one : NodeEntry) → Lawful door → Beside node capacity door ((history ++ entry ∷ []) ++ more) → IsTrue (each_after (λ before e. ends_open_fetch (part before) e.by e.act) [] (history ++ entry ∷ [])) → EndsFetch a key id entry.act → (history ++ entry ∷ []) ++ more ≡ earlier ++ one ∷ later → one.act ≡ GiveUp id → IsTrue (serves a.inc (node_state earlier)) → one.front < entry.front → ⊥ }
{}

/// So where a get of the attempt's incarnation asks for the version behind the line's pick, and before the fetch ends, what it is
/// shown is the version, with the value that this has by the history.
pub fn fetched_is_there()
    ensures { (node capacity : ℕ) (a : Attempt) (key : List ℕ) (id : TxnId) (door : List DoorEntry) (history more : List NodeEntry) (seen after : List DoorEntry) (entry : NodeEntry) (got : DoorEntry) (answer : KeeperAnswer) (outcome : Option (List ℕ)) → IsFalse (node == 0) → Lawful door → Beside node capacity door ((history ++ entry ∷ []) ++ more) → IsTrue (backs_give_ups node ((history ++ entry ∷ []) ++ more) door) → IsTrue (each_after (λ before e. ends_open_fetch (part before) e.by e.act) [] (history ++ entry ∷ [])) → EndsFetch a key id entry.act → door ≡ seen ++ got ∷ after → ((e : NodeEntry) → In e history → IsTrue (same_line entry.by e.by) → IsTrue (picks_fetch a key id e.act) → e.front ≤ length seen) → length seen < entry.front → got.act ≡ Call node a.inc (Get (version_name key id)) answer → effect_of (version_name key id) got.act ≡ Shows outcome → (value : List ℕ) × (is : VersionIs key id value seen) × (outcome ≡ Some is.bytes) }
{}

/// So where each value came from a place that isn't before its line's pick, each get of the node reads what was recorded before and
/// answers the version's value; and it answers the attempt's own last put of the key, or what the attempt was told since that.
pub fn values_are_read()
    ensures recorded { (node capacity : ℕ) (door : List DoorEntry) (history : List NodeEntry) → IsFalse (node == 0) → Lawful door → Beside node capacity door history → IsTrue (backs_give_ups node history door) → IsTrue (each_after (λ before e. ends_open_fetch (part before) e.by e.act) [] history) → IsTrue (come_behind_picks history) → IsTrue (each_after (λ before e. reads_recorded_in (take e.front door) e.act e.answer) [] history) }
    ensures repeats { (node capacity : ℕ) (door : List DoorEntry) (history : List NodeEntry) → IsFalse (node == 0) → Lawful door → Beside node capacity door history → IsTrue (backs_give_ups node history door) → IsTrue (each_after (λ before e. ends_open_fetch (part before) e.by e.act) [] history) → IsTrue (come_behind_picks history) → IsTrue (each_after (λ before e. reads_own_in before e e.act) [] history) }
{}
