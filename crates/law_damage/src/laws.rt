//! Laws of damage, as calls that do nothing and promise them.

ghost use Rattle.std.specs.Prelude.{◌≡◌, ◌++◌, ◌∷◌, ℕ, Bool, IsTrue, List, Option, Some, []};
ghost use Rattle.aft_id.specs.declared.txn_id.TxnId.{TxnId};
ghost use Rattle.aft_keeper.specs.declared.keeper.KeeperAnswer.TheVariants.{Found};
ghost use Rattle.aft_keeper.specs.declared.keeper.KeeperCall.TheVariants.{Get};
ghost use Rattle.aft_records.specs.declared.stored.Commit.{Commit};
ghost use Rattle.aft_model.specs.declared.caller.Attempt.{Attempt};
ghost use Rattle.aft_model.specs.declared.door.DoorAct.TheVariants.{Call};
ghost use Rattle.aft_model.specs.declared.node.NodeEntry.{NodeEntry};
ghost use Rattle.aft_model.specs.declared.reply.Reply.TheVariants.{Damaged, Missing};
ghost use Rattle.aft_model.specs.declared.script.Line.{Line};
ghost use Rattle.aft_model.specs.Honest.{Honest};
ghost use Rattle.aft_model.specs.NodeState.{part};
ghost use Rattle.aft_model.specs.Readings.{records_in};
ghost use Rattle.aft_model.proofs.Histories.{In};
ghost use Rattle.aft_lines.specs.Advance.{leads_to};
ghost use Rattle.aft_lines.specs.Asked.{Asked, Ran};
ghost use Rattle.aft_lines.specs.CausesScans.{damaged_names};
ghost use Rattle.aft_lines.specs.CommitCourse.{Storing, gets_record};
ghost use Rattle.aft_lines.specs.CourseWords.{Ends};
ghost use Rattle.aft_lines.specs.FinishedText.{answers_of, line_of};
ghost use Rattle.aft_lines.specs.LegalTrace.{LegalTrace, act_of};
ghost use Rattle.aft_lines.specs.LineView.{fixed_by};
ghost use Rattle.aft_lines.specs.Lines.{lines};
ghost use Rattle.aft_lines.specs.Progress.{Progress};
ghost use Rattle.aft_lines.specs.Steps.{Made};
ghost use Rattle.aft_lines.specs.Turns.{AtDoor, AtNode, Turn};
ghost use Rattle.aft_lines.specs.Views.{view_of};
ghost use Rattle.law_finish.specs.Finishing.{finishing};
ghost use Rattle.law_claims.specs.Moments.{scene_of};
ghost use Rattle.law_runs.specs.Runs.{asking_of, line_among, run_steps};
ghost use Rattle.law_damage.specs.Paging.{gets_versions, is_get, looks_at_pages};
ghost use Rattle.law_damage.specs.Settling.{settling_at};

/// Where the store keeps what it acknowledged, starts, rounds of the manager and collections of a legal trace are shown no
/// damage, and so they don't answer that something is damaged.
pub fn pages_are_undamaged()
    ensures shown { (asked : Asked) (ran : Ran) (line : Line) → LegalTrace asked ran → Honest ran.trace.door → In line (lines asked) → IsTrue (looks_at_pages line.order) → damaged_names (view_of asked ran line) ≡ [] }
    ensures told { (asked : Asked) (ran : Ran) (line : Line) (name : List ℕ) → LegalTrace asked ran → Honest ran.trace.door → In line (lines asked) → IsTrue (looks_at_pages line.order) → In (Damaged name) (answers_of (line_of line) ran) → ⊥ }
{}

/// Where a line that has come to settle a doubt, or to get a record whose put failed, finds a record there, it is of the commit
/// that the line stores.
pub fn settlers_find_their_own()
    ensures { (asked : Asked) (ran : Ran) (line : Line) (before rest : List Made) (place node inc : ℕ) (name bytes : List ℕ) (storing : Storing) (c : Commit) → LegalTrace asked ran → Honest ran.trace.door → In line (lines asked) → run_steps ran ≡ before ++ record { by = line_of line; turn = AtDoor place (Call node inc (Get name) (Found bytes)) } ∷ rest → settling_at ((scene_of (asking_of asked ran) before).at (line_of line)) ≡ Some storing → IsTrue (gets_record storing node inc name) → In c (records_in (record { name = name; bytes = bytes })) → c ≡ storing.written.commit }
{}

/// Where an attempt has fixed a commit behind the first turn of a commit or an abort, the line settles none but that one, wherever it
/// comes.
pub fn settlers_settle_what_is_fixed()
    ensures { (aborts : Bool) (nodes : List ℕ) (ends : Ends) (held : Option Attempt) (node : ℕ) (before : List NodeEntry) (entry : NodeEntry) (line : List Turn) (position : Progress) (storing : Storing) (c : Commit) → IsTrue (act_of held entry.act) → fixed_by held (part (before ++ entry ∷ [])) ≡ Some c → leads_to (finishing aborts) nodes ends (AtNode node before entry ∷ line) ≡ Some position → settling_at position ≡ Some storing → storing.written.commit ≡ c }
{}

/// So commits and aborts of a legal trace, where the store keeps what it acknowledged, are shown no damage, and don't answer that
/// something is damaged; of lines with one client and number, this is said of the first.
pub fn settlers_are_undamaged()
    ensures shown { (asked : Asked) (ran : Ran) (line : Line) (aborts : Bool) → LegalTrace asked ran → Honest ran.trace.door → In line (lines asked) → line_among (line_of line) (lines asked) ≡ Some line → line.order ≡ finishing aborts → damaged_names (view_of asked ran line) ≡ [] }
    ensures told { (asked : Asked) (ran : Ran) (line : Line) (aborts : Bool) (name : List ℕ) → LegalTrace asked ran → Honest ran.trace.door → In line (lines asked) → line_among (line_of line) (lines asked) ≡ Some line → line.order ≡ finishing aborts → In (Damaged name) (answers_of (line_of line) ran) → ⊥ }
{}

/// So who answers that something is damaged, in a legal trace of a store that keeps what it acknowledged, is a get or a copy; and
/// who answers that a version is missing, a get.
pub fn damage_is_told_of_versions_alone()
    ensures damaged { (asked : Asked) (ran : Ran) (line : Line) (name : List ℕ) → LegalTrace asked ran → Honest ran.trace.door → In line (lines asked) → line_among (line_of line) (lines asked) ≡ Some line → In (Damaged name) (answers_of (line_of line) ran) → IsTrue (gets_versions line.order) }
    ensures missing { (asked : Asked) (ran : Ran) (line : Line) (id : TxnId) → LegalTrace asked ran → In line (lines asked) → In (Missing id) (answers_of (line_of line) ran) → IsTrue (is_get line.order) }
{}
