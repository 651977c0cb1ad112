//! Laws of claims over whole runs, as calls that do nothing and promise them.

ghost use Rattle.std.specs.Prelude.{◌≡◌, ◌++◌, ◌||◌, ◌∷◌, ◌≤◌, ◌<◌, Bool, IsFalse, IsTrue, List, [], ℕ};
ghost use Rattle.aft_model.specs.declared.caller.By.{By};
ghost use Rattle.aft_model.specs.declared.door.DoorAct.{DoorAct};
ghost use Rattle.aft_model.specs.declared.node.NodeAct.TheVariants.{Value};
ghost use Rattle.aft_model.specs.declared.node.NodeEntry.{NodeEntry};
ghost use Rattle.aft_model.specs.declared.office.OfficeEntry.{OfficeEntry};
ghost use Rattle.aft_model.specs.Attempts.{ends_fetch};
ghost use Rattle.aft_model.specs.Membership.{incarnation, is_up};
ghost use Rattle.aft_model.specs.NodeSights.{is_fenced};
ghost use Rattle.aft_model.specs.NodeState.{boots, node_state, serves};
ghost use Rattle.aft_model.specs.Office.{is_legal_alone};
ghost use Rattle.aft_model.specs.ScanRun.{same_line};
ghost use Rattle.aft_model.proofs.Histories.{In};
ghost use Rattle.aft_lines.specs.Asked.{Asked, Ran};
ghost use Rattle.aft_lines.specs.Holding.{ClaimsHeld, DeskHeld, FetchesStayOpen, picks_fetch};
ghost use Rattle.aft_lines.specs.LegalTrace.{LegalTrace, are_asks};
ghost use Rattle.aft_lines.specs.RunsSoFar.{RunsSoFar};
ghost use Rattle.aft_lines.specs.Steps.{Made, door_steps};
ghost use Rattle.aft_lines.specs.Turns.{AtDoor, turns};
ghost use Rattle.law_holders.specs.Rows.{is_of_node};
ghost use Rattle.law_claims.specs.Desk.{LiesAtDesk};
ghost use Rattle.law_claims.specs.Moments.{node_steps, scene_of};
ghost use Rattle.law_runs.specs.Runs.{asking_of, run_steps};
ghost use Rattle.law_held.specs.Collecting.{RunsUntilEnded};
ghost use Rattle.law_held.specs.Copies.{CopiersLie, CopiesStand, CrashesSpare, MarksBesideNone, copier_of, has_copier};
ghost use Rattle.law_held.specs.Desk.{LinesDiffer, desk_of, is_script};
ghost use Rattle.law_held.specs.Fenced.{fencing, fencing_ran};
ghost use Rattle.law_steps.specs.Histories.{history_in};
ghost use Rattle.law_held.specs.Fetching.{Fetch, KeepsFetches, fetch_of};
ghost use Rattle.law_held.specs.Owning.{Owns};
ghost use Rattle.law_held.specs.Standing.{ClaimsAreNew, GetsStand, LinesStand, RoundsStand, TurnsFind};
ghost use Rattle.law_held.specs.Starting.{StartsStand};
ghost use Rattle.law_held.specs.Twice.{twice, twice_ran};

/// At each moment of a run so far, and of a legal trace, the line that moves an attempt which commits or leaves owns it, and
/// a line that has only to end its attempt has let its claim go, unless the attempt's incarnation was fenced.
pub fn runs_own()
    ensures so_far { (asked : Asked) (ran : Ran) (made rest : List Made) → RunsSoFar asked ran → run_steps ran ≡ made ++ rest → Owns (scene_of (asking_of asked ran) made) }
    ensures legal { (asked : Asked) (ran : Ran) (made rest : List Made) → LegalTrace asked ran → run_steps ran ≡ made ++ rest → Owns (scene_of (asking_of asked ran) made) }
{}

/// So in a run so far, and in a legal trace, at each entry of a node each attempt of an incarnation that is up holds its UUID
/// if it runs or is in doubt, or if it commits or leaves by a line that hasn't released the UUID.
pub fn claims_are_held()
    ensures so_far { (asked : Asked) (ran : Ran) → RunsSoFar asked ran → ClaimsHeld ran.trace }
    ensures legal { (asked : Asked) (ran : Ran) → LegalTrace asked ran → ClaimsHeld ran.trace }
{}

/// At each moment of a run so far, and of a legal trace, an attempt has as many fetches that aren't over as lines that fetch
/// for it; and while its node serves its incarnation, each line that is at a fetch is one of these, and its fetch stood open
/// since it picked the version.
pub fn runs_keep_fetches()
    ensures so_far { (asked : Asked) (ran : Ran) (made rest : List Made) → RunsSoFar asked ran → run_steps ran ≡ made ++ rest → KeepsFetches (λ node. node_steps node made) (fetch_of (asking_of asked ran) made) }
    ensures legal { (asked : Asked) (ran : Ran) (made rest : List Made) → LegalTrace asked ran → run_steps ran ≡ made ++ rest → KeepsFetches (λ node. node_steps node made) (fetch_of (asking_of asked ran) made) }
{}

/// So in a run so far, and in a legal trace, each fetch that ends stood open since its line picked the version: its attempt
/// ran, and had read that.
pub fn fetches_stay_open()
    ensures so_far { (asked : Asked) (ran : Ran) → RunsSoFar asked ran → FetchesStayOpen ran.trace }
    ensures legal { (asked : Asked) (ran : Ran) → LegalTrace asked ran → FetchesStayOpen ran.trace }
{}

/// So in a run so far, and in a legal trace, what the line of a fetch that ends did at the door stands behind its pick and before the
/// end: at a place that isn't below the front of the pick, and is below that of the end. And a value comes from such a place.
pub fn gets_stand_between()
    ensures so_far { (asked : Asked) (ran : Ran) (number place : ℕ) (act : DoorAct) (before more : List NodeEntry) (entry pick : NodeEntry) (f : Fetch) → RunsSoFar asked ran → history_in number 1 ran.trace.nodes ≡ before ++ entry ∷ more → IsTrue (ends_fetch f.attempt entry.act) → In pick before → IsTrue (same_line entry.by pick.by) → IsTrue (picks_fetch f.attempt f.key f.id pick.act) → In (AtDoor place act) (turns entry.by ran.trace) → (pick.front ≤ place) × (place < entry.front) }
    ensures legal { (asked : Asked) (ran : Ran) (number place : ℕ) (act : DoorAct) (before more : List NodeEntry) (entry pick : NodeEntry) (f : Fetch) → LegalTrace asked ran → history_in number 1 ran.trace.nodes ≡ before ++ entry ∷ more → IsTrue (ends_fetch f.attempt entry.act) → In pick before → IsTrue (same_line entry.by pick.by) → IsTrue (picks_fetch f.attempt f.key f.id pick.act) → In (AtDoor place act) (turns entry.by ran.trace) → (pick.front ≤ place) × (place < entry.front) }
    ensures value_so_far { (asked : Asked) (ran : Ran) (number place : ℕ) (kept : Bool) (before more : List NodeEntry) (entry : NodeEntry) (f : Fetch) → RunsSoFar asked ran → history_in number 1 ran.trace.nodes ≡ before ++ entry ∷ more → entry.act ≡ Value f.attempt f.key f.id place kept → (act : DoorAct) × In (AtDoor place act) (turns entry.by ran.trace) }
    ensures value_legal { (asked : Asked) (ran : Ran) (number place : ℕ) (kept : Bool) (before more : List NodeEntry) (entry : NodeEntry) (f : Fetch) → LegalTrace asked ran → history_in number 1 ran.trace.nodes ≡ before ++ entry ∷ more → entry.act ≡ Value f.attempt f.key f.id place kept → (act : DoorAct) × In (AtDoor place act) (turns entry.by ran.trace) }
{}

/// At each moment of a run so far, and of a legal trace, each UUID lies at the desk as the rounds of orphans hold it: either
/// none holds it, and the office has no claim of it that stands; or just one does, by the place of the office's claim.
pub fn runs_keep_desk()
    ensures so_far { (asked : Asked) (ran : Ran) (made rest : List Made) (uuid : List ℕ) → RunsSoFar asked ran → run_steps ran ≡ made ++ rest → LiesAtDesk (door_steps made) (desk_of (asking_of asked ran) made) uuid }
    ensures legal { (asked : Asked) (ran : Ran) (made rest : List Made) (uuid : List ℕ) → LegalTrace asked ran → run_steps ran ≡ made ++ rest → LiesAtDesk (door_steps made) (desk_of (asking_of asked ran) made) uuid }
{}

/// So in a run so far of lines that differ, and in any legal trace, the office holds each UUID that it has claimed by just the
/// place of the one line that holds it, or not at all where no line does.
pub fn desk_is_held()
    ensures so_far { (asked : Asked) (ran : Ran) → RunsSoFar asked ran → LinesDiffer asked → DeskHeld asked ran }
    ensures legal { (asked : Asked) (ran : Ran) → LegalTrace asked ran → DeskHeld asked ran }
{}

/// At each moment of a run so far whose crashes fence no copier, and of a legal trace, either no copy has a copier up, and none
/// is; or just one copy has, and its copier alone is up.
pub fn runs_keep_copiers()
    ensures so_far { (asked : Asked) (ran : Ran) (made rest : List Made) → RunsSoFar asked ran → CrashesSpare asked ran → run_steps ran ≡ made ++ rest → CopiersLie (door_steps made) (copier_of (asking_of asked ran) made) }
    ensures legal { (asked : Asked) (ran : Ran) (made rest : List Made) → LegalTrace asked ran → run_steps ran ≡ made ++ rest → CopiersLie (door_steps made) (copier_of (asking_of asked ran) made) }
{}

/// So in the end of such a run so far, if its lines differ, the copier of each copy is up where that has come; the crashes of a
/// legal trace fence no copier; and in its end none is up.
pub fn copies_stand()
    ensures so_far { (asked : Asked) (ran : Ran) → RunsSoFar asked ran → LinesDiffer asked → CrashesSpare asked ran → CopiesStand asked ran }
    ensures spared { (asked : Asked) (ran : Ran) → LegalTrace asked ran → CrashesSpare asked ran }
    ensures none_left { (asked : Asked) (ran : Ran) → LegalTrace asked ran → IsFalse (has_copier ran.trace.door) }
{}

/// A run so far in which a crash that is on its way has fenced a copier is none in which the copier of each copy is up.
pub fn a_crash_fences_a_copier()
    ensures runs { RunsSoFar fencing fencing_ran }
    ensures fenced { CopiesStand fencing fencing_ran → ⊥ }
{}

/// In a run so far, and in a legal trace, no full marker is put while a copier is up.
pub fn marks_stand_alone()
    ensures so_far { (asked : Asked) (ran : Ran) → RunsSoFar asked ran → MarksBesideNone ran.trace.door }
    ensures legal { (asked : Asked) (ran : Ran) → LegalTrace asked ran → MarksBesideNone ran.trace.door }
{}

/// The lines of a run differ where those of its script are of clients and each is numbered behind those before it, as in every
/// script that was read, and a session's lines are such as it may ask.
pub fn numbered_lines_differ()
    ensures { (asked : Asked) → IsTrue (is_script asked.script.lines) → IsTrue (are_asks asked) → LinesDiffer asked }
{}

/// A run so far whose script has one line twice, a round of orphans that holds a UUID, is none in which the office holds just
/// what lines hold for it.
pub fn one_line_twice()
    ensures runs { RunsSoFar twice twice_ran }
    ensures unheld { DeskHeld twice twice_ran → ⊥ }
{}

/// At each moment of a run so far, and of a legal trace, an incarnation that its node serves is up, or was fenced.
pub fn served_are_up()
    ensures so_far { (asked : Asked) (ran : Ran) (made rest : List Made) (node inc : ℕ) → RunsSoFar asked ran → run_steps ran ≡ made ++ rest → IsTrue (serves inc (node_state (node_steps node made))) → IsTrue (is_up (incarnation node inc) (door_steps made) || is_fenced (incarnation node inc) (door_steps made)) }
    ensures legal { (asked : Asked) (ran : Ran) (made rest : List Made) (node inc : ℕ) → LegalTrace asked ran → run_steps ran ≡ made ++ rest → IsTrue (serves inc (node_state (node_steps node made))) → IsTrue (is_up (incarnation node inc) (door_steps made) || is_fenced (incarnation node inc) (door_steps made)) }
{}

/// At each moment of a run so far, and of a legal trace, an incarnation of a node that is up is booting, or its node serves it.
pub fn ups_are_booting()
    ensures so_far { (asked : Asked) (ran : Ran) (made rest : List Made) (node inc : ℕ) → RunsSoFar asked ran → run_steps ran ≡ made ++ rest → IsTrue (is_of_node (incarnation node inc)) → IsTrue (is_up (incarnation node inc) (door_steps made)) → IsTrue (boots inc (node_state (node_steps node made)) || serves inc (node_state (node_steps node made))) }
    ensures legal { (asked : Asked) (ran : Ran) (made rest : List Made) (node inc : ℕ) → LegalTrace asked ran → run_steps ran ≡ made ++ rest → IsTrue (is_of_node (incarnation node inc)) → IsTrue (is_up (incarnation node inc) (door_steps made)) → IsTrue (boots inc (node_state (node_steps node made)) || serves inc (node_state (node_steps node made))) }
{}

/// So in the end of a run so far, where a start is to bring an incarnation up that wasn't fenced, no other of its node is up.
pub fn starts_stand()
    ensures { (asked : Asked) (ran : Ran) → RunsSoFar asked ran → StartsStand asked ran }
{}

/// In a run so far, and in a legal trace, whoever claims a UUID isn't its holder already.
pub fn claims_are_new()
    ensures so_far { (asked : Asked) (ran : Ran) → RunsSoFar asked ran → ClaimsAreNew ran.trace.door }
    ensures legal { (asked : Asked) (ran : Ran) → LegalTrace asked ran → ClaimsAreNew ran.trace.door }
{}

/// Where the lines of a run so far differ, each stands in the end as it has come. Unless its incarnation was fenced, the attempt
/// of a begin, a forget, a commit or an abort does what the line's position asks, is of its UUID, and holds that just where the
/// line has claimed it and not let it go. The attempt of a get that fetches runs and has read the version, while its node
/// serves its incarnation. And the office holds what a round of orphans holds, by the place of the round's claim.
pub fn lines_stand()
    ensures movers { (asked : Asked) (ran : Ran) → RunsSoFar asked ran → LinesDiffer asked → LinesStand asked ran }
    ensures gets { (asked : Asked) (ran : Ran) → RunsSoFar asked ran → LinesDiffer asked → GetsStand asked ran }
    ensures rounds { (asked : Asked) (ran : Ran) → RunsSoFar asked ran → LinesDiffer asked → RoundsStand asked ran }
{}

/// In a run so far, and in a legal trace, of lines that differ, each turn at a node of a begin, a forget, a commit or an abort
/// finds its attempt as the line left it, unless it has seen that the attempt's incarnation was fenced.
pub fn turns_find()
    ensures so_far { (asked : Asked) (ran : Ran) → RunsSoFar asked ran → LinesDiffer asked → TurnsFind asked ran }
    ensures legal { (asked : Asked) (ran : Ran) → LegalTrace asked ran → LinesDiffer asked → TurnsFind asked ran }
{}

/// In each history of the office a line's collection runs just while the line has begun it and not ended it.
pub fn collections_run()
    ensures { (office : List OfficeEntry) (by : By) → IsTrue (is_legal_alone office) → RunsUntilEnded by office }
{}
