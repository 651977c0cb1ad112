//! Laws of claims, as calls that do nothing and promise them.

ghost use Rattle.std.specs.Prelude.{◌≡◌, ◌++◌, ◌||◌, ◌∷◌, ℕ, IsFalse, IsTrue, List, [], None, Option, Some, false, length};
ghost use Rattle.aft_id.specs.declared.txn_id.TxnId.{TxnId};
ghost use Rattle.aft_records.specs.declared.stored.Commit.{Commit};
ghost use Rattle.aft_records.specs.Commits.{has_id};
ghost use Rattle.aft_model.specs.declared.caller.Attempt.{Attempt};
ghost use Rattle.aft_model.specs.declared.caller.By.{By};
ghost use Rattle.aft_model.specs.declared.door.DoorAct.{DoorAct};
ghost use Rattle.aft_model.specs.declared.door.DoorEntry.{DoorEntry};
ghost use Rattle.aft_model.specs.declared.node.NodeEntry.{NodeEntry};
ghost use Rattle.aft_model.specs.declared.script.Command.{Command};
ghost use Rattle.aft_model.specs.declared.script.Command.TheVariants.{Backup, Orphans};
ghost use Rattle.aft_model.specs.Attempts.{AttemptState, attempt_after, attempt_state, is_gone, is_in_doubt, is_running, uuid_after, uuid_of};
ghost use Rattle.aft_model.specs.Bytes.{HasBytes, is_uuid};
ghost use Rattle.aft_model.specs.Claims.{claim_place, holds};
ghost use Rattle.aft_model.specs.Known.{holds_id};
ghost use Rattle.aft_model.specs.LegalDoor.{Legal};
ghost use Rattle.aft_model.specs.LegalNode.{LegalNode};
ghost use Rattle.aft_model.specs.Membership.{Incarnation, incarnation, is_up, the_office};
ghost use Rattle.aft_model.specs.NodeSights.{has_seen, is_fenced};
ghost use Rattle.aft_model.specs.NodeState.{IsServing, Service, node_state, part, serves};
ghost use Rattle.aft_model.specs.ScanRun.{same_line};
ghost use Rattle.aft_model.specs.Stages.{Stage, is_in_stage, put_after, put_under_claim, stage, stage_after};
ghost use Rattle.aft_lines.specs.Advance.{advance, desk_behind};
ghost use Rattle.aft_lines.specs.CourseWords.{Ends, caller_of};
ghost use Rattle.aft_lines.specs.Holding.{held_at};
ghost use Rattle.aft_lines.specs.Makes.{makes_at_door, makes_at_node};
ghost use Rattle.aft_lines.specs.Progress.{AtDesk, NotBegun, Progress, Stopped};
ghost use Rattle.aft_lines.specs.Steps.{Made};
ghost use Rattle.aft_lines.specs.Turns.{AtDoor, AtNode, Turn};
ghost use Rattle.law_holders.specs.Rows.{is_idle, is_of_attempt, is_of_node};
ghost use Rattle.law_claims.specs.Copying.{copier_at, copier_behind, is_of_copier};
ghost use Rattle.law_claims.specs.Desk.{LiesAtDesk, is_at_desk, is_desk_row, is_of_desk};
ghost use Rattle.law_claims.specs.Doing.{attempt_at, has_claim_at, is_left_so, is_the, keeps_row, moves, rests};
ghost use Rattle.law_claims.specs.Moments.{Asking, MayCome, scene_of};
ghost use Rattle.law_claims.specs.Scenes.{AreLegal, DoorStep, Keeps, NodeStep, Scene, doing, named};

/// A turn at the door of a line that moves an attempt leaves the attempt doing what it should.
pub fn attempts_stay()
    ensures { (command : Command) (nodes uuid : List ℕ) (ends : Ends) (position next : Progress) (place : ℕ) (act : DoorAct) (a : Attempt) (state : AttemptState) → IsTrue (is_of_attempt command) → IsTrue (moves position a state uuid) → advance command nodes ends position (AtDoor place act) ≡ Some next → IsTrue (moves next a state uuid) }
{}

/// The first turn of such a line, if it takes an attempt that rested, moves it and keeps its row.
pub fn attempts_go_along()
    ensures { (command : Command) (nodes : List ℕ) (ends : Ends) (node capacity inc : ℕ) (before : List NodeEntry) (entry : NodeEntry) (next : Progress) (a : Attempt) (stage : Stage) (puts : List Commit) → IsTrue (is_of_attempt command) → LegalNode node capacity (before ++ entry ∷ []) → IsTrue (serves inc (node_state before)) → IsTrue (serves inc (node_state (before ++ entry ∷ []))) → advance command nodes ends NotBegun (AtNode node before entry) ≡ Some next → attempt_at next ≡ Some a → IsTrue (rests (attempt_state a (part before)) stage puts) → IsTrue (moves next a (attempt_state a (part (before ++ entry ∷ []))) (uuid_of a (part (before ++ entry ∷ [])))) × IsTrue (keeps_row next stage puts) }
{}

/// A later turn at a node of such a line lets its attempt rest or go along, with its row; or it stopped with it; or it has
/// seen that the attempt's incarnation was shut out.
pub fn attempts_part()
    ensures { (command : Command) (nodes uuid : List ℕ) (ends : Ends) (node : ℕ) (before : List NodeEntry) (entry : NodeEntry) (position next : Progress) (a : Attempt) (state : AttemptState) (stage : Stage) (puts : List Commit) → IsTrue (is_of_attempt command) → IsTrue (moves position a state uuid) → IsTrue (keeps_row position stage puts) → advance command nodes ends position (AtNode node before entry) ≡ Some next → IsTrue (ends.is_shut_out (caller_of a) entry.front || is_left_so next a (attempt_after a state entry.act) (uuid_after a uuid entry.act) stage puts) }
{}

/// Who was fenced isn't up. An incarnation that is up holds each UUID for which its stage isn't idle, and no other; and such
/// a UUID is sixteen bytes.
pub fn stages_hold()
    ensures fenced { (who : Incarnation) (history : List DoorEntry) → Legal history → IsTrue (is_fenced who history) → IsFalse (is_up who history) }
    ensures busy { (who : Incarnation) (uuid : List ℕ) (history : List DoorEntry) → Legal history → IsTrue (is_up who history) → IsFalse (is_idle (stage who uuid history)) → IsTrue (holds who uuid history) }
    ensures held { (who : Incarnation) (uuid : List ℕ) (history : List DoorEntry) → IsTrue (holds who uuid history) → IsFalse (is_idle (stage who uuid history)) }
    ensures uuid { (who : Incarnation) (uuid : List ℕ) (history : List DoorEntry) → HasBytes history → IsFalse (is_idle (stage who uuid history)) → IsTrue (is_uuid uuid) }
{}

/// What a moment keeps tells who holds a UUID, of an incarnation that is up: an attempt that runs or is in doubt holds its own;
/// one that a line moves does what it should, no other line moves it, and it holds its UUID just where the line has claimed
/// that and not let it go; and a UUID of which no attempt is there isn't held.
pub fn moments_tell()
    ensures resting { (scene : Scene) (a : Attempt) → Legal scene.door → Keeps scene → IsTrue (is_of_node (caller_of a)) → IsTrue (is_up (caller_of a) scene.door) → IsTrue (is_running (doing scene a) || is_in_doubt (doing scene a)) → IsTrue (holds (caller_of a) (named scene a) scene.door) }
    ensures moved { (scene : Scene) (by : By) (a : Attempt) → Legal scene.door → Keeps scene → attempt_at (scene.at by) ≡ Some a → IsTrue (is_up (caller_of a) scene.door) → IsTrue (moves (scene.at by) a (doing scene a) (named scene a)) × (holds (caller_of a) (named scene a) scene.door ≡ has_claim_at (scene.at by)) × ((other : By) → IsFalse (same_line by other) → IsFalse (is_the a (attempt_at (scene.at other)))) }
    ensures none { (scene : Scene) (who : Incarnation) (uuid : List ℕ) → Legal scene.door → Keeps scene → IsTrue (is_of_node who) → IsTrue (is_up who scene.door) → ((a : Attempt) → caller_of a ≡ who → named scene a ≡ uuid → IsTrue (is_gone (doing scene a))) → IsFalse (holds who uuid scene.door) }
{}

/// Where nothing was done yet, all of what each moment keeps is so.
pub fn claims_begin()
    ensures { (scene : Scene) → scene.door ≡ [] → ((node : ℕ) → scene.node node ≡ []) → ((by : By) → attempt_at (scene.at by) ≡ None) → Keeps scene }
{}

/// What each moment keeps of attempts and claims, it keeps behind one entry more at the door: of a line that moves an attempt,
/// by its next position; of any other line, if it makes what lines of its command make; and of whatever leaves the stages of
/// the nodes' incarnations, and what was put under their claims.
pub fn claims_stay_at_door()
    ensures moved { (capacity : ℕ) (command : Command) (nodes : List ℕ) (ends : Ends) (place : ℕ) (entry : DoorEntry) (before after : Scene) → Legal (before.door ++ entry ∷ []) → HasBytes (before.door ++ entry ∷ []) → AreLegal capacity before → DoorStep entry before after → IsTrue (is_of_attempt command) → advance command nodes ends (before.at entry.by) (AtDoor place entry.act) ≡ Some (after.at entry.by) → Keeps before → Keeps after }
    ensures bystander { (command : Command) (entry : DoorEntry) (before after : Scene) → DoorStep entry before after → is_of_attempt command ≡ false → IsTrue (makes_at_door command entry.act) → attempt_at (before.at entry.by) ≡ None → attempt_at (after.at entry.by) ≡ None → Keeps before → Keeps after }
    ensures quiet { (entry : DoorEntry) (before after : Scene) → DoorStep entry before after → attempt_at (before.at entry.by) ≡ None → attempt_at (after.at entry.by) ≡ None → ((who : Incarnation) (uuid : List ℕ) (stage : Stage) → IsTrue (is_of_node who) → stage_after who uuid stage entry.act ≡ stage) → ((who : Incarnation) (uuid : List ℕ) (puts : List Commit) → IsTrue (is_of_node who) → put_after who uuid puts entry.act ≡ puts) → Keeps before → Keeps after }
{}

/// And behind one entry more at a node, so too, where whoever is shut out, or stopped, was fenced in what the entry has seen;
/// and behind whatever leaves what attempts do, and their UUIDs.
pub fn claims_stay_at_nodes()
    ensures moved { (node capacity : ℕ) (command : Command) (nodes : List ℕ) (ends : Ends) (entry : NodeEntry) (before after : Scene) → ((inc : ℕ) → IsTrue (is_of_node (incarnation node inc))) → LegalNode node capacity (before.node node ++ entry ∷ []) → IsTrue (has_seen node before.door entry.by (before.node node) entry.act entry.answer) → NodeStep node entry before after → IsTrue (is_of_attempt command) → advance command nodes ends (before.at entry.by) (AtNode node (before.node node) entry) ≡ Some (after.at entry.by) → ((who : Incarnation) → IsTrue (ends.is_shut_out who entry.front) → IsTrue (is_fenced who before.door)) → ((a : Attempt) → after.at entry.by ≡ Stopped a → IsTrue (is_fenced (caller_of a) before.door)) → Keeps before → Keeps after }
    ensures bystander { (node capacity : ℕ) (command : Command) (entry : NodeEntry) (before after : Scene) → LegalNode node capacity (before.node node ++ entry ∷ []) → IsTrue (has_seen node before.door entry.by (before.node node) entry.act entry.answer) → NodeStep node entry before after → is_of_attempt command ≡ false → IsTrue (makes_at_node command entry.act) → attempt_at (before.at entry.by) ≡ None → attempt_at (after.at entry.by) ≡ None → Keeps before → Keeps after }
    ensures quiet { (node capacity : ℕ) (entry : NodeEntry) (before after : Scene) → LegalNode node capacity (before.node node ++ entry ∷ []) → IsTrue (has_seen node before.door entry.by (before.node node) entry.act entry.answer) → NodeStep node entry before after → attempt_at (before.at entry.by) ≡ None → attempt_at (after.at entry.by) ≡ None → ((a : Attempt) (state : AttemptState) → attempt_after a state entry.act ≡ state) → ((a : Attempt) (uuid : List ℕ) → uuid_after a uuid entry.act ≡ uuid) → Keeps before → Keeps after }
{}

/// Where a moment keeps them, each put that comes next, and each delete of a marker, is made in its stage.
pub fn puts_are_in_stage()
    ensures moved { (capacity : ℕ) (command : Command) (nodes : List ℕ) (ends : Ends) (place : ℕ) (entry : DoorEntry) (before after : Scene) → Legal (before.door ++ entry ∷ []) → HasBytes (before.door ++ entry ∷ []) → AreLegal capacity before → DoorStep entry before after → IsTrue (is_of_attempt command) → advance command nodes ends (before.at entry.by) (AtDoor place entry.act) ≡ Some (after.at entry.by) → Keeps before → IsTrue (is_in_stage before.door entry.act) }
    ensures bystander { (command : Command) (history : List DoorEntry) (act : DoorAct) → is_of_attempt command ≡ false → IsTrue (makes_at_door command act) → IsTrue (is_in_stage history act) }
{}

/// A node that serves, holds on to no commit of an id and gives it up, and whose incarnation wasn't fenced, has put no record
/// of the id under a claim that stands.
pub fn give_ups_are_unheld()
    ensures { (node capacity : ℕ) (scene : Scene) (serving : Service) (id : TxnId) → LegalNode node capacity (scene.node node) → node_state (scene.node node) ≡ IsServing serving → IsFalse (holds_id id serving) → Keeps scene → IsTrue (is_of_node (incarnation node serving.inc)) → IsFalse (is_fenced (incarnation node serving.inc) scene.door) → IsFalse (has_id id (put_under_claim (incarnation node serving.inc) id.uuid scene.door)) }
{}

/// Behind steps that each are made and come by their rule, the moment keeps all of this, and the nodes' histories are legal.
pub fn moments_keep()
    ensures { (asking : Asking) (capacity : ℕ) (made rest : List Made) → MayCome asking capacity [] (made ++ rest) → Keeps (scene_of asking made) × AreLegal capacity (scene_of asking made) }
{}

/// A round of orphans holds at most one UUID for the office: it claims, as the office, only while it holds none, and lets go
/// only what it holds; and its next position holds what the turn leaves.
pub fn desk_follows()
    ensures { (key nodes : List ℕ) (ends : Ends) (position next : Progress) (turn : Turn) → IsTrue (is_desk_row position) → advance (Orphans key) nodes ends position turn ≡ Some next → IsTrue (is_desk_row next) × (held_at next ≡ desk_behind (held_at position) turn) × IsTrue (is_at_desk (held_at position) turn) }
{}

/// Each UUID lies at the desk as lines hold it, behind one entry more: of a round of orphans, which then holds what the turn
/// leaves, and of any other line, if it is no claim and no release by the office.
pub fn desk_stays()
    ensures round { (door : List DoorEntry) (entry : DoorEntry) (by : By) (desk after : By → Option AtDesk) (uuid : List ℕ) → Legal (door ++ entry ∷ []) → IsTrue (is_at_desk (desk by) (AtDoor (length door) entry.act)) → after by ≡ desk_behind (desk by) (AtDoor (length door) entry.act) → ((other : By) → IsFalse (same_line by other) → after other ≡ desk other) → LiesAtDesk door desk uuid → LiesAtDesk (door ++ entry ∷ []) after uuid }
    ensures other { (door : List DoorEntry) (entry : DoorEntry) (desk after : By → Option AtDesk) (uuid : List ℕ) → Legal (door ++ entry ∷ []) → is_of_desk entry.act ≡ false → ((by : By) → after by ≡ desk by) → LiesAtDesk door desk uuid → LiesAtDesk (door ++ entry ∷ []) after uuid }
{}

/// Where each UUID lies so, the office holds what a line holds for it, and by the place of that line's claim.
pub fn desk_tells()
    ensures { (door : List DoorEntry) (desk : By → Option AtDesk) (by : By) (held : AtDesk) → Legal door → ((uuid : List ℕ) → LiesAtDesk door desk uuid) → desk by ≡ Some held → IsTrue (holds the_office held.uuid door) × (claim_place held.uuid door ≡ Some held.place) }
{}

/// A copy has at most one copier up: one comes up only while it has none, it fences that alone, and its next position has up
/// what the turn leaves.
pub fn copier_follows()
    ensures { (nodes : List ℕ) (ends : Ends) (position next : Progress) (turn : Turn) → advance Backup nodes ends position turn ≡ Some next → (copier_at next ≡ copier_behind (copier_at position) turn) × IsTrue (is_of_copier (copier_at position) turn) }
{}
