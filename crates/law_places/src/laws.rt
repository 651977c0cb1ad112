//! Laws of places and fronts, as calls that do nothing and promise them.

ghost use Rattle.std.specs.Prelude.{◌≡◌, ◌++◌, ◌≤◌, ℕ, List, Option, Some, IsTrue, length, take};
ghost use Rattle.aft_records.specs.declared.stored.Commit.{Commit};
ghost use Rattle.aft_model.specs.declared.caller.By.{By};
ghost use Rattle.aft_model.specs.declared.door.DoorEntry.{DoorEntry};
ghost use Rattle.aft_model.specs.declared.node.NodeAct.{NodeAct};
ghost use Rattle.aft_model.specs.declared.node.NodeAct.TheVariants.{Boot};
ghost use Rattle.aft_model.specs.declared.node.NodeEntry.{NodeEntry};
ghost use Rattle.aft_model.specs.declared.office.OfficeEntry.{OfficeEntry};
ghost use Rattle.aft_model.specs.declared.reply.Reply.{Reply};
ghost use Rattle.aft_model.specs.DoorKnowledge.{is_open};
ghost use Rattle.aft_model.specs.History.{at_place};
ghost use Rattle.aft_model.specs.LegalDoor.{Legal, may_follow};
ghost use Rattle.aft_model.specs.LegalNode.{LegalNode, may_follow_at};
ghost use Rattle.aft_model.specs.NodeSights.{has_seen, is_seen_node, may_come_at};
ghost use Rattle.aft_model.specs.Office.{is_legal_alone, is_legal_beside, may_be_next, may_come_beside};
ghost use Rattle.law_places.specs.Fronts.{never_fall, node_fronts, office_fronts};

/// An entry at a place of a legal history keeps its rule behind what stands before it.
pub fn rules_at_places()
    ensures door { (place : ℕ) (entry : DoorEntry) (history : List DoorEntry) → Legal history → at_place place history ≡ Some entry → IsTrue (may_follow (take place history) entry) }
    ensures node { (node capacity place : ℕ) (entry : NodeEntry) (history : List NodeEntry) → LegalNode node capacity history → at_place place history ≡ Some entry → IsTrue (may_follow_at node capacity (take place history) entry) }
    ensures node_sights { (node place : ℕ) (entry : NodeEntry) (door : List DoorEntry) (history : List NodeEntry) → IsTrue (is_seen_node node door history) → at_place place history ≡ Some entry → IsTrue (may_come_at node door (take place history) entry) }
    ensures office { (place : ℕ) (entry : OfficeEntry) (office : List OfficeEntry) → IsTrue (is_legal_alone office) → at_place place office ≡ Some entry → IsTrue (may_be_next (take place office) entry) }
    ensures office_sights { (place : ℕ) (entry : OfficeEntry) (door : List DoorEntry) (office : List OfficeEntry) → IsTrue (is_legal_beside door office) → at_place place office ≡ Some entry → IsTrue (may_come_beside door (take place office) entry) }
{}

/// What the entries of a node and of the office had seen at the door is so too when the door's history grows. The office
/// looks at what was shown before the door was opened, so for it the door has to be open.
pub fn seen_stays()
    ensures node { (node : ℕ) (door more : List DoorEntry) (history : List NodeEntry) → IsTrue (is_seen_node node door history) → IsTrue (is_seen_node node (door ++ more) history) }
    ensures office { (door more : List DoorEntry) (office : List OfficeEntry) → IsTrue (is_open door) → IsTrue (is_legal_beside door office) → IsTrue (is_legal_beside (door ++ more) office) }
{}

/// What one act of a node had seen at the door is so too for whoever has seen more of it, but for a boot, whose line's
/// further pages would count.
pub fn sights_grow()
    ensures { (node : ℕ) (by : By) (before : List NodeEntry) (act : NodeAct) (answer : Option Reply) (seen more : List DoorEntry) → ((inc : ℕ) (commits : List Commit) → act ≡ Boot inc commits → ⊥) → IsTrue (has_seen node seen by before act answer) → IsTrue (has_seen node (seen ++ more) by before act answer) }
{}

/// Who has seen more of a history has seen what others had, and more behind it.
pub fn seen_grows()
    ensures { (front later : ℕ) (door : List DoorEntry) → front ≤ later → (more : List DoorEntry) × (take later door ≡ take front door ++ more) }
{}

/// The fronts of a legal history of a node, and of the office, never fall.
pub fn fronts_never_fall()
    ensures node { (node capacity : ℕ) (history : List NodeEntry) → LegalNode node capacity history → IsTrue (never_fall (node_fronts history)) }
    ensures office { (office : List OfficeEntry) → IsTrue (is_legal_alone office) → IsTrue (never_fall (office_fronts office)) }
{}
