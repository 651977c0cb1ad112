//! Laws of the opened door, as calls that do nothing and promise them.

ghost use Rattle.std.specs.Prelude.{◌≡◌, ◌++◌, ◌∷◌, ℕ, List, [], IsTrue};
ghost use Rattle.aft_model.specs.declared.door.DoorAct.TheVariants.{Opened};
ghost use Rattle.aft_model.specs.declared.door.DoorEntry.{DoorEntry};
ghost use Rattle.aft_model.specs.Bytes.{is_uuid};
ghost use Rattle.law_kept.specs.Kept.{Kept, Lawful};

/// Where the door has just been opened, each UUID is kept.
pub fn kept_at_opened()
    ensures { (uuid : List ℕ) (history : List DoorEntry) (entry : DoorEntry) → IsTrue (is_uuid uuid) → Lawful (history ++ entry ∷ []) → entry.act ≡ Opened → Kept uuid (history ++ entry ∷ []) }
{}
