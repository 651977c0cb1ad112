//! Laws of pages, as calls that do nothing and promise them.

ghost use Rattle.std.specs.Prelude.{◌≡◌, ◌++◌, ℕ, List, [], ◌∷◌, Some, None, IsTrue};
ghost use Rattle.aft_keeper.specs.declared.keeper.KeeperAnswer.TheVariants.{Page};
ghost use Rattle.aft_keeper.specs.declared.keeper.KeeperCall.TheVariants.{Scan};
ghost use Rattle.aft_keeper.specs.declared.keeper.Pair.{Pair};
ghost use Rattle.aft_keeper.specs.Contents.{bytes_at, is_scanned};
ghost use Rattle.aft_model.specs.declared.caller.By.{By};
ghost use Rattle.aft_model.specs.declared.door.DoorAct.TheVariants.{Call};
ghost use Rattle.aft_model.specs.declared.door.DoorEntry.{DoorEntry};
ghost use Rattle.aft_model.specs.Evidence.{covers};
ghost use Rattle.aft_model.specs.Honest.{Honest, may_be};
ghost use Rattle.aft_model.specs.LegalDoor.{Legal, ascends};
ghost use Rattle.aft_model.specs.MayHold.{OneOf, may_hold};
ghost use Rattle.aft_model.specs.Membership.{Incarnation};
ghost use Rattle.aft_model.specs.ScanRun.{ScanPage, is_scan_run, scan_pages};
ghost use Rattle.law_scans.specs.Pages.{are_pages, is_covered, listed_on};

/// A whole run covers each name of its prefix. What it lists ascends by name, so it lists each name once.
pub fn runs_cover()
    ensures covers { (prefix name : List ℕ) (pages : List ScanPage) → IsTrue (are_pages prefix pages) → IsTrue (is_scan_run pages) → IsTrue (is_scanned prefix [] name) → IsTrue (is_covered prefix name pages) }
    ensures once { (prefix : List ℕ) (pages : List ScanPage) → IsTrue (are_pages prefix pages) → IsTrue (is_scan_run pages) → IsTrue (ascends (listed_on pages)) }
{}

/// The pages that a legal history shows to a caller of one line are ones that a store may answer.
pub fn pages_are_answers()
    ensures { (who : Incarnation) (by : By) (prefix : List ℕ) (history : List DoorEntry) → Legal history → IsTrue (are_pages prefix (scan_pages who by prefix history)) }
{}

/// Where the store keeps what it acknowledged, a page shows of each name that it covers something that the name may
/// hold: what it surely holds, with those bytes, and nothing where it is surely absent.
pub fn pages_tell()
    ensures possible { (name prefix after : List ℕ) (node inc limit : ℕ) (by : By) (pairs : List Pair) (history more : List DoorEntry) → Honest (history ++ record { by = by; act = Call node inc (Scan prefix after limit) (Page pairs) } ∷ more) → IsTrue (covers prefix after limit pairs name) → IsTrue (may_be (may_hold name history) (bytes_at name pairs)) }
    ensures there { (name bytes prefix after : List ℕ) (node inc limit : ℕ) (by : By) (pairs : List Pair) (history more : List DoorEntry) → Honest (history ++ record { by = by; act = Call node inc (Scan prefix after limit) (Page pairs) } ∷ more) → IsTrue (covers prefix after limit pairs name) → may_hold name history ≡ OneOf (Some bytes ∷ []) → bytes_at name pairs ≡ Some bytes }
    ensures absent { (name prefix after : List ℕ) (node inc limit : ℕ) (by : By) (pairs : List Pair) (history more : List DoorEntry) → Honest (history ++ record { by = by; act = Call node inc (Scan prefix after limit) (Page pairs) } ∷ more) → IsTrue (covers prefix after limit pairs name) → may_hold name history ≡ OneOf (None ∷ []) → bytes_at name pairs ≡ None }
{}
