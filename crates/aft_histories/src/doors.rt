//! Histories that the door may have.

ghost use Rattle.aft_model.specs.LegalDoor.{Legal};
ghost use Rattle.aft_histories.specs.Legal.{empty_opening, full_opening, marked_opening, retired_opening, two_nodes, ordinary, settled, superseded, retired, record_absent, upgraded, forgot, orphan_deleted, other_kept};

/// The openings of an empty store and of one with a commit, and what transactions, the collection, an upgrade, the
/// forgetting of a UUID and the deletion of orphan versions do then.
#[tactic(auto, unfolding(crate::proofs::Stored::stored_forms))]
pub fn legal()
    ensures empty { Legal empty_opening }
    ensures full { Legal full_opening }
    ensures marked { Legal marked_opening }
    ensures gone { Legal retired_opening }
    ensures nodes { Legal two_nodes }
    ensures ordinary { Legal ordinary }
    ensures settled { Legal settled }
    ensures superseded { Legal superseded }
    ensures retired { Legal retired }
    ensures absent { Legal record_absent }
    ensures upgraded { Legal upgraded }
    ensures forgot { Legal forgot }
    ensures orphan_deleted { Legal orphan_deleted }
    ensures other_kept { Legal other_kept }
{}
