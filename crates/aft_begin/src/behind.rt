//! How far a look leads.

ghost use Rattle.aft_begin.specs.Calls.{shows_fault};
ghost use Rattle.aft_begin.specs.Made.{told_fault_at};
ghost use Rattle.aft_begin.specs.Seen.{MayShow};
ghost use Rattle.aft_begin.specs.View.{FitsAt, behind_found, behind_look, left_at};
ghost use Rattle.aft_begin.specs.declared.stage.Stage.TheVariants as stages;
ghost use Rattle.std.specs.Prelude.{◌≡◌, ◌<◌, false};

use crate::aim::Aim;
use crate::looked::Looked;
use crate::sought::Sought;
use crate::stage::Stage;
use aft_id::TxnId;
use aft_model::{Attempt, Reply};
use uuid::Uuid;

/// How far a look leads that showed this.
pub(crate) fn behind(
    aim: Aim,
    attempt: Attempt,
    uuid: Uuid,
    sought: Sought,
    looked: Looked,
) -> Stage
    requires may { MayShow uuid looked }
    ensures leads { result ≡ behind_look aim attempt uuid sought looked }
    ensures fits { FitsAt aim attempt.node uuid result }
    ensures left { left_at aim result < left_at aim (stages.Seeks attempt sought) }
    ensures fault { told_fault_at result ≡ shows_fault looked }
{
    match looked {
        Looked::Stops(reply) => Stage::LetsGo { attempt, reply },
        Looked::Shows { id, short } => found(aim, attempt, uuid, sought, id, short),
        Looked::Nothing => match sought {
            Sought::Record => Stage::Seeks {
                attempt,
                sought: Sought::Marker,
            },
            Sought::Marker => found_neither(aim, attempt, uuid),
        },
    }
}

/// The record or the marker of an id was found. A begin is answered that the id is committed. A forget deletes a short marker, and
/// is answered of any other that it is kept.
fn found(aim: Aim, attempt: Attempt, uuid: Uuid, sought: Sought, id: TxnId, short: bool) -> Stage
    requires own { id.uuid ≡ uuid }
    ensures leads { result ≡ behind_found aim attempt sought id short }
    ensures fits { FitsAt aim attempt.node uuid result }
    ensures left { left_at aim result < left_at aim (stages.Seeks attempt sought) }
    ensures fault { told_fault_at result ≡ false }
{
    match aim {
        Aim::Begin => Stage::LetsGo {
            attempt,
            reply: Reply::Committed(id),
        },
        Aim::Forget => found_to_forget(attempt, uuid, sought, id, short),
    }
}

/// The same of a forget.
fn found_to_forget(attempt: Attempt, uuid: Uuid, sought: Sought, id: TxnId, short: bool) -> Stage
    requires own { id.uuid ≡ uuid }
    ensures leads { result ≡ behind_found Aim.Forget attempt sought id short }
    ensures fits { FitsAt Aim.Forget attempt.node uuid result }
    ensures left { left_at Aim.Forget result < left_at Aim.Forget (stages.Seeks attempt sought) }
    ensures fault { told_fault_at result ≡ false }
{
    match sought {
        Sought::Marker if short => Stage::Forgets { attempt, id },
        _ => Stage::LetsGo {
            attempt,
            reply: Reply::Kept(id),
        },
    }
}

/// Neither record nor marker was found: the attempt of a begin may run, and a forget is answered that the UUID is unknown.
fn found_neither(aim: Aim, attempt: Attempt, uuid: Uuid) -> Stage
    ensures leads { result ≡ behind_look aim attempt uuid Sought.Marker Looked.Nothing }
    ensures fits { FitsAt aim attempt.node uuid result }
    ensures left { left_at aim result < 3 }
    ensures fault { told_fault_at result ≡ false }
{
    match aim {
        Aim::Begin => Stage::Runs { attempt },
        Aim::Forget => Stage::LetsGo {
            attempt,
            reply: Reply::Unknown(uuid),
        },
    }
}
