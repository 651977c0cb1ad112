//! What a refusal of the door is answered as.

ghost use Rattle.std.specs.Prelude.{◌≡◌};
ghost use Rattle.aft_turns.specs.Refusals.{refusal_of};

use aft_door::DoorFault;
use aft_model::{Attempt, Reply};

/// What a line of an attempt answers where the door refused its call: `StoreFault` where the store failed, `NoMemory` where memory
/// ran out, and else that the attempt's incarnation is shut out, as `NodeDown`.
pub fn refusal(fault: DoorFault, attempt: Attempt) -> Reply
    ensures { result ≡ refusal_of attempt fault }
{
    match fault {
        DoorFault::Memory => Reply::NoMemory,
        DoorFault::Failed => Reply::StoreFault,
        _ => Reply::NodeDown {
            node: attempt.node,
            inc: attempt.inc,
        },
    }
}
