//! Laws of driven begins and forgets, as calls that do nothing and promise them.

ghost use Rattle.aft_model.specs.declared.caller.Hold.{Hold};
ghost use Rattle.aft_model.specs.declared.script.Line.{Line};
ghost use Rattle.aft_begin.specs.Made.{Made};
ghost use Rattle.aft_begin.specs.View.{ClaimView};
ghost use Rattle.aft_begin.specs.declared.aim.Aim.TheVariants as aims;
ghost use Rattle.aft_ledger.specs.View.{NodeView};
ghost use Rattle.aft_lines.specs.Asked.{Asked, Ran};
ghost use Rattle.aft_turns.specs.Trail.{Trail};
ghost use Rattle.law_accounts.specs.Account.{Stand};
ghost use Rattle.law_driver.specs.Driven.{Driven, IsNode};
ghost use Rattle.law_driven_claims.specs.Claims.{IsClaimOf, MayGoAtDoor, MayGoAtNode};

/// A begin that a driver runs has what its machine asks of its next turn: at its node, which has all that the run's node of that
/// number has, and at the run's door.
pub fn begins_may_go_on()
    ensures at_node { (asked : Asked) (ran : Ran) (stand : Line → Stand) (line : Line) (hold : Hold) (trail : Trail) (begin : ClaimView) (node : NodeView) → Driven asked ran stand line hold trail → IsClaimOf aims.Begin line begin → Made begin trail → IsNode asked ran node → MayGoAtNode begin node }
    ensures at_door { (asked : Asked) (ran : Ran) (stand : Line → Stand) (line : Line) (hold : Hold) (trail : Trail) (begin : ClaimView) → Driven asked ran stand line hold trail → IsClaimOf aims.Begin line begin → Made begin trail → MayGoAtDoor begin ran.trace.door }
{}

/// So has a forget that a driver runs.
pub fn forgets_may_go_on()
    ensures at_node { (asked : Asked) (ran : Ran) (stand : Line → Stand) (line : Line) (hold : Hold) (trail : Trail) (forget : ClaimView) (node : NodeView) → Driven asked ran stand line hold trail → IsClaimOf aims.Forget line forget → Made forget trail → IsNode asked ran node → MayGoAtNode forget node }
    ensures at_door { (asked : Asked) (ran : Ran) (stand : Line → Stand) (line : Line) (hold : Hold) (trail : Trail) (forget : ClaimView) → Driven asked ran stand line hold trail → IsClaimOf aims.Forget line forget → Made forget trail → MayGoAtDoor forget ran.trace.door }
{}
