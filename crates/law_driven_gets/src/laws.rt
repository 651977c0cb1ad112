//! Laws of driven gets, as calls that do nothing and promise them.

ghost use Rattle.aft_model.specs.declared.caller.Hold.{Hold};
ghost use Rattle.aft_model.specs.declared.script.Line.{Line};
ghost use Rattle.aft_ledger.specs.View.{NodeView};
ghost use Rattle.aft_lines.specs.Asked.{Asked, Ran};
ghost use Rattle.aft_read.specs.Made.{Made};
ghost use Rattle.aft_read.specs.View.{ReadView};
ghost use Rattle.aft_turns.specs.Trail.{Trail};
ghost use Rattle.law_accounts.specs.Account.{Stand};
ghost use Rattle.law_driver.specs.Driven.{Driven, IsNode};
ghost use Rattle.law_driven_gets.specs.Gets.{IsGetOf, MayGoAtDoor, MayGoAtNode};

/// A get that a driver runs has what its machine asks of its next turn: at its node, which has all that the run's node of that
/// number has, and at the run's door.
pub fn gets_may_go_on()
    ensures at_node { (asked : Asked) (ran : Ran) (stand : Line → Stand) (line : Line) (hold : Hold) (trail : Trail) (read : ReadView) (node : NodeView) → Driven asked ran stand line hold trail → IsGetOf line hold read → Made asked.settings.cache read trail → IsNode asked ran node → MayGoAtNode read node }
    ensures at_door { (asked : Asked) (ran : Ran) (stand : Line → Stand) (line : Line) (hold : Hold) (trail : Trail) (read : ReadView) → Driven asked ran stand line hold trail → IsGetOf line hold read → Made asked.settings.cache read trail → MayGoAtDoor read ran.trace.door }
{}
