//! Laws of driven commits and aborts, as calls that do nothing and promise them.

ghost use Rattle.std.specs.Prelude.{ℕ};
ghost use Rattle.aft_model.specs.declared.caller.Hold.{Hold};
ghost use Rattle.aft_model.specs.declared.script.Line.{Line};
ghost use Rattle.aft_ledger.specs.View.{NodeView};
ghost use Rattle.aft_commit.specs.Made.{Made};
ghost use Rattle.aft_commit.specs.View.{FinishView, IsStorable};
ghost use Rattle.aft_lines.specs.Asked.{Asked, Ran};
ghost use Rattle.aft_turns.specs.Trail.{Trail};
ghost use Rattle.law_accounts.specs.Account.{Stand};
ghost use Rattle.law_driver.specs.Driven.{Driven, IsNode};
ghost use Rattle.law_driven_commits.specs.Finishes.{IsFinishOf, MayCallAtDoor, MayCloseAtNode, MayEndAtNode, MayPutAtDoor, PutsAreShort};

/// A commit or an abort that a driver runs may close at its node what it closes there, where its attempt still does what is to
/// end, unless the node has left its incarnation; and at the door, which is open, its attempt's incarnation is up and holds the
/// UUID, unless it was fenced, and knows of a put what it must.
pub fn finishes_may_go_on()
    ensures closes { (asked : Asked) (ran : Ran) (stand : Line → Stand) (line : Line) (hold : Hold) (trail : Trail) (finish : FinishView) (clock : ℕ) (node : NodeView) → Driven asked ran stand line hold trail → IsFinishOf line hold finish → Made clock finish trail → IsNode asked ran node → MayCloseAtNode finish node }
    ensures ends { (asked : Asked) (ran : Ran) (stand : Line → Stand) (line : Line) (hold : Hold) (trail : Trail) (finish : FinishView) (clock : ℕ) (node : NodeView) → Driven asked ran stand line hold trail → IsFinishOf line hold finish → Made clock finish trail → IsNode asked ran node → MayEndAtNode finish node }
    ensures calls { (asked : Asked) (ran : Ran) (stand : Line → Stand) (line : Line) (hold : Hold) (trail : Trail) (finish : FinishView) (clock : ℕ) → Driven asked ran stand line hold trail → IsFinishOf line hold finish → Made clock finish trail → MayCallAtDoor finish ran.trace.door }
    ensures puts { (asked : Asked) (ran : Ran) (stand : Line → Stand) (line : Line) (hold : Hold) (trail : Trail) (finish : FinishView) (clock : ℕ) → Driven asked ran stand line hold trail → IsFinishOf line hold finish → Made clock finish trail → MayPutAtDoor finish ran.trace.door }
{}

/// Where the script puts no value of more than 4,096 bytes, what a commit that a driver runs is to store keeps the limits.
pub fn commits_may_store()
    ensures { (asked : Asked) (ran : Ran) (stand : Line → Stand) (line : Line) (hold : Hold) (trail : Trail) (finish : FinishView) (clock : ℕ) → Driven asked ran stand line hold trail → IsFinishOf line hold finish → Made clock finish trail → PutsAreShort asked → IsStorable finish }
{}
