//! The attempt that a client holds.

ghost use Rattle.aft_ledger.specs.View.{answered};
ghost use Rattle.std.specs.Option.{ForSome};
ghost use Rattle.std.specs.Prelude.{◌≡◌, Err, IfErr, IfOk, IsTrue, MatchResult, None, Some, if◌then◌else◌, ◌≤◌, Option};
ghost use Rattle.aft_model.specs.Attempts.{attempt_state, is_running};
ghost use Rattle.aft_model.specs.NodeRules.{may_answer_alone};
ghost use Rattle.aft_model.specs.NodeState.{node_state, part, serves};
ghost use Rattle.aft_model.specs.declared.caller.Attempt.{Attempt as A};
ghost use Rattle.aft_model.specs.declared.reply.Reply.{Reply as Answer};
ghost use Rattle.aft_ledger.specs.Turns.{is_doing};
ghost use Rattle.aft_node.specs.Held.{doing, get_refusal, held_refusal};
ghost use Rattle.aft_node.specs.Outcomes.{down_reply};
ghost use Rattle.aft_txn.specs.Rows.{told};

use super::Node;
use aft_model::{Attempt, By, Hold, Reply};
use aft_txn::State;

impl Node {
    /// The attempt that a client holds, if the node serves its incarnation, or why not.
    pub(crate) fn held(&self, hold: &Hold) -> Result<Attempt, Reply>
        ensures held { IfOk result (λ a. (hold.now.attempt ≡ Some a) × IsTrue (serves a.inc (node_state self.now.history))) }
        ensures refused { IfErr result (λ reply. ((why : A → Option Answer) → held_refusal why hold.now.attempt self.now ≡ Some reply)) }
        ensures may { IfErr result (λ reply. IsTrue (may_answer_alone (Some reply))) }
    {
        match hold.attempt {
            None => Err(Reply::NoTransaction),
            Some(attempt) => {
                if self.ledger.serves(attempt.inc) {
                    Ok(attempt)
                } else {
                    Err(self.down_reply(attempt.inc))
                }
            }
        }
    }

    /// That the node doesn't serve an incarnation.
    pub(crate) fn down_reply(&self, inc: u32) -> Reply
        ensures { result ≡ down_reply self.now inc }
    {
        Reply::NodeDown {
            node: self.ledger.number(),
            inc,
        }
    }

    /// Answers that the node doesn't serve an incarnation.
    pub(crate) fn answer_down(&mut self, front: u64, by: By, inc: u32)
        requires room { 1 ≤ self.old.room }
        ensures { self.new ≡ answered front by (down_reply self.old inc) self.old }
    {
        let reply = self.down_reply(inc);
        self.ledger.answer(front, by, reply);
    }

    /// The attempt that a client holds, if it runs, or why not.
    pub(crate) fn running(&self, hold: &Hold) -> Result<Attempt, Reply>
        requires node { ForSome hold.now.attempt (λ a. a.node ≡ self.now.number) }
        ensures held { IfOk result (λ a. hold.now.attempt ≡ Some a) }
        ensures running { IfOk result (λ a. IsTrue (is_doing is_running a self.now.history)) }
        ensures free { IfOk result (λ a. get_refusal hold.now.attempt self.now ≡ None) }
        ensures refused { IfErr result (λ reply. get_refusal hold.now.attempt self.now ≡ Some reply) }
        ensures may { IfErr result (λ reply. IsTrue (may_answer_alone (Some reply))) }
    {
        let attempt = self.held(hold)?;
        match self.ledger.state(&attempt) {
            Some(State::Running) => Ok(attempt),
            None => Err(Reply::NoTransaction),
            Some(_) => Err(Reply::Committing),
        }
    }

    /// What an attempt is doing, where the node serves its incarnation.
    pub(crate) fn doing(&self, attempt: &Attempt) -> Option<State>
        requires node { attempt.now.node ≡ self.now.number }
        ensures { result ≡ (if serves attempt.now.inc (node_state self.now.history) then told (doing self.now attempt.now) else None) }
    {
        if self.ledger.serves(attempt.inc) {
            self.ledger.state(attempt)
        } else {
            None
        }
    }
}
