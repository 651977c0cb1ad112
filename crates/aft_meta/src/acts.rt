//! Learning and dropping, one after the other.

ghost use Rattle.std.specs.Prelude.{◌≡◌, ℕ, ◌≤◌, length, take, IfOk, OnOk, OnErr};
ghost use Rattle.aft_meta.specs.Acts.{after_act, answer_of, answers, replayed};

use crate::commit_set::{CommitSet, Learnt};
use aft_id::{List, Memory, TxnId};
use aft_records::Commit;
use std::alloc::Global;

/// What is done to known commits.
#[derive(Debug, Drop)]
pub enum MetaAct {
    /// A commit is learned.
    Learn(Commit),
    /// The commit of an id is dropped, if it is superseded.
    Drop(TxnId),
}

/// What each learning of some acts answers, one act after the other. After `Memory` the acts before it are done.
pub fn replay<M: CommitSet>(
    alloc: Global,
    set: &mut M,
    acts: &List<MetaAct>,
) -> Result<List<Learnt>, Memory>
    ensures answers { IfOk result (λ told. told ≡ answers (M.known set.old) acts.now) }
    ensures ok { OnOk result (M.known set.new ≡ replayed (M.known set.old) acts.now) }
    ensures err { OnErr result ((done : ℕ) × (done ≤ length acts.now) × (M.known set.new ≡ replayed (M.known set.old) (take done acts.now))) }
{
    let acts = acts.as_slice();
    let mut told = Vec::with_capacity(alloc, acts.len())?;
    for act in acts {
        if let Some(answer) = do_act(set, act)?
            && told.push(answer).is_err()
        {
            return Err(Memory);
        }
    }
    Ok(List::from_vec(told))
}

/// Does one act, and tells what a learning answers. `Memory` leaves what was known.
fn do_act<M: CommitSet>(set: &mut M, act: &MetaAct) -> Result<Option<Learnt>, Memory>
    ensures answer { IfOk result (λ told. told ≡ answer_of (M.known set.old) act.now) }
    ensures ok { OnOk result (M.known set.new ≡ after_act (M.known set.old) act.now) }
    ensures err { OnErr result (M.known set.new ≡ M.known set.old) }
{
    match act {
        MetaAct::Learn(commit) => Ok(Some(set.learn(commit)?)),
        MetaAct::Drop(id) => {
            if set.superseded(*id) {
                set.remove(*id);
            }
            Ok(None)
        }
    }
}
