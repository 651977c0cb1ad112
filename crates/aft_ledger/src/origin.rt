//! What a record says of what its transaction had read.

ghost use Rattle.std.specs.Prelude.{◌≡◌, IfOk, OnOk, OnErr, if◌then◌else◌, drop, length, ◌-◌};
ghost use Rattle.aft_id.specs.TxnId.{same_id, zero_id};
ghost use Rattle.aft_model.specs.Origins.{greatest_reads, read_ids, with_id};

use aft_id::{List, Memory, TxnId};
use aft_model::ReadPair;
use std::alloc::Global;
use std::collections::BTreeSet;

/// The most ids that a record names.
const MOST_READS: usize = 8;

/// The ids that were read, each once. An absent key has none.
fn read_ids(alloc: Global, pairs: &[ReadPair]) -> Result<BTreeSet<TxnId>, Memory>
    ensures { IfOk result (λ ids. ids.keys ≡ read_ids pairs.now) }
{
    let mut ids = BTreeSet::new(alloc);
    for pair in pairs {
        note_id(&mut ids, &pair.id)?;
    }
    Ok(ids)
}

/// Notes an id that was read, unless it is that of an absent key.
#[tactic(auto, using(crate::proofs::ReadIds::id_placed))]
fn note_id(ids: &mut BTreeSet<TxnId>, id: &TxnId) -> Result<(), Memory>
    ensures { OnOk result (ids.new.keys ≡ (if same_id id.now zero_id then ids.old.keys else with_id ids.old.keys id.now)) }
{
    if *id == TxnId::zero() {
        return Ok(());
    }
    ids.insert(*id)?;
    Ok(())
}

/// The greatest ids that were read, as many as a record names, ascending.
pub(crate) fn greatest_reads(alloc: Global, pairs: &[ReadPair]) -> Result<List<TxnId>, Memory>
    ensures { IfOk result (λ ids. ids ≡ greatest_reads pairs.now) }
{
    let ids = read_ids(alloc, pairs)?;
    let fewer = ids.len().saturating_sub(MOST_READS);
    let greatest = ids.iter().copied().skip(fewer).collect(alloc)?;
    Ok(List::from_vec(greatest))
}
