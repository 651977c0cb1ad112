ghost use Rattle.std.specs.Prelude as prelude;
ghost use Rattle.std.specs.Prelude.{◌≡◌, ◌≢◌, ℕ, Option, IfOk, IfSome, IsErrOf, []};
ghost use Rattle.aft_keeper.specs.declared.keeper.Pair.{Pair};
ghost use Rattle.aft_keeper.specs.declared.keeper.KeeperEntry.{KeeperEntry};
ghost use Rattle.aft_keeper.specs.Cause.{HasCause};
ghost use Rattle.aft_keeper.specs.Contents.{IsContents, IsPage, bytes_at, page_of, with_pair, without};
ghost use Rattle.aft_keeper.specs.Calls.{ChangesBy, logged, get_answer, done_answer, page_answer};

use aft_id::{Bytes, List, Text};
use std::alloc::{AllocError, AllocFailed};
use thiserror::Error;

/// A name in the store, and its bytes.
#[derive(Clone, Debug, Drop)]
pub struct Pair {
    pub name: Text,
    pub bytes: Bytes,
}

/// A call of a store, with what it was given.
#[derive(Clone, Debug, Drop)]
pub enum KeeperCall {
    Get(Text),
    Put(Text, Bytes),
    Delete(Text),
    Scan {
        prefix: Text,
        after: Text,
        limit: u32,
    },
}

/// What a store answered.
#[derive(Clone, Debug, Drop)]
pub enum KeeperAnswer {
    /// The call failed.
    Failed,
    /// A get found nothing under the name.
    Absent,
    /// A get found these bytes.
    Found(Bytes),
    /// A put or a delete was done.
    Done,
    /// What a scan found.
    Page(List<Pair>),
}

/// A call of a store, and its answer.
#[derive(Clone, Debug, Drop)]
pub struct KeeperEntry {
    pub call: KeeperCall,
    pub answer: KeeperAnswer,
}

/// Why a store refused a call.
#[derive(Clone, Copy, Debug, PartialEq, Eq, Error)]
pub enum KeeperFault {
    /// The store failed. A put or a delete that failed took effect at that moment, or never.
    #[error("the store failed")]
    Failed,
    /// Memory ran out. Nothing happened.
    #[error("out of memory")]
    Memory,
}

impl From<AllocError> for KeeperFault {
    ghost use Rattle.std.specs.Prelude.{◌≡◌};
    ghost use Rattle.aft_keeper.specs.declared.keeper.KeeperFault.TheVariants.{Memory};

    ghost from_gives = { λ _ fault. fault ≡ Memory };

    fn from(_e: AllocError) -> KeeperFault {
        KeeperFault::Memory
    }
}

impl<T: Drop> From<AllocFailed<T>> for KeeperFault {
    ghost use Rattle.std.specs.Prelude.{◌≡◌};
    ghost use Rattle.aft_keeper.specs.declared.keeper.KeeperFault.TheVariants.{Memory};

    ghost from_gives = { λ _ fault. fault ≡ Memory };

    fn from(_e: AllocFailed<T>) -> KeeperFault {
        KeeperFault::Memory
    }
}

/// A plain, durable store of bytes under names, which promises nothing about several names together.
///
/// A store may tell what it holds and which calls it answered. Where it tells neither, as a file does, its
/// clauses still say that it never claims a failure that did not happen, and which shape a page has.
pub trait Keeper {
    /// How often the store has failed.
    ghost faults: { Self → ℕ };

    /// The pairs that it holds, ascending by name, where it tells them.
    ghost contents: { Self → Option (prelude.List Pair) };

    /// Each call that it answered, oldest first, where it tells them.
    ghost log: { Self → Option (prelude.List KeeperEntry) };

    /// The bytes under a name, or `None` where there are none.
    fn get(&mut self, name: &str) -> Result<Option<Bytes>, KeeperFault>
        ensures cause { HasCause (IsErrOf result KeeperFault.Failed) (faults self.old) (faults self.new) }
        ensures found { IfOk result (λ found. IfSome (contents self.old) (λ pairs. found ≡ bytes_at name.now pairs)) }
        ensures same { contents self.new ≡ contents self.old }
        ensures log { log self.new ≡ logged (log self.old) (KeeperCall.Get name.now) (get_answer result) };

    /// Sets the bytes under a name that isn't empty.
    fn put(&mut self, name: &str, bytes: &[u8]) -> Result<(), KeeperFault>
        requires { name.now ≢ [] }
        ensures cause { HasCause (IsErrOf result KeeperFault.Failed) (faults self.old) (faults self.new) }
        ensures contents { ChangesBy (with_pair name.now bytes.now) (contents self.old) result (contents self.new) }
        ensures log { log self.new ≡ logged (log self.old) (KeeperCall.Put name.now bytes.now) (done_answer result) };

    /// Takes a name away. One that isn't there is no fault.
    fn delete(&mut self, name: &str) -> Result<(), KeeperFault>
        ensures cause { HasCause (IsErrOf result KeeperFault.Failed) (faults self.old) (faults self.new) }
        ensures contents { ChangesBy (without name.now) (contents self.old) result (contents self.new) }
        ensures log { log self.new ≡ logged (log self.old) (KeeperCall.Delete name.now) (done_answer result) };

    /// The first `limit` pairs whose name begins with `prefix` and is greater than `after`, ascending by name.
    fn scan(&mut self, prefix: &str, after: &str, limit: u32) -> Result<List<Pair>, KeeperFault>
        ensures cause { HasCause (IsErrOf result KeeperFault.Failed) (faults self.old) (faults self.new) }
        ensures shape { IfOk result (IsPage prefix.now after.now limit) }
        ensures page { IfOk result (λ page. IfSome (contents self.old) (λ pairs. page ≡ page_of prefix.now after.now limit pairs)) }
        ensures same { contents self.new ≡ contents self.old }
        ensures log { log self.new ≡ logged (log self.old) (KeeperCall.Scan prefix.now after.now limit) (page_answer result) };

    /// What is told is in order, each name once and none empty.
    ghost in_order: { (store : Self) → IfSome (contents store) IsContents };
}
