//! The door: the one way to the store, with the history of all that was done there.

ghost use Rattle.std.specs.Prelude.{◌≡◌, ◌≢◌, ◌<◌, ◌≤◌, [], length, IsErrOf, IfErr, vec_len, vec_capacity};
ghost use Rattle.aft_keeper.specs.Cause.{HasCause};

use crate::stop::Stop;
use aft_id::{Bytes, List, Text};
use aft_keeper::{Keeper, KeeperAnswer, KeeperCall, KeeperFault, Pair};
use aft_model::{Attempt, By, Caller, DoorAct, DoorEntry};
use aft_records::{Commit, Name, Version};
use std::alloc::{AllocError, Global};
use uuid::Uuid;

/// The store, and each thing that was done at it, oldest first.
pub struct Door<K> {
    pub keeper: K,
    history: Vec<DoorEntry>,
    alloc: Global,
}

impl<K: Keeper> Door<K> {
    /// A door over a store. Takes no memory.
    pub fn new(alloc: Global, keeper: K) -> Door<K>
        ensures { result.keeper ≡ keeper }
    {
        Door {
            keeper,
            history: Vec::new(alloc),
            alloc,
        }
    }

    /// The store and the history. Takes no memory.
    pub fn close(self) -> (K, List<DoorEntry>)
        ensures { result.0 ≡ self.keeper }
    {
        let Door {
            keeper,
            history,
            alloc: _,
        } = self;
        (keeper, List::from_vec(history))
    }

    /// How many entries the history has. Takes no memory.
    pub fn len(&self) -> u64 {
        self.history.len() as u64
    }

    /// The allocator that the door keeps.
    pub fn alloc(&self) -> Global {
        self.alloc
    }

    /// Ends the check of the store at the opening.
    pub fn opened(&mut self, by: By) -> Result<(), Stop>
        ensures keeper { self.new.keeper ≡ self.old.keeper }
        ensures memory { IfErr result (λ stop. stop ≡ Stop.Memory) }
    {
        self.note(by, DoorAct::Opened)
    }

    /// Lets an incarnation of a node come up.
    pub fn up(&mut self, node: u32, inc: u32, by: By) -> Result<(), Stop>
        ensures keeper { self.new.keeper ≡ self.old.keeper }
        ensures memory { IfErr result (λ stop. stop ≡ Stop.Memory) }
    {
        self.note(by, DoorAct::Up { node, inc })
    }

    /// Gives the caller the claim of a UUID.
    pub fn claim(&mut self, who: Caller, uuid: Uuid) -> Result<(), Stop>
        ensures keeper { self.new.keeper ≡ self.old.keeper }
        ensures memory { IfErr result (λ stop. stop ≡ Stop.Memory) }
    {
        let (node, inc) = (who.node, who.inc);
        self.note(who.by, DoorAct::Claim { uuid, node, inc })
    }

    /// Lets the caller's claim of a UUID go.
    pub fn release(&mut self, who: Caller, uuid: Uuid) -> Result<(), Stop>
        ensures keeper { self.new.keeper ≡ self.old.keeper }
        ensures memory { IfErr result (λ stop. stop ≡ Stop.Memory) }
    {
        let (node, inc) = (who.node, who.inc);
        self.note(who.by, DoorAct::Release { uuid, node, inc })
    }

    /// Notes what makes no call of the store.
    fn note(&mut self, by: By, act: DoorAct) -> Result<(), Stop>
        ensures keeper { self.new.keeper ≡ self.old.keeper }
        ensures memory { IfErr result (λ stop. stop ≡ Stop.Memory) }
    {
        self.history.reserve(1)?;
        self.add(by, act);
        Ok(())
    }

    /// Notes a call of the store and its answer, for which there is room.
    fn note_call(&mut self, who: Caller, call: KeeperCall, answer: KeeperAnswer)
        requires room { vec_len self.old.history < vec_capacity self.old.history }
        ensures keeper { self.new.keeper ≡ self.old.keeper }
    {
        let act = DoorAct::Call {
            node: who.node,
            inc: who.inc,
            call,
            answer,
        };
        self.add(who.by, act);
    }

    /// Adds an entry, for which there is room.
    fn add(&mut self, by: By, act: DoorAct)
        requires room { vec_len self.old.history < vec_capacity self.old.history }
        ensures keeper { self.new.keeper ≡ self.old.keeper }
    {
        let added = self.history.push(DoorEntry { by, act });
        prove!(added.is_ok());
        let _ = added;
    }
}

/// The calls of the store. Each has its entry in the history, also where memory runs out behind its answer.
impl<K: Keeper> Door<K> {
    /// The bytes under a name, or `None` where there are none.
    pub fn get(&mut self, who: Caller, name: &Name) -> Result<Option<Bytes>, Stop>
        ensures cause { HasCause (IsErrOf result Stop.StoreFault) (K.faults self.old.keeper) (K.faults self.new.keeper) }
        ensures not_empty { IsErrOf result Stop.NotEmpty → ⊥ }
    {
        let name = name.write(self.alloc)?;
        self.history.reserve(1)?;
        let (answer, found) = match self.keeper.get(name.as_str()) {
            Err(KeeperFault::Memory) => return Err(Stop::Memory),
            Err(KeeperFault::Failed) => (KeeperAnswer::Failed, Err(Stop::StoreFault)),
            Ok(None) => (KeeperAnswer::Absent, Ok(None)),
            Ok(Some(bytes)) => {
                let copy: Result<_, _> = bytes.clone();
                (KeeperAnswer::Found(bytes), some_copy(copy))
            }
        };
        self.note_call(who, KeeperCall::Get(name), answer);
        found
    }

    /// The first pairs, at most `limit`, whose names begin with `prefix` and are greater than `after`.
    pub fn scan(
        &mut self,
        who: Caller,
        prefix: &str,
        after: &str,
        limit: u32,
    ) -> Result<List<Pair>, Stop>
        ensures cause { HasCause (IsErrOf result Stop.StoreFault) (K.faults self.old.keeper) (K.faults self.new.keeper) }
        ensures not_empty { IsErrOf result Stop.NotEmpty → ⊥ }
    {
        let call = KeeperCall::Scan {
            prefix: text(self.alloc, prefix)?,
            after: text(self.alloc, after)?,
            limit,
        };
        self.history.reserve(1)?;
        let (answer, page) = match self.keeper.scan(prefix, after, limit) {
            Err(KeeperFault::Memory) => return Err(Stop::Memory),
            Err(KeeperFault::Failed) => (KeeperAnswer::Failed, Err(Stop::StoreFault)),
            Ok(page) => {
                let copy: Result<_, _> = page.clone();
                (KeeperAnswer::Page(page), page_copy(copy))
            }
        };
        self.note_call(who, call, answer);
        page
    }

    /// Stores a version.
    pub fn put_version(&mut self, who: Caller, version: &Version) -> Result<(), Stop>
        requires { length version.now.value ≤ 4096 }
        ensures cause { HasCause (IsErrOf result Stop.StoreFault) (K.faults self.old.keeper) (K.faults self.new.keeper) }
        ensures not_empty { IsErrOf result Stop.NotEmpty → ⊥ }
    {
        let name = Name::VersionOf {
            key: version.key.clone()?,
            id: version.id,
        };
        let bytes = version.encode(self.alloc)?;
        self.put(who, name.write(self.alloc)?, bytes)
    }

    /// Stores the record of a commit.
    pub fn put_record(&mut self, who: Caller, commit: &Commit) -> Result<(), Stop>
        ensures cause { HasCause (IsErrOf result Stop.StoreFault) (K.faults self.old.keeper) (K.faults self.new.keeper) }
        ensures not_empty { IsErrOf result Stop.NotEmpty → ⊥ }
    {
        let name = Name::CommitOf {
            uuid: commit.id.uuid,
        };
        let bytes = commit.encode(self.alloc)?;
        self.put(who, name.write(self.alloc)?, bytes)
    }

    fn put(&mut self, who: Caller, name: Text, bytes: Bytes) -> Result<(), Stop>
        requires { name ≢ [] }
        ensures cause { HasCause (IsErrOf result Stop.StoreFault) (K.faults self.old.keeper) (K.faults self.new.keeper) }
        ensures not_empty { IsErrOf result Stop.NotEmpty → ⊥ }
    {
        self.history.reserve(1)?;
        let (answer, done) = match self.keeper.put(name.as_str(), bytes.as_slice()) {
            Err(KeeperFault::Memory) => return Err(Stop::Memory),
            Err(KeeperFault::Failed) => (KeeperAnswer::Failed, Err(Stop::StoreFault)),
            Ok(()) => (KeeperAnswer::Done, Ok(())),
        };
        self.note_call(who, KeeperCall::Put(name, bytes), answer);
        done
    }
}

fn text(alloc: Global, from: &str) -> Result<Text, Stop>
    ensures memory { IfErr result (λ stop. stop ≡ Stop.Memory) }
{
    Ok(Text::from_string(String::from_str(alloc, from)?))
}

fn some_copy(copy: Result<Bytes, AllocError>) -> Result<Option<Bytes>, Stop>
    ensures memory { IfErr result (λ stop. stop ≡ Stop.Memory) }
{
    Ok(Some(copy?))
}

fn page_copy(copy: Result<List<Pair>, AllocError>) -> Result<List<Pair>, Stop>
    ensures memory { IfErr result (λ stop. stop ≡ Stop.Memory) }
{
    Ok(copy?)
}

/// Who calls the door for a line of an attempt.
pub fn caller(attempt: Attempt, by: By) -> Caller {
    Caller {
        node: attempt.node,
        inc: attempt.inc,
        by,
    }
}
