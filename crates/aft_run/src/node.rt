//! A node: what it knows, the transaction that runs there, and its history.

ghost use Rattle.std.specs.Prelude.{◌≡◌, ◌≤◌, ◌+◌, if◌then◌else◌, is_ok, length, IfErr, IfOk, vec_len};
ghost use Rattle.aft_run.specs.Start.{IsShort};

use crate::limits::LAST_TIME;
use crate::stop::Stop;
use aft_id::{Bytes, List, TxnId};
use aft_model::{Attempt, By, NodeAct, NodeEntry, Picked, Reply};
use aft_records::{Commit, Key, Keys, Version};
use std::alloc::Global;
use std::collections::BTreeMap;
use uuid::Uuid;

/// The one incarnation of each node in this form of runs.
pub const INCARNATION: u32 = 1;

/// A node: the newest known version of each key, the attempt that runs, and what was done here, oldest first.
#[derive(Drop)]
pub struct Node {
    number: u32,
    newest: BTreeMap<Key, TxnId>,
    attempts: u64,
    running: Option<Running>,
    history: Vec<NodeEntry>,
    alloc: Global,
    ghost counted: { attempts ≤ vec_len history },
}

/// An attempt that runs.
#[derive(Drop)]
struct Running {
    attempt: Attempt,
    uuid: Uuid,
    write: Option<Write>,
}

/// What an attempt put last.
#[derive(Drop)]
struct Write {
    key: Key,
    value: Bytes,
    ghost short: { length value ≤ 4096 },
}

/// What the first turn of a commit line leads to.
#[derive(Drop)]
pub enum Start {
    /// This commit and its version are to be stored.
    Store(Commit, Version),
    /// Nothing was put, and the claim of this UUID is to be let go.
    Leave(Uuid),
    /// The line is answered.
    Answered,
}

impl Node {
    /// A node that is down and knows nothing. Takes no memory.
    pub fn new(alloc: Global, number: u32) -> Node {
        Node {
            number,
            newest: BTreeMap::new(alloc),
            attempts: 0,
            running: None,
            history: Vec::new(alloc),
            alloc,
        }
    }

    /// The node's number.
    pub fn number(&self) -> u32 {
        self.number
    }

    /// The history. Takes no memory.
    pub fn close(self) -> List<NodeEntry> {
        List::from_vec(self.history)
    }

    fn add(&mut self, front: u64, by: By, act: NodeAct, answer: Option<Reply>) -> Result<(), Stop>
        ensures memory { IfErr result (λ stop. stop ≡ Stop.Memory) }
        ensures attempts { self.new.attempts ≡ self.old.attempts }
        ensures grows { vec_len self.new.history ≡ vec_len self.old.history + (if is_ok result then 1 else 0) }
    {
        self.history.push(NodeEntry {
            front,
            by,
            act,
            answer,
        })?;
        Ok(())
    }

    /// Writes an answer alone.
    pub fn answer(&mut self, front: u64, by: By, reply: Reply) -> Result<(), Stop>
        ensures memory { IfErr result (λ stop. stop ≡ Stop.Memory) }
    {
        self.add(front, by, NodeAct::Nothing, Some(reply))
    }

    /// Begins to boot.
    pub fn booting(&mut self, front: u64, by: By) -> Result<(), Stop>
        ensures memory { IfErr result (λ stop. stop ≡ Stop.Memory) }
    {
        self.add(front, by, NodeAct::Booting { inc: INCARNATION }, None)
    }

    /// Serves from here on, over a store that showed no commit.
    pub fn boot(&mut self, front: u64, by: By) -> Result<(), Stop>
        ensures memory { IfErr result (λ stop. stop ≡ Stop.Memory) }
    {
        let act = NodeAct::Boot {
            inc: INCARNATION,
            commits: List::from_vec(Vec::new(self.alloc)),
        };
        let reply = Reply::Started {
            node: self.number,
            inc: INCARNATION,
        };
        self.add(front, by, act, Some(reply))
    }

    /// Makes an attempt, which is opening.
    pub fn admit(&mut self, front: u64, by: By, uuid: Uuid) -> Result<Attempt, Stop>
        ensures memory { IfErr result (λ stop. stop ≡ Stop.Memory) }
    {
        let attempt = Attempt {
            node: self.number,
            inc: INCARNATION,
            number: self.attempts + 1,
        };
        self.add(front, by, NodeAct::Admit { attempt, uuid }, None)?;
        self.attempts += 1;
        Ok(attempt)
    }

    /// Lets an attempt run.
    pub fn admitted(
        &mut self,
        front: u64,
        by: By,
        attempt: Attempt,
        uuid: &Uuid,
    ) -> Result<(), Stop>
        ensures memory { IfErr result (λ stop. stop ≡ Stop.Memory) }
    {
        self.add(
            front,
            by,
            NodeAct::Begin { attempt },
            Some(Reply::Begun(*uuid)),
        )?;
        self.running = Some(Running {
            attempt,
            uuid: *uuid,
            write: None,
        });
        Ok(())
    }

    /// Takes an opening attempt away.
    pub fn unadmitted(
        &mut self,
        front: u64,
        by: By,
        attempt: Attempt,
        reply: Reply,
    ) -> Result<(), Stop>
        ensures memory { IfErr result (λ stop. stop ≡ Stop.Memory) }
    {
        self.add(front, by, NodeAct::Unadmit { attempt }, Some(reply))
    }

    /// Whether this attempt runs.
    fn runs(&self, attempt: Attempt) -> bool {
        match &self.running {
            Some(running) => running.attempt == attempt,
            None => false,
        }
    }

    /// Buffers a value of at most 4,096 bytes.
    pub fn put(
        &mut self,
        front: u64,
        by: By,
        attempt: Attempt,
        key: &Key,
        value: &Bytes,
    ) -> Result<(), Stop>
        requires short { length value.now ≤ 4096 }
        ensures memory { IfErr result (λ stop. stop ≡ Stop.Memory) }
    {
        if !self.runs(attempt) {
            return self.answer(front, by, Reply::NoTransaction);
        }
        let act = NodeAct::Put {
            attempt,
            key: key.clone()?,
            value: value.clone()?,
        };
        let write = Write {
            key: key.clone()?,
            value: value.clone()?,
        };
        self.add(front, by, act, Some(Reply::Stored))?;
        if let Some(running) = &mut self.running {
            running.write = Some(write);
        }
        Ok(())
    }

    /// Picks the newest known version of a key, which is to be fetched, or answers.
    pub fn select(
        &mut self,
        front: u64,
        by: By,
        attempt: Attempt,
        key: &Key,
    ) -> Result<Option<TxnId>, Stop>
        ensures memory { IfErr result (λ stop. stop ≡ Stop.Memory) }
    {
        if !self.runs(attempt) {
            self.answer(front, by, Reply::NoTransaction)?;
            return Ok(None);
        }
        let newest = self.newest_of(key);
        let (picked, answer) = match &newest {
            None => (Picked::Absent, Some(Reply::Absent)),
            Some(id) => (Picked::Fetch(*id), None),
        };
        let act = NodeAct::Select {
            attempt,
            key: key.clone()?,
            picked,
        };
        self.add(front, by, act, answer)?;
        Ok(newest)
    }

    /// The id of the newest known version of a key.
    fn newest_of(&self, key: &Key) -> Option<TxnId> {
        self.newest.get(key).copied()
    }

    /// Answers a get whose version came, by the get at this place of the door's history.
    pub fn value(
        &mut self,
        front: u64,
        by: By,
        attempt: Attempt,
        version: Version,
        place: u64,
    ) -> Result<(), Stop>
        ensures memory { IfErr result (λ stop. stop ≡ Stop.Memory) }
    {
        let Version { id, key, value } = version;
        let id = &id;
        let reply = Reply::Value(*id, value);
        let act = NodeAct::Value {
            attempt,
            key,
            id: *id,
            place,
            kept: true,
        };
        self.add(front, by, act, Some(reply))
    }

    /// Answers a get whose version didn't come.
    pub fn lost(
        &mut self,
        front: u64,
        by: By,
        attempt: Attempt,
        key: &Key,
        id: &TxnId,
        reply: Reply,
    ) -> Result<(), Stop>
        ensures memory { IfErr result (λ stop. stop ≡ Stop.Memory) }
    {
        let act = NodeAct::Lost {
            attempt,
            key: key.clone()?,
            id: *id,
        };
        self.add(front, by, act, Some(reply))
    }

    /// The first turn of a commit, where the clock reads `now`.
    pub fn start(&mut self, front: u64, by: By, attempt: Attempt, now: u64) -> Result<Start, Stop>
        ensures memory { IfErr result (λ stop. stop ≡ Stop.Memory) }
        ensures short { IfOk result IsShort }
    {
        let start = match self.plan(attempt, now)? {
            Ok(start) => start,
            Err(reply) => {
                self.answer(front, by, reply)?;
                return Ok(Start::Answered);
            }
        };
        let act = match &start {
            Start::Answered => NodeAct::Nothing,
            Start::Leave(_) => NodeAct::Leave { attempt },
            Start::Store(commit, _) => NodeAct::Start {
                attempt,
                now,
                commit: commit.clone()?,
            },
        };
        self.add(front, by, act, None)?;
        Ok(start)
    }

    /// What a commit leads to, or the reply that refuses it.
    fn plan(&self, attempt: Attempt, now: u64) -> Result<Result<Start, Reply>, Stop>
        ensures memory { IfErr result (λ stop. stop ≡ Stop.Memory) }
        ensures short { IfOk result (λ plan. IfOk plan IsShort) }
    {
        let running = match &self.running {
            Some(running) if running.attempt == attempt => running,
            _ => return Ok(Err(Reply::NoTransaction)),
        };
        let Some(write) = &running.write else {
            return Ok(Ok(Start::Leave(running.uuid)));
        };
        let time = self.commit_time(&write.key, now);
        if time > LAST_TIME {
            return Ok(Err(Reply::ClockEnd));
        }
        let id = TxnId {
            time,
            uuid: running.uuid,
        };
        let version = Version {
            id,
            key: write.key.clone()?,
            value: write.value.clone()?,
        };
        let commit = commit_of(self.alloc, id, write.key.clone()?)?;
        Ok(Ok(Start::Store(commit, version)))
    }

    /// The time of a commit that writes this key: the greatest of 1, what the clock reads, and one more than that
    /// of the newest known version.
    fn commit_time(&self, key: &Key, now: u64) -> u64 {
        let floor = match self.newest_of(key) {
            Some(id) => id.time.saturating_add(1),
            None => 0,
        };
        now.max(floor).max(1)
    }

    /// Learns a commit, which is stored.
    pub fn stored(
        &mut self,
        front: u64,
        by: By,
        attempt: Attempt,
        commit: Commit,
    ) -> Result<(), Stop>
        ensures memory { IfErr result (λ stop. stop ≡ Stop.Memory) }
    {
        let id = commit.id;
        for key in commit.keys.list() {
            self.newest.insert(key.clone()?, id)?;
        }
        self.add(front, by, NodeAct::Stored { attempt, commit }, None)
    }

    /// Takes an attempt away.
    pub fn ended(&mut self, front: u64, by: By, attempt: Attempt, reply: Reply) -> Result<(), Stop>
        ensures memory { IfErr result (λ stop. stop ≡ Stop.Memory) }
    {
        self.add(front, by, NodeAct::End { attempt }, Some(reply))?;
        self.running = None;
        Ok(())
    }
}

/// The commit of one key.
fn commit_of(alloc: Global, id: TxnId, key: Key) -> Result<Commit, Stop>
    ensures memory { IfErr result (λ stop. stop ≡ Stop.Memory) }
{
    let mut keys = Vec::new(alloc);
    keys.push(key)?;
    match Keys::new(List::from_vec(keys)) {
        Ok(keys) => Ok(Commit { id, keys }),
        Err(_) => unreachable!(),
    }
}
