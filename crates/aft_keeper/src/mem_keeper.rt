//! A keeper in memory.

ghost use Rattle.std.specs.Prelude.{◌≡◌, ◌≢◌, ◌++◌, ◌∷◌, [], length, Option, None, Some, All, Contains, IfOk, IsErrOf, OnOk, OnErr, IsOkUnless, unwrap_or};
ghost use Rattle.aft_keeper.specs.Cause.{HasCause};
ghost use Rattle.aft_keeper.specs.Contents.{IsContents, IsContents-prop, IsPage, bytes_at, page_of, with_pair, without};
ghost use Rattle.aft_keeper.specs.Fate.{AnswersAs};
ghost use Rattle.aft_keeper.specs.Calls.{ChangesBy, logged, get_answer, done_answer, page_answer};

use crate::copies::{copy_bytes, copy_pairs, copy_text, push_within};
use crate::fate::{Fail, Fate};
use crate::keeper::{Keeper, KeeperAnswer, KeeperCall, KeeperEntry, KeeperFault, Pair};
use crate::pair_map::PairMap;
use aft_id::{Bytes, List};
use std::alloc::{AllocError, Global};

/// A store in memory, which tells its contents and its log, and whose calls fail where it is told.
///
/// A call has the number of the entries of the log and one. A call that lacks memory leaves all as it was,
/// and the next call has its number. The first call builds an index of the names, in which later calls find
/// a name in logarithmic time.
#[derive(Debug, Drop)]
pub struct MemKeeper {
    alloc: Global,

    // The pairs that it was given, until the first call indexes them. From then on `pairs` has them.
    given: Option<List<Pair>>,
    pairs: PairMap,
    log: Vec<KeeperEntry>,
    fails: List<Fail>,
    stop: Option<u64>,
    ghost in_order: { IsContents (unwrap_or given pairs) } by { IsContents-prop (unwrap_or given pairs) },
}

impl MemKeeper {
    ghost use Rattle.aft_keeper.specs.MemKeeper.{contents_of, log_of, fails_of, stop_of, fate_of, earlier, entry_of, NeverFails};

    /// A store of these pairs, with an empty log. Its calls of these numbers fail. Takes no memory: the index
    /// of the names waits for the first call.
    pub fn new(alloc: Global, contents: List<Pair>, fails: List<Fail>) -> MemKeeper
        requires { IsContents contents }
        ensures contents { contents_of result ≡ contents }
        ensures log { log_of result ≡ [] }
        ensures fails { fails_of result ≡ fails }
        ensures stop { stop_of result ≡ None }
        ensures never_fails { fails ≡ [] → NeverFails result }
    {
        MemKeeper {
            alloc,
            given: Some(contents),
            pairs: PairMap::new(alloc),
            log: Vec::new(alloc),
            fails,
            stop: None,
        }
    }

    /// From the call of this number on every call fails without effect. An earlier stop stays.
    pub fn stop_at(&mut self, call: u64)
        ensures contents { contents_of self.new ≡ contents_of self.old }
        ensures log { log_of self.new ≡ log_of self.old }
        ensures fails { fails_of self.new ≡ fails_of self.old }
        ensures stop { stop_of self.new ≡ Some (earlier (stop_of self.old) call) }
    {
        self.stop = match self.stop {
            None => Some(call),
            Some(from) => Some(from.min(call)),
        };
    }

    /// The pairs that it holds, lent, in no stated order. Takes no memory.
    pub fn contents(&self) -> &[Pair]
        ensures each { All (Contains result.now) (contents_of self.now) }
        ensures no_others { All (Contains (contents_of self.now)) result.now }
        ensures as_many { length result.now ≡ length (contents_of self.now) }
    {
        match &self.given {
            Some(given) => given.as_slice(),
            None => self.pairs.as_slice(),
        }
    }

    /// Each call that it answered, lent, oldest first. Takes no memory.
    pub fn log(&self) -> &[KeeperEntry]
        ensures { result.now ≡ log_of self.now }
    {
        self.log.as_slice()
    }

    /// The store after it was closed and opened: the same contents, an empty log, and no call that fails.
    /// Takes no memory.
    pub fn reopen(self) -> MemKeeper
        ensures contents { contents_of result ≡ contents_of self }
        ensures log { log_of result ≡ [] }
        ensures never_fails { NeverFails result }
    {
        let MemKeeper {
            alloc,
            given,
            pairs,
            log: _,
            fails: _,
            stop: _,
        } = self;
        MemKeeper {
            alloc,
            given,
            pairs,
            log: Vec::new(alloc),
            fails: List::from_vec(Vec::new(alloc)),
            stop: None,
        }
    }

    /// A law: a store that never fails has counted no failure.
    pub fn law_no_faults(keeper: &MemKeeper)
        requires { NeverFails keeper.now }
        ensures { ⟦<MemKeeper as Keeper>⟧.faults keeper.now ≡ 0 }
    {}

    /// A law: a store in memory tells what it holds, and each call that it answered.
    pub fn law_tells(keeper: &MemKeeper)
        ensures contents { ⟦<MemKeeper as Keeper>⟧.contents keeper.now ≡ Some (contents_of keeper.now) }
        ensures log { ⟦<MemKeeper as Keeper>⟧.log keeper.now ≡ Some (log_of keeper.now) }
    {}

    /// How the next call goes.
    fn fate(&self) -> Fate
        ensures { result ≡ fate_of self.now }
    {
        Fate::of(self.fails.as_slice(), self.stop, self.log.len() as u64 + 1)
    }

    /// Indexes the pairs that it was given, unless that is done. Where memory runs out nothing changes.
    fn index(&mut self) -> Result<(), AllocError>
        ensures indexed { OnOk result (self.new.given ≡ None) }
        ensures contents { contents_of self.new ≡ contents_of self.old }
        ensures log { log_of self.new ≡ log_of self.old }
        ensures fails { fails_of self.new ≡ fails_of self.old }
        ensures stop { stop_of self.new ≡ stop_of self.old }
    {
        let Some(given) = self.given.take() else {
            return Ok(());
        };
        match PairMap::from_pairs(self.alloc, given) {
            Ok(pairs) => {
                self.pairs = pairs;
                Ok(())
            }
            Err(given) => {
                self.given = Some(given);
                Err(AllocError)
            }
        }
    }

    /// Adds a call and its answer to the log. Where memory runs out nothing changes.
    fn record(&mut self, call: KeeperCall, answer: KeeperAnswer) -> Result<(), KeeperFault>
        ensures ok { OnOk result (log_of self.new ≡ log_of self.old ++ entry_of call answer ∷ []) }
        ensures err { OnErr result (log_of self.new ≡ log_of self.old) }
        ensures memory { IsOkUnless result KeeperFault.Memory }
        ensures given { self.new.given ≡ self.old.given }
        ensures contents { contents_of self.new ≡ contents_of self.old }
        ensures fails { fails_of self.new ≡ fails_of self.old }
        ensures stop { stop_of self.new ≡ stop_of self.old }
    {
        self.log.push(KeeperEntry { call, answer })?;
        Ok(())
    }
}

impl Keeper for MemKeeper {
    ghost use Rattle.aft_keeper.specs.Fate.{contents_after};
    ghost use Rattle.aft_keeper.specs.MemKeeper.{contents_of, log_of, fails_of, stop_of, faults_of, fate_of, NeverFails};

    ghost faults = { faults_of };

    ghost contents = { λ keeper. Some (contents_of keeper) };

    ghost log = { λ keeper. Some (log_of keeper) };

    fn get(&mut self, name: &str) -> Result<Option<Bytes>, KeeperFault>
        ensures cause { HasCause (IsErrOf result KeeperFault.Failed) (faults_of self.old) (faults_of self.new) }
        ensures found { IfOk result (λ found. found ≡ bytes_at name.now (contents_of self.old)) }
        ensures same { contents_of self.new ≡ contents_of self.old }
        ensures log { Some (log_of self.new) ≡ logged (Some (log_of self.old)) (KeeperCall.Get name.now) (get_answer result) }

        // It fails just where it is told so, which stays.
        ensures answers { AnswersAs (fate_of self.old) result }
        ensures fails { fails_of self.new ≡ fails_of self.old }
        ensures stop { stop_of self.new ≡ stop_of self.old }
        ensures never_fails { NeverFails self.old → NeverFails self.new }
    {
        self.index()?;
        let call = KeeperCall::Get(copy_text(self.alloc, name)?);
        if self.fate().is_failure() {
            self.record(call, KeeperAnswer::Failed)?;
            return Err(KeeperFault::Failed);
        }
        let Some(bytes) = self.pairs.get(name) else {
            self.record(call, KeeperAnswer::Absent)?;
            return Ok(None);
        };
        let found = copy_bytes(self.alloc, bytes.as_slice())?;
        let told = copy_bytes(self.alloc, bytes.as_slice())?;
        self.record(call, KeeperAnswer::Found(told))?;
        Ok(Some(found))
    }

    fn put(&mut self, name: &str, bytes: &[u8]) -> Result<(), KeeperFault>
        requires { name.now ≢ [] }
        ensures cause { HasCause (IsErrOf result KeeperFault.Failed) (faults_of self.old) (faults_of self.new) }
        ensures contents { ChangesBy (with_pair name.now bytes.now) (Some (contents_of self.old)) result (Some (contents_of self.new)) }
        ensures log { Some (log_of self.new) ≡ logged (Some (log_of self.old)) (KeeperCall.Put name.now bytes.now) (done_answer result) }

        // It fails just where it is told so, after taking effect or before it, which stays.
        ensures answers { AnswersAs (fate_of self.old) result }
        ensures effect { contents_of self.new ≡ contents_after (fate_of self.old) (with_pair name.now bytes.now) result (contents_of self.old) }
        ensures fails { fails_of self.new ≡ fails_of self.old }
        ensures stop { stop_of self.new ≡ stop_of self.old }
        ensures never_fails { NeverFails self.old → NeverFails self.new }
    {
        self.index()?;
        let call = KeeperCall::Put(copy_text(self.alloc, name)?, copy_bytes(self.alloc, bytes)?);
        self.log.reserve(1)?;
        let fate = self.fate();
        if fate.takes_effect() {
            self.pairs.set(name, bytes)?;
        }
        let (answer, result) = done(fate);
        push_within(&mut self.log, KeeperEntry { call, answer });
        result
    }

    fn delete(&mut self, name: &str) -> Result<(), KeeperFault>
        ensures cause { HasCause (IsErrOf result KeeperFault.Failed) (faults_of self.old) (faults_of self.new) }
        ensures contents { ChangesBy (without name.now) (Some (contents_of self.old)) result (Some (contents_of self.new)) }
        ensures log { Some (log_of self.new) ≡ logged (Some (log_of self.old)) (KeeperCall.Delete name.now) (done_answer result) }

        // It fails just where it is told so, after taking effect or before it, which stays.
        ensures answers { AnswersAs (fate_of self.old) result }
        ensures effect { contents_of self.new ≡ contents_after (fate_of self.old) (without name.now) result (contents_of self.old) }
        ensures fails { fails_of self.new ≡ fails_of self.old }
        ensures stop { stop_of self.new ≡ stop_of self.old }
        ensures never_fails { NeverFails self.old → NeverFails self.new }
    {
        self.index()?;
        let call = KeeperCall::Delete(copy_text(self.alloc, name)?);
        let fate = self.fate();
        let (answer, result) = done(fate);
        self.record(call, answer)?;
        if fate.takes_effect() {
            self.pairs.remove(name);
        }
        result
    }

    fn scan(&mut self, prefix: &str, after: &str, limit: u32) -> Result<List<Pair>, KeeperFault>
        ensures cause { HasCause (IsErrOf result KeeperFault.Failed) (faults_of self.old) (faults_of self.new) }
        ensures shape { IfOk result (IsPage prefix.now after.now limit) }
        ensures page { IfOk result (λ page. page ≡ page_of prefix.now after.now limit (contents_of self.old)) }
        ensures same { contents_of self.new ≡ contents_of self.old }
        ensures log { Some (log_of self.new) ≡ logged (Some (log_of self.old)) (KeeperCall.Scan prefix.now after.now limit) (page_answer result) }

        // It fails just where it is told so, which stays.
        ensures answers { AnswersAs (fate_of self.old) result }
        ensures fails { fails_of self.new ≡ fails_of self.old }
        ensures stop { stop_of self.new ≡ stop_of self.old }
        ensures never_fails { NeverFails self.old → NeverFails self.new }
    {
        self.index()?;
        let call = KeeperCall::Scan {
            prefix: copy_text(self.alloc, prefix)?,
            after: copy_text(self.alloc, after)?,
            limit,
        };
        if self.fate().is_failure() {
            self.record(call, KeeperAnswer::Failed)?;
            return Err(KeeperFault::Failed);
        }
        let page = self.pairs.page(prefix, after, limit)?;
        let told = copy_pairs(self.alloc, &page)?;
        self.record(call, KeeperAnswer::Page(told))?;
        Ok(List::from_vec(page))
    }

    ghost in_order = { λ keeper. keeper.in_order };
}

/// What a put or a delete with this fate answers, in the log and to its caller.
fn done(fate: Fate) -> (KeeperAnswer, Result<(), KeeperFault>)
    ensures answers { AnswersAs fate result.1 }
    ensures logged { done_answer result.1 ≡ Some result.0 }
{
    if fate.is_failure() {
        (KeeperAnswer::Failed, Err(KeeperFault::Failed))
    } else {
        (KeeperAnswer::Done, Ok(()))
    }
}
