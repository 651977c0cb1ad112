//! The office: the fault manager's and the collector's desk.

ghost use Rattle.std.specs.Prelude.{◌≡◌, ◌<◌, ◌≤◌, ◌^◌, ◌⊎◌, ◌++◌, [], ◌∷◌, None, Some, is_none, length, max, vec_len, vec_capacity, if◌then◌else◌, IfOk, OnOk, OnErr, MatchResult, IsTrue};
ghost use Rattle.aft_records.specs.Commits.{ids_of};
ghost use Rattle.aft_model.specs.Office.{is_legal_alone, is_run_by, last_round, may_answer_alone, may_end_with, may_post, runs, unheard};
ghost use Rattle.aft_model.specs.declared.office.OfficeAct.TheVariants as acts;
ghost use Rattle.aft_model.specs.declared.reply.Reply.TheVariants as replies;
ghost use Rattle.aft_mail.specs.Desk.{IsLegal, after_entry};

use crate::copies::{copies_of, ids_of, unheard, with_ids};
use aft_id::{List, Memory, TxnId};
use aft_model::{By, OfficeAct, OfficeEntry, Reply};
use aft_records::Commit;
use std::alloc::{AllocError, Global};
use std::marker::Model;

/// The desk of the fault manager and of the collector: of which commits it has heard, and which collection runs.
/// Contracts see the ids that it has heard of, its history, the greatest front so far, and for how many answers it
/// has room.
#[derive(Debug, Drop)]
pub struct Office {
    alloc: Global,
    heard: Vec<TxnId>,
    history: Vec<OfficeEntry>,
    front: u64,
    room: u32,
    /// Whose collection runs, if one does.
    running: Option<By>,
}

impl Model for Office {
    ghost use Rattle.std.specs.Prelude.{vec_capacity, vec_len};
    ghost use Rattle.aft_mail.specs.Desk.{Desk, IsDesk};

    ghost Value = { Desk };

    ghost view = { λ o. record { heard = o.heard.items; history = o.history.items; front = o.front; room = o.room } };

    ghost invariant = { λ o. IsDesk o.history.items o.front o.room o.running (vec_capacity o.history) };
}

/// Adds an entry at the end of a history that has room for it. Its front is the greater of the office's own and the
/// one handed in.
fn add(
    history: &mut Vec<OfficeEntry>,
    latest: &mut u64,
    front: u64,
    by: By,
    act: OfficeAct,
    answer: Option<Reply>,
)
    requires { vec_len history.old < vec_capacity history.old }
    ensures front { latest.new ≡ max latest.old front }
    ensures entry { history.new.items ≡ history.old.items ++ record { front = max latest.old front; by = by; act = act; answer = answer } ∷ [] }
    ensures room { vec_capacity history.new ≡ vec_capacity history.old }
{
    *latest = (*latest).max(front);
    history.push_reserved(OfficeEntry {
        front: *latest,
        by,
        act,
        answer,
    });
}

/// Adds the ids of commits that were posted to those that were heard of, and answers them. Where memory is wanting
/// nothing changes.
fn hear(alloc: Global, heard: &mut Vec<TxnId>, posted: &[Commit]) -> Result<List<TxnId>, AllocError>
    ensures ids { IfOk result (λ ids. ids ≡ ids_of posted.now) }
    ensures ok { OnOk result (heard.new.items ≡ heard.old.items ++ ids_of posted.now) }
    ensures err { OnErr result (heard.new.items ≡ heard.old.items) }
{
    let ids = ids_of(alloc, posted)?;
    heard.extend_from_slice(ids.as_slice())?;
    Ok(List::from_vec(ids))
}

/// Whether the collection that runs is this line's.
fn is_run_by(by: By, running: Option<By>) -> bool
    ensures { result ≡ is_run_by by running }
{
    match running {
        Some(other) => by == other,
        None => false,
    }
}

/// What the end of a round is, and its answer.
fn posted_as(heard: Result<List<TxnId>, AllocError>, reply: Reply) -> (OfficeAct, Reply)
    ensures { MatchResult heard (λ ids. result ≡ (acts.Posted ids, reply)) (λ _. result ≡ (acts.Nothing, replies.NoMemory)) }
{
    match heard {
        Ok(ids) => (OfficeAct::Posted { ids }, reply),
        Err(AllocError) => (OfficeAct::Nothing, Reply::NoMemory),
    }
}

/// What the end of a collection is, and its answer.
fn ended_as(is_ours: bool, reply: Reply) -> (OfficeAct, Reply)
    ensures { result ≡ (if is_ours then (acts.Collected, reply) else (acts.Nothing, replies.NoMemory)) }
{
    if is_ours {
        (OfficeAct::Collected, reply)
    } else {
        (OfficeAct::Nothing, Reply::NoMemory)
    }
}

impl Office {
    /// The office that has heard of these commits, with room for so many answers: one a line, fewer than 2^31. It
    /// has room besides for the beginning of a collection by each line.
    pub fn new(alloc: Global, heard: &List<Commit>, lines: u32) -> Result<Office, Memory>
        requires { lines < 2 ^ 31 }
        ensures { IfOk result (λ office. office ≡ record { heard = ids_of heard.now; history = []; front = 0; room = lines }) }
    {
        Ok(Office {
            alloc,
            heard: ids_of(alloc, heard.as_slice())?,
            history: Vec::with_capacity(alloc, lines as usize * 2)?,
            front: 0,
            room: lines,
            running: None,
        })
    }

    /// For how many answers there is room. Takes no memory.
    pub fn room(&self) -> u32
        ensures room { result ≡ self.now.room }
        ensures legal { IsLegal self.now }
    {
        self.room
    }

    /// How many entries the history has. Takes no memory.
    pub fn len(&self) -> u64
        ensures { result ≡ length self.now.history }
    {
        self.history.len() as u64
    }

    /// A round of the manager: the office hears of the commits that were taken, and the answer is those of the
    /// shown ones of which it hasn't heard then, in the order in which they were shown, which is that of their
    /// UUIDs on the pages of a scan. `Memory` leaves the office as it was.
    pub fn round(
        &mut self,
        front: u64,
        by: By,
        taken: List<Commit>,
        shown: &List<Commit>,
    ) -> Result<List<Commit>, Memory>
        ensures missed { IfOk result (λ missed. missed ≡ unheard (self.old.heard ++ ids_of taken) shown.now) }
        ensures ok { IfOk result (λ missed. self.new ≡ after_entry front by (acts.Round taken missed) None self.old) }
        ensures err { OnErr result (self.new ≡ self.old) }
        ensures legal { IsLegal self.new }
    {
        let known = with_ids(self.alloc, self.heard.as_slice(), taken.as_slice())?;
        let missed = unheard(self.alloc, known.as_slice(), shown.as_slice())?;
        let noted = List::from_vec(copies_of(self.alloc, missed.as_slice())?);
        self.history.reserve(self.room as usize * 2 + 1)?;
        self.heard = known;
        let act = OfficeAct::Round {
            heard: taken,
            missed: noted,
        };
        add(&mut self.history, &mut self.front, front, by, act, None);
        Ok(List::from_vec(missed))
    }

    /// The end of a round of the manager: the office hears of the missed commits that every box had room for, and
    /// answers. Where memory is wanting it hears of none, and answers so.
    pub fn posted(&mut self, front: u64, by: By, posted: List<Commit>, reply: Reply)
        requires room { 1 ≤ self.old.room }
        requires may { IsTrue (may_post (last_round by self.old.history) (ids_of posted) (Some reply)) }
        ensures either { (self.new ≡ after_entry front by (acts.Posted (ids_of posted)) (Some reply) self.old) ⊎ (self.new ≡ after_entry front by acts.Nothing (Some replies.NoMemory) self.old) }
        ensures legal { IsLegal self.new }
    {
        self.room -= 1;
        let heard = hear(self.alloc, &mut self.heard, posted.as_slice());
        let (act, answer) = posted_as(heard, reply);
        add(
            &mut self.history,
            &mut self.front,
            front,
            by,
            act,
            Some(answer),
        );
    }

    /// Begins a collection, unless one is running: then it answers so, and the answer is false. Takes no memory.
    pub fn collect_first(&mut self, front: u64, by: By) -> bool
        requires { 1 ≤ self.old.room }
        ensures free { result ≡ is_none (runs self.old.history) }
        ensures after { self.new ≡ (if result then after_entry front by acts.Collecting None self.old else after_entry front by acts.Nothing (Some replies.Collecting) self.old) }
        ensures legal { IsLegal self.new }
    {
        let free = self.running.is_none();
        if free {
            self.running = Some(by);
            add(
                &mut self.history,
                &mut self.front,
                front,
                by,
                OfficeAct::Collecting,
                None,
            );
        } else {
            self.room -= 1;
            let answer = Some(Reply::Collecting);
            add(
                &mut self.history,
                &mut self.front,
                front,
                by,
                OfficeAct::Nothing,
                answer,
            );
        }
        free
    }

    /// Ends the collection that this line began, with its answer. Where the line's collection isn't the one that
    /// runs, it answers `NoMemory` and ends none. Takes no memory.
    pub fn collect_end(&mut self, front: u64, by: By, reply: Reply)
        requires room { 1 ≤ self.old.room }
        requires may { IsTrue (may_end_with (Some reply)) }
        ensures after { self.new ≡ (if is_run_by by (runs self.old.history) then after_entry front by acts.Collected (Some reply) self.old else after_entry front by acts.Nothing (Some replies.NoMemory) self.old) }
        ensures legal { IsLegal self.new }
    {
        self.room -= 1;
        let is_ours = is_run_by(by, self.running);
        let (act, answer) = ended_as(is_ours, reply);
        if is_ours {
            self.running = None;
        }
        add(
            &mut self.history,
            &mut self.front,
            front,
            by,
            act,
            Some(answer),
        );
    }

    /// Answers, and does nothing else. Takes no memory.
    pub fn answer(&mut self, front: u64, by: By, reply: Reply)
        requires room { 1 ≤ self.old.room }
        requires may { IsTrue (may_answer_alone (Some reply)) }
        ensures after { self.new ≡ after_entry front by acts.Nothing (Some reply) self.old }
        ensures legal { IsLegal self.new }
    {
        self.room -= 1;
        add(
            &mut self.history,
            &mut self.front,
            front,
            by,
            OfficeAct::Nothing,
            Some(reply),
        );
    }

    /// The history, oldest entry first. Takes no memory.
    pub fn close(self) -> List<OfficeEntry>
        ensures history { result ≡ self.history }
        ensures legal { IsTrue (is_legal_alone result) }
    {
        List::from_vec(self.history)
    }
}
