//! A mailbox.

ghost use Rattle.std.specs.Prelude.{◌≡◌, ◌≤◌, ◌-◌, [], length, IfOk, OnOk, OnErr};
ghost use Rattle.aft_model.specs.Boxes.{LegalBox};
ghost use Rattle.aft_mail.specs.BoxState.{IsLegal, after_post, after_take};

use crate::copies::{copies_of, ids_of};
use aft_id::{List, Memory};
use aft_model::{By, MailAct, MailEntry};
use aft_records::Commit;
use std::alloc::Global;
use std::marker::Model;
use std::mem;

/// A box of messages, which are commits, as many as its capacity at most. Contracts see its capacity, the messages,
/// the greatest front of a post, and its history.
#[derive(Debug, Drop)]
pub struct Mailbox {
    alloc: Global,
    capacity: u32,
    messages: Vec<Commit>,
    front: u64,
    history: Vec<MailEntry>,
}

impl Model for Mailbox {
    ghost use Rattle.aft_mail.specs.BoxState.{BoxState, IsLegal};

    ghost Value = { BoxState };

    ghost view = { λ m. record { capacity = m.capacity; messages = m.messages.items; front = m.front; history = m.history.items } };

    ghost invariant = { λ m. IsLegal (record { capacity = m.capacity; messages = m.messages.items; front = m.front; history = m.history.items }) };
}

impl Mailbox {
    /// An empty box for 1 to 4,096 messages. Takes memory only once something is posted.
    pub fn new(alloc: Global, capacity: u32) -> Result<Mailbox, Memory>
        requires least { 1 ≤ capacity }
        requires most { capacity ≤ 4096 }
        ensures { IfOk result (λ mailbox. mailbox ≡ record { capacity = capacity; messages = []; front = 0; history = [] }) }
    {
        Ok(Mailbox {
            alloc,
            capacity,
            messages: Vec::new(alloc),
            front: 0,
            history: Vec::new(alloc),
        })
    }

    /// Puts the first of the commits into the box, in order, as many as have room there. The answer is the number
    /// of the others, which are dropped. `front` is how many entries of the door's history the poster had seen.
    /// `Memory` leaves the box and its history as they were.
    pub fn post(&mut self, commits: &List<Commit>, front: u64, by: By) -> Result<u64, Memory>
        ensures refused { IfOk result (λ refused. refused ≡ length commits.now - (self.old.capacity - length self.old.messages)) }
        ensures ok { OnOk result (self.new ≡ after_post by commits.now front self.old) }
        ensures err { OnErr result (self.new ≡ self.old) }
        ensures legal { IsLegal self.new }
    {
        let posted = commits.as_slice();
        let room = self.capacity as usize - self.messages.len();
        let taken = posted.len().min(room);
        let mut fitting = copies_of(self.alloc, &posted[..taken])?;
        let ids = List::from_vec(ids_of(self.alloc, posted)?);
        self.history.reserve(1)?;
        self.messages.append(&mut fitting)?;
        self.history.push_reserved(MailEntry {
            by,
            act: MailAct::Post {
                ids,
                taken: taken as u64,
            },
        });
        self.front = self.front.max(front);
        Ok((posted.len() - taken) as u64)
    }

    /// All messages, in order, and the greatest front of a post so far, or 0. The box is then empty. `Memory`
    /// leaves it and its history as they were.
    pub fn take(&mut self, by: By) -> Result<(List<Commit>, u64), Memory>
        ensures taken { IfOk result (λ taken. (taken.0 ≡ self.old.messages) × (taken.1 ≡ self.old.front)) }
        ensures ok { OnOk result (self.new ≡ after_take by self.old) }
        ensures err { OnErr result (self.new ≡ self.old) }
        ensures legal { IsLegal self.new }
    {
        let ids = List::from_vec(ids_of(self.alloc, self.messages.as_slice())?);
        self.history.push(MailEntry {
            by,
            act: MailAct::Take { ids },
        })?;
        let taken = mem::replace(&mut self.messages, Vec::new(self.alloc));
        Ok((List::from_vec(taken), self.front))
    }

    /// How many entries the history has. Takes no memory.
    pub fn len(&self) -> u64
        ensures count { result ≡ length self.now.history }
        ensures legal { IsLegal self.now }
    {
        self.history.len() as u64
    }

    /// The history, oldest entry first. Takes no memory.
    pub fn close(self) -> List<MailEntry>
        ensures history { result ≡ self.history }
        ensures legal { LegalBox self.capacity result }
    {
        List::from_vec(self.history)
    }
}
