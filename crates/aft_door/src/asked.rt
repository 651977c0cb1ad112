//! Entries of calls of the store, each with its answer.

ghost use Rattle.std.specs.Prelude.{◌≡◌, ◌<◌, ◌∷◌, ◌++◌, ℕ, [], All, List, IsTrue, true, false};
ghost use Rattle.std.specs.Str.{bytes_eq};
ghost use Rattle.aft_door.specs.Calls.{may_ask};
ghost use Rattle.aft_door.specs.Entries.{called, who_calls};
ghost use Rattle.aft_model.specs.Bytes.{answers_bytes, are_bytes};
ghost use Rattle.aft_model.specs.DoorKnowledge.{is_open};
ghost use Rattle.aft_model.specs.DoorRules.{may_call};
ghost use Rattle.aft_model.specs.LegalDoor.{may_answer};
ghost use Rattle.aft_model.specs.Membership.{is_up};
ghost use Rattle.aft_model.specs.Readings.{marker_name, record_name};

use crate::ledger::Ledger;
use aft_id::{Bytes, Text};
use aft_keeper::{KeeperAnswer, KeeperCall};
use aft_model::Caller;
use uuid::Uuid;

impl Ledger {
    /// A get.
    pub(crate) fn add_get(&mut self, who: Caller, name: Text, answer: KeeperAnswer)
        requires room { self.old.has_room ≡ true }
        requires up { IsTrue (is_up (who_calls who) self.old.history) }
        requires next { IsTrue (may_ask who (KeeperCall.Get name) self.old.history) }
        requires answered { IsTrue (may_answer (KeeperCall.Get name) answer) }
        requires bytes { IsTrue (answers_bytes answer) }
        ensures { self.new.history ≡ self.old.history ++ called who (KeeperCall.Get name) answer ∷ [] }
    {
        text_fits(&name);
        self.add_call(who, KeeperCall::Get(name), answer);
    }

    /// A scan.
    pub(crate) fn add_scan(
        &mut self,
        who: Caller,
        prefix: Text,
        after: Text,
        limit: u32,
        answer: KeeperAnswer,
    )
        requires room { self.old.has_room ≡ true }
        requires up { IsTrue (is_up (who_calls who) self.old.history) }
        requires next { IsTrue (may_ask who (KeeperCall.Scan prefix after limit) self.old.history) }
        requires answered { IsTrue (may_answer (KeeperCall.Scan prefix after limit) answer) }
        requires bytes { IsTrue (answers_bytes answer) }
        ensures { self.new.history ≡ self.old.history ++ called who (KeeperCall.Scan prefix after limit) answer ∷ [] }
    {
        text_fits(&prefix);
        text_fits(&after);
        let call = KeeperCall::Scan {
            prefix,
            after,
            limit,
        };
        self.add_call(who, call, answer);
    }

    /// A put of what is no record.
    pub(crate) fn add_put(&mut self, who: Caller, name: Text, bytes: Bytes, answer: KeeperAnswer)
        requires room { self.old.has_room ≡ true }
        requires open { IsTrue (is_open self.old.history) }
        requires up { IsTrue (is_up (who_calls who) self.old.history) }
        requires may { IsTrue (may_call self.old.history (who_calls who) (KeeperCall.Put name bytes)) }
        requires answered { IsTrue (may_answer (KeeperCall.Put name bytes) answer) }
        requires bytes { IsTrue (answers_bytes answer) }
        requires no_record { (uuid : List ℕ) → bytes_eq (record_name uuid) name ≡ false }
        ensures { self.new.history ≡ self.old.history ++ called who (KeeperCall.Put name bytes) answer ∷ [] }
    {
        text_fits(&name);
        bytes_fit(&bytes);
        self.add_call(who, KeeperCall::Put(name, bytes), answer);
    }

    /// A put of a record.
    pub(crate) fn add_record(
        &mut self,
        who: Caller,
        uuid: Uuid,
        name: Text,
        bytes: Bytes,
        answer: KeeperAnswer,
    )
        requires room { self.old.has_room ≡ true }
        requires open { IsTrue (is_open self.old.history) }
        requires up { IsTrue (is_up (who_calls who) self.old.history) }
        requires may { IsTrue (may_call self.old.history (who_calls who) (KeeperCall.Put name bytes)) }
        requires answered { IsTrue (may_answer (KeeperCall.Put name bytes) answer) }
        requires bytes { IsTrue (answers_bytes answer) }
        requires name { name ≡ record_name uuid }
        ensures { self.new.history ≡ self.old.history ++ called who (KeeperCall.Put name bytes) answer ∷ [] }
    {
        text_fits(&name);
        bytes_fit(&bytes);
        self.add_record_put(who, uuid, name, bytes, answer);
    }

    /// A delete of what is no marker.
    pub(crate) fn add_delete(&mut self, who: Caller, name: Text, answer: KeeperAnswer)
        requires room { self.old.has_room ≡ true }
        requires open { IsTrue (is_open self.old.history) }
        requires up { IsTrue (is_up (who_calls who) self.old.history) }
        requires may { IsTrue (may_call self.old.history (who_calls who) (KeeperCall.Delete name)) }
        requires answered { IsTrue (may_answer (KeeperCall.Delete name) answer) }
        requires bytes { IsTrue (answers_bytes answer) }
        requires no_marker { (uuid : List ℕ) → bytes_eq (marker_name uuid) name ≡ false }
        ensures { self.new.history ≡ self.old.history ++ called who (KeeperCall.Delete name) answer ∷ [] }
    {
        text_fits(&name);
        self.add_call(who, KeeperCall::Delete(name), answer);
    }

    /// A delete of a marker.
    pub(crate) fn add_forget(&mut self, who: Caller, uuid: Uuid, name: Text, answer: KeeperAnswer)
        requires room { self.old.has_room ≡ true }
        requires open { IsTrue (is_open self.old.history) }
        requires up { IsTrue (is_up (who_calls who) self.old.history) }
        requires may { IsTrue (may_call self.old.history (who_calls who) (KeeperCall.Delete name)) }
        requires answered { IsTrue (may_answer (KeeperCall.Delete name) answer) }
        requires bytes { IsTrue (answers_bytes answer) }
        requires name { name ≡ marker_name uuid }
        ensures { self.new.history ≡ self.old.history ++ called who (KeeperCall.Delete name) answer ∷ [] }
    {
        text_fits(&name);
        self.add_marker_delete(who, uuid, name, answer);
    }
}

/// A text is made of bytes.
pub(crate) fn text_fits(text: &Text)
    ensures { IsTrue (are_bytes text.now) }
{
    fit(text.as_str().as_bytes());
}

/// Bytes are made of bytes.
pub(crate) fn bytes_fit(bytes: &Bytes)
    ensures { IsTrue (are_bytes bytes.now) }
{
    fit(bytes.as_slice());
}

/// Each byte of a slice is in its type's range.
fn fit(bytes: &[u8])
    ensures { IsTrue (are_bytes bytes.now) }
{
    in_range(bytes);
}

fn in_range(bytes: &[u8])
    ensures { All (λ b. b < 256) bytes.now }
{}
