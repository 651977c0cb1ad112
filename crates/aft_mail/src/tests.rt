//! What no contract says: that each call succeeds where memory is ample.

ghost use Rattle.std.specs.Prelude.{◌≡◌, ◌≤◌, ◌+◌, [], OnOk};

use crate::mailbox::Mailbox;
use crate::office::Office;
use aft_id::{List, Memory, TxnId};
use aft_model::{By, MailAct, OfficeAct, Reply};
use aft_records::{Commit, Key, Keys, RecordFault};
use std::alloc::Global;
use std::test::Fail;
use uuid::Uuid;

const BY: By = By { client: 1, line: 1 };

/// A commit of x at this time.
fn commit(alloc: Global, time: u64) -> Result<Commit, RecordFault> {
    let mut keys = Vec::new(alloc);
    keys.push(Key::new(alloc, b"x")?)?;
    Ok(Commit {
        id: TxnId {
            time,
            uuid: Uuid::nil(),
        },
        keys: Keys::new(List::from_vec(keys))?,
    })
}

/// Commits of x at two times.
fn two(alloc: Global) -> Result<List<Commit>, RecordFault> {
    let mut commits = Vec::new(alloc);
    commits.push(commit(alloc, 1)?)?;
    commits.push(commit(alloc, 2)?)?;
    Ok(List::from_vec(commits))
}

/// A box for one message refuses the second, and hands out the first.
#[test]
fn box_for_one(rt: HostRuntime) -> Result<(), Fail> {
    let alloc = rt.alloc();
    let mut mailbox = Mailbox::new(alloc, 1)?;
    assert_eq!(rt; mailbox.post(&two(alloc)?, 7, BY)?, 1);
    let (messages, front) = mailbox.take(BY)?;
    assert_eq!(rt; front, 7);
    assert_eq!(rt; messages.as_slice().len(), 1);
    assert_eq!(rt; mailbox.len(), 2);
    let history = mailbox.close();
    let last = history.as_slice().last().is_some_and(
        |entry| matches!(&entry.act, MailAct::Take { ids } if ids.as_slice().len() == 1),
    );
    assert!(rt; last);
    Ok(())
}

/// A round at a new office, and the end of it: all that was missed was posted.
fn posts_missed(alloc: Global, office: &mut Office, shown: &List<Commit>) -> Result<(), Memory>
    requires new { office.old.history ≡ [] }
    requires room { 1 ≤ office.old.room }
    ensures { OnOk result (office.new.room + 1 ≡ office.old.room) }
{
    let missed = office.round(3, BY, List::from_vec(Vec::new(alloc)), shown)?;
    let reply = Reply::Managed {
        heard: 0,
        missed: missed.as_slice().len() as u64,
    };
    office.posted(4, BY, missed, reply);
    Ok(())
}

/// A round finds the commit of which nobody had heard, and a collection comes behind it.
#[test]
fn round_and_collection(rt: HostRuntime) -> Result<(), Fail> {
    let alloc = rt.alloc();
    let mut heard = Vec::new(alloc);
    heard.push(commit(alloc, 1)?)?;
    let mut office = Office::new(alloc, &List::from_vec(heard), 4)?;
    posts_missed(alloc, &mut office, &two(alloc)?)?;
    assert_eq!(rt; office.room(), 3);
    assert_eq!(rt; office.len(), 2);
    assert!(rt; office.collect_first(4, BY));
    assert!(rt; !office.collect_first(4, BY));
    let history = office.close();
    let posted = history.as_slice().get(1).is_some_and(
        |entry| matches!(&entry.act, OfficeAct::Posted { ids } if ids.as_slice().len() == 1),
    );
    assert!(rt; posted);
    Ok(())
}
