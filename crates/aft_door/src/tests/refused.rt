//! Calls that the store fails, and incarnations that come up again or too late.

use super::{caller, come_up, open_door, open_over};
use crate::DoorFault;
use aft_id::List;
use aft_keeper::Fail;
use aft_records::Name;
use uuid::Uuid;

#[test]
fn fails(rt: HostRuntime) {
    let alloc = rt.alloc();
    let mut fails = Vec::new(alloc);
    for call in 3..5 {
        fails
            .push(Fail { call, after: false })
            .expect(&rt, "memory");
    }
    let mut door = open_over(&rt, alloc, List::from_vec(fails));
    let uuid = Uuid::from_u128(1);
    let name = Name::CommitOf { uuid };
    let found = door.get(caller(0), &name);
    assert!(rt; matches!(found, Err(DoorFault::Failed)));
    let page = door.scan(caller(0), "c/", "", 64);
    assert!(rt; matches!(page, Err(DoorFault::Failed)));
    let found = door.get(caller(0), &name);
    assert!(rt; matches!(found, Ok(None)));
    assert!(rt; door.len() == 6);
}

#[test]
fn comes_up_again(rt: HostRuntime) {
    let mut door = open_door(&rt, rt.alloc());
    let by = caller(1).by;
    come_up(&rt, &mut door, 1);
    assert!(rt; door.up_now(1) == Some(1));
    assert!(rt; door.up(1, 1, by).is_ok());
    assert!(rt; door.len() == 4);
    assert!(rt; door.fence(2, by).is_none());
    assert!(rt; door.fence(1, by) == Some(1));
    assert!(rt; door.up_now(1).is_none());
    let late = door.up(1, 1, by);
    assert!(rt; late == Err(DoorFault::Fenced { node: 1, inc: 1 }));
    assert!(rt; door.next_inc(1) == 2 && door.next_inc(2) == 1);
    assert!(rt; door.len() == 5);
}
