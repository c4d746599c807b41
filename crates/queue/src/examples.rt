// Queues on examples whose answers were worked out beforehand, apart from this program.
use crate::entry::Entry;
use crate::queue::Queue;
use std::process::Abort;
use std::test::Fail;

// Two parcels of one weight compare as equal, and may differ.
#[derive(Clone, Copy)]
#[derive_where(PartialEq, Eq, PartialOrd, Ord)]
struct Parcel {
    weight: u32,
    #[derive_where(skip)]
    owner: u32,
}

fn weighing(weight: u32, owner: u32) -> Parcel {
    Parcel { weight, owner }
}

fn item_is(rt: &impl Abort, item: Option<(u32, Parcel)>, number: u32, weight: u32, owner: u32) {
    let found = item.map(|(n, key)| (n, key.weight, key.owner));
    assert_eq!(rt; found, Some((number, weight, owner)));
}

#[test]
fn equal_parcels_go_by_number(rt: HostRuntime) -> Result<(), Fail> {
    let mut table = [Entry::free(); 3];
    let mut queue = Queue::empty(&mut table);
    queue.put(9, weighing(5, 70))?;
    queue.put(4, weighing(5, 71))?;
    queue.put(7, weighing(4, 72))?;
    assert!(rt; queue.put(2, weighing(1, 73)).is_err());
    item_is(&rt, queue.smallest(), 7, 4, 72);
    item_is(&rt, queue.take_smallest(), 7, 4, 72);
    item_is(&rt, queue.smallest(), 4, 5, 71);
    let mut queue = Queue::resume(&mut table);
    let withdrawn = queue.withdraw(4).map(|key| key.owner);
    assert_eq!(rt; withdrawn, Some(71));
    let mut list = [(0, weighing(0, 0)); 2];
    assert_eq!(rt; queue.drain(&mut list), 1);
    item_is(&rt, list.first().copied(), 9, 5, 70);
    Ok(())
}

#[test]
fn each_resumes_the_other(rt: HostRuntime) -> Result<(), Fail> {
    let mut table = [Entry::free(); 3];
    let mut queue = Queue::empty_exact(&mut table);
    queue.put(2, 6u32)?;
    queue.put(1, 6)?;
    let mut queue = Queue::resume(&mut table);
    assert_eq!(rt; queue.take_smallest(), Some((1, 6)));
    queue.put(0, 8)?;
    let mut queue = Queue::resume_exact(&mut table);
    let mut list = [(9, 9); 3];
    assert_eq!(rt; queue.drain(&mut list), 2);
    assert_eq!(rt; list, [(2, 6), (0, 8), (9, 9)]);
    Ok(())
}
