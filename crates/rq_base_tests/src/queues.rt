use rq_queue::{PutError, Queue};
use std::alloc::Global;
use std::test::Fail;

/// A queue in which the numbers from 0 on were put, so many of them.
fn queue_of(alloc: Global, count: u64) -> Result<Queue<u64>, Fail> {
    let mut queue = Queue::new(alloc)?;
    for item in 0..count {
        if queue.last() >= 4096 {
            break;
        }
        let _ = queue.put(item);
    }
    Ok(queue)
}

/// What comes of one more in a queue of 1,024, and how many it then holds.
fn one_more(alloc: Global) -> Result<(Option<(u64, PutError)>, usize), Fail> {
    let mut queue = queue_of(alloc, 1024)?;
    let refused = if queue.last() >= 4096 {
        None
    } else {
        queue.put(7).err()
    };
    let held = queue.held();
    drop(queue);
    Ok((refused, held))
}

#[test]
fn a_queue_holds_1024(rt: HostRuntime) -> Result<(), Fail> {
    assert_eq!(rt;
        one_more(rt.alloc())?,
        (Some((7, PutError::Full(1024))), 1024)
    );
    Ok(())
}

/// The length, the first and the last of a batch of 129, and the number and the item that is left.
fn batch_of_129(
    alloc: Global,
) -> Result<
    (
        usize,
        Option<(u64, u64)>,
        Option<(u64, u64)>,
        Option<(u64, u64)>,
    ),
    Fail,
> {
    let mut queue = queue_of(alloc, 129)?;
    let batch = queue.take_batch()?;
    let count = batch.len();
    let first = batch.first().copied();
    let last = batch.last().copied();
    let left = match queue.get(0) {
        Some((number, item)) => Some((number, *item)),
        None => None,
    };
    drop((batch, queue));
    Ok((count, first, last, left))
}

#[test]
fn a_batch_has_128(rt: HostRuntime) -> Result<(), Fail> {
    assert_eq!(rt;
        batch_of_129(rt.alloc())?,
        (128, Some((1, 0)), Some((128, 127)), Some((129, 128)))
    );
    Ok(())
}
