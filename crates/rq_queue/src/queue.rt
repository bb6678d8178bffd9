//! A bounded queue whose items are numbered.
ghost use Rattle.std.specs.Prelude.{◌≡◌, ℕ, ◌+◌, ◌-◌, ◌<◌, ◌≤◌, ◌^◌, ◌↔◌, List, [], ◌∷◌, ◌++◌, length, take, drop, slice_get, slice_set, Some, IfOk, IfErr, IfSome, OnOk, OnErr, IsErr, IsNone};
ghost use Rattle.std.specs.Borrow.{LendsIf, sem};
ghost use Rattle.std.specs.Vec.{vec_len, vec_capacity};
ghost use Rattle.std.specs.VecDeque.{deque_len, deque_capacity};
ghost use Rattle.rq_queue.specs.Numbers.{Contents, first_number, numbered, with_numbers};
ghost use Rattle.rq_queue.specs.declared.queue.PutError.TheVariants.{Full};
ghost use Rattle.rq_queue.specs.contracts.queue.Queue.{the_row};

use rq_values::NoMemory;
use std::alloc::Global;
use std::collections::VecDeque;
use std::marker::Model;

/// The most items that a queue holds.
const ROOM: usize = 1024;

/// The most items of a batch.
const BATCH: usize = 128;

/// Items in order. Each gets a sequence number as it is put, from 1, one more than the one before it.
#[derive(Drop)]
pub struct Queue<T> {
    items: VecDeque<T>,
    last: u64,
}

impl<T> Model for Queue<T> {
    ghost use Rattle.std.specs.Prelude.{length, ◌≤◌, ◌^◌};
    ghost use Rattle.std.specs.VecDeque.{deque_capacity};
    ghost use Rattle.rq_queue.specs.Numbers.{Contents};

    ghost Value = { Contents T };

    ghost view = { λ q. record { items = q.items.items; last = q.last } };

    ghost invariant = { λ q. (length q.items.items ≤ 1024) × (1024 ≤ deque_capacity q.items) × (length q.items.items ≤ q.last) × (q.last ≤ 2 ^ 63) };
}

/// Why an item isn't put.
#[derive(Clone, Copy, Debug, PartialEq, Eq)]
pub enum PutError {
    /// The queue holds as many items as it may, which is this number.
    Full(u64),
}

impl<T: Drop> Queue<T> {
    /// An empty queue, with all the room that it will ever need.
    pub fn new(alloc: Global) -> Result<Queue<T>, NoMemory>
        ensures { IfOk result (λ queue. queue ≡ record { items = []; last = 0 }) }
    {
        let items = VecDeque::with_capacity(alloc, ROOM)?;
        Ok(Queue { items, last: 0 })
    }

    /// How many items are held.
    pub fn held(&self) -> usize
        ensures value { result ≡ length self.now.items }
        ensures room { result ≤ 1024 }
        ensures numbers { result ≤ self.now.last }
    {
        self.items.len()
    }

    /// The last number that was given.
    pub fn last(&self) -> u64
        ensures { result ≡ self.now.last }
    {
        self.last
    }

    /// Puts an item at the end, and answers its number. It takes no memory.
    pub fn put(&mut self, item: T) -> Result<u64, (T, PutError)>
        requires { self.old.last < 2 ^ 63 }
        ensures ok { IfOk result (λ number. (number ≡ self.old.last + 1) × (self.new ≡ record { items = self.old.items ++ item ∷ []; last = self.old.last + 1 })) }
        ensures err { IfErr result (λ refused. (refused.0 ≡ item) × (refused.1 ≡ Full (length self.old.items)) × (self.new ≡ self.old)) }
        ensures full { IsErr result ↔ (1024 ≤ length self.old.items) }
    {
        let held = self.items.len();
        if held >= ROOM {
            return Err((item, PutError::Full(held as u64)));
        }
        match self.items.push_back(item) {
            Ok(()) => {
                self.last += 1;
                Ok(self.last)
            }
            Err(failed) => {
                drop(failed);
                unreachable!()
            }
        }
    }

    /// The item at this position, from 0, with its number.
    pub fn get(&self, position: usize) -> Option<(u64, &T)>
        ensures some { IfSome result (λ item. (item.0 ≡ first_number self.now + position) × (slice_get self.now.items position ≡ Some item.1.now)) }
        ensures none { IsNone result ↔ (length self.now.items ≤ position) }
    {
        match self.items.get(position) {
            Some(item) => Some((
                self.last - self.items.len() as u64 + 1 + position as u64,
                item,
            )),
            None => None,
        }
    }

    /// Takes out the first 128, or all, with their numbers. With no memory the queue stays as it was.
    pub fn take_batch(&mut self) -> Result<Vec<(u64, T)>, NoMemory>
        ensures ok { IfOk result (λ batch. batch.items ≡ take 128 (with_numbers self.old)) }
        ensures rest { OnOk result (self.new ≡ record { items = drop 128 self.old.items; last = self.old.last }) }
        ensures err { OnErr result (self.new ≡ self.old) }
    {
        let number = self.last - self.items.len() as u64 + 1;
        let mut batch = Vec::with_capacity(*self.items.allocator(), BATCH)?;
        move_front(&mut self.items, number, BATCH, &mut batch);
        Ok(batch)
    }

    /// The item at this position, from 0, to be changed.
    pub fn get_mut(&mut self, position: usize) -> Option<&mut T>
        ensures* writes_back { sem 𝓛 (LendsIf (the_row T.row) T.row self.entry result (λ item. record self.old { items = slice_set self.old.items position item }) self.old) }
        ensures some { IfSome result (λ item. slice_get self.old.items position ≡ Some item.now) }
        ensures none { IsNone result ↔ (length self.old.items ≤ position) }
    {
        self.items.get_mut(position)
    }

    /// Drops the first 128, or all.
    pub fn drop_batch(&mut self)
        ensures { self.new ≡ record { items = drop 128 self.old.items; last = self.old.last } }
    {
        drop_front(&mut self.items, BATCH);
    }
}

/// Drops at most this many items from the start.
fn drop_front<T: Drop>(from: &mut VecDeque<T>, count: usize)
    ensures from { from.new.items ≡ drop count from.old.items }
    ensures fewer { length from.new.items ≤ length from.old.items }
    ensures capacity { deque_capacity from.new ≡ deque_capacity from.old }
{
    if count == 0 {
        return;
    }
    match from.pop_front() {
        Some(item) => {
            drop(item);
            drop_front(from, count - 1);
        }
        None => {}
    }
}

/// Moves at most this many items from the start to the end of a list that has room for them, with numbers from this one on.
fn move_front<T: Drop>(from: &mut VecDeque<T>, number: u64, count: usize, into: &mut Vec<(u64, T)>)
    requires room { length into.old.items + count ≤ vec_capacity into.old }
    requires small { number + count < 2 ^ 64 }
    ensures into { into.new.items ≡ into.old.items ++ take count (numbered number from.old.items) }
    ensures from { from.new.items ≡ drop count from.old.items }
    ensures fewer { length from.new.items ≤ length from.old.items }
    ensures capacity { deque_capacity from.new ≡ deque_capacity from.old }
{
    if count == 0 {
        return;
    }
    match from.pop_front() {
        Some(item) => {
            into.push_reserved((number, item));
            move_front(from, number + 1, count - 1, into);
        }
        None => {}
    }
}
