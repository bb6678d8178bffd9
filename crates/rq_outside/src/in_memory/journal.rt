// A disk in memory that keeps each call that changed it, so that a crash can be played.
ghost use Rattle.std.specs.Prelude.{◌≡◌, ◌≤◌, ◌<◌, ◌+◌, ◌*◌, ◌^◌, ◌++◌, max, List, ℕ, true, All, [], ◌∷◌, ◌≢◌, replicate, length, take, drop, vec_len, vec_capacity, IfOk, OnOk, OnErr};
ghost use Rattle.rq_outside.specs.Disk.{Follows, Torn, Cut as IsCut, Holds, Only, Elapses, Stays, KeepsRoom, HasRoom, Uses};
ghost use Rattle.rq_outside.specs.Replay.{total_of, is_valid, has_no_sync, synced_calls, overwritten, padded, content_after, torn_write, torn_after, picked, left_after};

use std::alloc::{AllocError, Global};

/// A call that changed the disk. A write's bytes stand elsewhere.
#[derive(Clone, Copy, Debug, PartialEq, Eq)]
pub enum Call {
    Write { at: u64, len: u64 },
    Cut { to: u64 },
    Sync,
}

#[derive(Drop)]
pub struct Journal {
    content: Vec<u8>,
    first: Vec<u8>,
    spare: Vec<u8>,
    calls: Vec<Call>,
    written: Vec<u8>,
    room_bytes: u64,
    room_calls: u64,
    ghost reads: { content.items ≡ content_after calls.items written.items first.items },
    ghost valid: { is_valid calls.items written.items first.items ≡ true },
    ghost total: { total_of calls.items ≡ length written.items },
    ghost content_short: { vec_len content ≤ vec_len first + vec_len written },
    ghost content_room: { vec_len first + vec_len written + room_bytes ≤ vec_capacity content },
    ghost first_room: { vec_len first + vec_len written + room_bytes ≤ vec_capacity first },
    ghost written_room: { vec_len written + room_bytes ≤ vec_capacity written },
    ghost calls_room: { vec_len calls + room_calls ≤ vec_capacity calls },
    ghost spare_room: { vec_len first + vec_len written + room_bytes ≤ vec_capacity spare },
}

// Writes a piece over what is there, and past the end.
fn overwrite(content: &mut Vec<u8>, at: usize, piece: &[u8])
    requires place { at ≤ length content.old.items }
    requires room { max (vec_len content.old) (at + length piece.now) ≤ vec_capacity content.old }
    ensures items { content.new.items ≡ overwritten content.old.items at piece.now }
    ensures len { vec_len content.new ≡ max (vec_len content.old) (at + length piece.now) }
    ensures capacity { vec_capacity content.new ≡ vec_capacity content.old }
{
    let mut place = at;
    for byte in piece {
        if place < content.len() {
            content[place] = *byte;
        } else {
            content.push_reserved(*byte);
        }
        place += 1;
    }
}

impl Journal {
    ghost use Rattle.rq_outside.specs.Memory.{journal_means};

    /// A disk with this content, all of it stable.
    pub fn new(alloc: Global, content: Vec<u8>) -> Result<Journal, AllocError>
        ensures content { IfOk result (λ journal. journal.content.items ≡ content.items) }
        ensures stable { IfOk result (λ journal. Only content.items (journal_means journal 0).images) }
    {
        let mut spare = Vec::new(alloc);
        spare.reserve(content.len())?;
        let first = content.to_vec(alloc)?;
        Ok(Journal {
            content,
            first,
            spare,
            calls: Vec::new(alloc),
            written: Vec::new(alloc),
            room_bytes: 0,
            room_calls: 0,
        })
    }

    pub fn ready(&mut self, bytes: u64, calls: u64) -> Result<(), AllocError>
        ensures made { OnOk result (HasRoom (journal_means self.new 0) bytes calls) }
        ensures no_less { HasRoom (journal_means self.new 0) self.old.room_bytes self.old.room_calls }
        ensures content { self.new.content.items ≡ self.old.content.items }
        ensures first { self.new.first.items ≡ self.old.first.items }
        ensures written { self.new.written.items ≡ self.old.written.items }
        ensures calls { self.new.calls.items ≡ self.old.calls.items }
    {
        let Some(most) = (self.first.len() as u64).checked_add(self.written.len() as u64) else {
            return Err(AllocError);
        };
        let Some(most) = most.checked_add(bytes) else {
            return Err(AllocError);
        };
        self.calls.reserve(calls as usize)?;
        self.written.reserve(bytes as usize)?;
        reserve_to(&mut self.content, most as usize)?;
        reserve_to(&mut self.first, most as usize)?;
        reserve_to(&mut self.spare, most as usize)?;
        self.room_bytes = self.room_bytes.max(bytes);
        self.room_calls = self.room_calls.max(calls);
        Ok(())
    }

    pub fn write(&mut self, at: u64, piece: &[u8])
        requires place { at ≤ length (journal_means self.old 0).content }
        requires room { HasRoom (journal_means self.old 0) (length piece.now) 1 }
        ensures written { Holds (journal_means self.old 0).content at piece.now (journal_means self.new 0).content }
        ensures images { Follows (Torn at (length piece.now)) (journal_means self.old 0).images (journal_means self.new 0).images }
        ensures time { Elapses (journal_means self.old 0) (journal_means self.new 0) }
        ensures room { Uses (length piece.now) 1 (journal_means self.old 0) (journal_means self.new 0) }
    {
        overwrite(&mut self.content, at as usize, piece);
        extend_reserved(&mut self.written, piece);
        self.calls.push_reserved(Call::Write {
            at,
            len: piece.len() as u64,
        });
        self.room_bytes -= piece.len() as u64;
        self.room_calls -= 1;
    }

    /// Makes the content one of the images, stable.
    pub fn crash(&mut self, pick: u8)
        ensures picked { self.new.content.items ≡ picked pick self.old.calls.items self.old.written.items self.old.first.items }
        ensures image { (journal_means self.old 0).images self.new.content.items }
        ensures stable { Only self.new.content.items (journal_means self.new 0).images }
        ensures room_bytes { self.new.room_bytes ≡ self.old.room_bytes }
        ensures room_calls { self.new.room_calls ≡ self.old.room_calls }
    {
        image_of(
            &self.first,
            &self.calls,
            &self.written,
            pick,
            &mut self.spare,
        );
        replace(&mut self.content, &self.spare);
        replace(&mut self.first, &self.spare);
        self.calls.clear();
        self.written.clear();
    }

    pub fn cut(&mut self, to: u64)
        requires room { HasRoom (journal_means self.old 0) 0 1 }
        ensures cut { (journal_means self.new 0).content ≡ take to (journal_means self.old 0).content }
        ensures images { Follows (IsCut to) (journal_means self.old 0).images (journal_means self.new 0).images }
        ensures time { Elapses (journal_means self.old 0) (journal_means self.new 0) }
        ensures room { Uses 0 1 (journal_means self.old 0) (journal_means self.new 0) }
    {
        self.content.truncate(to as usize);
        self.calls.push_reserved(Call::Cut { to });
        self.room_calls -= 1;
    }

    pub fn sync(&mut self)
        requires room { HasRoom (journal_means self.old 0) 0 1 }
        ensures durable { Only (journal_means self.old 0).content (journal_means self.new 0).images }
        ensures content { (journal_means self.new 0).content ≡ (journal_means self.old 0).content }
        ensures images { (c : List ℕ) → (journal_means self.new 0).images c → (journal_means self.old 0).images c }
        ensures time { Elapses (journal_means self.old 0) (journal_means self.new 0) }
        ensures room { Uses 0 1 (journal_means self.old 0) (journal_means self.new 0) }
    {
        self.calls.push_reserved(Call::Sync);
        self.room_calls -= 1;
    }
}

// Makes the capacity at least so much.
fn reserve_to(bytes: &mut Vec<u8>, most: usize) -> Result<(), AllocError>
    ensures ok { OnOk result (most ≤ vec_capacity bytes.new) }
    ensures items { bytes.new.items ≡ bytes.old.items }
    ensures len { vec_len bytes.new ≡ vec_len bytes.old }
    ensures capacity { vec_capacity bytes.old ≤ vec_capacity bytes.new }
{
    bytes.reserve(most.saturating_sub(bytes.len()))
}

// Appends a piece where there is room.
fn extend_reserved(bytes: &mut Vec<u8>, piece: &[u8])
    requires { vec_len bytes.old + length piece.now ≤ vec_capacity bytes.old }
    ensures items { bytes.new.items ≡ bytes.old.items ++ piece.now }
    ensures len { vec_len bytes.new ≡ vec_len bytes.old + length piece.now }
    ensures capacity { vec_capacity bytes.old ≤ vec_capacity bytes.new }
{
    match bytes.extend_from_slice(piece) {
        Ok(()) => {}
        Err(_) => unreachable!(),
    }
}

impl Journal {
    ghost use Rattle.std.specs.Prelude.{min, ◌-◌};

    /// Moves the bytes from `at` on to the start of `into`.
    pub fn read(&self, at: u64, into: &mut [u8]) -> usize
        ensures whole { result ≡ min (length into.old) (length self.now.content.items - at) }
        ensures bytes { into.new ≡ take result (drop at self.now.content.items) ++ drop result into.old }
    {
        let at = (at as usize).min(self.content.len());
        let count = into.len().min(self.content.len() - at);
        into[..count].copy_from_slice(&self.content[at..at + count]);
        count
    }

    pub fn len(&self) -> u64
        ensures { result ≡ length self.now.content.items }
    {
        self.content.len() as u64
    }

    pub fn bytes(&self) -> &[u8]
        ensures { result.now ≡ self.now.content.items }
    {
        &self.content
    }
}

// Puts other bytes in the place of those that are there.
fn replace(bytes: &mut Vec<u8>, by: &[u8])
    requires { length by.now ≤ vec_capacity bytes.old }
    ensures items { bytes.new.items ≡ by.now }
    ensures len { vec_len bytes.new ≡ length by.now }
    ensures capacity { vec_capacity bytes.old ≤ vec_capacity bytes.new }
{
    bytes.clear();
    extend_reserved(bytes, by);
}

// How many calls there are up to the last sync.
fn synced(calls: &[Call]) -> usize
    ensures count { result ≡ synced_calls calls.now }
    ensures within { result ≤ length calls.now }
    ensures after { has_no_sync (drop result calls.now) ≡ true }
{
    let mut kept = calls.len();
    while kept > 0 {
        if matches!(calls[kept - 1], Call::Sync) {
            return kept;
        }
        kept -= 1;
    }
    0
}

// Plays a call as it was made, and answers how many bytes it wrote.
fn play_call(call: Call, written: &[u8], image: &mut Vec<u8>) -> usize
    requires total { total_of (call ∷ []) ≤ length written.now }
    requires valid { is_valid (call ∷ []) written.now image.old.items ≡ true }
    requires room { vec_len image.old + total_of (call ∷ []) ≤ vec_capacity image.old }
    ensures count { result ≡ total_of (call ∷ []) }
    ensures items { image.new.items ≡ content_after (call ∷ []) written.now image.old.items }
    ensures len { vec_len image.new ≤ vec_len image.old + total_of (call ∷ []) }
    ensures capacity { vec_capacity image.old ≤ vec_capacity image.new }
{
    match call {
        Call::Write { at, len } => {
            let len = len as usize;
            overwrite(image, at as usize, &written[..len]);
            len
        }
        Call::Cut { to } => {
            image.truncate(to as usize);
            0
        }
        Call::Sync => 0,
    }
}

// Plays the calls as they were made, and answers how many bytes they wrote.
fn play(calls: &[Call], written: &[u8], image: &mut Vec<u8>) -> usize
    requires total { total_of calls.now ≤ length written.now }
    requires valid { is_valid calls.now written.now image.old.items ≡ true }
    requires room { vec_len image.old + total_of calls.now ≤ vec_capacity image.old }
    ensures count { result ≡ total_of calls.now }
    ensures items { image.new.items ≡ content_after calls.now written.now image.old.items }
    ensures len { vec_len image.new ≤ vec_len image.old + total_of calls.now }
    ensures capacity { vec_capacity image.old ≤ vec_capacity image.new }
{
    let mut rest = written;
    let mut count = 0;
    for call in calls {
        let len = play_call(*call, rest, image);
        let (_, after) = rest.split_at(len);
        rest = after;
        count += len;
    }
    count
}

// Makes it at least so long, with 0 behind what was there.
fn pad(image: &mut Vec<u8>, end: usize)
    requires { end ≤ vec_capacity image.old }
    ensures items { image.new.items ≡ padded end image.old.items }
    ensures len { vec_len image.new ≡ max (vec_len image.old) end }
    ensures capacity { vec_capacity image.new ≡ vec_capacity image.old }
{
    while image.len() < end {
        image.push_reserved(0);
    }
}

// Writes a byte over a range that is there.
fn fill(image: &mut Vec<u8>, at: usize, len: usize, byte: u8)
    requires { at + len ≤ length image.old.items }
    ensures items { image.new.items ≡ overwritten image.old.items at (replicate len byte) }
    ensures len { vec_len image.new ≡ vec_len image.old }
    ensures capacity { vec_capacity image.new ≡ vec_capacity image.old }
{
    image[at..at + len].fill(byte);
}

// Plays calls that no sync followed, each torn by the pick.
fn tear(calls: &[Call], written: &[u8], pick: u8, image: &mut Vec<u8>)
    requires made { 0 < pick }
    requires total { total_of calls.now ≤ length written.now }
    requires valid { is_valid calls.now written.now image.old.items ≡ true }
    requires no_sync { has_no_sync calls.now ≡ true }
    requires room { vec_len image.old + total_of calls.now ≤ vec_capacity image.old }
    ensures items { image.new.items ≡ torn_after pick calls.now written.now image.old.items }
    ensures torn { left_after calls.now written.now image.old.items image.new.items }
    ensures len { vec_len image.new ≤ vec_len image.old + total_of calls.now }
    ensures capacity { vec_capacity image.old ≤ vec_capacity image.new }
{
    let mut rest = written;
    for call in calls {
        let len = tear_call(*call, rest, pick, image);
        let (_, after) = rest.split_at(len);
        rest = after;
    }
}

fn tear_call(call: Call, written: &[u8], pick: u8, image: &mut Vec<u8>) -> usize
    requires made { 0 < pick }
    requires total { total_of (call ∷ []) ≤ length written.now }
    requires valid { is_valid (call ∷ []) written.now image.old.items ≡ true }
    requires room { vec_len image.old + total_of (call ∷ []) ≤ vec_capacity image.old }
    ensures count { result ≡ total_of (call ∷ []) }
    ensures items { image.new.items ≡ torn_after pick (call ∷ []) written.now image.old.items }
    ensures len { vec_len image.new ≤ vec_len image.old + total_of (call ∷ []) }
    ensures capacity { vec_capacity image.old ≤ vec_capacity image.new }
{
    match call {
        Call::Write { at, len } => {
            let len = len as usize;
            tear_write(image, at as usize, &written[..len], pick);
            len
        }
        Call::Cut { to } => {
            image.truncate(to as usize);
            0
        }
        Call::Sync => 0,
    }
}

fn tear_write(image: &mut Vec<u8>, at: usize, piece: &[u8], pick: u8)
    requires made { 0 < pick }
    requires place { at ≤ length image.old.items }
    requires room { max (vec_len image.old) (at + length piece.now) ≤ vec_capacity image.old }
    ensures items { image.new.items ≡ torn_write pick image.old.items at piece.now }
    ensures len { vec_len image.new ≡ max (vec_len image.old) (at + length piece.now) }
    ensures capacity { vec_capacity image.new ≡ vec_capacity image.old }
{
    match pick {
        1 => overwrite(image, at, piece),
        2 => {
            overwrite(image, at, piece);
            fill(image, at, piece.len(), 1);
        }
        _ => {
            overwrite(image, at, &piece[..piece.len() / 2]);
            pad(image, at + piece.len());
        }
    }
}

// Makes the image that a crash after the calls leaves by its pick.
fn image_of(first: &[u8], calls: &[Call], written: &[u8], pick: u8, spare: &mut Vec<u8>)
    requires valid { is_valid calls.now written.now first.now ≡ true }
    requires total { total_of calls.now ≡ length written.now }
    requires room { length first.now + length written.now ≤ vec_capacity spare.old }
    ensures items { spare.new.items ≡ picked pick calls.now written.now first.now }
    ensures image { left_after calls.now written.now first.now spare.new.items }
    ensures len { vec_len spare.new ≤ length first.now + length written.now }
    ensures capacity { vec_capacity spare.old ≤ vec_capacity spare.new }
{
    replace(spare, first);
    let (before, after) = calls.split_at(synced(calls));
    let from = play(before, written, spare);
    if pick == 0 {
        return;
    }
    let (_, later) = written.split_at(from);
    tear(after, later, pick, spare);
}
