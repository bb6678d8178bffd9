//! Starting a node: docs/RAFT.md, "Start".
#![tactic(auto, using(rq_wal::proofs::Spending::opening))]

ghost use Rattle.std.specs.Prelude.{◌≡◌, ◌≢◌, ◌⊎◌, ◌≤◌, ◌<◌, ◌+◌, ◌++◌, ◌∷◌, ◌^◌, [], List, ℕ, length, map, take, Ok, Some, IsTrue, IfOk, IfErr, OnOk, OnErr, IsErrOf, All};
ghost use Rattle.rq_values.specs.Text.{is_addr};
ghost use Rattle.rq_outside.specs.Pair.{disk_at};
ghost use Rattle.rq_outside.specs.declared.pair.FileNo.TheVariants.{One, Two};
ghost use Rattle.rq_wire.specs.declared.entry.Entry.{Entry as TheEntry};
ghost use Rattle.rq_wal.specs.Current.{IsCurrent, EachImageGives};
ghost use Rattle.rq_wal.specs.Spends.{SpendsMost};
ghost use Rattle.rq_wal.specs.declared.error.OpenError.TheVariants as opening;
ghost use Rattle.rq_wal.specs.Reading.{pair_gives};
ghost use Rattle.rq_node.specs.declared.error.NodeError.TheVariants.{Disk as DiskFailed, NoMemory as OutOfMemory, Command, Ended};
ghost use Rattle.rq_node.specs.Node.{Persistent, StoredRecord, Boot, persistent_of, persistent_with, persistent_after};
ghost use Rattle.rq_node.specs.declared.log_entry.LogEntry.{LogEntry as TheLogEntry};
ghost use Rattle.rq_node.specs.declared.log_entry.Content.{Content as TheContent};
ghost use Rattle.rq_node.specs.declared.log_entry.Content.TheVariants.{Execute};
ghost use Rattle.rq_values.specs.declared.error.DecodeError.{DecodeError as TheError};
ghost use Rattle.rq_values.specs.declared.error.DecodeError.TheVariants as commands;
ghost use Rattle.rq_statement.specs.declared.item.Item.{Item as TheItem};
ghost use Rattle.rq_statement.specs.Bytes.{execute_bytes};
ghost use Rattle.rq_node.specs.Files.{first_base, first_image, body_of, stored_entry, stored_of};
ghost use Rattle.rq_node.specs.Opened.{refusal_of, most_boots, IsNoCommand, IsNoEntry, IsNoLog, IsRefusal, IsStart};
ghost use Rattle.rq_node.specs.Rules.{started};
ghost use Rattle.rq_node.specs.Sound.{AreReadable, IsPersistentReadable};
ghost use Rattle.rq_node.specs.Recovery.{disk_failed, HasFile, IsOpen, IsSomeOf, Stands, CanBeRead, FailedOpening};

use super::{Node, State, store};
use crate::error::NodeError;
use crate::log_entry::{Content, LogEntry};
use crate::role::Role;
use crate::turn_error::TurnError;
use rq_command::decode_execute;
use rq_engine::Engine;
use rq_outside::{Disk, DiskPair};
use rq_statement::Item;
use rq_tables::Tables;
use rq_values::{
    Addr, Bytes, DecodeError, Id, MAX_COMMAND, NoMemory, Seq, put_bytes, put_u8, put_u32,
};
use rq_wal::{Base, Frame, OpenError, Stored, WalFile, current_logs_stand, open};
use rq_wire::{Body, Config, Entry, Member};
use std::alloc::Global;
use std::collections::VecDeque;

/// So often a node may be started.
const MOST_BOOTS: u64 = 1 << 62;

impl Node {
    /// Starts the one voter with this id: opens its pair, takes over what stands there, and stores that it has booted once
    /// more. In a new pair nothing stands: the node boots for the first time.
    ///
    /// Refused where a disk fails, where the files leave the format or hold no node's log, where the node was started 2^62
    /// times, and for want of memory.
    pub fn open<D: Disk>(alloc: Global, disks: &mut DiskPair<D>, id: Id) -> Result<Node, NodeError>
        ensures node { IsTrue D.told → (kept : Persistent) (items : List StoredRecord) → CanBeRead kept items → Stands D.told D.means disks.old id kept items → IfOk result (λ node. (k : ℕ) × (node.state ≡ (started id (persistent_after kept (take k items))).node)) }
        ensures gives { IsTrue D.told → IfOk result (λ node. IsStart id (pair_gives (first_base id) (D.means (disk_at disks.old One)).content (D.means (disk_at disks.old Two)).content) node.state) }
        ensures refusals { IsTrue D.told → IfErr result (λ e. (e ≡ DiskFailed) ⊎ (e ≡ OutOfMemory) ⊎ IsRefusal (pair_gives (first_base id) (D.means (disk_at disks.old One)).content (D.means (disk_at disks.old Two)).content) e) }
        ensures open { IfOk result (λ node. IsOpen D.told D.means disks.new node) }
        ensures failed { IsErrOf result DiskFailed → (kept : Persistent) (items : List StoredRecord) → CanBeRead kept items → Stands D.told D.means disks.old id kept items → FailedOpening D.told D.means disks.new id kept items }
        ensures refused { IsTrue D.told → (kept : Persistent) (items : List StoredRecord) → CanBeRead kept items → Stands D.told D.means disks.old id kept items → IfErr result (λ e. (e ≡ DiskFailed) ⊎ (Stands D.told D.means disks.new id kept items × ((e ≡ OutOfMemory) ⊎ ((boot : ℕ) × (e ≡ Ended boot))))) }
        ensures spent { SpendsMost D.means 14 (disk_failed result) disks.old disks.new }
    {
        match open_files(alloc, disks, id) {
            Ok((wal, stored)) => match started_state(alloc, id, stored) {
                Ok(state) => store_boot(alloc, disks, wal, state),
                Err(error) => Err(error),
            },
            Err(error) => Err(error),
        }
    }
}

/// Opens the pair of a node with this id, with the refusals of a node.
fn open_files<D: Disk>(
    alloc: Global,
    disks: &mut DiskPair<D>,
    id: Id,
) -> Result<(WalFile, Stored), NodeError>
    ensures current { IfOk result (λ opened. IsTrue D.told → IsCurrent D.means (first_base id) disks.new opened.0 opened.1) }
    ensures gives { IsTrue D.told → IfOk result (λ opened. pair_gives (first_base id) (D.means (disk_at disks.old One)).content (D.means (disk_at disks.old Two)).content ≡ Ok opened.1) }
    ensures refusals { IsTrue D.told → IfErr result (λ e. (e ≡ DiskFailed) ⊎ (e ≡ OutOfMemory) ⊎ IsRefusal (pair_gives (first_base id) (D.means (disk_at disks.old One)).content (D.means (disk_at disks.old Two)).content) e) }
    ensures given { IsTrue D.told → (kept : Persistent) (items : List StoredRecord) → Stands D.told D.means disks.old id kept items → IfOk result (λ opened. IsSomeOf id kept items (Ok opened.1)) }
    ensures stands { (kept : Persistent) (items : List StoredRecord) → Stands D.told D.means disks.old id kept items → Stands D.told D.means disks.new id kept items }
    ensures refused { IsTrue D.told → (kept : Persistent) (items : List StoredRecord) → Stands D.told D.means disks.old id kept items → IfErr result (λ e. (e ≡ DiskFailed) ⊎ (e ≡ OutOfMemory)) }
    ensures spent { SpendsMost D.means 10 (disk_failed result) disks.old disks.new }
{
    let first = first_base(alloc, id)?;
    match open(alloc, disks, &first) {
        Ok(opened) => Ok(opened),
        Err(error) => Err(refusal(error)),
    }
}

/// The refusal of a node for one of its files.
fn refusal(error: OpenError) -> NodeError
    ensures told { result ≡ refusal_of error }
    ensures disk { (error ≡ opening.Disk → result ≡ DiskFailed) × (result ≡ DiskFailed → error ≡ opening.Disk) }
    ensures no_memory { error ≡ opening.NoMemory → result ≡ OutOfMemory }
{
    match error {
        OpenError::Disk => NodeError::Disk,
        OpenError::NotAWal { file, place, byte } => NodeError::NotAWal { file, place, byte },
        OpenError::Version(version) => NodeError::Version(version),
        OpenError::NoMemory => NodeError::NoMemory,
    }
}

/// What a node knows when it has booted once more over what was stored.
fn started_state(alloc: Global, id: Id, stored: Stored) -> Result<State, NodeError>
    ensures from { IfOk result (λ state. (kept : Persistent) × (state ≡ (started id kept).node) × (stored.base ≡ first_base id → stored ≡ stored_of id kept) × AreReadable kept.log × (kept.boot < most_boots)) }
    ensures wrong { IfErr result (λ e. (e ≡ OutOfMemory) ⊎ IsRefusal (Ok stored) e) }
    ensures ok { (kept : Persistent) → AreReadable kept.log → stored ≡ stored_of id kept → IfOk result (λ state. state ≡ (started id kept).node) }
    ensures refused { (kept : Persistent) → AreReadable kept.log → stored ≡ stored_of id kept → IfErr result (λ e. (e ≡ OutOfMemory) ⊎ ((boot : ℕ) × (e ≡ Ended boot))) }
    ensures no_disk { IsErrOf result DiskFailed → ⊥ }
    ensures small { IfOk result (λ state. state.boot ≤ 2 ^ 62) }
{
    if stored.boot >= MOST_BOOTS {
        return Err(NodeError::Ended(stored.boot));
    }
    let log = log_of(alloc, stored.entries.as_slice())?;
    let replica = Tables::first(alloc, &[id])?;
    Ok(State {
        id,
        term: stored.term,
        vote: stored.vote,
        boot: stored.boot + 1,
        log,
        commit: 0,
        applied: 0,
        role: Role::Follower,
        waiting: VecDeque::new(alloc),
        replica,
    })
}

/// Stores the boot of a node that starts over this file.
fn store_boot<D: Disk>(
    alloc: Global,
    disks: &mut DiskPair<D>,
    wal: WalFile,
    state: State,
) -> Result<Node, NodeError>
    requires small { state.boot ≤ 2 ^ 62 }
    requires open { (id : List ℕ) × (kept : Persistent) × HasFile D.told D.means disks.old id kept (Some wal) }
    ensures state { IfOk result (λ node. node.state ≡ state) }
    ensures open { (kept : Persistent) → HasFile D.told D.means disks.old state.id kept (Some wal) → persistent_with kept (Boot state.boot) ≡ persistent_of state → IfOk result (λ node. IsOpen D.told D.means disks.new node) }
    ensures failed { IsErrOf result DiskFailed → (kept : Persistent) → HasFile D.told D.means disks.old state.id kept (Some wal) → Stands D.told D.means disks.new state.id kept (Boot state.boot ∷ []) }
    ensures no_memory { IsErrOf result OutOfMemory → (kept : Persistent) → HasFile D.told D.means disks.old state.id kept (Some wal) → IsTrue D.told → EachImageGives D.means (first_base state.id) disks.new (stored_of state.id kept) }
    ensures refused { IfErr result (λ e. (e ≡ DiskFailed) ⊎ (e ≡ OutOfMemory)) }
    ensures spent { SpendsMost D.means 4 (disk_failed result) disks.old disks.new }
{
    current_logs_stand::<D>();
    let mut file = Some(wal);
    match store(&mut file, alloc, disks, &[Frame::Boot { boot: state.boot }]) {
        Ok(()) => Ok(Node { state, file }),
        Err(TurnError::Disk) => Err(NodeError::Disk),
        Err(TurnError::NoMemory) => Err(NodeError::NoMemory),
    }
}

/// The log that these entries of the file are.
fn log_of(alloc: Global, entries: &[Entry]) -> Result<Vec<LogEntry>, NodeError>
    ensures readable { IfOk result (λ log. AreReadable log.items) }
    ensures spelled { IfOk result (λ log. entries.now ≡ map stored_entry log.items) }
    ensures no_disk { IsErrOf result DiskFailed → ⊥ }
    ensures ok { (log : List TheLogEntry) → AreReadable log → entries.now ≡ map stored_entry log → IfOk result (λ found. found.items ≡ log) }
    ensures refused { (log : List TheLogEntry) → AreReadable log → entries.now ≡ map stored_entry log → IfErr result (λ e. e ≡ OutOfMemory) }
    ensures wrong { IfErr result (λ e. (e ≡ OutOfMemory) ⊎ IsNoLog entries.now e) }
{
    let mut log = Vec::new(alloc);
    for place in 0..entries.len() {
        match entry_of(alloc, place as u64 + 1, &entries[place]) {
            Ok(entry) => log.push(entry)?,
            Err(error) => return Err(error),
        }
    }
    Ok(log)
}

/// The entry at this index, as the file has it.
fn entry_of(alloc: Global, index: u64, entry: &Entry) -> Result<LogEntry, NodeError>
    ensures readable { IfOk result (λ found. IsPersistentReadable found.content) }
    ensures spelled { IfOk result (λ found. entry.now ≡ stored_entry found) }
    ensures no_disk { IsErrOf result DiskFailed → ⊥ }
    ensures ok { (kept : TheLogEntry) → IsPersistentReadable kept.content → entry.now ≡ stored_entry kept → IfOk result (λ found. found ≡ kept) }
    ensures refused { (kept : TheLogEntry) → IsPersistentReadable kept.content → entry.now ≡ stored_entry kept → IfErr result (λ e. e ≡ OutOfMemory) }
    ensures wrong { IfErr result (λ e. (e ≡ OutOfMemory) ⊎ IsNoEntry index entry.now.body e) }
{
    let content = content_of(alloc, index, &entry.body)?;
    Ok(LogEntry {
        term: entry.term,
        content,
    })
}

/// What the entry at this index holds.
fn content_of(alloc: Global, index: u64, body: &Body) -> Result<Content, NodeError>
    ensures readable { IfOk result (λ content. IsPersistentReadable content) }
    ensures spelled { IfOk result (λ content. body.now ≡ body_of content) }
    ensures no_disk { IsErrOf result DiskFailed → ⊥ }
    ensures ok { (content : TheContent) → IsPersistentReadable content → body.now ≡ body_of content → IfOk result (λ found. found ≡ content) }
    ensures refused { (content : TheContent) → IsPersistentReadable content → body.now ≡ body_of content → IfErr result (λ e. e ≡ OutOfMemory) }
    ensures wrong { IfErr result (λ e. (e ≡ OutOfMemory) ⊎ IsNoEntry index body.now e) }
{
    match body {
        Body::NoOp => Ok(Content::NoOp),
        Body::Config(_) => Err(NodeError::Config { index }),
        Body::Data(command) => Ok(Content::Execute(list_of(alloc, index, command.bytes())?)),
    }
}

/// The list that a command of the entry at this index runs.
fn list_of(alloc: Global, index: u64, command: &[u8]) -> Result<Seq<Item>, NodeError>
    ensures readable { IfOk result (λ items. IsPersistentReadable (Execute items)) }
    ensures spelled { IfOk result (λ items. command.now ≡ execute_bytes items) }
    ensures no_disk { IsErrOf result DiskFailed → ⊥ }
    ensures ok { (items : List TheItem) → IsPersistentReadable (Execute items) → command.now ≡ execute_bytes items → IfOk result (λ found. found ≡ items) }
    ensures refused { (items : List TheItem) → IsPersistentReadable (Execute items) → command.now ≡ execute_bytes items → IfErr result (λ e. e ≡ OutOfMemory) }
    ensures wrong { IfErr result (λ e. (e ≡ OutOfMemory) ⊎ ((error : TheError) × (e ≡ Command index error) × IsNoCommand command.now error)) }
{
    if command.len() > MAX_COMMAND as usize {
        let len = u32::try_from(command.len()).unwrap_or(u32::MAX);
        return Err(NodeError::Command {
            index,
            error: DecodeError::Long(0, len),
        });
    }
    match decode_execute(alloc, command) {
        Ok(items) => Ok(items),
        Err(error) => Err(no_command(index, error)),
    }
}

/// The refusal of a node for a command at this index.
fn no_command(index: u64, error: DecodeError) -> NodeError
    ensures told { ((error ≡ commands.NoMemory) × (result ≡ OutOfMemory)) ⊎ ((error ≢ commands.NoMemory) × (result ≡ Command index error)) }
    ensures no_disk { result ≡ DiskFailed → ⊥ }
    ensures no_memory { error ≡ commands.NoMemory → result ≡ OutOfMemory }
{
    match error {
        DecodeError::NoMemory => NodeError::NoMemory,
        error => NodeError::Command { index, error },
    }
}

/// The base of a new node: an empty log, and itself as the one voter.
#[tactic(auto, unfolding(rq_wire::specs::Config::ids_rise))]
fn first_base(alloc: Global, id: Id) -> Result<Base, NoMemory>
    ensures { IfOk result (λ base. base ≡ first_base id) }
{
    let name = id.bytes();
    let http = address(alloc, name, b":4001")?;
    let raft = address(alloc, name, b":4002")?;
    let mut members = Seq::new(alloc);
    members.push(Member {
        id,
        voter: true,
        http,
        raft,
    })?;
    let Some(config) = Config::new(members) else {
        unreachable!()
    };
    Ok(Base {
        term: 0,
        vote: None,
        boot: 0,
        index: 0,
        last_term: 0,
        config,
        state: first_image(alloc, &id)?,
    })
}

/// The address of a node at a port.
fn address(alloc: Global, name: &[u8], port: &[u8]) -> Result<Addr, NoMemory>
    requires port { IsTrue (is_addr (name.now ++ port.now)) }
    ensures { IfOk result (λ addr. addr ≡ name.now ++ port.now) }
{
    let mut bytes = Vec::new(alloc);
    bytes.extend_from_slice(name)?;
    bytes.extend_from_slice(port)?;
    Ok(Addr::new(alloc, &bytes)?.unwrap())
}

/// The image of the first state: no tables, no marks, and the id of the one voter.
fn first_image(alloc: Global, id: &Id) -> Result<Bytes, NoMemory>
    ensures { IfOk result (λ image. image ≡ first_image id.now) }
{
    let mut image = Vec::new(alloc);
    put_u8(1, &mut image)?;
    put_u32(0, &mut image)?;
    put_u32(0, &mut image)?;
    put_u32(1, &mut image)?;
    put_bytes(id.bytes(), &mut image)?;
    Ok(Bytes::from_vec(image))
}
