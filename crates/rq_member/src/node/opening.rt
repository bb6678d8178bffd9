//! A node starts over its files: docs/RAFT.md, "Start".
#![tactic(auto, using(rq_wal::proofs::Spending::opening))]

ghost use Rattle.std.specs.Prelude.{◌≡◌, ◌⊎◌, ◌≤◌, ◌<◌, ◌+◌, ◌^◌, ◌∷◌, [], List, ℕ, length, map, take, Ok, Err, Some, None, IsTrue, IfOk, IfErr, OnErr, IsErrOf};
ghost use Rattle.rq_outside.specs.Pair.{disk_at};
ghost use Rattle.rq_outside.specs.declared.pair.FileNo.TheVariants.{One, Two};
ghost use Rattle.rq_wal.specs.Current.{IsCurrent, EachImageGives};
ghost use Rattle.rq_wal.specs.Reading.{pair_gives};
ghost use Rattle.rq_wal.specs.Spends.{SpendsMost};
ghost use Rattle.rq_wal.specs.declared.error.OpenError.TheVariants as opening;
ghost use Rattle.rq_raft.specs.Node.{Persistent, StoredRecord, Boot, persistent_with, persistent_after};
ghost use Rattle.rq_world.specs.declared.log_entry.LogEntry.{LogEntry as TheLogEntry};
ghost use Rattle.rq_world.specs.Node.{persistent_of, members, replica_of};
ghost use Rattle.rq_world.specs.Rules.{started};
ghost use Rattle.rq_member.specs.declared.error.NodeError.TheVariants as errors;
ghost use Rattle.rq_member.specs.declared.turn_error.TurnError.TheVariants as failures;
ghost use Rattle.rq_member.specs.Files.{first_base, first_image, stored_of, AreReadable, CanBeRead, IsSomeOf, Stands, HasFile};
ghost use Rattle.rq_member.specs.Held.{IsOpen};
ghost use Rattle.rq_member.specs.Opening.{most_boots, refusal_of, disk_failed, IsRefusal, IsStart, FailedOpening};

use super::{Node, State, store};
use crate::engine::Engine;
use crate::entry::LogEntry;
use crate::error::NodeError;
use crate::reading::log_of;
use crate::turn_error::TurnError;
use crate::waiting::QueuedWrite;
use rq_core::Core;
use rq_outside::{Disk, DiskPair};
use rq_queue::Queue;
use rq_values::{Bytes, Id, NoMemory, TryCopy, put_list, put_u8, put_u32};
use rq_wal::{Base, Frame, OpenError, Stored, WalFile, current_logs_stand, open};
use rq_wire::Config;
use std::alloc::Global;

/// So often a node may be started.
const MOST_BOOTS: u64 = 1 << 62;

/// How a node stands that was opened: how often it was started, its term, and its last index.
#[derive(Clone, Copy, Debug, PartialEq, Eq)]
pub struct Opened {
    pub boot: u64,
    pub term: u64,
    pub last: u64,
}

impl<R: Engine> Node<R> {
    /// Starts a node of the cluster with these first members: opens its pair, takes over what stands there, and stores that it has
    /// booted once more. In a new pair nothing stands: the node boots for the first time.
    ///
    /// Refused where a disk fails, where the files leave the format or hold no log, where the node was started 2^62 times, and for
    /// want of memory.
    pub fn open<D: Disk>(
        alloc: Global,
        disks: &mut DiskPair<D>,
        id: Id,
        first: &Config,
    ) -> Result<(Node<R>, Opened), NodeError>
        ensures node { IsTrue D.told → (kept : Persistent TheLogEntry) (records : List (StoredRecord TheLogEntry)) → CanBeRead kept records → Stands first.now D.told D.means disks.old kept records → IfOk result (λ opened. (k : ℕ) × (k ≤ length records) × (opened.0.state.node ≡ (started first.now id (persistent_after kept (take k records))).node)) }
        ensures gives { IsTrue D.told → IfOk result (λ opened. IsStart first.now id (pair_gives (first_base first.now) (D.means (disk_at disks.old One)).content (D.means (disk_at disks.old Two)).content) opened.0.state.node) }
        ensures open { IfOk result (λ opened. IsOpen first.now D.told D.means disks.new opened.0.state.node opened.0.file) }
        ensures first { IfOk result (λ opened. opened.0.state.first ≡ first.now) }
        ensures opened { IfOk result (λ opened. opened.1 ≡ record { boot = opened.0.state.node.boot; term = opened.0.state.node.raft.term; last = length opened.0.state.node.raft.log }) }
        ensures refusals { IsTrue D.told → IfErr result (λ e. (e ≡ errors.Disk) ⊎ (e ≡ errors.NoMemory) ⊎ IsRefusal (pair_gives (first_base first.now) (D.means (disk_at disks.old One)).content (D.means (disk_at disks.old Two)).content) e) }
        ensures failed { IsErrOf result errors.Disk → (kept : Persistent TheLogEntry) (records : List (StoredRecord TheLogEntry)) → CanBeRead kept records → Stands first.now D.told D.means disks.old kept records → FailedOpening first.now D.told D.means disks.new kept records }
        ensures refused { IsTrue D.told → (kept : Persistent TheLogEntry) (records : List (StoredRecord TheLogEntry)) → CanBeRead kept records → Stands first.now D.told D.means disks.old kept records → IfErr result (λ e. (e ≡ errors.Disk) ⊎ (Stands first.now D.told D.means disks.new kept records × ((e ≡ errors.NoMemory) ⊎ ((boot : ℕ) × (e ≡ errors.Ended boot))))) }
        ensures spent { SpendsMost D.means 14 (disk_failed result) disks.old disks.new }
    {
        match open_files(alloc, disks, first) {
            Ok((wal, stored)) => match State::started(alloc, id, first, stored) {
                Ok(state) => store_boot(alloc, disks, wal, state),
                Err(error) => {
                    drop(wal);
                    Err(error)
                }
            },
            Err(error) => Err(error),
        }
    }
}

/// Opens the pair of a node of the cluster with these first members, with the refusals of a node.
fn open_files<D: Disk>(
    alloc: Global,
    disks: &mut DiskPair<D>,
    first: &Config,
) -> Result<(WalFile, Stored), NodeError>
    ensures current { IfOk result (λ opened. IsTrue D.told → IsCurrent D.means (first_base first.now) disks.new opened.0 opened.1) }
    ensures gives { IsTrue D.told → IfOk result (λ opened. pair_gives (first_base first.now) (D.means (disk_at disks.old One)).content (D.means (disk_at disks.old Two)).content ≡ Ok opened.1) }
    ensures refusals { IsTrue D.told → IfErr result (λ e. (e ≡ errors.Disk) ⊎ (e ≡ errors.NoMemory) ⊎ IsRefusal (pair_gives (first_base first.now) (D.means (disk_at disks.old One)).content (D.means (disk_at disks.old Two)).content) e) }
    ensures given { IsTrue D.told → (kept : Persistent TheLogEntry) (records : List (StoredRecord TheLogEntry)) → Stands first.now D.told D.means disks.old kept records → IfOk result (λ opened. IsSomeOf first.now kept records (Ok opened.1)) }
    ensures stands { (kept : Persistent TheLogEntry) (records : List (StoredRecord TheLogEntry)) → Stands first.now D.told D.means disks.old kept records → Stands first.now D.told D.means disks.new kept records }
    ensures refused { IsTrue D.told → (kept : Persistent TheLogEntry) (records : List (StoredRecord TheLogEntry)) → Stands first.now D.told D.means disks.old kept records → IfErr result (λ e. (e ≡ errors.Disk) ⊎ (e ≡ errors.NoMemory)) }
    ensures spent { SpendsMost D.means 10 (disk_failed result) disks.old disks.new }
{
    let base = first_base(alloc, first)?;
    match open(alloc, disks, &base) {
        Ok(opened) => Ok(opened),
        Err(error) => Err(refusal(error)),
    }
}

/// The refusal of a node for one of its files.
fn refusal(error: OpenError) -> NodeError
    ensures told { result ≡ refusal_of error }
    ensures disk { (error ≡ opening.Disk → result ≡ errors.Disk) × (result ≡ errors.Disk → error ≡ opening.Disk) }
    ensures no_memory { error ≡ opening.NoMemory → result ≡ errors.NoMemory }
{
    match error {
        OpenError::Disk => NodeError::Disk,
        OpenError::NotAWal { file, place, byte } => NodeError::NotAWal { file, place, byte },
        OpenError::Version(version) => NodeError::Version(version),
        OpenError::NoMemory => NodeError::NoMemory,
    }
}

/// Stores the boot of a node that starts over this file.
fn store_boot<R: Engine, D: Disk>(
    alloc: Global,
    disks: &mut DiskPair<D>,
    wal: WalFile,
    state: State<R>,
) -> Result<(Node<R>, Opened), NodeError>
    requires small { state.node.boot ≤ 2 ^ 62 }
    requires open { (kept : Persistent TheLogEntry) × HasFile state.first D.told D.means disks.old kept (Some wal) }
    ensures state { IfOk result (λ opened. opened.0.state ≡ state) }
    ensures opened { IfOk result (λ opened. opened.1 ≡ record { boot = state.node.boot; term = state.node.raft.term; last = length state.node.raft.log }) }
    ensures open { (kept : Persistent TheLogEntry) → HasFile state.first D.told D.means disks.old kept (Some wal) → persistent_with kept (Boot state.node.boot) ≡ persistent_of state.node → IfOk result (λ opened. HasFile state.first D.told D.means disks.new (persistent_of state.node) opened.0.file) }
    ensures failed { IsErrOf result errors.Disk → (kept : Persistent TheLogEntry) → HasFile state.first D.told D.means disks.old kept (Some wal) → Stands state.first D.told D.means disks.new kept (Boot state.node.boot ∷ []) }
    ensures no_memory { IsErrOf result errors.NoMemory → (kept : Persistent TheLogEntry) → HasFile state.first D.told D.means disks.old kept (Some wal) → IsTrue D.told → EachImageGives D.means (first_base state.first) disks.new (stored_of state.first kept) }
    ensures refused { IfErr result (λ e. (e ≡ errors.Disk) ⊎ (e ≡ errors.NoMemory)) }
    ensures spent { SpendsMost D.means 4 (disk_failed result) disks.old disks.new }
{
    current_logs_stand::<D>();
    let boot = state.boot;
    let generation = wal.generation();
    let opened = Opened {
        boot,
        term: state.core.term(),
        last: state.core.last(),
    };
    let mut file = Some(wal);
    match store(&mut file, alloc, disks, &[Frame::Boot { boot }]) {
        Ok(()) => {
            let node = Node {
                state,
                file,
                generation,
            };
            Ok((node, opened))
        }
        Err(error) => {
            drop((state, file));
            Err(boot_refusal(error))
        }
    }
}

/// The refusal of a node whose boot wasn't stored.
fn boot_refusal(error: TurnError) -> NodeError
    requires { (error ≡ failures.Disk) ⊎ (error ≡ failures.NoMemory) }
    ensures { ((error ≡ failures.Disk) × (result ≡ errors.Disk)) ⊎ ((error ≡ failures.NoMemory) × (result ≡ errors.NoMemory)) }
{
    match error {
        TurnError::Disk => NodeError::Disk,
        _ => NodeError::NoMemory,
    }
}

/// The ids of the first members, in rising order.
fn ids_of(alloc: Global, first: &Config) -> Result<Vec<Id>, NoMemory>
    ensures { IfOk result (λ ids. ids.items ≡ members first.now) }
{
    let members = first.members();
    let mut ids = Vec::new(alloc);
    for place in 0..members.len() {
        ids.push(members[place].id)?;
    }
    Ok(ids)
}

impl<R: Engine> State<R> {
    /// What a node knows when it has booted once more over what was stored.
    fn started(alloc: Global, id: Id, first: &Config, stored: Stored) -> Result<State<R>, NodeError>
        ensures first { IfOk result (λ state. state.first ≡ first.now) }
        ensures from { IfOk result (λ state. (kept : Persistent TheLogEntry) × (state.node ≡ (started first.now id kept).node) × (kept.base ≡ 0) × (stored.base ≡ first_base first.now → stored ≡ stored_of first.now kept) × AreReadable kept.log × (kept.boot < most_boots)) }
        ensures ok { (kept : Persistent TheLogEntry) → kept.base ≡ 0 → AreReadable kept.log → stored ≡ stored_of first.now kept → IfOk result (λ state. state.node ≡ (started first.now id kept).node) }
        ensures wrong { IfErr result (λ e. (e ≡ errors.NoMemory) ⊎ IsRefusal (Ok stored) e) }
        ensures refused { (kept : Persistent TheLogEntry) → AreReadable kept.log → stored ≡ stored_of first.now kept → IfErr result (λ e. (e ≡ errors.NoMemory) ⊎ ((boot : ℕ) × (e ≡ errors.Ended boot))) }
        ensures no_disk { IsErrOf result errors.Disk → ⊥ }
        ensures small { IfOk result (λ state. state.node.boot ≤ 2 ^ 62) }
    {
        let log = match log_of(alloc, stored.entries.as_slice()) {
            Ok(log) => log,
            Err(error) => {
                drop(stored);
                return Err(error);
            }
        };
        let (term, vote, boot) = (stored.term, stored.vote, stored.boot);
        drop(stored);
        if boot >= MOST_BOOTS {
            drop(log);
            return Err(NodeError::Ended(boot));
        }
        match first.copy(alloc) {
            Ok(copy) => State::over(alloc, first, Core::new(id, copy, term, vote, log), boot + 1),
            Err(_) => {
                drop(log);
                Err(NodeError::NoMemory)
            }
        }
    }

    /// A node with this core that applied nothing yet.
    fn over(
        alloc: Global,
        first: &Config,
        core: Core<LogEntry>,
        boot: u64,
    ) -> Result<State<R>, NodeError>
        ensures first { IfOk result (λ state. state.first ≡ core.first) }
        ensures node { IfOk result (λ state. state.node ≡ record { raft = core.node; boot = boot; waiting = []; pending_reads = []; queue = []; last = 0; replica = replica_of first.now [] }) }
        ensures refused { IfErr result (λ e. e ≡ errors.NoMemory) }
    {
        match first_parts(alloc, first) {
            Ok((queue, replica)) => Ok(State {
                core,
                boot,
                waiting: Vec::new(alloc),
                pending_reads: Vec::new(alloc),
                queue,
                replica,
            }),
            Err(_) => {
                drop(core);
                Err(NodeError::NoMemory)
            }
        }
    }
}

/// An empty queue, and a replica before all commands.
fn first_parts<R: Engine>(
    alloc: Global,
    first: &Config,
) -> Result<(Queue<QueuedWrite>, R), NoMemory>
    ensures queue { IfOk result (λ parts. parts.0 ≡ record { items = []; last = 0 }) }
    ensures replica { IfOk result (λ parts. R.state parts.1 ≡ replica_of first.now []) }
{
    let ids = ids_of(alloc, first)?;
    let queue = Queue::new(alloc)?;
    match R::first(alloc, ids.as_slice()) {
        Ok(replica) => Ok((queue, replica)),
        Err(error) => {
            drop(queue);
            Err(error)
        }
    }
}

/// The base of a new node: an empty log, and the first members.
fn first_base(alloc: Global, first: &Config) -> Result<Base, NoMemory>
    ensures { IfOk result (λ base. base ≡ first_base first.now) }
{
    let state = first_image(alloc, first)?;
    match first.copy(alloc) {
        Ok(config) => Ok(Base {
            term: 0,
            vote: None,
            boot: 0,
            index: 0,
            last_term: 0,
            config,
            state,
        }),
        Err(error) => {
            drop(state);
            Err(error)
        }
    }
}

/// The image of the first state: no tables, no marks, and the ids of the first members.
fn first_image(alloc: Global, first: &Config) -> Result<Bytes, NoMemory>
    ensures { IfOk result (λ image. image ≡ first_image first.now) }
{
    let ids = ids_of(alloc, first)?;
    let mut image = Vec::new(alloc);
    put_u8(1, &mut image)?;
    put_u32(0, &mut image)?;
    put_u32(0, &mut image)?;
    put_list(ids.as_slice(), &mut image)?;
    Ok(Bytes::from_vec(image))
}
