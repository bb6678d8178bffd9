//! A node, served.
ghost use Rattle.std.specs.Prelude.{◌≡◌, [], None, IsTrue, IfSome};
ghost use Rattle.rq_node.specs.Files.{first_base};
ghost use Rattle.rq_node.specs.Opened.{IsRefusal};
ghost use Rattle.rq_node.specs.Recovery.{IsOpen};
ghost use Rattle.rq_outside.specs.Pair.{disk_at};
ghost use Rattle.rq_outside.specs.declared.pair.FileNo.TheVariants.{One, Two};
ghost use Rattle.rq_serve.specs.Ends.{files_error};
ghost use Rattle.rq_wal.specs.Reading.{pair_gives};

use crate::ends::NodeEnd;
use crate::listening::{Unstarted, start_workers};
use crate::locked::LockedDraws;
use crate::words::NodeWords;
use rq_desk::{Gate, HubEnd, OpenGate, Shared, run_hub};
use rq_hub::{Hub, Naming};
use rq_node::{Event, Node, NodeError, State};
use rq_outside::{Clock, Disk, DiskPair, Draws, Failed, Sink, Source};
use rq_system::{Listener, Network, Spawner};
use rq_tokens::{History, Known, new_history};
use std::alloc::Global;
use std::io::Print;
use std::marker::Brand;
use std::str::from_utf8;
use std::sync::{Arc, Mutex, Wait};
use std::time;

/// The end that a worker left, or that of the hub's thread.
fn end_of<N, L: Copy, D, C, R, W, H: Wait>(
    rt: &H,
    end: HubEnd<D, C, R>,
    left: &Mutex<Option<L>>,
) -> NodeEnd<N, L, D, C, R, W>
    ensures { files_error result ≡ None }
{
    match end {
        HubEnd::Disk(fault) => NodeEnd::Disk(fault),
        HubEnd::Clock(fault) => NodeEnd::Clock(fault),
        HubEnd::Draws(fault) => NodeEnd::Draws(fault),
        HubEnd::Memory => NodeEnd::Memory,
        HubEnd::Past(past) => NodeEnd::Past(past),
        HubEnd::Closed => match *left.lock(rt) {
            Some(fault) => NodeEnd::Accept(fault),
            None => NodeEnd::Memory,
        },
    }
}

/// Serves an open node until something ends it. The hub stays in the thread that calls this.
fn serve_named<
    J: Naming + Drop + Send + Sync + 'static,
    N,
    I: Source + Drop + Send + 'static,
    O: Sink + Drop + Send + 'static,
    L: Listener<In = I, Out = O> + Drop + Send + 'static,
    D: Disk + Drop,
    S: Clock + Drop,
    C: Clock + Drop + Send + 'static,
    R: Draws + Drop + Send + 'static,
    W: Spawner + Drop,
    G: Gate,
    H: Wait + time::Clock + Copy + Drop + Send + Sync + 'static,
>(
    rt: H,
    alloc: Global,
    listener: L,
    node: Node,
    disks: DiskPair<D>,
    history: History<Event>,
    known: Known<Event>,
    steady: S,
    wall: C,
    draws: R,
    spawner: W,
    gate: &G,
) -> NodeEnd<N, L::Fault, D::Fault, S::Fault, R::Fault, W::Fault>
    requires start { node.state ≡ J.start }
    requires empty { known.seen.log ≡ [] }
    requires one { known.seen.book ≡ history.head.book }
    requires named { known.seen.book ≡ J.book }
    requires open { IsOpen D.told D.means disks node }
    ensures { files_error result ≡ None }
{
    let (mut steady, mut spawner) = (steady, spawner);
    let mut hub: Hub<D, J> = Hub::new(node, disks, history, known);
    let (Ok(listener), Ok(shared), Ok(draws), Ok(wall), Ok(left)) = (
        Arc::new(alloc, Mutex::new(listener)),
        Arc::new(alloc, Shared::<J>::new(alloc)),
        Arc::new(alloc, Mutex::new(draws)),
        Arc::new(alloc, Mutex::new(wall)),
        Arc::new(alloc, Mutex::new(None)),
    ) else {
        return NodeEnd::Memory;
    };
    match start_workers(
        rt,
        alloc,
        &mut spawner,
        &listener,
        &shared,
        &draws,
        &wall,
        &left,
    ) {
        Ok(()) => {}
        Err(Unstarted::Spawn(fault)) => return NodeEnd::Spawn(fault),
        Err(Unstarted::Memory) => return NodeEnd::Memory,
    }
    let mut own_draws = LockedDraws::new(rt, draws);
    let end = run_hub(
        &rt,
        alloc,
        &mut hub,
        &*shared,
        &mut steady,
        &mut own_draws,
        gate,
    );
    end_of(&rt, end, &*left)
}

/// Prints that the node listens.
fn print_up<H: Print>(rt: &H, words: &NodeWords, state: &State) {
    let http = from_utf8(words.http.bytes()).unwrap_or("");
    let id = from_utf8(words.id.bytes()).unwrap_or("");
    let term = state.term();
    let entries = state.last();
    let _printed = println!(rt;
        "node {id} listens at http://{http}, term {term}, {entries} entries read"
    );
}

/// Serves the node that these words name over these files, until something ends it.
pub fn serve_node<
    N: Network,
    D: Disk + Drop,
    S: Clock + Drop,
    C: Clock + Drop + Send + 'static,
    R: Draws + Drop + Send + 'static,
    W: Spawner + Drop,
    H: Wait + time::Clock + Print + Copy + Drop + Send + Sync + 'static,
>(
    rt: H,
    alloc: Global,
    words: &NodeWords,
    net: &mut N,
    disks: DiskPair<D>,
    steady: S,
    wall: C,
    draws: R,
    spawner: W,
) -> NodeEnd<N::Fault, <N::L as Listener>::Fault, D::Fault, S::Fault, R::Fault, W::Fault>
    ensures { IfSome (files_error result) (λ e. IsTrue D.told → IsRefusal (pair_gives (first_base words.now.id) (D.means (disk_at disks One)).content (D.means (disk_at disks Two)).content) e) }
{
    let mut disks = disks;
    let listener = match net.listen(&words.http) {
        Ok(listener) => listener,
        Err(Failed) => {
            return match net.fault() {
                Some(fault) => NodeEnd::Listen(fault),
                None => NodeEnd::Memory,
            };
        }
    };
    let node = match Node::open(alloc, &mut disks, words.id) {
        Ok(node) => node,
        Err(NodeError::NoMemory) => return NodeEnd::Memory,
        Err(NodeError::Disk) => {
            return match disks.fault() {
                Some(fault) => NodeEnd::Disk(fault),
                None => NodeEnd::Memory,
            };
        }
        Err(error) => return NodeEnd::Files(error),
    };
    print_up(&rt, words, &node.state);
    let (history, known) = new_history::<Event>();
    serve_named::<Brand, N::Fault, N::In, N::Out, N::L, D, S, C, R, W, OpenGate, H>(
        rt, alloc, listener, node, disks, history, known, steady, wall, draws, spawner, &OpenGate,
    )
}
