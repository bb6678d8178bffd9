//! Why a node ends.
ghost use Rattle.std.specs.Prelude.{◌≡◌};
ghost use Rattle.rq_serve.specs.Ends.{status_of};

use rq_hub::Past;
use rq_node::NodeError;

/// Why a node ends. A fault was given by the object that failed, since nobody else can make one: of the network, its
/// listener, the disks, a clock, the random words, the spawner.
#[derive(Clone, Copy, Drop)]
pub enum NodeEnd<N, L, D, C, R, W> {
    /// The words are none of a node's.
    Words,
    Listen(N),
    Accept(L),
    Memory,
    Draws(R),
    Disk(D),
    /// The files aren't those of a node.
    Files(NodeError),
    Past(Past),
    Clock(C),
    Spawn(W),
}

impl<N, L, D, C, R, W> NodeEnd<N, L, D, C, R, W> {
    /// The status of the program.
    pub fn status(&self) -> u8
        ensures { result ≡ status_of self.now }
    {
        match self {
            NodeEnd::Words => 2,
            NodeEnd::Listen(_) | NodeEnd::Accept(_) => 4,
            NodeEnd::Memory => 6,
            NodeEnd::Draws(_) => 7,
            NodeEnd::Disk(_) => 9,
            NodeEnd::Files(_) | NodeEnd::Past(_) => 10,
            NodeEnd::Clock(_) => 11,
            NodeEnd::Spawn(_) => 12,
        }
    }
}
