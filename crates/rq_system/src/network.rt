//! Who listens for connections.
ghost use Rattle.std.specs.Prelude.{ℕ, ◌≡◌, ◌↔◌, IsNone, IfOk};
ghost use Rattle.rq_outside.specs.Counts.{HasCause};

use rq_outside::{Failed, Sink, Source};
use rq_values::Addr;

/// Connections that come in.
pub trait Listener {
    /// How often it has failed. It never falls.
    ghost faults: { Self → ℕ };

    type In: Source + Drop + 'static;

    type Out: Sink + Drop + 'static;

    /// What a fault leaves to be shown.
    type Fault: Copy + Drop + Send + 'static;

    /// The first fault, if any.
    fn fault(&self) -> Option<Self::Fault>
        ensures { IsNone result ↔ (faults self.now ≡ 0) };

    /// Waits for the next connection.
    fn accept(&mut self) -> Result<(Self::In, Self::Out), Failed>
        ensures { HasCause (faults self.old) (faults self.new) result };
}

/// Where one can listen.
pub trait Network {
    /// How often it has failed. It never falls.
    ghost faults: { Self → ℕ };

    type In: Source + Drop + Send + 'static;

    type Out: Sink + Drop + Send + 'static;

    type L: Listener<In = Self::In, Out = Self::Out> + Drop + Send + 'static;

    /// What a fault leaves to be shown.
    type Fault: Copy + Drop + Send + 'static;

    /// The first fault, if any.
    fn fault(&self) -> Option<Self::Fault>
        ensures { IsNone result ↔ (faults self.now ≡ 0) };

    /// Listens at an address.
    fn listen(&mut self, at: &Addr) -> Result<Self::L, Failed>
        ensures { HasCause (faults self.old) (faults self.new) result };
}
