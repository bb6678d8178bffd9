//! TCP.
ghost use Rattle.std.specs.Prelude.{◌≡◌};

use crate::counting::{Faults, SystemFault, fault_of, told};
use crate::network::{Listener, Network};
use rq_outside::{Failed, Sink, SinkError, Source};
use rq_values::Addr;
use std::io::{ErrorKind, Read, Write};
use std::net::{TcpListener, TcpStream};
use std::str::from_utf8;
use std::time::Duration;
use std::{io, net};

/// How many bytes are read at once.
const PIECE: usize = 4096;

/// So many seconds a read waits for the peer, and a write for its taking.
const PATIENCE: u64 = 30;

/// What a connection's peer sends. A read that waits for 30 s is a fault.
#[derive(Drop)]
pub struct Incoming {
    stream: TcpStream,
    pub faults: Faults,
}

impl Source for Incoming {
    ghost use Rattle.std.specs.Prelude.{false, []};

    ghost told = { false };

    ghost left = { λ _. [] };

    ghost faults = { λ s. s.faults.count };

    fn read(&mut self, into: &mut [u8]) -> Result<usize, Failed> {
        let mut piece = [0; PIECE];
        let most = into.len().min(PIECE);
        match self.stream.read(&mut piece[..most]) {
            Ok(count) => {
                into[..count].copy_from_slice(&piece[..count]);
                Ok(count)
            }
            Err(error) => {
                self.faults.add(fault_of(error.kind()));
                Err(Failed)
            }
        }
    }
}

/// What a connection's peer is sent. A write that waits for 30 s is a fault.
#[derive(Drop)]
pub struct Outgoing {
    stream: TcpStream,
    pub faults: Faults,
}

impl Sink for Outgoing {
    ghost use Rattle.std.specs.Prelude.{false, []};

    ghost told = { false };

    ghost taken = { λ _. [] };

    ghost faults = { λ s. s.faults.count };

    fn write(&mut self, piece: &[u8]) -> Result<usize, SinkError> {
        match self.stream.write(piece) {
            Ok(count) if count > 0 || piece.is_empty() => Ok(count),
            Ok(_) => {
                self.faults.add(SystemFault::Other);
                Err(SinkError::Failed)
            }
            Err(error) => {
                self.faults.add(fault_of(error.kind()));
                Err(SinkError::Failed)
            }
        }
    }
}

/// Connections that come in at a TCP port.
#[derive(Drop)]
pub struct TcpConnections {
    listener: TcpListener,
    pub faults: Faults,
}

/// The two halves of a connection that was accepted, or None where its peer has left it meanwhile.
fn halves(stream: TcpStream) -> Option<(Incoming, Outgoing)> {
    let patience = Some(Duration::from_secs(PATIENCE));
    stream.set_nodelay(true).ok()?;
    stream.set_read_timeout(patience).ok()?;
    stream.set_write_timeout(patience).ok()?;
    let second = stream.try_clone().ok()?;
    Some((
        Incoming {
            stream,
            faults: Faults::none(),
        },
        Outgoing {
            stream: second,
            faults: Faults::none(),
        },
    ))
}

/// Whether the connection failed, and not the listener.
fn is_of_connection(error: &io::Error) -> bool {
    matches!(
        error.kind(),
        ErrorKind::ConnectionAborted | ErrorKind::ConnectionReset | ErrorKind::Interrupted
    )
}

/// The next connection. One that is reset before it is accepted is passed over.
fn next_connection(listener: &TcpListener) -> Result<(Incoming, Outgoing), SystemFault> {
    for _ in 0..u64::MAX {
        match listener.accept() {
            Ok((stream, _peer)) => {
                if let Some(halves) = halves(stream) {
                    return Ok(halves);
                }
            }
            Err(error) => {
                if !is_of_connection(&error) {
                    return Err(fault_of(error.kind()));
                }
            }
        }
    }
    Err(SystemFault::Other)
}

impl Listener for TcpConnections {
    ghost faults = { λ s. s.faults.count };

    type In = Incoming;

    type Out = Outgoing;

    type Fault = SystemFault;

    fn fault(&self) -> Option<SystemFault> {
        self.faults.first()
    }

    fn accept(&mut self) -> Result<(Incoming, Outgoing), Failed> {
        let outcome = next_connection(&self.listener);
        self.faults.counted(outcome)
    }
}

/// The network of the system.
#[derive(Drop)]
pub struct TcpNetwork<R> {
    rt: R,
    pub faults: Faults,
}

impl<R> TcpNetwork<R> {
    pub fn new(rt: R) -> TcpNetwork<R>
        ensures { result.faults.count ≡ 0 }
    {
        TcpNetwork {
            rt,
            faults: Faults::none(),
        }
    }
}

/// A port that listens at this address: a host and a port's number.
fn bound<R: net::Net<Listener = TcpListener, Stream = TcpStream>>(
    rt: &R,
    at: &Addr,
) -> Result<TcpConnections, SystemFault> {
    let Ok(address) = from_utf8(at.bytes()) else {
        return Err(SystemFault::Malformed);
    };
    let listener = told(TcpListener::bind(rt, address))?;
    Ok(TcpConnections {
        listener,
        faults: Faults::none(),
    })
}

impl<R: net::Net<Listener = TcpListener, Stream = TcpStream>> Network for TcpNetwork<R> {
    ghost faults = { λ s. s.faults.count };

    type In = Incoming;

    type Out = Outgoing;

    type L = TcpConnections;

    type Fault = SystemFault;

    fn fault(&self) -> Option<SystemFault> {
        self.faults.first()
    }

    fn listen(&mut self, at: &Addr) -> Result<TcpConnections, Failed> {
        let outcome = bound(&self.rt, at);
        self.faults.counted(outcome)
    }
}
