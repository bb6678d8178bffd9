//! How a node uses the way back.
ghost use Rattle.std.specs.Prelude.{◌≡◌};

use crate::node::Core;
use rq_log::{LogEntry, Packet};

/// A call and its way back leave the core as it was.
pub fn gave_up<E: LogEntry>(core: &mut Core<E>, packet: Packet<E>, moment: u64)
    ensures { core.new.node ≡ core.old.node }
{
    match core.deliver(packet, moment) {
        Ok(moves) => {
            drop(moves);
            core.take_back();
        }
        Err(_) => {}
    }
}

/// The same of a proposal.
pub fn tried<E: LogEntry>(core: &mut Core<E>, entry: E)
    ensures { core.new.node ≡ core.old.node }
{
    match core.propose(entry) {
        Ok(moves) => {
            drop(moves);
            core.take_back();
        }
        Err(_) => {}
    }
}
