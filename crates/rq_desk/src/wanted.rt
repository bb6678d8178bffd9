//! What is wanted of a node.
ghost use Rattle.std.specs.Prelude.{◌≡◌, ℕ, Bool, Some, None, IfOk};
ghost use Rattle.rq_node.specs.Events.{asked};
ghost use Rattle.rq_desk.specs.Asks as spec;

use rq_node::Event;
use rq_request::{Level, Op};
use rq_statement::{Item, StatementList};
use rq_values::{NoMemory, Seq, TryCopy};
use std::alloc::Global;

/// What an ask wants of a node.
pub enum Wanted {
    /// The statements are run, by way of the log.
    Write(Seq<Item>),
    /// The results of queries on the node's own database.
    Read(Seq<Item>),
    /// The same, where the node leads.
    LeaderRead(Seq<Item>),
}

impl Drop for Wanted {
    fn drop(self) {
        match self {
            Wanted::Write(items) => drop(items),
            Wanted::Read(items) => drop(items),
            Wanted::LeaderRead(items) => drop(items),
        }
    }
}

/// A copy of the items of a list.
fn copies(alloc: Global, list: &StatementList) -> Result<Seq<Item>, NoMemory>
    ensures { IfOk result (λ items. items ≡ list.now.items) }
{
    let mut items = Seq::new(alloc);
    for item in list.items() {
        let pushed = match item.copy(alloc) {
            Ok(item) => items.push(item),
            Err(error) => Err(error),
        };
        if pushed.is_err() {
            drop(items);
            return Err(NoMemory);
        }
    }
    Ok(items)
}

fn wanted_read(alloc: Global, items: &Seq<Item>, level: Level) -> Result<Wanted, NoMemory>
    requires { spec.unbuilt_level level ≡ None }
    ensures { IfOk result (λ wanted. (leads : Bool) (number : ℕ) → spec.wanted_event leads number wanted ≡ spec.read_event leads number items.now level) }
{
    let items = items.copy(alloc)?;
    match level {
        Level::None => Ok(Wanted::Read(items)),
        Level::Weak | Level::Linearizable | Level::Strong => Ok(Wanted::LeaderRead(items)),
    }
}

impl Wanted {
    /// What this ask wants, which is built.
    pub fn new(alloc: Global, op: &Op) -> Result<Wanted, NoMemory>
        requires { spec.unbuilt_of op.now ≡ None }
        ensures { IfOk result (λ wanted. (leads : Bool) (number : ℕ) → spec.op_event leads number op.now ≡ Some (spec.wanted_event leads number wanted)) }
    {
        match op {
            Op::Write { list, mixed: _ } => Ok(Wanted::Write(copies(alloc, list)?)),
            Op::Read {
                items,
                level,
                freshness: _,
            } => wanted_read(alloc, items, *level),
            _ => unreachable!(),
        }
    }

    /// The event that puts it to a node as the ask of this number.
    pub fn event(self, number: u64, leads: bool) -> Event
        ensures event { result ≡ spec.wanted_event leads number self }
        ensures asked { asked result ≡ Some number }
    {
        match self {
            Wanted::Read(items) => Event::Query { number, items },
            Wanted::LeaderRead(items) if leads => Event::Query { number, items },
            Wanted::LeaderRead(items) | Wanted::Write(items) => Event::Execute { number, items },
        }
    }
}
