//! The cluster of a script, and what its lines do: docs/SCRIPT.md, "Lines".
ghost use Rattle.std.specs.Prelude.{◌≡◌, ◌<◌, ◌++◌, ◌↔◌, ℕ, List, [], None, Some, All, IsTrue, IfOk, OnOk, IsErrOf, MatchOption, is_some, flat_map, ⊤};
ghost use Rattle.rq_outside.specs.declared.pair.DiskPair.{DiskPair as ThePair};
ghost use Rattle.rq_script.specs.Cluster.{Cluster as TheCluster, Steps, IsOutside, MayReach};
ghost use Rattle.rq_script.specs.ReadLine.{action_read, line_read, HasPick, HasPickAt};
ghost use Rattle.rq_script.specs.ScriptLine as lines;
ghost use Rattle.rq_script.specs.ScriptText.{pending_text};
ghost use Rattle.rq_cluster.specs.Refines.{HostReady, ServerReady, with_host, IsReady, RefinesCluster, Refines, Does, Breaks, DoesLine, IsOutsideHere, BreaksLine, pending_in};
ghost use Rattle.rq_cluster.specs.Events.{IsEvent};
ghost use Rattle.rq_cluster.specs.Recovery.{Holds};
ghost use Rattle.rq_cluster.specs.declared.line_error.LineError.TheVariants.{Outside, NoMemory as OutOfMemory};

use crate::arming::Arming;
use crate::host::Host;
use crate::line_error::LineError;
use crate::preparing::event_of;
use crate::reason::{Reason, misspelled};
use crate::recovery::refined_clusters_stand;
use rq_outside::{CrashDisk, DiskPair};
use rq_script::{Action, ScriptLine, script_line};
use rq_values::{Id, NoMemory};
use rq_wal::current_logs_stand;
use std::alloc::Global;

/// The cluster of a script.
#[derive(Drop)]
pub struct World {
    host: Option<Host>,
    /// How many asks the script has made.
    asks: u64,
}

impl World {
    /// The world before the first line.
    pub fn new() -> World
        ensures host { result.host ≡ None }
        ensures asks { result.asks ≡ 0 }
    {
        World {
            host: None,
            asks: 0,
        }
    }

    /// Whether the cluster line was there.
    pub fn is_started(&self) -> bool
        ensures { result ≡ is_some self.now.host }
    {
        self.host.is_some()
    }

    /// Does a line, and appends its text.
    pub fn step<D: CrashDisk>(
        &mut self,
        alloc: Global,
        disks: &mut Vec<DiskPair<D>>,
        line: &[u8],
        text: &mut Vec<u8>,
    ) -> Result<(), LineError>
        requires ready { IsReady D.told D.means disks.old.items self.old }
        ensures ok { OnOk result ((start : List (ThePair D D.Fault)) (c : TheCluster) → Refines D.told D.means start disks.old.items self.old c → (next : TheCluster) × (written : List ℕ) × Steps c line.now written next × (text.new.items ≡ text.old.items ++ written) × Refines D.told D.means start disks.new.items self.new next) }
        ensures ready { OnOk result (IsReady D.told D.means disks.new.items self.new) }
        ensures outside { IsErrOf result Outside → (start : List (ThePair D D.Fault)) (c : TheCluster) → Refines D.told D.means start disks.old.items self.old c → IsOutside c line.now × Holds D.told D.means start disks.new.items c }
        ensures broken { IsErrOf result OutOfMemory → (start : List (ThePair D D.Fault)) (c : TheCluster) → Refines D.told D.means start disks.old.items self.old c → (reached : TheCluster) × MayReach c line.now reached × Holds D.told D.means start disks.new.items reached }
    {
        refined_clusters_stand::<D>();
        self.step_on(alloc, &mut disks[0], line, text)
    }

    /// Appends what is written at the script's end.
    pub fn write_ending(&self, alloc: Global, text: &mut Vec<u8>) -> Result<(), NoMemory>
        ensures { OnOk result (text.new.items ≡ text.old.items ++ flat_map pending_text (pending_in self.now.host)) }
    {
        match &self.host {
            Some(host) => host.write_pending(alloc, text),
            None => Ok(()),
        }
    }

    /// Why a line that can't stand here can't.
    pub fn reason(&self, line: &[u8]) -> Reason {
        let Some(read) = script_line(line) else {
            return misspelled(line);
        };
        let Some(host) = &self.host else {
            return match read {
                ScriptLine::Cluster { id: _ } => misspelled(line),
                _ => Reason::NoCluster,
            };
        };
        reason_here(&read, host, line)
    }

    /// Does a line at the pair of the one server.
    fn step_on<D: CrashDisk>(
        &mut self,
        alloc: Global,
        disks: &mut DiskPair<D>,
        line: &[u8],
        text: &mut Vec<u8>,
    ) -> Result<(), LineError>
        requires ready { ServerReady D.told D.means disks.old self.old.host }
        ensures ok { OnOk result (Does D.told D.means line.now disks.old disks.new self.old self.new text.old.items text.new.items) }
        ensures ready { OnOk result (ServerReady D.told D.means disks.new self.new.host) }
        ensures outside { IsErrOf result Outside → (start : ThePair D D.Fault) (c : TheCluster) → RefinesCluster D.told D.means start disks.old self.old c → IsOutside c line.now }
        ensures untouched { IsErrOf result Outside → disks.new ≡ disks.old }
        ensures broken { IsErrOf result OutOfMemory → Breaks D.told D.means line.now disks.old disks.new self.old }
    {
        match script_line(line) {
            Some(line) => self.do_line(alloc, disks, &line, text),
            None => Err(LineError::Outside),
        }
    }

    /// Does a line that was read.
    fn do_line<D: CrashDisk>(
        &mut self,
        alloc: Global,
        disks: &mut DiskPair<D>,
        line: &ScriptLine<'_>,
        text: &mut Vec<u8>,
    ) -> Result<(), LineError>
        requires ready { ServerReady D.told D.means disks.old self.old.host }
        requires pick { HasPick line.now }
        ensures ok { OnOk result (DoesLine D.told D.means (line_read line.now) disks.old disks.new self.old self.new text.old.items text.new.items) }
        ensures ready { OnOk result (ServerReady D.told D.means disks.new self.new.host) }
        ensures outside { IsErrOf result Outside → IsOutsideHere D.told D.means (line_read line.now) disks.old self.old }
        ensures untouched { IsErrOf result Outside → disks.new ≡ disks.old }
        ensures broken { IsErrOf result OutOfMemory → BreaksLine D.told D.means (line_read line.now) disks.old disks.new self.old }
    {
        match line {
            ScriptLine::Skip => Ok(()),
            ScriptLine::Cluster { id } => self.found(alloc, disks, *id, text),
            ScriptLine::At { id, action } => self.act(alloc, disks, *id, action, text),
        }
    }

    /// Makes the cluster, once.
    fn found<D: CrashDisk>(
        &mut self,
        alloc: Global,
        disks: &mut DiskPair<D>,
        id: Id,
        text: &mut Vec<u8>,
    ) -> Result<(), LineError>
        requires ready { ServerReady D.told D.means disks.old self.old.host }
        ensures ok { OnOk result (DoesLine D.told D.means (lines.Cluster id) disks.old disks.new self.old self.new text.old.items text.new.items) }
        ensures ready { OnOk result (ServerReady D.told D.means disks.new self.new.host) }
        ensures outside { IsErrOf result Outside → IsOutsideHere D.told D.means (lines.Cluster id) disks.old self.old }
        ensures untouched { IsErrOf result Outside → disks.new ≡ disks.old }
        ensures broken { IsErrOf result OutOfMemory → BreaksLine D.told D.means (lines.Cluster id) disks.old disks.new self.old }
    {
        if self.host.is_some() {
            return Err(LineError::Outside);
        }
        let mut host = Host::new(alloc, id);
        host.start(alloc, disks, text)?;
        self.host = Some(host);
        Ok(())
    }

    /// Does an action at the server with this id.
    fn act<D: CrashDisk>(
        &mut self,
        alloc: Global,
        disks: &mut DiskPair<D>,
        id: Id,
        action: &Action<'_>,
        text: &mut Vec<u8>,
    ) -> Result<(), LineError>
        requires ready { ServerReady D.told D.means disks.old self.old.host }
        requires pick { HasPickAt action.now }
        ensures ok { OnOk result (DoesLine D.told D.means (lines.At id (action_read action.now)) disks.old disks.new self.old self.new text.old.items text.new.items) }
        ensures ready { OnOk result (ServerReady D.told D.means disks.new self.new.host) }
        ensures outside { IsErrOf result Outside → IsOutsideHere D.told D.means (lines.At id (action_read action.now)) disks.old self.old }
        ensures untouched { IsErrOf result Outside → disks.new ≡ disks.old }
        ensures broken { IsErrOf result OutOfMemory → BreaksLine D.told D.means (lines.At id (action_read action.now)) disks.old disks.new self.old }
    {
        let Some(host) = &mut self.host else {
            return Err(LineError::Outside);
        };
        if *host.id() != id {
            return Err(LineError::Outside);
        }
        act_at(host, &mut self.asks, alloc, disks, action, text)
    }
}

/// Does an action at a server, where there were so many asks.
fn act_at<D: CrashDisk>(
    host: &mut Host,
    asks: &mut u64,
    alloc: Global,
    disks: &mut DiskPair<D>,
    action: &Action<'_>,
    text: &mut Vec<u8>,
) -> Result<(), LineError>
    requires ready { HostReady D.told D.means disks.old host.old }
    requires pick { HasPickAt action.now }
    ensures ok { OnOk result (DoesLine D.told D.means (lines.At host.old.id (action_read action.now)) disks.old disks.new (with_host host.old asks.old) (with_host host.new asks.new) text.old.items text.new.items) }
    ensures ready { OnOk result (HostReady D.told D.means disks.new host.new) }
    ensures outside { IsErrOf result Outside → IsOutsideHere D.told D.means (lines.At host.old.id (action_read action.now)) disks.old (with_host host.old asks.old) }
    ensures untouched { IsErrOf result Outside → disks.new ≡ disks.old }
    ensures broken { IsErrOf result OutOfMemory → BreaksLine D.told D.means (lines.At host.old.id (action_read action.now)) disks.old disks.new (with_host host.old asks.old) }
{
    current_logs_stand::<D>();
    match action {
        Action::Elect => put(host, asks, alloc, disks, action, text),
        Action::Apply => put(host, asks, alloc, disks, action, text),
        Action::Execute { body: _ } => put(host, asks, alloc, disks, action, text),
        Action::Query { body: _ } => put(host, asks, alloc, disks, action, text),
        Action::Stop => {
            if !host.is_running() {
                return Err(LineError::Outside);
            }
            host.stop(disks, text)?;
            Ok(())
        }
        Action::StopWithin { calls, pick } => {
            if !host.is_running() {
                return Err(LineError::Outside);
            }
            let (calls, pick) = (*calls, *pick);
            host.arm(disks, Arming { calls, pick });
            Ok(())
        }
        Action::Start => {
            if host.is_running() {
                return Err(LineError::Outside);
            }
            host.start(alloc, disks, text)?;
            Ok(())
        }
        Action::Show => {
            host.show(alloc, text)?;
            Ok(())
        }
    }
}

/// Puts an event to the node of a server.
fn put<D: CrashDisk>(
    host: &mut Host,
    asks: &mut u64,
    alloc: Global,
    disks: &mut DiskPair<D>,
    action: &Action<'_>,
    text: &mut Vec<u8>,
) -> Result<(), LineError>
    requires ready { HostReady D.told D.means disks.old host.old }
    requires puts { IsEvent (action_read action.now) }
    ensures ok { OnOk result (DoesLine D.told D.means (lines.At host.old.id (action_read action.now)) disks.old disks.new (with_host host.old asks.old) (with_host host.new asks.new) text.old.items text.new.items) }
    ensures ready { OnOk result (HostReady D.told D.means disks.new host.new) }
    ensures outside { IsErrOf result Outside → IsOutsideHere D.told D.means (lines.At host.old.id (action_read action.now)) disks.old (with_host host.old asks.old) }
    ensures untouched { IsErrOf result Outside → disks.new ≡ disks.old }
    ensures broken { IsErrOf result OutOfMemory → BreaksLine D.told D.means (lines.At host.old.id (action_read action.now)) disks.old disks.new (with_host host.old asks.old) }
{
    current_logs_stand::<D>();
    let Some(event) = event_of(alloc, asks, action)? else {
        return Err(LineError::Outside);
    };
    host.turn(alloc, disks, event, text)?;
    Ok(())
}

/// Why a line can't stand in a cluster of this server.
fn reason_here(read: &ScriptLine<'_>, host: &Host, line: &[u8]) -> Reason {
    match read {
        ScriptLine::Skip => Reason::NoSuchLine,
        ScriptLine::Cluster { id: _ } => Reason::SecondCluster,
        ScriptLine::At { id, action } => {
            if *host.id() != *id {
                return Reason::NoNode(*id);
            }
            reason_at(action, *id, host.is_running(), line)
        }
    }
}

/// Why a line can't stand that names a node of the cluster.
fn reason_at(action: &Action<'_>, id: Id, is_running: bool, line: &[u8]) -> Reason {
    match action {
        Action::Execute { body: _ } | Action::Query { body: _ } => Reason::NoStatements,
        Action::Stop | Action::StopWithin { calls: _, pick: _ } if !is_running => Reason::Down(id),
        Action::Start if is_running => Reason::Running(id),
        _ => misspelled(line),
    }
}
