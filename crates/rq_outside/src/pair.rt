// Two disks as one, which can be armed to stop at a stated changing call.
ghost use Rattle.std.specs.Prelude.{◌≡◌, ◌⊎◌, ◌≤◌, ◌<◌, ◌-◌, ◌++◌, min, List, ℕ, length, take, drop, IsTrue, IfOk, OnOk, OnErr, IsNone, ◌↔◌, ◌≢◌};
ghost use Rattle.rq_outside.specs.Counts.{Rose, HasCause};
ghost use Rattle.rq_outside.specs.Disk.{Follows, Torn, Cut, Holds, Only, Elapses, Stays, KeepsRoom, HasRoom, Uses};
ghost use Rattle.rq_outside.specs.declared.pair.FileNo.{FileNo};
ghost use Rattle.rq_outside.specs.Pair.{other, disk_at, arm_of, own_faults, Passed, Looked, PairCause, Began, first_of};

use crate::disk::{CrashDisk, Disk};
use crate::error::Failed;
use rq_values::NoMemory;

#[derive(Clone, Copy, Debug, PartialEq, Eq)]
pub enum FileNo {
    One,
    Two,
}

/// What an armed pair still passes.
#[derive(Clone, Copy, Debug, PartialEq, Eq)]
pub enum Arm {
    Off,
    Passes(u64),
    Struck,
}

#[derive(Drop)]
pub struct DiskPair<D: Disk> {
    one: D,
    two: D,
    arm: Arm,
    faults: u64,
}

#[derive(Clone, Copy)]
enum Turn {
    Passed,
    Stopped,
    Down,
}

impl<D: Disk> DiskPair<D> {
    pub fn new(one: D, two: D) -> DiskPair<D>
        ensures one { disk_at result FileNo.One ≡ one }
        ensures two { disk_at result FileNo.Two ≡ two }
        ensures arm { arm_of result ≡ Arm.Off }
        ensures own { own_faults result ≡ 0 }
    {
        DiskPair {
            one,
            two,
            arm: Arm::Off,
            faults: 0,
        }
    }

    pub fn ready(&mut self, file: FileNo, bytes: u64, calls: u32) -> Result<(), NoMemory>
        ensures other { disk_at self.new (other file) ≡ disk_at self.old (other file) }
        ensures made { OnOk result (HasRoom (D.means (disk_at self.new file)) bytes calls) }
        ensures no_less { HasRoom (D.means (disk_at self.new file)) (D.means (disk_at self.old file)).room_bytes (D.means (disk_at self.old file)).room_calls }
        ensures same { IsTrue D.told → Stays (D.means (disk_at self.old file)) (D.means (disk_at self.new file)) }
        ensures time { IsTrue D.told → Elapses (D.means (disk_at self.old file)) (D.means (disk_at self.new file)) }
        ensures faults { (D.means (disk_at self.new file)).faults ≡ (D.means (disk_at self.old file)).faults }
        ensures arm { arm_of self.new ≡ arm_of self.old }
        ensures own { own_faults self.new ≡ own_faults self.old }
    {
        match file {
            FileNo::One => self.one.ready(bytes, calls),
            FileNo::Two => self.two.ready(bytes, calls),
        }
    }

    fn begin(&mut self) -> Turn
        ensures one { disk_at self.new FileNo.One ≡ disk_at self.old FileNo.One }
        ensures two { disk_at self.new FileNo.Two ≡ disk_at self.old FileNo.Two }
        ensures began { Began (arm_of self.old) self.old self.new result }
        ensures passed { result ≡ Turn.Passed → own_faults self.new ≡ own_faults self.old }
        ensures no_less { own_faults self.old ≤ own_faults self.new }
        ensures stopped { result ≡ Turn.Stopped → Rose (own_faults self.old) (own_faults self.new) }
        ensures down { result ≡ Turn.Down → Rose (own_faults self.old) (own_faults self.new) }
    {
        match self.arm {
            Arm::Off => Turn::Passed,
            Arm::Passes(0) => {
                self.arm = Arm::Struck;
                self.faults = self.faults.saturating_add(1);
                Turn::Stopped
            }
            Arm::Passes(n) => {
                self.arm = Arm::Passes(n - 1);
                Turn::Passed
            }
            Arm::Struck => {
                self.faults = self.faults.saturating_add(1);
                Turn::Down
            }
        }
    }

    #[tactic(auto, using(crate::specs::Playing::torn_by))]
    fn write_on(&mut self, file: FileNo, at: u64, piece: &[u8]) -> Result<(), Failed>
        requires place { IsTrue D.told → at ≤ length (D.means (disk_at self.old file)).content }
        requires piece { 0 < length piece.now }
        requires room { HasRoom (D.means (disk_at self.old file)) (length piece.now) 1 }
        ensures other { disk_at self.new (other file) ≡ disk_at self.old (other file) }
        ensures written { IsTrue D.told → OnOk result (Holds (D.means (disk_at self.old file)).content at piece.now (D.means (disk_at self.new file)).content) }
        ensures torn { IsTrue D.told → Torn at (length piece.now) (D.means (disk_at self.old file)).content (D.means (disk_at self.new file)).content }
        ensures images { IsTrue D.told → Follows (Torn at (length piece.now)) (D.means (disk_at self.old file)).images (D.means (disk_at self.new file)).images }
        ensures time { IsTrue D.told → Elapses (D.means (disk_at self.old file)) (D.means (disk_at self.new file)) }
        ensures room { Uses (length piece.now) 1 (D.means (disk_at self.old file)) (D.means (disk_at self.new file)) }
        ensures cause { HasCause (D.means (disk_at self.old file)).faults (D.means (disk_at self.new file)).faults result }
        ensures arm { arm_of self.new ≡ arm_of self.old }
        ensures own { own_faults self.new ≡ own_faults self.old }
    {
        match file {
            FileNo::One => self.one.write_at(at, piece),
            FileNo::Two => self.two.write_at(at, piece),
        }
    }

    /// Overwrites a file from a place on, and may prolong it. A call that is stopped is made, and not told so.
    pub fn write_at(&mut self, file: FileNo, at: u64, piece: &[u8]) -> Result<(), Failed>
        requires place { IsTrue D.told → at ≤ length (D.means (disk_at self.old file)).content }
        requires piece { 0 < length piece.now }
        requires room { HasRoom (D.means (disk_at self.old file)) (length piece.now) 1 }
        ensures other { disk_at self.new (other file) ≡ disk_at self.old (other file) }
        ensures written { IsTrue D.told → OnOk result (Holds (D.means (disk_at self.old file)).content at piece.now (D.means (disk_at self.new file)).content) }
        ensures failed { IsTrue D.told → OnErr result (Torn at (length piece.now) (D.means (disk_at self.old file)).content (D.means (disk_at self.new file)).content) }
        ensures stopped { IsTrue D.told → arm_of self.old ≡ Arm.Passes 0 → Holds (D.means (disk_at self.old file)).content at piece.now (D.means (disk_at self.new file)).content ⊎ Rose (D.means (disk_at self.old file)).faults (D.means (disk_at self.new file)).faults }
        ensures images { IsTrue D.told → Follows (Torn at (length piece.now)) (D.means (disk_at self.old file)).images (D.means (disk_at self.new file)).images }
        ensures time { IsTrue D.told → Elapses (D.means (disk_at self.old file)) (D.means (disk_at self.new file)) }
        ensures room { Uses (length piece.now) 1 (D.means (disk_at self.old file)) (D.means (disk_at self.new file)) }
        ensures cause { PairCause D.means self.old self.new result }
        ensures arm { Passed (arm_of self.old) self.old self.new result }
    {
        match self.begin() {
            Turn::Down => Err(Failed),
            Turn::Stopped => {
                let _ = self.write_on(file, at, piece);
                Err(Failed)
            }
            Turn::Passed => self.write_on(file, at, piece),
        }
    }

    fn len_on(&mut self, file: FileNo) -> Result<u64, Failed>
        ensures other { disk_at self.new (other file) ≡ disk_at self.old (other file) }
        ensures length { IsTrue D.told → IfOk result (λ n. n ≡ length (D.means (disk_at self.old file)).content) }
        ensures same { IsTrue D.told → Stays (D.means (disk_at self.old file)) (D.means (disk_at self.new file)) }
        ensures time { IsTrue D.told → Elapses (D.means (disk_at self.old file)) (D.means (disk_at self.new file)) }
        ensures room { KeepsRoom (D.means (disk_at self.old file)) (D.means (disk_at self.new file)) }
        ensures cause { HasCause (D.means (disk_at self.old file)).faults (D.means (disk_at self.new file)).faults result }
        ensures arm { arm_of self.new ≡ arm_of self.old }
        ensures own { own_faults self.new ≡ own_faults self.old }
    {
        match file {
            FileNo::One => self.one.len(),
            FileNo::Two => self.two.len(),
        }
    }

    pub fn len(&mut self, file: FileNo) -> Result<u64, Failed>
        ensures other { disk_at self.new (other file) ≡ disk_at self.old (other file) }
        ensures length { IsTrue D.told → IfOk result (λ n. n ≡ length (D.means (disk_at self.old file)).content) }
        ensures same { IsTrue D.told → Stays (D.means (disk_at self.old file)) (D.means (disk_at self.new file)) }
        ensures time { IsTrue D.told → Elapses (D.means (disk_at self.old file)) (D.means (disk_at self.new file)) }
        ensures room { KeepsRoom (D.means (disk_at self.old file)) (D.means (disk_at self.new file)) }
        ensures cause { PairCause D.means self.old self.new result }
        ensures arm { Looked (arm_of self.old) self.old self.new result }
    {
        if let Arm::Struck = self.arm {
            self.faults = self.faults.saturating_add(1);
            return Err(Failed);
        }
        self.len_on(file)
    }

    fn read_on(&mut self, file: FileNo, at: u64, into: &mut [u8]) -> Result<usize, Failed>
        ensures other { disk_at self.new (other file) ≡ disk_at self.old (other file) }
        ensures count { IfOk result (λ n. n ≤ length into.old) }
        ensures whole { IsTrue D.told → IfOk result (λ n. n ≡ min (length into.old) (length (D.means (disk_at self.old file)).content - at)) }
        ensures bytes { IsTrue D.told → IfOk result (λ n. into.new ≡ take n (drop at (D.means (disk_at self.old file)).content) ++ drop n into.old) }
        ensures same { IsTrue D.told → Stays (D.means (disk_at self.old file)) (D.means (disk_at self.new file)) }
        ensures time { IsTrue D.told → Elapses (D.means (disk_at self.old file)) (D.means (disk_at self.new file)) }
        ensures room { KeepsRoom (D.means (disk_at self.old file)) (D.means (disk_at self.new file)) }
        ensures cause { HasCause (D.means (disk_at self.old file)).faults (D.means (disk_at self.new file)).faults result }
        ensures arm { arm_of self.new ≡ arm_of self.old }
        ensures own { own_faults self.new ≡ own_faults self.old }
    {
        match file {
            FileNo::One => self.one.read(at, into),
            FileNo::Two => self.two.read(at, into),
        }
    }

    pub fn read(&mut self, file: FileNo, at: u64, into: &mut [u8]) -> Result<usize, Failed>
        ensures other { disk_at self.new (other file) ≡ disk_at self.old (other file) }
        ensures count { IfOk result (λ n. n ≤ length into.old) }
        ensures whole { IsTrue D.told → IfOk result (λ n. n ≡ min (length into.old) (length (D.means (disk_at self.old file)).content - at)) }
        ensures bytes { IsTrue D.told → IfOk result (λ n. into.new ≡ take n (drop at (D.means (disk_at self.old file)).content) ++ drop n into.old) }
        ensures same { IsTrue D.told → Stays (D.means (disk_at self.old file)) (D.means (disk_at self.new file)) }
        ensures time { IsTrue D.told → Elapses (D.means (disk_at self.old file)) (D.means (disk_at self.new file)) }
        ensures room { KeepsRoom (D.means (disk_at self.old file)) (D.means (disk_at self.new file)) }
        ensures cause { PairCause D.means self.old self.new result }
        ensures arm { Looked (arm_of self.old) self.old self.new result }
    {
        if let Arm::Struck = self.arm {
            self.faults = self.faults.saturating_add(1);
            return Err(Failed);
        }
        self.read_on(file, at, into)
    }

    #[tactic(auto, using(crate::specs::Playing::cut_by))]
    fn cut_on(&mut self, file: FileNo, to: u64) -> Result<(), Failed>
        requires place { IsTrue D.told → to ≤ length (D.means (disk_at self.old file)).content }
        requires room { HasRoom (D.means (disk_at self.old file)) 0 1 }
        ensures other { disk_at self.new (other file) ≡ disk_at self.old (other file) }
        ensures cut { IsTrue D.told → OnOk result ((D.means (disk_at self.new file)).content ≡ take to (D.means (disk_at self.old file)).content) }
        ensures torn { IsTrue D.told → Cut to (D.means (disk_at self.old file)).content (D.means (disk_at self.new file)).content }
        ensures images { IsTrue D.told → Follows (Cut to) (D.means (disk_at self.old file)).images (D.means (disk_at self.new file)).images }
        ensures time { IsTrue D.told → Elapses (D.means (disk_at self.old file)) (D.means (disk_at self.new file)) }
        ensures room { Uses 0 1 (D.means (disk_at self.old file)) (D.means (disk_at self.new file)) }
        ensures cause { HasCause (D.means (disk_at self.old file)).faults (D.means (disk_at self.new file)).faults result }
        ensures arm { arm_of self.new ≡ arm_of self.old }
        ensures own { own_faults self.new ≡ own_faults self.old }
    {
        match file {
            FileNo::One => self.one.cut(to),
            FileNo::Two => self.two.cut(to),
        }
    }

    pub fn cut(&mut self, file: FileNo, to: u64) -> Result<(), Failed>
        requires place { IsTrue D.told → to ≤ length (D.means (disk_at self.old file)).content }
        requires room { HasRoom (D.means (disk_at self.old file)) 0 1 }
        ensures other { disk_at self.new (other file) ≡ disk_at self.old (other file) }
        ensures cut { IsTrue D.told → OnOk result ((D.means (disk_at self.new file)).content ≡ take to (D.means (disk_at self.old file)).content) }
        ensures failed { IsTrue D.told → OnErr result (Cut to (D.means (disk_at self.old file)).content (D.means (disk_at self.new file)).content) }
        ensures stopped { IsTrue D.told → arm_of self.old ≡ Arm.Passes 0 → ((D.means (disk_at self.new file)).content ≡ take to (D.means (disk_at self.old file)).content) ⊎ Rose (D.means (disk_at self.old file)).faults (D.means (disk_at self.new file)).faults }
        ensures images { IsTrue D.told → Follows (Cut to) (D.means (disk_at self.old file)).images (D.means (disk_at self.new file)).images }
        ensures time { IsTrue D.told → Elapses (D.means (disk_at self.old file)) (D.means (disk_at self.new file)) }
        ensures room { Uses 0 1 (D.means (disk_at self.old file)) (D.means (disk_at self.new file)) }
        ensures cause { PairCause D.means self.old self.new result }
        ensures arm { Passed (arm_of self.old) self.old self.new result }
    {
        match self.begin() {
            Turn::Down => Err(Failed),
            Turn::Stopped => {
                let _ = self.cut_on(file, to);
                Err(Failed)
            }
            Turn::Passed => self.cut_on(file, to),
        }
    }

    fn sync_on(&mut self, file: FileNo) -> Result<(), Failed>
        requires room { HasRoom (D.means (disk_at self.old file)) 0 1 }
        ensures other { disk_at self.new (other file) ≡ disk_at self.old (other file) }
        ensures durable { IsTrue D.told → OnOk result (Only (D.means (disk_at self.old file)).content (D.means (disk_at self.new file)).images) }
        ensures content { IsTrue D.told → (D.means (disk_at self.new file)).content ≡ (D.means (disk_at self.old file)).content }
        ensures images { IsTrue D.told → (c : List ℕ) → (D.means (disk_at self.new file)).images c → (D.means (disk_at self.old file)).images c }
        ensures failed { IsTrue D.told → OnErr result (Stays (D.means (disk_at self.old file)) (D.means (disk_at self.new file))) }
        ensures time { IsTrue D.told → Elapses (D.means (disk_at self.old file)) (D.means (disk_at self.new file)) }
        ensures room { Uses 0 1 (D.means (disk_at self.old file)) (D.means (disk_at self.new file)) }
        ensures cause { HasCause (D.means (disk_at self.old file)).faults (D.means (disk_at self.new file)).faults result }
        ensures arm { arm_of self.new ≡ arm_of self.old }
        ensures own { own_faults self.new ≡ own_faults self.old }
    {
        match file {
            FileNo::One => self.one.sync(),
            FileNo::Two => self.two.sync(),
        }
    }

    pub fn sync(&mut self, file: FileNo) -> Result<(), Failed>
        requires room { HasRoom (D.means (disk_at self.old file)) 0 1 }
        ensures other { disk_at self.new (other file) ≡ disk_at self.old (other file) }
        ensures durable { IsTrue D.told → OnOk result (Only (D.means (disk_at self.old file)).content (D.means (disk_at self.new file)).images) }
        ensures content { IsTrue D.told → (D.means (disk_at self.new file)).content ≡ (D.means (disk_at self.old file)).content }
        ensures images { IsTrue D.told → (c : List ℕ) → (D.means (disk_at self.new file)).images c → (D.means (disk_at self.old file)).images c }
        ensures failed { IsTrue D.told → OnErr result (Stays (D.means (disk_at self.old file)) (D.means (disk_at self.new file))) }
        ensures time { IsTrue D.told → Elapses (D.means (disk_at self.old file)) (D.means (disk_at self.new file)) }
        ensures room { Uses 0 1 (D.means (disk_at self.old file)) (D.means (disk_at self.new file)) }
        ensures cause { PairCause D.means self.old self.new result }
        ensures arm { Passed (arm_of self.old) self.old self.new result }
    {
        match self.begin() {
            Turn::Passed => self.sync_on(file),
            Turn::Stopped | Turn::Down => Err(Failed),
        }
    }

    /// The first fault of file one, else that of file two. A stop by the pair's arm is none.
    pub fn fault(&self) -> Option<D::Fault>
        ensures first { result ≡ first_of (D.first_fault (disk_at self.now FileNo.One)) (D.first_fault (disk_at self.now FileNo.Two)) }
        ensures none { IsNone result ↔ (((D.means (disk_at self.now FileNo.One)).faults ≡ 0) × ((D.means (disk_at self.now FileNo.Two)).faults ≡ 0)) }
    {
        match self.one.fault() {
            Some(fault) => Some(fault),
            None => self.two.fault(),
        }
    }

    /// Whether the stopped call came since the last crash.
    pub fn struck(&self) -> bool
        ensures { IsTrue result ↔ (arm_of self.now ≡ Arm.Struck) }
    {
        matches!(self.arm, Arm::Struck)
    }
}

impl<D: CrashDisk> DiskPair<D> {
    /// The next `calls` changing calls pass, and the one after them is stopped. Nothing where one was stopped already.
    pub fn arm(&mut self, calls: u64)
        ensures one { disk_at self.new FileNo.One ≡ disk_at self.old FileNo.One }
        ensures two { disk_at self.new FileNo.Two ≡ disk_at self.old FileNo.Two }
        ensures own { own_faults self.new ≡ own_faults self.old }
        ensures arm { arm_of self.old ≢ Arm.Struck → arm_of self.new ≡ Arm.Passes calls }
        ensures struck { arm_of self.old ≡ Arm.Struck → arm_of self.new ≡ Arm.Struck }
    {
        match self.arm {
            Arm::Struck => {}
            Arm::Off | Arm::Passes(_) => self.arm = Arm::Passes(calls),
        }
    }

    /// Crashes both disks by the same pick, and leaves the pair unarmed.
    pub fn crash(&mut self, pick: u8)
        requires { pick < 4 }
        ensures picked { IsTrue D.told → (file : FileNo) → (D.means (disk_at self.new file)).content ≡ D.picked pick (disk_at self.old file) }
        ensures image { IsTrue D.told → (file : FileNo) → (D.means (disk_at self.old file)).images (D.means (disk_at self.new file)).content }
        ensures stable { IsTrue D.told → (file : FileNo) → Only (D.means (disk_at self.new file)).content (D.means (disk_at self.new file)).images }
        ensures room { (file : FileNo) → KeepsRoom (D.means (disk_at self.old file)) (D.means (disk_at self.new file)) }
        ensures faults { (file : FileNo) → (D.means (disk_at self.new file)).faults ≡ (D.means (disk_at self.old file)).faults }
        ensures own { own_faults self.new ≡ own_faults self.old }
        ensures arm { arm_of self.new ≡ Arm.Off }
    {
        self.one.crash(pick);
        self.two.crash(pick);
        self.arm = Arm::Off;
    }
}
