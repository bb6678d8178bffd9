// A disk as its callers see it: what a read gives, what a crash may leave, and how often it has failed.
ghost use Rattle.std.specs.Prelude.{◌≡◌, ◌≤◌, ◌<◌, ◌-◌, ◌++◌, min, Bool, List, Option, ℕ, length, take, drop, IsTrue, IfOk, OnOk, OnErr, IsNone, ◌↔◌};
ghost use Rattle.rq_outside.specs.Counts.{HasCause};
ghost use Rattle.rq_outside.specs.Disk.{DiskMeaning, Follows, Torn, Cut, Holds, Only, Elapses, Stays, KeepsRoom, HasRoom, Uses};

use crate::error::Failed;
use rq_values::NoMemory;

/// A file that can be read, overwritten, cut and synced, with what a crash may leave of it.
pub trait Disk {
    /// Whether it tells its content and its images.
    ghost told: { Bool };

    /// What it means. Content, images and moments say something only where they are told.
    ghost means: { Self → DiskMeaning };

    /// What a fault leaves to be shown.
    type Fault: Copy + Send + 'static;

    /// What the first fault left, if any.
    ghost first_fault: { Self → Option Self.Fault };

    /// The first fault, if any.
    fn fault(&self) -> Option<Self::Fault>
        ensures first { result ≡ first_fault self.now }
        ensures none { IsNone result ↔ ((means self.now).faults ≡ 0) };

    /// Makes room: the next `calls` changing calls that write at most `bytes` together take no memory.
    fn ready(&mut self, bytes: u64, calls: u32) -> Result<(), NoMemory>
        ensures made { OnOk result (HasRoom (means self.new) bytes calls) }
        ensures no_less { HasRoom (means self.new) (means self.old).room_bytes (means self.old).room_calls }
        ensures same { IsTrue told → Stays (means self.old) (means self.new) }
        ensures time { IsTrue told → Elapses (means self.old) (means self.new) }
        ensures faults { (means self.new).faults ≡ (means self.old).faults };

    /// The length.
    fn len(&mut self) -> Result<u64, Failed>
        ensures length { IsTrue told → IfOk result (λ n. n ≡ length (means self.old).content) }
        ensures same { IsTrue told → Stays (means self.old) (means self.new) }
        ensures time { IsTrue told → Elapses (means self.old) (means self.new) }
        ensures room { KeepsRoom (means self.old) (means self.new) }
        ensures cause { HasCause (means self.old).faults (means self.new).faults result };

    /// Moves the bytes from `at` on to the start of `into`, and answers how many: all of `into`, or up to the end.
    fn read(&mut self, at: u64, into: &mut [u8]) -> Result<usize, Failed>
        ensures count { IfOk result (λ n. n ≤ length into.old) }
        ensures whole { IsTrue told → IfOk result (λ n. n ≡ min (length into.old) (length (means self.old).content - at)) }
        ensures bytes { IsTrue told → IfOk result (λ n. into.new ≡ take n (drop at (means self.old).content) ++ drop n into.old) }
        ensures same { IsTrue told → Stays (means self.old) (means self.new) }
        ensures time { IsTrue told → Elapses (means self.old) (means self.new) }
        ensures room { KeepsRoom (means self.old) (means self.new) }
        ensures cause { HasCause (means self.old).faults (means self.new).faults result };

    /// Writes over what is there, and past the end. Until a sync, a crash may leave any bytes in the range.
    fn write_at(&mut self, at: u64, piece: &[u8]) -> Result<(), Failed>
        requires place { IsTrue told → at ≤ length (means self.old).content }
        requires piece { 0 < length piece.now }
        requires room { HasRoom (means self.old) (length piece.now) 1 }
        ensures written { IsTrue told → OnOk result (Holds (means self.old).content at piece.now (means self.new).content) }
        ensures failed { IsTrue told → OnErr result (Torn at (length piece.now) (means self.old).content (means self.new).content) }
        ensures images { IsTrue told → Follows (Torn at (length piece.now)) (means self.old).images (means self.new).images }
        ensures time { IsTrue told → Elapses (means self.old) (means self.new) }
        ensures room { Uses (length piece.now) 1 (means self.old) (means self.new) }
        ensures cause { HasCause (means self.old).faults (means self.new).faults result };

    /// Cuts it to a length.
    fn cut(&mut self, to: u64) -> Result<(), Failed>
        requires place { IsTrue told → to ≤ length (means self.old).content }
        requires room { HasRoom (means self.old) 0 1 }
        ensures cut { IsTrue told → OnOk result ((means self.new).content ≡ take to (means self.old).content) }
        ensures failed { IsTrue told → OnErr result (Cut to (means self.old).content (means self.new).content) }
        ensures images { IsTrue told → Follows (Cut to) (means self.old).images (means self.new).images }
        ensures time { IsTrue told → Elapses (means self.old) (means self.new) }
        ensures room { Uses 0 1 (means self.old) (means self.new) }
        ensures cause { HasCause (means self.old).faults (means self.new).faults result };

    /// After it, a crash leaves what a read gives.
    fn sync(&mut self) -> Result<(), Failed>
        requires room { HasRoom (means self.old) 0 1 }
        ensures durable { IsTrue told → OnOk result (Only (means self.old).content (means self.new).images) }
        ensures content { IsTrue told → (means self.new).content ≡ (means self.old).content }
        ensures images { IsTrue told → (c : List ℕ) → (means self.new).images c → (means self.old).images c }
        ensures failed { IsTrue told → OnErr result (Stays (means self.old) (means self.new)) }
        ensures time { IsTrue told → Elapses (means self.old) (means self.new) }
        ensures room { Uses 0 1 (means self.old) (means self.new) }
        ensures cause { HasCause (means self.old).faults (means self.new).faults result };

    /// The content is one of the images now.
    ghost reads_an_image: { IsTrue told → (disk : Self) → (means disk).images (means disk).content };

    /// This moment is one of those since an earlier one.
    ghost counts_now: { IsTrue told → (disk : Self) (t : ℕ) (c : List ℕ) → t ≤ (means disk).moment → (means disk).images c → (means disk).since t c };

    /// Since this moment there is no other.
    ghost only_now: { IsTrue told → (disk : Self) (c : List ℕ) → (means disk).since (means disk).moment c → (means disk).images c };
}

pub trait CrashDisk: Disk {
    /// What a crash leaves by each pick.
    ghost picked: { ℕ → Self → List ℕ };

    /// What a crash leaves: one of the images, which the pick names, stable. Times before it say nothing any more.
    fn crash(&mut self, pick: u8)
        requires { pick < 4 }
        ensures picked { IsTrue Self.told → (Self.means self.new).content ≡ picked pick self.old }
        ensures image { IsTrue Self.told → (Self.means self.old).images (Self.means self.new).content }
        ensures stable { IsTrue Self.told → Only (Self.means self.new).content (Self.means self.new).images }
        ensures room { KeepsRoom (Self.means self.old) (Self.means self.new) }
        ensures faults { (Self.means self.new).faults ≡ (Self.means self.old).faults };
}
