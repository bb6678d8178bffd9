//! Opening a pair.
#![tactic(auto, using(crate::proofs::Spending::opening))]

ghost use Rattle.std.specs.Prelude.{◌≡◌, ◌≢◌, ◌⊎◌, ◌≤◌, ◌<◌, ◌+◌, ◌^◌, ◌∷◌, ◌++◌, [], length, true, false, Some, None, Ok, Err, IsTrue, IfOk, IfErr, OnOk, OnErr, IfSome, OnSome, IsErrOf};
ghost use Rattle.rq_outside.specs.Disk.{Only, Stays, LeavesOnly};
ghost use Rattle.rq_outside.specs.Pair.{other, disk_at};
ghost use Rattle.rq_wal.specs.declared.base.Stored.{Stored};
ghost use Rattle.rq_wal.specs.declared.error.OpenError.TheVariants as errors;
ghost use Rattle.rq_wal.specs.Current.{IsBegun, IsFound, IsCurrent, EachImage, EachSince, EachImageGives, SomeImageGives};
ghost use Rattle.rq_wal.specs.Gate.{IsAtRest};
ghost use Rattle.rq_wal.specs.Reading.{pair_gives};
ghost use Rattle.rq_wal.specs.Replace.{is_open, generation_of};
ghost use Rattle.rq_wal.specs.Spends.{SpendsMost, disk_failed};
ghost use Rattle.rq_wal.specs.Spelling.{base_bytes, body_bytes, prefix_bytes, file_bytes};
ghost use Rattle.rq_wal.specs.Stored.{IsBase, stored_after};
ghost use Rattle.rq_wal.specs.WalFile.{wal_file, wal_end, wal_generation};

use crate::base::{Base, Stored, start};
use crate::choosing::choose;
use crate::error::OpenError;
use crate::file::WalFile;
use crate::replacing::{begin_replace, finish_replace};
use crate::spelling::body;
use rq_outside::{Disk, DiskPair, Failed, FileNo};
use rq_values::{NoMemory, TryCopy};
use std::alloc::Global;

/// Opens a pair: syncs both files, reads them, and takes the current one. Where neither is open it writes file one with
/// `first` as its base, by eight changing calls, for which all memory is taken before. The work is linear in what the files hold.
///
/// A base is never replaced yet, so a file whose base isn't `first` leaves the format at its first byte that differs.
pub fn open<D: Disk>(
    alloc: Global,
    disks: &mut DiskPair<D>,
    first: &Base,
) -> Result<(WalFile, Stored), OpenError>
    requires base { IsBase first.now }
    ensures gives { IsTrue D.told → IfOk result (λ opened. pair_gives first.now (D.means (disk_at disks.old FileNo.One)).content (D.means (disk_at disks.old FileNo.Two)).content ≡ Ok opened.1) }
    ensures current { IsTrue D.told → IfOk result (λ opened. IsCurrent D.means first.now disks.new opened.0 opened.1) }
    ensures images { IsTrue D.told → IfOk result (λ opened. EachImageGives D.means first.now disks.new opened.1) }
    ensures any_moment { IsTrue D.told → EachSince D.means first.now disks.old disks.new (SomeImageGives D.means first.now disks.old) }
    ensures now { IsTrue D.told → EachImage D.means first.now disks.new (SomeImageGives D.means first.now disks.old) }
    ensures opened { IsTrue D.told → IfOk result (λ opened. SomeImageGives D.means first.now disks.old (Ok opened.1)) }
    ensures refused { IsTrue D.told → IfErr result (λ e. (e ≡ errors.Disk) ⊎ (e ≡ errors.NoMemory) ⊎ SomeImageGives D.means first.now disks.old (Err e)) }
    ensures refusals { IsTrue D.told → IfErr result (λ e. (e ≡ errors.Disk) ⊎ (e ≡ errors.NoMemory) ⊎ (pair_gives first.now (D.means (disk_at disks.old FileNo.One)).content (D.means (disk_at disks.old FileNo.Two)).content ≡ Err e)) }
    ensures unchanged { IsTrue D.told → IfErr result (λ e. (e ≡ errors.Disk) ⊎ ((D.means (disk_at disks.new FileNo.One)).content ≡ (D.means (disk_at disks.old FileNo.One)).content)) }
    ensures two { IsTrue D.told → (D.means (disk_at disks.new FileNo.Two)).content ≡ (D.means (disk_at disks.old FileNo.Two)).content }
    ensures stored { IsTrue D.told → is_open (D.means (disk_at disks.old FileNo.One)).content ≡ false → is_open (D.means (disk_at disks.old FileNo.Two)).content ≡ false → IfOk result (λ opened. opened.1 ≡ stored_after first.now []) }
    ensures file { IsTrue D.told → is_open (D.means (disk_at disks.old FileNo.One)).content ≡ false → is_open (D.means (disk_at disks.old FileNo.Two)).content ≡ false → IfOk result (λ opened. wal_file opened.0 ≡ FileNo.One) }
    ensures generation { IsTrue D.told → is_open (D.means (disk_at disks.old FileNo.One)).content ≡ false → is_open (D.means (disk_at disks.old FileNo.Two)).content ≡ false → IfOk result (λ opened. wal_generation opened.0 ≡ 1) }
    ensures end { IsTrue D.told → is_open (D.means (disk_at disks.old FileNo.One)).content ≡ false → is_open (D.means (disk_at disks.old FileNo.Two)).content ≡ false → IfOk result (λ opened. wal_end opened.0 ≡ length (prefix_bytes 1 first.now [])) }
    ensures written { IsTrue D.told → is_open (D.means (disk_at disks.old FileNo.One)).content ≡ false → is_open (D.means (disk_at disks.old FileNo.Two)).content ≡ false → OnOk result ((D.means (disk_at disks.new FileNo.One)).content ≡ file_bytes 1 first.now []) }
    ensures at_rest { IfOk result (λ opened. IsTrue D.told → IsAtRest (D.means (disk_at disks.new (wal_file opened.0))) (wal_end opened.0)) }
    ensures spent { SpendsMost D.means 10 (disk_failed result) disks.old disks.new }
{
    let found = find(alloc, disks, first)?;
    settle(alloc, disks, first, found)
}

/// The file that was found, or a new one.
fn settle<D: Disk>(
    alloc: Global,
    disks: &mut DiskPair<D>,
    first: &Base,
    found: Option<(WalFile, Stored)>,
) -> Result<(WalFile, Stored), OpenError>
    requires closed { IsTrue D.told → found ≡ None → generation_of (D.means (disk_at disks.old FileNo.One)).content ≡ None }
    requires durable { IsTrue D.told → Only (D.means (disk_at disks.old FileNo.One)).content (D.means (disk_at disks.old FileNo.One)).images }
    ensures found { OnSome found (disks.new ≡ disks.old) }
    ensures same { IfSome found (λ opened. result ≡ Ok opened) }
    ensures two { disk_at disks.new FileNo.Two ≡ disk_at disks.old FileNo.Two }
    ensures stored { found ≡ None → IfOk result (λ opened. opened.1 ≡ stored_after first.now []) }
    ensures file { found ≡ None → IfOk result (λ opened. wal_file opened.0 ≡ FileNo.One) }
    ensures generation { found ≡ None → IfOk result (λ opened. wal_generation opened.0 ≡ 1) }
    ensures end { found ≡ None → IfOk result (λ opened. wal_end opened.0 ≡ length (prefix_bytes 1 first.now [])) }
    ensures fits { found ≡ None → OnOk result (length (base_bytes first.now) < 2 ^ 64) }
    ensures written { IsTrue D.told → found ≡ None → OnOk result ((D.means (disk_at disks.new FileNo.One)).content ≡ file_bytes 1 first.now []) }
    ensures at_rest { IsTrue D.told → found ≡ None → IfOk result (λ opened. IsAtRest (D.means (disk_at disks.new FileNo.One)) (wal_end opened.0)) }
    ensures moments { IsTrue D.told → found ≡ None → LeavesOnly (D.means (disk_at disks.old FileNo.One)) (D.means (disk_at disks.new FileNo.One)) (IsBegun first.now) }
    ensures no_memory { IsTrue D.told → IsErrOf result errors.NoMemory → (D.means (disk_at disks.new FileNo.One)).content ≡ (D.means (disk_at disks.old FileNo.One)).content }
    ensures refusals { IfErr result (λ e. (e ≡ errors.Disk) ⊎ (e ≡ errors.NoMemory)) }
    ensures spent { SpendsMost D.means 8 (disk_failed result) disks.old disks.new }
{
    match found {
        Some(opened) => Ok(opened),
        None => begin(alloc, disks, first),
    }
}

/// Syncs both files, reads them, and chooses the current one.
fn find<D: Disk>(
    alloc: Global,
    disks: &mut DiskPair<D>,
    first: &Base,
) -> Result<Option<(WalFile, Stored)>, OpenError>
    ensures found { IsTrue D.told → IfOk result (λ found. IsFound first.now (D.means (disk_at disks.old FileNo.One)).content (D.means (disk_at disks.old FileNo.Two)).content found) }
    ensures refused { IsTrue D.told → IfErr result (λ e. (e ≡ errors.Disk) ⊎ (e ≡ errors.NoMemory) ⊎ (pair_gives first.now (D.means (disk_at disks.old FileNo.One)).content (D.means (disk_at disks.old FileNo.Two)).content ≡ Err e)) }
    ensures one { IsTrue D.told → (D.means (disk_at disks.new FileNo.One)).content ≡ (D.means (disk_at disks.old FileNo.One)).content }
    ensures two { IsTrue D.told → (D.means (disk_at disks.new FileNo.Two)).content ≡ (D.means (disk_at disks.old FileNo.Two)).content }
    ensures one_durable { IsTrue D.told → OnOk result (Only (D.means (disk_at disks.new FileNo.One)).content (D.means (disk_at disks.new FileNo.One)).images) }
    ensures two_durable { IsTrue D.told → OnOk result (Only (D.means (disk_at disks.new FileNo.Two)).content (D.means (disk_at disks.new FileNo.Two)).images) }
    ensures one_moments { IsTrue D.told → LeavesOnly (D.means (disk_at disks.old FileNo.One)) (D.means (disk_at disks.new FileNo.One)) (D.means (disk_at disks.old FileNo.One)).images }
    ensures two_moments { IsTrue D.told → LeavesOnly (D.means (disk_at disks.old FileNo.Two)) (D.means (disk_at disks.new FileNo.Two)) (D.means (disk_at disks.old FileNo.Two)).images }
    ensures spent { SpendsMost D.means 2 (disk_failed result) disks.old disks.new }
{
    let (one, two) = look(alloc, disks)?;
    choose(alloc, first, &one, &two)
}

/// Writes file one with this base; all memory is taken before.
fn begin<D: Disk>(
    alloc: Global,
    disks: &mut DiskPair<D>,
    first: &Base,
) -> Result<(WalFile, Stored), OpenError>
    requires closed { IsTrue D.told → generation_of (D.means (disk_at disks.old FileNo.One)).content ≡ None }
    requires durable { IsTrue D.told → Only (D.means (disk_at disks.old FileNo.One)).content (D.means (disk_at disks.old FileNo.One)).images }
    ensures two { disk_at disks.new FileNo.Two ≡ disk_at disks.old FileNo.Two }
    ensures stored { IfOk result (λ opened. opened.1 ≡ stored_after first.now []) }
    ensures file { IfOk result (λ opened. wal_file opened.0 ≡ FileNo.One) }
    ensures generation { IfOk result (λ opened. wal_generation opened.0 ≡ 1) }
    ensures end { IfOk result (λ opened. wal_end opened.0 ≡ length (prefix_bytes 1 first.now [])) }
    ensures fits { OnOk result (length (base_bytes first.now) < 2 ^ 64) }
    ensures written { IsTrue D.told → OnOk result ((D.means (disk_at disks.new FileNo.One)).content ≡ file_bytes 1 first.now []) }
    ensures at_rest { IfOk result (λ opened. IsTrue D.told → IsAtRest (D.means (disk_at disks.new FileNo.One)) (wal_end opened.0)) }
    ensures moments { IsTrue D.told → LeavesOnly (D.means (disk_at disks.old FileNo.One)) (D.means (disk_at disks.new FileNo.One)) (IsBegun first.now) }
    ensures no_memory { IsTrue D.told → IsErrOf result errors.NoMemory → (D.means (disk_at disks.new FileNo.One)).content ≡ (D.means (disk_at disks.old FileNo.One)).content }
    ensures refusals { IfErr result (λ e. (e ≡ errors.Disk) ⊎ (e ≡ errors.NoMemory)) }
    ensures spent { SpendsMost D.means 8 (disk_failed result) disks.old disks.new }
{
    let base = first.copy(alloc)?;
    match body(alloc, 1, first) {
        Ok(body) => match write_body(disks, first, &body) {
            Ok(()) => {
                let end = body.len() as u64;
                drop(body);
                let wal = WalFile {
                    file: FileNo::One,
                    generation: 1,
                    end,
                };
                Ok((wal, start(alloc, base)))
            }
            Err(error) => {
                drop(body);
                drop(base);
                Err(error)
            }
        },
        Err(NoMemory) => {
            drop(base);
            Err(OpenError::NoMemory)
        }
    }
}

/// Writes file one, which has this base and these bytes behind its first one; all memory is taken before.
fn write_body<D: Disk>(disks: &mut DiskPair<D>, first: &Base, body: &[u8]) -> Result<(), OpenError>
    requires closed { IsTrue D.told → generation_of (D.means (disk_at disks.old FileNo.One)).content ≡ None }
    requires durable { IsTrue D.told → Only (D.means (disk_at disks.old FileNo.One)).content (D.means (disk_at disks.old FileNo.One)).images }
    requires body { body.now ≡ body_bytes 1 first.now ++ 0 ∷ [] }
    ensures two { disk_at disks.new FileNo.Two ≡ disk_at disks.old FileNo.Two }
    ensures fits { length (base_bytes first.now) < 2 ^ 64 }
    ensures written { IsTrue D.told → OnOk result ((D.means (disk_at disks.new FileNo.One)).content ≡ file_bytes 1 first.now []) }
    ensures at_rest { IsTrue D.told → OnOk result (IsAtRest (D.means (disk_at disks.new FileNo.One)) (length body.now)) }
    ensures moments { IsTrue D.told → LeavesOnly (D.means (disk_at disks.old FileNo.One)) (D.means (disk_at disks.new FileNo.One)) (IsBegun first.now) }
    ensures no_memory { IsTrue D.told → IsErrOf result errors.NoMemory → (D.means (disk_at disks.new FileNo.One)).content ≡ (D.means (disk_at disks.old FileNo.One)).content }
    ensures refusals { IfErr result (λ e. (e ≡ errors.Disk) ⊎ (e ≡ errors.NoMemory)) }
    ensures spent { SpendsMost D.means 8 (disk_failed result) disks.old disks.new }
{
    disks.ready(FileNo::One, body.len() as u64 + 2, 8)?;
    begin_replace(disks, FileNo::One, 0)?;
    finish_replace(disks, FileNo::One, 0, body)?;
    Ok(())
}

/// Syncs both files, and reads them.
fn look<D: Disk>(alloc: Global, disks: &mut DiskPair<D>) -> Result<(Vec<u8>, Vec<u8>), OpenError>
    ensures one { IsTrue D.told → (D.means (disk_at disks.new FileNo.One)).content ≡ (D.means (disk_at disks.old FileNo.One)).content }
    ensures two { IsTrue D.told → (D.means (disk_at disks.new FileNo.Two)).content ≡ (D.means (disk_at disks.old FileNo.Two)).content }
    ensures one_bytes { IsTrue D.told → IfOk result (λ read. read.0.items ≡ (D.means (disk_at disks.old FileNo.One)).content) }
    ensures two_bytes { IsTrue D.told → IfOk result (λ read. read.1.items ≡ (D.means (disk_at disks.old FileNo.Two)).content) }
    ensures one_durable { IsTrue D.told → OnOk result (Only (D.means (disk_at disks.new FileNo.One)).content (D.means (disk_at disks.new FileNo.One)).images) }
    ensures two_durable { IsTrue D.told → OnOk result (Only (D.means (disk_at disks.new FileNo.Two)).content (D.means (disk_at disks.new FileNo.Two)).images) }
    ensures one_moments { IsTrue D.told → LeavesOnly (D.means (disk_at disks.old FileNo.One)) (D.means (disk_at disks.new FileNo.One)) (D.means (disk_at disks.old FileNo.One)).images }
    ensures two_moments { IsTrue D.told → LeavesOnly (D.means (disk_at disks.old FileNo.Two)) (D.means (disk_at disks.new FileNo.Two)) (D.means (disk_at disks.old FileNo.Two)).images }
    ensures refusals { IfErr result (λ e. (e ≡ errors.Disk) ⊎ (e ≡ errors.NoMemory)) }
    ensures spent { SpendsMost D.means 2 (disk_failed result) disks.old disks.new }
{
    let one = read_synced(alloc, disks, FileNo::One)?;
    match read_synced(alloc, disks, FileNo::Two) {
        Ok(two) => Ok((one, two)),
        Err(error) => {
            drop(one);
            Err(error)
        }
    }
}

/// Syncs a file, and reads it.
fn read_synced<D: Disk>(
    alloc: Global,
    disks: &mut DiskPair<D>,
    file: FileNo,
) -> Result<Vec<u8>, OpenError>
    ensures other { disk_at disks.new (other file) ≡ disk_at disks.old (other file) }
    ensures content { IsTrue D.told → (D.means (disk_at disks.new file)).content ≡ (D.means (disk_at disks.old file)).content }
    ensures bytes { IsTrue D.told → IfOk result (λ bytes. bytes.items ≡ (D.means (disk_at disks.old file)).content) }
    ensures durable { IsTrue D.told → OnOk result (Only (D.means (disk_at disks.new file)).content (D.means (disk_at disks.new file)).images) }
    ensures moments { IsTrue D.told → LeavesOnly (D.means (disk_at disks.old file)) (D.means (disk_at disks.new file)) (D.means (disk_at disks.old file)).images }
    ensures refusals { IfErr result (λ e. (e ≡ errors.Disk) ⊎ (e ≡ errors.NoMemory)) }
    ensures spent { SpendsMost D.means 1 (disk_failed result) disks.old disks.new }
{
    sync_made(disks, file)?;
    read_whole(alloc, disks, file)
}

/// Syncs a file.
fn sync_made<D: Disk>(disks: &mut DiskPair<D>, file: FileNo) -> Result<(), OpenError>
    ensures other { disk_at disks.new (other file) ≡ disk_at disks.old (other file) }
    ensures content { IsTrue D.told → (D.means (disk_at disks.new file)).content ≡ (D.means (disk_at disks.old file)).content }
    ensures durable { IsTrue D.told → OnOk result (Only (D.means (disk_at disks.new file)).content (D.means (disk_at disks.new file)).images) }
    ensures moments { IsTrue D.told → LeavesOnly (D.means (disk_at disks.old file)) (D.means (disk_at disks.new file)) (D.means (disk_at disks.old file)).images }
    ensures refusals { IfErr result (λ e. (e ≡ errors.Disk) ⊎ (e ≡ errors.NoMemory)) }
    ensures spent { SpendsMost D.means 1 (disk_failed result) disks.old disks.new }
{
    disks.ready(file, 0, 1)?;
    disks.sync(file)?;
    Ok(())
}

/// The whole content of a file.
fn read_whole<D: Disk>(
    alloc: Global,
    disks: &mut DiskPair<D>,
    file: FileNo,
) -> Result<Vec<u8>, OpenError>
    ensures other { disk_at disks.new (other file) ≡ disk_at disks.old (other file) }
    ensures bytes { IsTrue D.told → IfOk result (λ bytes. bytes.items ≡ (D.means (disk_at disks.old file)).content) }
    ensures same { IsTrue D.told → Stays (D.means (disk_at disks.old file)) (D.means (disk_at disks.new file)) }
    ensures moments { IsTrue D.told → LeavesOnly (D.means (disk_at disks.old file)) (D.means (disk_at disks.new file)) (D.means (disk_at disks.old file)).images }
    ensures refusals { IfErr result (λ e. (e ≡ errors.Disk) ⊎ (e ≡ errors.NoMemory)) }
    ensures spent { SpendsMost D.means 0 (disk_failed result) disks.old disks.new }
{
    let len = disks.len(file)?;
    let mut bytes = vec![in alloc; 0u8; len as usize]?;
    match disks.read(file, 0, &mut bytes) {
        Ok(count) => {
            bytes.truncate(count);
            Ok(bytes)
        }
        Err(Failed) => {
            drop(bytes);
            Err(OpenError::Disk)
        }
    }
}
