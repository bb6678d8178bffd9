//! The current one of two files, and what is stored in it.
ghost use Rattle.std.specs.Prelude.{◌≡◌, ◌≢◌, ◌⊎◌, ◌≤◌, true, take, drop, length, Some, None, Ok, Err, IfOk, IfErr, OnOk, OnSome};
ghost use Rattle.std.specs.Int.{w64, from_le_bytes};
ghost use Rattle.rq_wal.specs.declared.error.OpenError.TheVariants as errors;
ghost use Rattle.rq_wal.specs.Current.{IsRead, IsFound, number_of};
ghost use Rattle.rq_wal.specs.Reading.{left_of, leaves_at, is_magic, header_fault, unless_, then_, file_gives, pair_gives};
ghost use Rattle.rq_wal.specs.Replace.{generation_of, is_open};
ghost use Rattle.rq_wal.specs.Spelling.{base_bytes};
ghost use Rattle.rq_wal.specs.WalFile.{wal_file, wal_generation};

use crate::base::{Base, Stored};
use crate::error::OpenError;
use crate::file::WalFile;
use crate::reading::next_log;
use rq_outside::FileNo;
use rq_values::{DecodeError, Encode, NoMemory};
use std::alloc::Global;

/// The number behind RQWAL and the version.
fn number_in(file: &[u8]) -> u64
    requires { 23 ≤ length file.now }
    ensures { result ≡ from_le_bytes w64 (take 8 (drop 7 file.now)) }
{
    let (_, behind) = file.split_at(7);
    let (number, _) = behind.split_at(8);
    u64::from_le_bytes([
        number[0], number[1], number[2], number[3], number[4], number[5], number[6], number[7],
    ])
}

/// The generation of an open file.
fn generation(file: &[u8]) -> Option<u64>
    ensures value { result ≡ generation_of file.now }
    ensures long { OnSome result (23 ≤ length file.now) }
    ensures open { OnSome result (is_open file.now ≡ true) }
{
    if file.len() < 23 || file[0] != 1 {
        return None;
    }
    Some(number_in(file))
}

/// A file leaves the format at a place.
fn leaves(number: u8, file: &[u8], place: usize) -> OpenError
    ensures { result ≡ leaves_at number file.now place }
{
    OpenError::NotAWal {
        file: number,
        place: place as u64,
        byte: file.get(place).copied(),
    }
}

fn has_magic(file: &[u8]) -> bool
    requires { 23 ≤ length file.now }
    ensures { result ≡ is_magic file.now }
{
    file[1] == b'R' && file[2] == b'Q' && file[3] == b'W' && file[4] == b'A' && file[5] == b'L'
}

/// Refuses an open file whose header isn't right.
#[tactic(auto, unfolding(crate::specs::Reading::header_fault))]
fn check_header(number: u8, file: &[u8]) -> Result<(), OpenError>
    requires { 23 ≤ length file.now }
    ensures right { OnOk result (header_fault number file.now ≡ None) }
    ensures fault { IfErr result (λ e. header_fault number file.now ≡ Some e) }
    ensures no_disk { IfErr result (λ e. e ≢ errors.Disk) }
{
    if !has_magic(file) {
        return Err(leaves(number, file, 1));
    }
    if file[6] != 1 {
        return Err(OpenError::Version(file[6]));
    }
    if number_in(file) >= 1 << 63 {
        return Err(leaves(number, file, 7));
    }
    Ok(())
}

/// How many bytes there are from the wrong field on.
fn left(wrong: DecodeError) -> usize
    ensures { result ≡ left_of wrong }
{
    match wrong {
        DecodeError::Kind(left, _) => left,
        DecodeError::Long(left, _) => left,
        DecodeError::Short(left)
        | DecodeError::NotText(left)
        | DecodeError::Order(left)
        | DecodeError::Rule(left)
        | DecodeError::Text(left)
        | DecodeError::Trailing(left) => left,
        DecodeError::NoMemory => 0,
    }
}

/// The number of a file as it is shown.
fn number_of(file: FileNo) -> u8
    ensures { result ≡ number_of file }
{
    match file {
        FileNo::One => 1,
        FileNo::Two => 2,
    }
}

/// What is stored in an open file whose header is right.
fn read_log(
    alloc: Global,
    first: &Base,
    no: FileNo,
    file: &[u8],
) -> Result<(WalFile, Stored), OpenError>
    requires long { 23 ≤ length file.now }
    requires header { header_fault (number_of no) file.now ≡ None }
    requires open { is_open file.now ≡ true }
    ensures file { IfOk result (λ opened. wal_file opened.0 ≡ no) }
    ensures generation { IfOk result (λ opened. generation_of file.now ≡ Some (wal_generation opened.0)) }
    ensures gives { IfOk result (λ opened. file_gives first.now (number_of no) file.now ≡ Ok opened.1) }
    ensures read { IfOk result (λ opened. IsRead first.now opened.0 opened.1 file.now) }
    ensures refused { IfErr result (λ e. (e ≡ errors.NoMemory) ⊎ (file_gives first.now (number_of no) file.now ≡ Err e)) }
    ensures no_disk { IfErr result (λ e. e ≢ errors.Disk) }
{
    let mut spelled = Vec::new(alloc);
    first.put(&mut spelled)?;
    let (_, behind) = file.split_at(15);
    match next_log(alloc, first, &spelled, behind) {
        Ok((stored, rest)) => {
            let wal = WalFile {
                file: no,
                generation: number_in(file),
                end: file.len().saturating_sub(rest.len()) as u64,
            };
            Ok((wal, stored))
        }
        Err(error) => {
            if error.is_want_of_memory() {
                return Err(OpenError::NoMemory);
            }
            Err(leaves(number_of(no), file, file.len().saturating_sub(left(error))))
        }
    }
}

/// What is stored in the current file, which has this number.
fn read_file(
    alloc: Global,
    first: &Base,
    no: FileNo,
    file: &[u8],
) -> Result<(WalFile, Stored), OpenError>
    requires long { 23 ≤ length file.now }
    requires open { is_open file.now ≡ true }
    ensures header { OnOk result (header_fault (number_of no) file.now ≡ None) }
    ensures file { IfOk result (λ opened. wal_file opened.0 ≡ no) }
    ensures generation { IfOk result (λ opened. generation_of file.now ≡ Some (wal_generation opened.0)) }
    ensures gives { IfOk result (λ opened. file_gives first.now (number_of no) file.now ≡ Ok opened.1) }
    ensures read { IfOk result (λ opened. IsRead first.now opened.0 opened.1 file.now) }
    ensures refused { IfErr result (λ e. (e ≡ errors.NoMemory) ⊎ (file_gives first.now (number_of no) file.now ≡ Err e)) }
    ensures no_disk { IfErr result (λ e. e ≢ errors.Disk) }
{
    check_header(number_of(no), file)?;
    read_log(alloc, first, no, file)
}

/// The greater generation is that of file two: file one counts by its header alone.
fn choose_two(
    alloc: Global,
    first: &Base,
    one: &[u8],
    two: &[u8],
) -> Result<(WalFile, Stored), OpenError>
    requires one { 23 ≤ length one.now }
    requires long { 23 ≤ length two.now }
    requires open { is_open two.now ≡ true }
    ensures header { OnOk result (header_fault 1 one.now ≡ None) }
    ensures file { IfOk result (λ opened. wal_file opened.0 ≡ FileNo.Two) }
    ensures generation { IfOk result (λ opened. generation_of two.now ≡ Some (wal_generation opened.0)) }
    ensures gives { IfOk result (λ opened. unless_ (header_fault 1 one.now) (file_gives first.now 2 two.now) ≡ Ok opened.1) }
    ensures read { IfOk result (λ opened. IsRead first.now opened.0 opened.1 two.now) }
    ensures refused { IfErr result (λ e. (e ≡ errors.NoMemory) ⊎ (unless_ (header_fault 1 one.now) (file_gives first.now 2 two.now) ≡ Err e)) }
    ensures no_disk { IfErr result (λ e. e ≢ errors.Disk) }
{
    check_header(1, one)?;
    read_file(alloc, first, FileNo::Two, two)
}

/// The generation of file one is as great as that of file two, which counts by its header alone.
fn choose_one(
    alloc: Global,
    first: &Base,
    one: &[u8],
    two: &[u8],
) -> Result<(WalFile, Stored), OpenError>
    requires long { 23 ≤ length one.now }
    requires open { is_open one.now ≡ true }
    requires two { 23 ≤ length two.now }
    ensures header { OnOk result (header_fault 2 two.now ≡ None) }
    ensures file { IfOk result (λ opened. wal_file opened.0 ≡ FileNo.One) }
    ensures generation { IfOk result (λ opened. generation_of one.now ≡ Some (wal_generation opened.0)) }
    ensures gives { IfOk result (λ opened. then_ (file_gives first.now 1 one.now) (header_fault 2 two.now) ≡ Ok opened.1) }
    ensures read { IfOk result (λ opened. IsRead first.now opened.0 opened.1 one.now) }
    ensures refused { IfErr result (λ e. (e ≡ errors.NoMemory) ⊎ (then_ (file_gives first.now 1 one.now) (header_fault 2 two.now) ≡ Err e)) }
    ensures no_disk { IfErr result (λ e. e ≢ errors.Disk) }
{
    match read_file(alloc, first, FileNo::One, one) {
        Ok(opened) => match check_header(2, two) {
            Ok(()) => Ok(opened),
            Err(error) => {
                drop(opened);
                Err(error)
            }
        },
        Err(error) => Err(error),
    }
}

/// What the content of two files stands for, and the current one; nothing where neither is open.
#[tactic(auto, unfolding(crate::specs::Reading::pair_gives))]
pub fn choose(
    alloc: Global,
    first: &Base,
    one: &[u8],
    two: &[u8],
) -> Result<Option<(WalFile, Stored)>, OpenError>
    ensures found { IfOk result (λ found. IsFound first.now one.now two.now found) }
    ensures refused { IfErr result (λ e. (e ≡ errors.NoMemory) ⊎ (pair_gives first.now one.now two.now ≡ Err e)) }
    ensures no_disk { IfErr result (λ e. e ≢ errors.Disk) }
{
    match (generation(one), generation(two)) {
        (None, None) => Ok(None),
        (Some(_), None) => match read_file(alloc, first, FileNo::One, one) {
            Ok(opened) => Ok(Some(opened)),
            Err(error) => Err(error),
        },
        (None, Some(_)) => match read_file(alloc, first, FileNo::Two, two) {
            Ok(opened) => Ok(Some(opened)),
            Err(error) => Err(error),
        },
        (Some(g), Some(h)) => {
            if g < h {
                match choose_two(alloc, first, one, two) {
                    Ok(opened) => Ok(Some(opened)),
                    Err(error) => Err(error),
                }
            } else {
                match choose_one(alloc, first, one, two) {
                    Ok(opened) => Ok(Some(opened)),
                    Err(error) => Err(error),
                }
            }
        }
    }
}
