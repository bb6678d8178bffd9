ghost use Rattle.std.specs.Prelude.{◌<◌};

use rq_outside::{
    Clock, Disk, DiskPair, Draws, Failed, FileNo, MemDisk, MemSink, MemSource, ScriptClock,
    ScriptDraws, Sink, SinkError, Source, SureClock, SureDisk, SureDraws, SureSink, SureSource,
    Word,
};
use std::alloc::Global;
use std::test::Fail;

fn mem_disk(alloc: Global, bytes: &[u8], fails: &[u64]) -> Result<MemDisk, Fail> {
    let disk = MemDisk::new(alloc, bytes.to_vec(alloc)?, fails.to_vec(alloc)?);
    Ok(disk?)
}

// A pair that is armed with so many calls, and then written to: five bytes in file one and two in file two, each synced.
// It is crashed afterwards. Beside it stands whether the last call passed, and whether the pair was struck before the crash.
fn stopped(alloc: Global, calls: u64, pick: u8) -> Result<(DiskPair<MemDisk>, bool, bool), Fail>
    requires { pick < 4 }
{
    let one = MemDisk::new(alloc, b"abcdef".to_vec(alloc)?, Vec::new(alloc))?;
    let two = MemDisk::new(alloc, Vec::new(alloc), Vec::new(alloc))?;
    let mut pair = DiskPair::new(one, two);
    pair.ready(FileNo::One, 5, 2)?;
    pair.ready(FileNo::Two, 2, 2)?;
    pair.arm(calls);
    let _ = pair.write_at(FileNo::One, 3, b"VWXYZ");
    let _ = pair.sync(FileNo::One);
    let _ = pair.write_at(FileNo::Two, 0, b"pq");
    let passed = pair.sync(FileNo::Two).is_ok();
    let struck = pair.struck();
    pair.crash(pick);
    Ok((pair, passed, struck))
}

fn content<D: Disk>(alloc: Global, pair: &mut DiskPair<D>, file: FileNo) -> Result<Vec<u8>, Fail> {
    let len = pair.len(file)?;
    let mut bytes = vec![in alloc; 0u8; len as usize]?;
    pair.read(file, 0, &mut bytes)?;
    Ok(bytes)
}

// What the two files hold after the stop and the crash.
fn expected(calls: u64, pick: u8) -> (&'static [u8], &'static [u8]) {
    match (calls / 2, pick) {
        (0, 0) => (b"abcdef", b""),
        (0, 1) => (b"abcVWXYZ", b""),
        (0, 2) => (b"abc\x01\x01\x01\x01\x01", b""),
        (0, _) => (b"abcVWf\0\0", b""),
        (1, 0) => (b"abcVWXYZ", b""),
        (1, 2) => (b"abcVWXYZ", b"\x01\x01"),
        (1, 3) => (b"abcVWXYZ", b"p\0"),
        _ => (b"abcVWXYZ", b"pq"),
    }
}

fn holds(
    alloc: Global,
    pair: &mut DiskPair<MemDisk>,
    file: FileNo,
    bytes: &[u8],
) -> Result<bool, Fail> {
    let found = content(alloc, pair, file)?;
    let is_same = found.as_slice() == bytes;
    drop(found);
    Ok(is_same)
}

fn files_hold(
    alloc: Global,
    pair: &mut DiskPair<MemDisk>,
    calls: u64,
    pick: u8,
) -> Result<bool, Fail> {
    let (one, two) = expected(calls, pick);
    Ok(holds(alloc, pair, FileNo::One, one)? && holds(alloc, pair, FileNo::Two, two)?)
}

#[test]
fn an_armed_pair_stops_and_crashes_by_each_pick(rt: HostRuntime) -> Result<(), Fail> {
    for calls in 0..5 {
        for pick in 0..4 {
            let (mut pair, passed, struck) = stopped(rt.alloc(), calls, pick)?;
            let is_held = files_hold(rt.alloc(), &mut pair, calls, pick);
            let is_struck_again = pair.struck();
            drop(pair);
            assert!(rt; is_held?);
            assert_eq!(rt;
                (passed, struck, is_struck_again),
                (calls == 4, calls < 4, false)
            );
        }
    }
    Ok(())
}

// Reads two bytes, four times.
fn four_reads<S: Source>(source: &mut S) -> [Result<usize, Failed>; 4] {
    let mut into = [0u8; 2];
    [
        source.read(&mut into),
        source.read(&mut into),
        source.read(&mut into),
        source.read(&mut into),
    ]
}

fn three_writes<K: Sink>(sink: &mut K) -> [Result<usize, SinkError>; 3] {
    [sink.write(b"ab"), sink.write(b"cd"), sink.write(b"ef")]
}

fn three_lengths<D: Disk>(disk: &mut D) -> [Result<u64, Failed>; 3] {
    [disk.len(), disk.len(), disk.len()]
}

fn four_moments<C: Clock>(clock: &mut C) -> [Result<u64, Failed>; 4] {
    [
        clock.moment(),
        clock.moment(),
        clock.moment(),
        clock.moment(),
    ]
}

fn four_words<R: Draws>(draws: &mut R) -> [Result<u64, Failed>; 4] {
    [draws.word(), draws.word(), draws.word(), draws.word()]
}

#[test]
fn sources(rt: HostRuntime) -> Result<(), Fail> {
    let alloc = rt.alloc();
    let mut source = MemSource::new(b"abc".to_vec(alloc)?, vec![in alloc; 2u64]?);
    let reads = four_reads(&mut source);
    drop(source);
    assert!(rt; reads == [Ok(2), Err(Failed), Ok(1), Ok(0)]);
    let mut source = SureSource::new(b"abc".to_vec(alloc)?);
    let reads = four_reads(&mut source);
    drop(source);
    assert!(rt; reads == [Ok(2), Ok(1), Ok(0), Ok(0)]);
    Ok(())
}

#[test]
fn sinks(rt: HostRuntime) -> Result<(), Fail> {
    let alloc = rt.alloc();
    let mut sink = MemSink::new(b"abc".to_vec(alloc)?, vec![in alloc; 2u64]?);
    let writes = three_writes(&mut sink);
    let is_taken = sink.bytes() == b"abcabef".as_slice();
    drop(sink);
    assert!(rt; writes == [Ok(2), Err(SinkError::Failed), Ok(2)]);
    assert!(rt; is_taken);
    let mut sink = SureSink::new(b"abc".to_vec(alloc)?);
    let writes = three_writes(&mut sink);
    let is_taken = sink.bytes() == b"abcabcdef".as_slice();
    drop(sink);
    assert!(rt; writes == [Ok(2), Ok(2), Ok(2)]);
    assert!(rt; is_taken);
    Ok(())
}

#[test]
fn disks(rt: HostRuntime) -> Result<(), Fail> {
    let alloc = rt.alloc();
    let mut disk = mem_disk(alloc, b"abc", &[2])?;
    let lengths = three_lengths(&mut disk);
    let (is_kept, fault) = (disk.bytes() == b"abc".as_slice(), disk.fault());
    drop(disk);
    assert!(rt; lengths == [Ok(3), Err(Failed), Ok(3)]);
    assert!(rt; (is_kept, fault) == (true, Some(())));
    let mut disk = SureDisk::new(alloc, b"abc".to_vec(alloc)?)?;
    let lengths = three_lengths(&mut disk);
    let (is_kept, fault) = (disk.bytes() == b"abc".as_slice(), disk.fault());
    drop(disk);
    assert!(rt; lengths == [Ok(3), Ok(3), Ok(3)]);
    assert!(rt; (is_kept, fault) == (true, None));
    Ok(())
}

#[test]
fn clocks(rt: HostRuntime) -> Result<(), Fail> {
    let alloc = rt.alloc();
    let mut clock = ScriptClock::new(vec![in alloc; 7u64, 9]?, vec![in alloc; 2u64]?);
    let before = clock.fault();
    let moments = four_moments(&mut clock);
    let after = clock.fault();
    drop(clock);
    assert!(rt; (before, after) == (None, Some(())));
    assert!(rt; moments == [Ok(7), Err(Failed), Ok(9), Err(Failed)]);
    let mut clock = SureClock::new(vec![in alloc; 7u64, 9]?);
    let moments = four_moments(&mut clock);
    drop(clock);
    assert!(rt; moments == [Ok(7), Ok(9), Ok(9), Ok(9)]);
    Ok(())
}

fn sure_words(numbers: Vec<u64>) -> [Result<u64, Failed>; 4] {
    let mut draws = SureDraws::new(numbers);
    let words = four_words(&mut draws);
    drop(draws);
    words
}

#[test]
fn draws(rt: HostRuntime) -> Result<(), Fail> {
    let alloc = rt.alloc();
    let mut draws = ScriptDraws::new(vec![in alloc; 7u64, 9]?, vec![in alloc; 2u64]?);
    let words = four_words(&mut draws);
    drop(draws);
    assert!(rt; words == [Ok(7), Err(Failed), Ok(9), Err(Failed)]);
    assert_eq!(rt;
        sure_words(vec![in alloc; 7u64, 9]?),
        [Ok(7), Ok(9), Ok(9), Ok(9)]
    );
    assert!(rt; sure_words(Vec::new(alloc)) == [Ok(0), Ok(0), Ok(0), Ok(0)]);
    Ok(())
}

#[test]
fn words(rt: HostRuntime) -> Result<(), Fail> {
    let word = Word::new(rt.alloc(), b"cluster")?;
    let is_same = word.bytes() == b"cluster".as_slice();
    drop(word);
    assert!(rt; is_same);
    Ok(())
}
