use rq_outside::{Clock, Disk, Sink, Source};
use rq_system::{
    FileDisk, Listener, Network, RandomWords, Spawner, SteadyClock, SystemThreads, TcpNetwork,
    WallClock, system_seed,
};
use rq_values::Addr;
use std::io::{Read, Write};
use std::net::TcpStream;
use std::sync::Arc;
use std::sync::atomic::{AtomicU64, Ordering};
use std::test::Fail;
use std::thread;

const FILE: &str = "disk_test.bin";

#[test]
fn a_file_keeps_what_is_written(rt: HostRuntime) -> Result<(), Fail> {
    let _gone = std::fs::remove_file(&rt, FILE);
    let mut disk = FileDisk::new(rt, FILE.to_string(rt.alloc())?);
    let mut into = [0u8; 8];
    assert!(rt; disk.len() == Ok(0));
    assert!(rt; disk.write_at(0, b"abcdef") == Ok(()));
    assert!(rt; disk.write_at(2, b"CD") == Ok(()));
    assert!(rt; disk.cut(5) == Ok(()));
    assert!(rt; disk.sync() == Ok(()));
    assert!(rt; disk.len() == Ok(5));
    assert!(rt; disk.read(1, &mut into) == Ok(4));
    assert!(rt; into[..4] == b"bCDe"[..]);
    let mut second = FileDisk::new(rt, FILE.to_string(rt.alloc())?);
    assert!(rt; second.len().is_err(), "another has it");
    assert!(rt; second.fault().is_some());
    drop(second);
    drop(disk);
    let _gone = std::fs::remove_file(&rt, FILE);
    Ok(())
}

#[test]
fn clocks_go_on(rt: HostRuntime) -> Result<(), Fail> {
    let mut steady = SteadyClock::new(rt);
    let mut wall = WallClock::new(rt);
    let first = steady.moment();
    let second = steady.moment();
    assert!(rt; first.is_ok() && second.is_ok());
    assert!(rt; first.unwrap_or(1) <= second.unwrap_or(0));
    assert!(rt; wall.moment().unwrap_or(0) > 1_600_000_000_000);
    Ok(())
}

#[test]
fn random_words_differ(rt: HostRuntime) -> Result<(), Fail> {
    let seed = system_seed(&rt);
    assert!(rt; seed.is_some());
    let mut words = RandomWords::new(seed.unwrap_or([0; 32]));
    let first = rq_outside::Draws::word(&mut words);
    let second = rq_outside::Draws::word(&mut words);
    assert!(rt; first != second);
    Ok(())
}

#[test]
fn bytes_go_both_ways(rt: HostRuntime) -> Result<(), Fail> {
    let Ok(Some(address)) = Addr::new(rt.alloc(), b"127.0.0.1:47399") else {
        assert!(rt; false, "an address");
        return Ok(());
    };
    let mut network = TcpNetwork::new(rt);
    let Ok(mut listener) = network.listen(&address) else {
        assert!(rt; false, "it listens");
        return Ok(());
    };
    let Ok(mut client) = TcpStream::connect(&rt, "127.0.0.1:47399") else {
        assert!(rt; false, "it connects");
        return Ok(());
    };
    let Ok((mut source, mut sink)) = listener.accept() else {
        assert!(rt; false, "it accepts");
        return Ok(());
    };
    let mut into = [0u8; 8];
    assert!(rt; client.write_all(b"ask").is_ok());
    assert!(rt; source.read(&mut into) == Ok(3));
    assert!(rt; into[..3] == b"ask"[..]);
    assert!(rt; sink.write(b"answer") == Ok(6));
    assert!(rt; client.read_exact(&mut into[..6]).is_ok());
    assert!(rt; into[..6] == b"answer"[..]);
    assert!(rt; network.listen(&address).is_err(), "the port is busy");
    Ok(())
}

#[test]
fn a_thread_does_its_job(rt: HostRuntime) -> Result<(), Fail> {
    let done = Arc::new(rt.alloc(), AtomicU64::new(0))?;
    let theirs = Arc::try_clone(&done)?;
    let mut spawner = SystemThreads::new(rt);
    let started = spawner.start(move || theirs.store(7, Ordering::SeqCst));
    assert!(rt; started.is_ok());
    for _ in 0..1_000_000 {
        if done.load(Ordering::SeqCst) == 7 {
            return Ok(());
        }
        thread::yield_now();
    }
    assert!(rt; false, "the job was done");
    Ok(())
}
