//! Calls of the cluster.
ghost use Rattle.rq_cluster.specs.Recovery.{AreNew};

use rq_cluster::cluster_main;
use rq_outside::{CrashDisk, DiskPair, Sink, Source, SureDraws, Word};
use std::alloc::Global;
use std::test::Fail;

/// The words of a command line.
pub(crate) fn words_of(alloc: Global, list: &[&[u8]]) -> Result<Vec<Word>, Fail> {
    let mut words = Vec::new(alloc);
    match add_words(alloc, list, &mut words) {
        Ok(()) => Ok(words),
        Err(error) => {
            drop(words);
            Err(error)
        }
    }
}

fn add_words(alloc: Global, list: &[&[u8]], words: &mut Vec<Word>) -> Result<(), Fail> {
    for word in list {
        match Word::new(alloc, word) {
            Ok(word) => words.push(word)?,
            Err(_) => return Err("memory".into()),
        }
    }
    Ok(())
}

/// The status that the cluster ends with.
pub(crate) fn status_of<S: Source, K: Sink, D: CrashDisk>(
    alloc: Global,
    list: &[&[u8]],
    source: &mut S,
    sink: &mut K,
    disks: &mut Vec<DiskPair<D>>,
) -> Result<u8, Fail>
    requires { AreNew D.told D.means disks.old.items }
{
    let words = words_of(alloc, list)?;
    let mut draws = SureDraws::new(Vec::new(alloc));
    let status = cluster_main(alloc, &words, source, sink, disks, &mut draws);
    drop((words, draws));
    Ok(status)
}
