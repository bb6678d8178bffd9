use rq_outside::Word;
use rq_serve::{NodeWords, WordsError, node_words};
use rq_values::NoMemory;
use std::alloc::Global;
use std::test::Fail;

/// The words of a node, each behind a blank.
const NODE: &[u8] =
    b" node --id n1 --http 127.0.0.1:47398 --raft 127.0.0.1:47397 --dir data --first n1=127.0.0.1:47398/127.0.0.1:47397";

/// The words of a line.
fn words_of(alloc: Global, line: &[u8]) -> Result<Vec<Word>, NoMemory> {
    let mut words = Vec::new(alloc);
    for piece in line.split(|byte| *byte == b' ') {
        if !piece.is_empty() {
            let word = Word::new(alloc, piece)?;
            if words.push(word).is_err() {
                return Err(NoMemory);
            }
        }
    }
    Ok(words)
}

fn read(alloc: Global, line: &[u8]) -> Result<NodeWords, WordsError> {
    let words = words_of(alloc, line)?;
    node_words(alloc, words.as_slice())
}

/// What the words of a node name.
pub fn node(alloc: Global) -> Result<NodeWords, WordsError> {
    read(alloc, NODE)
}

#[test]
fn words_name_a_node_or_are_refused(rt: HostRuntime) -> Result<(), Fail> {
    let alloc = rt.alloc();
    match node(alloc) {
        Ok(words) => {
            assert!(rt; words.id.bytes() == b"n1".as_slice());
            assert!(rt; words.http.bytes() == b"127.0.0.1:47398".as_slice());
            assert!(rt; words.raft.bytes() == b"127.0.0.1:47397".as_slice());
            assert!(rt; words.dir.as_str() == "data");
            drop(words);
        }
        Err(_) => assert!(rt; false, "the words of a node"),
    }
    let refused: [&[u8]; 7] = [
        b"node",
        b"node --id n1",
        b"node --id N1 --http a:1 --raft a:2 --dir d --first N1=a:1/a:2",
        b"node --id n1 --http a:1 --raft a:2 --dir d --first n2=a:1/a:2",
        b"node --id n1 --http a:1 --raft a:2 --dir d --first n1=a:1/a:2,n2=b:1/b:2",
        b"node --id n1 --http a:1 --raft a:2 --dir d --first n1=a:1/a:2 --more",
        b"node --id n1 --id n1 --http a:1 --raft a:2 --dir d --first n1=a:1/a:2",
    ];
    for line in &refused {
        assert!(rt; matches!(read(alloc, line), Err(WordsError::Refused)));
    }
    Ok(())
}
