//! The values of random nodes and time nodes.
ghost use Rattle.std.specs.Prelude.{[], ◌∷◌, ◌≡◌, ◌++◌, take, drop, slice_index, IfOk, OnOk};
ghost use Rattle.rq_binding.specs.Drawn as spec;

use crate::node::{Drawn, Node, Part};
use crate::planning::{blob_bytes, drawn_words};
use crate::values::Values;
use rq_moments::Shown;
use rq_values::{Bytes, NoMemory, Text, TryCopy, Value};
use std::alloc::Global;

fn part_of(texts: &Shown, part: Part) -> &Text
    ensures { result.now ≡ spec.part_of texts.now part }
{
    match part {
        Part::Timestamp => &texts.timestamp,
        Part::Date => &texts.date,
        Part::Time => &texts.time,
    }
}

fn moment_value(alloc: Global, texts: &Option<Shown>, part: Part) -> Result<Value, NoMemory>
    ensures { IfOk result (λ value. value ≡ spec.moment_value texts.now part) }
{
    match texts {
        None => Ok(Value::Null),
        Some(texts) => match part_of(texts, part).copy(alloc) {
            Ok(text) => Ok(Value::Text(text)),
            Err(error) => Err(error),
        },
    }
}

/// The first so many of the bytes of the words.
fn blob_value(alloc: Global, bytes: u64, words: &[u64]) -> Result<Value, NoMemory>
    ensures { IfOk result (λ value. value ≡ spec.blob_value bytes words.now) }
{
    let mut list = Vec::new(alloc);
    for word in words {
        list.extend_from_slice(word.to_le_bytes().as_slice())?;
    }
    list.truncate(bytes as usize);
    Ok(Value::Blob(Bytes::from_vec(list)))
}

/// The first word, 0 where there is none.
fn first_word(words: &[u64]) -> u64
    ensures { result ≡ slice_index words.now 0 }
{
    match words {
        [] => 0,
        [word, ..] => *word,
    }
}

fn drawn_value(
    alloc: Global,
    texts: &Option<Shown>,
    drawn: Drawn,
    words: &[u64],
) -> Result<Value, NoMemory>
    ensures { IfOk result (λ value. value ≡ spec.drawn_value texts.now drawn words.now) }
{
    match drawn {
        Drawn::Random => Ok(Value::Int((first_word(words) / 2) as i64)),
        Drawn::Blob(size) => blob_value(alloc, blob_bytes(size), words),
        Drawn::Moment(part) => moment_value(alloc, texts, part),
    }
}

/// The first so many words, and the rest.
fn split_words(words: &[u64], count: u64) -> (&[u64], &[u64])
    ensures front { result.0.now ≡ take count words.now }
    ensures rest { result.1.now ≡ drop count words.now }
{
    let count = (count as usize).min(words.len());
    words.split_at(count)
}

/// Adds the value of the node, and answers the words that are left.
fn push_drawn<'a>(
    alloc: Global,
    texts: &Option<Shown>,
    node: &Node,
    words: &'a [u64],
    into: &mut Values,
) -> Result<&'a [u64], NoMemory>
    ensures value { OnOk result (into.new ≡ into.old ++ spec.node_value texts.now node.now words.now ∷ []) }
    ensures left { IfOk result (λ left. left.now ≡ spec.left_of node.now words.now) }
{
    match node {
        Node::Drawn(drawn) => {
            let (front, behind) = split_words(words, drawn_words(*drawn));
            into.push(drawn_value(alloc, texts, *drawn, front)?)?;
            Ok(behind)
        }
        Node::Parameter(_) => {
            into.push(Value::Null)?;
            Ok(words)
        }
    }
}

/// The value of each node.
pub fn drawn_values(
    alloc: Global,
    texts: &Option<Shown>,
    nodes: &[Node],
    words: &[u64],
) -> Result<Values, NoMemory>
    ensures { IfOk result (λ values. values ≡ spec.drawn_values texts.now nodes.now words.now) }
{
    let mut values = Values::new(alloc);
    let mut rest = words;
    for node in nodes {
        match push_drawn(alloc, texts, node, rest, &mut values) {
            Ok(left) => rest = left,
            Err(error) => {
                drop(values);
                return Err(error);
            }
        }
    }
    Ok(values)
}
