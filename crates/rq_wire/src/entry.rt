//! Entries of the log.
use crate::config::Config;
use rq_values::{Bytes, NoMemory, TryCopy};
use std::alloc::Global;

/// What an entry does.
#[derive(Debug, PartialEq)]
pub enum Body {
    NoOp,
    /// From this entry on the cluster has this configuration.
    Config(Config),
    /// A command.
    Data(Bytes),
}

/// An entry of the log: the term in which it was made, and what it does.
#[derive(Debug, PartialEq)]
pub struct Entry {
    pub term: u64,
    pub body: Body,
}

impl Drop for Body {
    fn drop(self) {
        match self {
            Body::NoOp => (),
            Body::Config(config) => drop(config),
            Body::Data(data) => drop(data),
        }
    }
}

impl Drop for Entry {
    fn drop(self) {
        let Entry { term: _, body } = self;
        drop(body);
    }
}

impl TryCopy for Body {
    fn copy(&self, alloc: Global) -> Result<Body, NoMemory> {
        match self {
            Body::NoOp => Ok(Body::NoOp),
            Body::Config(config) => Ok(Body::Config(config.copy(alloc)?)),
            Body::Data(data) => Ok(Body::Data(data.copy(alloc)?)),
        }
    }
}

impl TryCopy for Entry {
    fn copy(&self, alloc: Global) -> Result<Entry, NoMemory> {
        Ok(Entry {
            term: self.term,
            body: self.body.copy(alloc)?,
        })
    }
}
