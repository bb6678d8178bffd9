//! Scenarios are played line by line.
use crate::line::{Line, What};
use crate::net::Net;
use std::alloc::Global;
use std::test::Fail;

/// How far a scenario is: the nodes, and how much of what came of the events was named.
struct Play {
    net: Net,
    named: usize,
}

impl Drop for Play {
    fn drop(self) {
        let Play { net, named: _ } = self;
        drop(net);
    }
}

impl Play {
    fn propose(&mut self, alloc: Global, node: usize, count: u64) -> Result<(), Fail> {
        for number in 0..count {
            self.net.propose(alloc, node, number)?;
        }
        Ok(())
    }

    /// Whether all that came was named.
    fn is_quiet(&self) -> bool {
        self.named == self.net.seen.len()
    }

    /// Whether this came next.
    fn came(&mut self, line: Line) -> bool {
        let came = self.net.seen.get(self.named).copied();
        self.named = self.named.saturating_add(1);
        came == Some(line)
    }

    /// Whether the line is right.
    fn line(&mut self, alloc: Global, line: Line) -> Result<bool, Fail> {
        let (what, node, numbers) = line;
        match what {
            What::Elect => {
                let is = self.is_quiet();
                self.net.elect(alloc, node)?;
                Ok(is)
            }
            What::Beat => {
                let is = self.is_quiet();
                self.net.beat(alloc, node)?;
                Ok(is)
            }
            What::Propose => {
                let is = self.is_quiet();
                self.propose(alloc, node, numbers[0])?;
                Ok(is)
            }
            What::Deliver => {
                let is = self.is_quiet();
                self.net.deliver(alloc, node)?;
                Ok(is)
            }
            What::Pass => {
                self.named = self.net.seen.len();
                Ok(true)
            }
            What::Stands => Ok(self.is_quiet() && self.net.stands(node) == Some(numbers)),
            _ => Ok(self.came(line)),
        }
    }

    /// Plays the lines. The number of the first one that is wrong, if one is.
    fn lines(&mut self, alloc: Global, lines: &[Line]) -> Result<Option<usize>, Fail> {
        let mut number = 0_usize;
        for line in lines {
            number = number.saturating_add(1);
            if !self.line(alloc, *line)? {
                return Ok(Some(number));
            }
        }
        if self.is_quiet() {
            Ok(None)
        } else {
            Ok(Some(number))
        }
    }
}

/// The number of the first line that is wrong, if one is, of these and then of more, among so many nodes that begin in that term.
pub fn first_wrong(
    alloc: Global,
    count: usize,
    term: u64,
    lines: &[Line],
    more: &[Line],
) -> Result<Option<usize>, Fail> {
    let net = Net::new(alloc, count, term)?;
    let mut play = Play { net, named: 0 };
    let mut wrong = play.lines(alloc, lines);
    if let Ok(None) = wrong {
        wrong = play.lines(alloc, more);
    }
    drop(play);
    wrong
}
