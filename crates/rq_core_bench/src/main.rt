//! `core_bench COUNT`: a leader of three appends so many entries, one after the other, sends each to two followers and commits it by
//! their replies. The nodes and the packets' bytes are in memory.
#![tactic(auto)]

mod cluster;
mod count;

use cluster::Cluster;
use count::count_of;
use std::io;

fn main(rt: HostRuntime) -> io::Result<()> {
    let count = count_of(&rt);
    match Cluster::run(rt.alloc(), count) {
        Some(ends) => {
            let last = ends[0];
            let commit = ends[1];
            let known = ends[2];
            println!(rt;
                "{last} entries, {commit} committed by the leader, {known} known to be by the second"
            )
        }
        None => println!(rt; "out of memory"),
    }
}
