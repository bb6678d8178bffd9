// What the pairs of a refined cluster stand for.
ghost use Rattle.std.specs.Prelude.{List};
ghost use Rattle.rq_outside.specs.declared.pair.DiskPair.{DiskPair as ThePair};
ghost use Rattle.rq_script.specs.Cluster.{Cluster};
ghost use Rattle.rq_cluster.specs.Refines.{Refines};
ghost use Rattle.rq_cluster.specs.Recovery.{Holds};
ghost use Rattle.rq_cluster.specs.declared.world.World.{World};

use rq_outside::CrashDisk;
use rq_wal::current_logs_stand;

/// The pairs that show a cluster stand for it, whatever a crash leaves.
pub fn refined_clusters_stand<D: CrashDisk>()
    ensures { (start pairs : List (ThePair D D.Fault)) (world : World) (c : Cluster) → Refines D.told D.means start pairs world c → Holds D.told D.means start pairs c }
{
    current_logs_stand::<D>();
}
