// A text for a sink.
ghost use Rattle.std.specs.Prelude.{◌≡◌, ◌≤◌, ◌++◌, List, ℕ, length, take, IsTrue, IfOk, OnOk, OnErr, IsErrOf};
ghost use Rattle.rq_outside.specs.Counts.{Rose};
ghost use Rattle.rq_outside.specs.declared.sink.SinkError.TheVariants.{Failed as SinkFailed};
ghost use Rattle.rq_cluster.specs.Outcome.{Took};
ghost use Rattle.rq_cluster.specs.LastLines.{IsPrefix};

use rq_outside::{Sink, SinkError};

/// Writes the whole text, in as many calls as the sink wants.
pub fn give<K: Sink>(sink: &mut K, text: &[u8]) -> Result<(), SinkError>
    ensures ok { OnOk result (IsTrue K.told → K.taken sink.new ≡ K.taken sink.old ++ text.now) }
    ensures err { OnErr result (Took K.told (K.taken sink.old) (K.taken sink.new) (λ out. IsPrefix out text.now)) }
    ensures later { K.faults sink.old ≤ K.faults sink.new }
    ensures cause { IsErrOf result SinkFailed → Rose (K.faults sink.old) (K.faults sink.new) }
{
    let mut given = 0;
    while given < text.len() {
        given += sink.write(&text[given..])?;
    }
    Ok(())
}
