//! Values to be used one after the other.
ghost use Rattle.std.specs.Prelude.{◌≡◌, [], ◌∷◌, ◌++◌, MatchOption, OnOk, OnErr};

use rq_values::{NoMemory, Value};
use std::alloc::Global;
use std::collections::VecDeque;
use std::marker::Model;

/// Values in the order in which they are used. A contract sees their list.
pub struct Values {
    queue: VecDeque<Value>,
}

impl Model for Values {
    ghost use Rattle.std.specs.Prelude.{List};
    ghost use Rattle.std.specs.Coded.{coded_list, codes};
    ghost use Rattle.rq_values.specs.declared.value.Value.{Value as TheValue};
    ghost use Rattle.rq_values.specs.contracts.value.Value as c;

    ghost Value = { List TheValue };

    ghost coded = { Prim.hlevel (codes, c.the_row.coded) };

    ghost view = { λ values. values.queue.items };
}

impl Drop for Values {
    fn drop(self) {
        let Values { queue } = self;
        drop(queue);
    }
}

impl Values {
    pub fn new(alloc: Global) -> Values
        ensures { result ≡ [] }
    {
        Values {
            queue: VecDeque::new(alloc),
        }
    }

    pub fn push(&mut self, value: Value) -> Result<(), NoMemory>
        ensures ok { OnOk result (self.new ≡ self.old ++ value ∷ []) }
        ensures err { OnErr result (self.new ≡ self.old) }
    {
        self.queue.push_back(value)?;
        Ok(())
    }

    /// The next value.
    pub fn next(&mut self) -> Option<Value>
        ensures { MatchOption result ((self.old ≡ []) × (self.new ≡ [])) (λ value. self.old ≡ value ∷ self.new) }
    {
        self.queue.pop_front()
    }
}
