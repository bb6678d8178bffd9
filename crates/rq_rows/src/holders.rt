//! Which row holds a value of a unique column. An entry may be stale: who asks looks at the row.

ghost use Rattle.std.specs.Prelude.{◌≡◌, Some, None, OnOk, OnErr, IsSome, cond};
ghost use Rattle.rq_rows.specs.Holding.{held, same};

use rq_values::{NoMemory, TryCopy, Value};
use std::alloc::Global;
use std::collections::BTreeMap;
use std::marker::Model;

pub struct Holders {
    keys: BTreeMap<Value, i64>,
}

impl Model for Holders {
    ghost use Rattle.std.specs.Prelude.{ℤ, List};
    ghost use Rattle.rq_values.specs.declared.value.Value.{Value as Key};

    ghost Value = { List (Key × ℤ) };

    ghost view = { λ h. h.keys.entries };
}

impl Drop for Holders {
    fn drop(self) {
        let Holders { keys } = self;
        drop(keys);
    }
}

impl Holders {
    pub fn new(alloc: Global) -> Holders
        ensures { (q : _) → held result q ≡ None }
    {
        Holders {
            keys: BTreeMap::new(alloc),
        }
    }

    pub fn get(&self, value: &Value) -> Option<i64>
        ensures { result ≡ held self.now value.now }
    {
        self.keys.get(value).copied()
    }

    /// Points a value that has an entry to another row.
    pub fn point(&mut self, value: &Value, to: i64)
        requires { IsSome (held self.old value.now) }
        ensures { (q : _) → held self.new q ≡ cond (same value.now q) (Some to) (held self.old q) }
    {
        match self.keys.get_mut(value) {
            Some(holder) => *holder = to,
            None => unreachable!(),
        }
    }

    /// Points a value to a row. With no memory all is as it was.
    pub fn hold(&mut self, alloc: Global, value: &Value, to: i64) -> Result<(), NoMemory>
        ensures ok { OnOk result ((q : _) → held self.new q ≡ cond (same value.now q) (Some to) (held self.old q)) }
        ensures err { OnErr result (self.new ≡ self.old) }
    {
        let key = value.copy(alloc)?;
        self.keys.insert(key, to)?;
        Ok(())
    }

    /// Takes the entry of a value out.
    pub fn let_go(&mut self, value: &Value)
        ensures { (q : _) → held self.new q ≡ cond (same value.now q) None (held self.old q) }
    {
        let _to = self.keys.remove(value);
    }
}
