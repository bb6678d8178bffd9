//! Lists of items.
ghost use Rattle.std.specs.Prelude.{◌≡◌, [], ◌∷◌, ◌++◌, All, OnOk, OnErr};
ghost use Rattle.rq_statement.specs.Items.{IsItem};

use crate::item::{Item, know_item};
use rq_values::{Encode, NoMemory, Seq, TryCopy, put_bool, put_list};
use std::alloc::Global;
use std::marker::Model;

/// The items of a request. As a transaction they all take effect, or none does. A contract sees the record of the two.
pub struct StatementList {
    transaction: bool,
    items: Seq<Item>,
}

impl Model for StatementList {
    ghost use Rattle.std.specs.Prelude.{All};
    ghost use Rattle.rq_statement.specs.contracts.item.Item as c;
    ghost use Rattle.rq_statement.specs.Items.{IsItem};
    ghost use Rattle.rq_statement.specs.Statements.{Statements, statements_code};

    ghost Value = { Statements };

    ghost coded = { statements_code c.the_row.coded };

    ghost view = { λ list. record { transaction = list.transaction; items = list.items } };

    ghost invariant = { λ list. All IsItem list.items };
}

impl Drop for StatementList {
    fn drop(self) {
        let StatementList {
            transaction: _,
            items,
        } = self;
        drop(items);
    }
}

impl StatementList {
    pub fn new(alloc: Global, transaction: bool) -> StatementList
        ensures { result ≡ record { transaction = transaction; items = [] } }
    {
        StatementList {
            transaction,
            items: Seq::new(alloc),
        }
    }

    /// Adds an item at the end. With no memory the list stays as it was.
    pub fn push(&mut self, item: Item) -> Result<(), NoMemory>
        ensures ok { OnOk result (self.new ≡ record self.old { items = self.old.items ++ item ∷ [] }) }
        ensures err { OnErr result (self.new ≡ self.old) }
    {
        know_item(&item);
        self.items.push(item)
    }

    /// Whether all items take effect or none does.
    pub fn transaction(&self) -> bool
        ensures { result ≡ self.now.transaction }
    {
        self.transaction
    }

    /// The items; the statement of each is settled, and its error a text.
    pub fn items(&self) -> &[Item]
        ensures items { result.now ≡ self.now.items }
        ensures known { All IsItem self.now.items }
    {
        self.items.as_slice()
    }
}

impl TryCopy for StatementList {
    fn copy(&self, alloc: Global) -> Result<StatementList, NoMemory> {
        Ok(StatementList {
            transaction: self.transaction,
            items: self.items.copy(alloc)?,
        })
    }
}

impl Encode for StatementList {
    ghost use Rattle.rq_statement.specs.Bytes.{statements_bytes};

    ghost spelled = { statements_bytes };

    fn put(&self, into: &mut Vec<u8>) -> Result<(), NoMemory> {
        put_bool(self.transaction, into)?;
        put_list(self.items.as_slice(), into)
    }
}
