//! An item of a request's list.
ghost use Rattle.std.specs.Prelude.{All};
ghost use Rattle.rq_statement.specs.Items as spec;

use crate::settled::Settled;
use rq_values::{Encode, NoMemory, Text, TryCopy, put_bytes, put_u8};
use std::alloc::Global;

/// A statement that is to run, or the error that its text has.
pub enum Item {
    Run(Settled),
    Fail(Text),
}

impl Drop for Item {
    fn drop(self) {
        match self {
            Item::Run(settled) => drop(settled),
            Item::Fail(text) => drop(text),
        }
    }
}

impl TryCopy for Item {
    fn copy(&self, alloc: Global) -> Result<Item, NoMemory> {
        match self {
            Item::Run(settled) => Ok(Item::Run(settled.copy(alloc)?)),
            Item::Fail(text) => Ok(Item::Fail(text.copy(alloc)?)),
        }
    }
}

impl Encode for Item {
    ghost use Rattle.rq_statement.specs.Bytes.{item_bytes};

    ghost spelled = { item_bytes };

    fn put(&self, into: &mut Vec<u8>) -> Result<(), NoMemory> {
        match self {
            Item::Run(settled) => {
                put_u8(0, into)?;
                put_bytes(settled.text(), into)
            }
            Item::Fail(text) => {
                put_u8(1, into)?;
                put_bytes(text.bytes(), into)
            }
        }
    }
}

/// The statement of an item in memory is settled, and its error is a text. This changes nothing.
pub fn know_item(item: &Item)
    ensures { spec.IsItem item.now }
{
    match item {
        Item::Run(settled) => {
            let _stmt = settled.stmt();
        }
        Item::Fail(text) => {
            let _bytes = text.bytes();
        }
    }
}

/// The same of each of the items.
pub fn know_items(items: &[Item])
    ensures { All spec.IsItem items.now }
{
    for item in items {
        know_item(item);
    }
}
