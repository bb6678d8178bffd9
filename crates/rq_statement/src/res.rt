//! What a statement answers.
ghost use Rattle.std.specs.Prelude.{◌≡◌, IfOk};
ghost use Rattle.rq_statement.specs.declared.res.Res.TheVariants as res;

use rq_values::{NoMemory, Seq, Text, TryCopy, Value};
use std::alloc::Global;

/// What a statement answers.
#[derive(Debug)]
pub enum Res {
    /// A write: the rowid of the row that an INSERT put in, else 0, and how many rows changed.
    Done {
        last_insert_id: i64,
        rows_affected: u64,
    },
    /// A read: headings, declared types in lower case, and rows.
    Rows {
        columns: Seq<Text>,
        types: Seq<Text>,
        values: Seq<Seq<Value>>,
    },
    Error(Text),
}

impl Drop for Res {
    fn drop(self) {
        match self {
            Res::Done {
                last_insert_id: _,
                rows_affected: _,
            } => (),
            Res::Rows {
                columns,
                types,
                values,
            } => {
                drop(columns);
                drop(types);
                drop(values);
            }
            Res::Error(text) => drop(text),
        }
    }
}

/// A read's answer, once more.
fn copy_rows(
    alloc: Global,
    columns: &Seq<Text>,
    types: &Seq<Text>,
    values: &Seq<Seq<Value>>,
) -> Result<Res, NoMemory>
    ensures { IfOk result (λ copy. copy ≡ res.Rows columns.now types.now values.now) }
{
    let columns = columns.copy(alloc)?;
    match types.copy(alloc) {
        Err(error) => {
            drop(columns);
            Err(error)
        }
        Ok(types) => match values.copy(alloc) {
            Err(error) => {
                drop(columns);
                drop(types);
                Err(error)
            }
            Ok(values) => Ok(Res::Rows {
                columns,
                types,
                values,
            }),
        },
    }
}

impl TryCopy for Res {
    fn copy(&self, alloc: Global) -> Result<Res, NoMemory> {
        match self {
            Res::Done {
                last_insert_id,
                rows_affected,
            } => Ok(Res::Done {
                last_insert_id: *last_insert_id,
                rows_affected: *rows_affected,
            }),
            Res::Rows {
                columns,
                types,
                values,
            } => copy_rows(alloc, columns, types, values),
            Res::Error(text) => Ok(Res::Error(text.copy(alloc)?)),
        }
    }
}
