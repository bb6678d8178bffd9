//! Copies of expressions and statements.

ghost use Rattle.std.specs.Prelude.{◌≡◌, ◌++◌, ◌∷◌, [], Ok, IfOk};

use crate::expr::Expr;
use crate::stmt::{ColumnDef, InsertRows, OrderTerm, ResultItem, SelectStmt, Stmt};
use rq_values::{NoMemory, Text, TryCopy};
use sqlite_items::{Boxed, Items};
use std::alloc::Global;

/// Both, if both are there.
pub fn both<A: Drop, B: Drop>(
    one: Result<A, NoMemory>,
    two: Result<B, NoMemory>,
) -> Result<(A, B), NoMemory>
    ensures { IfOk result (λ pair. (one ≡ Ok pair.0) × (two ≡ Ok pair.1)) }
{
    match one {
        Ok(one) => match two {
            Ok(two) => Ok((one, two)),
            Err(error) => {
                drop(one);
                Err(error)
            }
        },
        Err(error) => {
            drop(two);
            Err(error)
        }
    }
}

/// The list with one more item at its end.
fn with_item<T: Drop>(mut list: Items<T>, item: T) -> Result<Items<T>, NoMemory>
    ensures { IfOk result (λ xs. xs ≡ list ++ item ∷ []) }
{
    match list.push(item) {
        Ok(()) => Ok(list),
        Err(_) => {
            drop(list);
            Err(NoMemory)
        }
    }
}

#[cycle(copied)]
fn copy_list(alloc: Global, list: &[Expr]) -> Result<Items<Expr>, NoMemory>
    ensures { IfOk result (λ copy. copy ≡ list.now) }
{
    let mut copy = Items::new(alloc);
    for expr in list {
        match copy_expr(alloc, expr) {
            Ok(expr) => copy = with_item(copy, expr)?,
            Err(error) => {
                drop(copy);
                return Err(error);
            }
        }
    }
    Ok(copy)
}

#[cycle(copied)]
fn copy_boxed(alloc: Global, expr: &Expr) -> Result<Boxed<Expr>, NoMemory>
    ensures { IfOk result (λ copy. copy ≡ expr.now) }
{
    let copy = copy_expr(alloc, expr)?;
    Ok(Boxed::new(alloc, copy)?)
}

#[cycle(copied)]
fn copy_expr(alloc: Global, expr: &Expr) -> Result<Expr, NoMemory>
    ensures { IfOk result (λ copy. copy ≡ expr.now) }
{
    match expr {
        Expr::Literal(value) => Ok(Expr::Literal(value.copy(alloc)?)),
        Expr::Param(name) => Ok(Expr::Param(name.copy(alloc)?)),
        Expr::Name(name) => Ok(Expr::Name(name.copy(alloc)?)),
        Expr::Qualified { table, column } => {
            let (table, column) = both(table.copy(alloc), column.copy(alloc))?;
            Ok(Expr::Qualified { table, column })
        }
        Expr::CurrentTimestamp => Ok(Expr::CurrentTimestamp),
        Expr::CurrentDate => Ok(Expr::CurrentDate),
        Expr::CurrentTime => Ok(Expr::CurrentTime),
        Expr::CountAll => Ok(Expr::CountAll),
        Expr::Call { name, args } => {
            let (name, args) = both(name.copy(alloc), copy_list(alloc, args.as_slice()))?;
            Ok(Expr::Call { name, args })
        }
        Expr::Minus(operand) => Ok(Expr::Minus(copy_boxed(alloc, operand.get())?)),
        Expr::Not(operand) => Ok(Expr::Not(copy_boxed(alloc, operand.get())?)),
        Expr::Binary { op, left, right } => {
            let left = copy_boxed(alloc, left.get());
            let (left, right) = both(left, copy_boxed(alloc, right.get()))?;
            Ok(Expr::Binary {
                op: *op,
                left,
                right,
            })
        }
        Expr::InList {
            negated,
            left,
            list,
        } => {
            let left = copy_boxed(alloc, left.get());
            let (left, list) = both(left, copy_list(alloc, list.as_slice()))?;
            Ok(Expr::InList {
                negated: *negated,
                left,
                list,
            })
        }
        Expr::Between {
            negated,
            left,
            low,
            high,
        } => {
            let halves = both(copy_boxed(alloc, left.get()), copy_boxed(alloc, low.get()));
            let ((left, low), high) = both(halves, copy_boxed(alloc, high.get()))?;
            Ok(Expr::Between {
                negated: *negated,
                left,
                low,
                high,
            })
        }
    }
}

impl TryCopy for Expr {
    fn copy(&self, alloc: Global) -> Result<Expr, NoMemory> {
        copy_expr(alloc, self)
    }
}

/// A copy of each.
fn copies<T: TryCopy + Drop>(alloc: Global, items: &[T]) -> Result<Items<T>, NoMemory>
    ensures { IfOk result (λ copy. copy ≡ items.now) }
{
    let mut copy = Items::new(alloc);
    for item in items {
        match item.copy(alloc) {
            Ok(item) => copy = with_item(copy, item)?,
            Err(error) => {
                drop(copy);
                return Err(error);
            }
        }
    }
    Ok(copy)
}

impl TryCopy for ResultItem {
    fn copy(&self, alloc: Global) -> Result<ResultItem, NoMemory> {
        match self {
            ResultItem::All => Ok(ResultItem::All),
            ResultItem::Value { expr, alias } => {
                match both(expr.copy(alloc), alias.copy(alloc)) {
                    Ok((expr, alias)) => Ok(ResultItem::Value { expr, alias }),
                    Err(error) => Err(error),
                }
            }
        }
    }
}

impl TryCopy for OrderTerm {
    fn copy(&self, alloc: Global) -> Result<OrderTerm, NoMemory> {
        Ok(OrderTerm {
            expr: self.expr.copy(alloc)?,
            descending: self.descending,
        })
    }
}

impl TryCopy for SelectStmt {
    fn copy(&self, alloc: Global) -> Result<SelectStmt, NoMemory> {
        let lists = both(
            copies(alloc, self.results.as_slice()),
            copies(alloc, self.order.as_slice()),
        );
        let source = both(self.table.copy(alloc), self.filter.copy(alloc));
        let ends = both(self.limit.copy(alloc), self.offset.copy(alloc));
        match both(both(lists, source), ends) {
            Ok((((results, order), (table, filter)), (limit, offset))) => Ok(SelectStmt {
                results,
                table,
                filter,
                order,
                limit,
                offset,
            }),
            Err(error) => Err(error),
        }
    }
}

impl TryCopy for ColumnDef {
    fn copy(&self, alloc: Global) -> Result<ColumnDef, NoMemory> {
        Ok(ColumnDef {
            name: self.name.copy(alloc)?,
            kind: self.kind,
            primary: self.primary,
            not_null: self.not_null,
            unique: self.unique,
        })
    }
}

fn copy_names(alloc: Global, names: &Option<Items<Text>>) -> Result<Option<Items<Text>>, NoMemory>
    ensures { IfOk result (λ copy. copy ≡ names.now) }
{
    match names {
        None => Ok(None),
        Some(names) => Ok(Some(copies(alloc, names.as_slice())?)),
    }
}

fn copy_sets(alloc: Global, sets: &[(Text, Expr)]) -> Result<Items<(Text, Expr)>, NoMemory>
    ensures { IfOk result (λ copy. copy ≡ sets.now) }
{
    let mut copy = Items::new(alloc);
    for set in sets {
        match both(set.0.copy(alloc), set.1.copy(alloc)) {
            Ok(set) => copy = with_item(copy, set)?,
            Err(error) => {
                drop(copy);
                return Err(error);
            }
        }
    }
    Ok(copy)
}

fn copy_values(alloc: Global, rows: &[Items<Expr>]) -> Result<Items<Items<Expr>>, NoMemory>
    ensures { IfOk result (λ copy. copy ≡ rows.now) }
{
    let mut copy = Items::new(alloc);
    for row in rows {
        match copy_list(alloc, row.as_slice()) {
            Ok(row) => copy = with_item(copy, row)?,
            Err(error) => {
                drop(copy);
                return Err(error);
            }
        }
    }
    Ok(copy)
}

impl TryCopy for InsertRows {
    fn copy(&self, alloc: Global) -> Result<InsertRows, NoMemory> {
        match self {
            InsertRows::Values(rows) => {
                Ok(InsertRows::Values(copy_values(alloc, rows.as_slice())?))
            }
            InsertRows::Select(select) => Ok(InsertRows::Select(select.copy(alloc)?)),
        }
    }
}

impl TryCopy for Stmt {
    fn copy(&self, alloc: Global) -> Result<Stmt, NoMemory> {
        match self {
            Stmt::Create {
                if_not_exists,
                table,
                columns,
            } => {
                let columns = copies(alloc, columns.as_slice());
                match both(table.copy(alloc), columns) {
                    Ok((table, columns)) => Ok(Stmt::Create {
                        if_not_exists: *if_not_exists,
                        table,
                        columns,
                    }),
                    Err(error) => Err(error),
                }
            }
            Stmt::Drop { if_exists, table } => match table.copy(alloc) {
                Ok(table) => Ok(Stmt::Drop {
                    if_exists: *if_exists,
                    table,
                }),
                Err(error) => Err(error),
            },
            Stmt::Insert {
                table,
                columns,
                rows,
            } => {
                let target = both(table.copy(alloc), copy_names(alloc, columns));
                match both(target, rows.copy(alloc)) {
                    Ok(((table, columns), rows)) => Ok(Stmt::Insert {
                        table,
                        columns,
                        rows,
                    }),
                    Err(error) => Err(error),
                }
            }
            Stmt::Update {
                table,
                sets,
                filter,
            } => {
                let target = both(table.copy(alloc), copy_sets(alloc, sets.as_slice()));
                match both(target, filter.copy(alloc)) {
                    Ok(((table, sets), filter)) => Ok(Stmt::Update {
                        table,
                        sets,
                        filter,
                    }),
                    Err(error) => Err(error),
                }
            }
            Stmt::Delete { table, filter } => {
                match both(table.copy(alloc), filter.copy(alloc)) {
                    Ok((table, filter)) => Ok(Stmt::Delete { table, filter }),
                    Err(error) => Err(error),
                }
            }
            Stmt::Select(select) => match select.copy(alloc) {
                Ok(select) => Ok(Stmt::Select(select)),
                Err(error) => Err(error),
            },
        }
    }
}
