//! A statement with values in place of its nodes, in source order.
ghost use Rattle.std.specs.Prelude.{◌≡◌, IfOk};
ghost use Rattle.rq_binding.specs.Statements as spec;
ghost use Rattle.rq_binding.specs.Filled.{all_filled};

use crate::filling::{filled, filled_list};
use crate::joining::{both, with_item};
use crate::node::Sort;
use crate::values::Values;
use rq_grammar::{Expr, InsertRows, OrderTerm, ResultItem, SelectStmt, Stmt};
use rq_values::{NoMemory, Text, TryCopy};
use sqlite_items::Items;
use std::alloc::Global;

fn copied_list(alloc: Global, names: &[Text]) -> Result<Items<Text>, NoMemory>
    ensures { IfOk result (λ copy. copy ≡ names.now) }
{
    let mut copy = Items::new(alloc);
    for name in names {
        match name.copy(alloc) {
            Ok(name) => copy = with_item(copy, name)?,
            Err(error) => {
                drop(copy);
                return Err(error);
            }
        }
    }
    Ok(copy)
}

fn copied_names(alloc: Global, names: &Option<Items<Text>>) -> Result<Option<Items<Text>>, NoMemory>
    ensures { IfOk result (λ copy. copy ≡ names.now) }
{
    match names {
        None => Ok(None),
        Some(names) => Ok(Some(copied_list(alloc, names.as_slice())?)),
    }
}

fn filled_maybe(
    alloc: Global,
    sort: Sort,
    expr: &Option<Expr>,
    left: &mut Values,
) -> Result<Option<Expr>, NoMemory>
    ensures { IfOk result (λ x. spec.maybe_filled sort expr.now left.old ≡ (x, left.new)) }
{
    match expr {
        None => Ok(None),
        Some(expr) => match filled(alloc, sort, expr, left) {
            Ok(expr) => Ok(Some(expr)),
            Err(error) => Err(error),
        },
    }
}

fn filled_result(
    alloc: Global,
    sort: Sort,
    item: &ResultItem,
    left: &mut Values,
) -> Result<ResultItem, NoMemory>
    ensures { IfOk result (λ x. spec.result_filled sort item.now left.old ≡ (x, left.new)) }
{
    match item {
        ResultItem::All => Ok(ResultItem::All),
        ResultItem::Value { expr, alias } => {
            let expr = filled(alloc, sort, expr, left);
            match both(expr, alias.copy(alloc)) {
                Ok((expr, alias)) => Ok(ResultItem::Value { expr, alias }),
                Err(error) => Err(error),
            }
        }
    }
}

fn filled_results(
    alloc: Global,
    sort: Sort,
    results: &[ResultItem],
    left: &mut Values,
) -> Result<Items<ResultItem>, NoMemory>
    ensures { IfOk result (λ x. spec.each (spec.result_filled sort) results.now left.old ≡ (x, left.new)) }
{
    let mut list = Items::new(alloc);
    for item in results {
        match filled_result(alloc, sort, item, left) {
            Ok(item) => list = with_item(list, item)?,
            Err(error) => {
                drop(list);
                return Err(error);
            }
        }
    }
    Ok(list)
}

fn filled_terms(
    alloc: Global,
    sort: Sort,
    order: &[OrderTerm],
    left: &mut Values,
) -> Result<Items<OrderTerm>, NoMemory>
    ensures { IfOk result (λ x. spec.each (spec.term_filled sort) order.now left.old ≡ (x, left.new)) }
{
    let mut list = Items::new(alloc);
    for term in order {
        let descending = term.descending;
        match filled(alloc, sort, &term.expr, left) {
            Ok(expr) => list = with_item(list, OrderTerm { expr, descending })?,
            Err(error) => {
                drop(list);
                return Err(error);
            }
        }
    }
    Ok(list)
}

fn filled_sets(
    alloc: Global,
    sort: Sort,
    sets: &[(Text, Expr)],
    left: &mut Values,
) -> Result<Items<(Text, Expr)>, NoMemory>
    ensures { IfOk result (λ x. spec.each (spec.set_filled sort) sets.now left.old ≡ (x, left.new)) }
{
    let mut list = Items::new(alloc);
    for set in sets {
        let expr = filled(alloc, sort, &set.1, left);
        match both(set.0.copy(alloc), expr) {
            Ok(set) => list = with_item(list, set)?,
            Err(error) => {
                drop(list);
                return Err(error);
            }
        }
    }
    Ok(list)
}

fn filled_rows(
    alloc: Global,
    sort: Sort,
    rows: &[Items<Expr>],
    left: &mut Values,
) -> Result<Items<Items<Expr>>, NoMemory>
    ensures { IfOk result (λ x. spec.each (all_filled sort) rows.now left.old ≡ (x, left.new)) }
{
    let mut list = Items::new(alloc);
    for row in rows {
        match filled_list(alloc, sort, row.as_slice(), left) {
            Ok(row) => list = with_item(list, row)?,
            Err(error) => {
                drop(list);
                return Err(error);
            }
        }
    }
    Ok(list)
}

fn filled_select(
    alloc: Global,
    sort: Sort,
    select: &SelectStmt,
    left: &mut Values,
) -> Result<SelectStmt, NoMemory>
    ensures { IfOk result (λ x. spec.select_filled sort select.now left.old ≡ (x, left.new)) }
{
    let results = filled_results(alloc, sort, select.results.as_slice(), left);
    let filter = filled_maybe(alloc, sort, &select.filter, left);
    let order = filled_terms(alloc, sort, select.order.as_slice(), left);
    let limit = filled_maybe(alloc, sort, &select.limit, left);
    let offset = filled_maybe(alloc, sort, &select.offset, left);
    let front = both(both(results, select.table.copy(alloc)), both(filter, order));
    match both(front, both(limit, offset)) {
        Ok((((results, table), (filter, order)), (limit, offset))) => Ok(SelectStmt {
            results,
            table,
            filter,
            order,
            limit,
            offset,
        }),
        Err(error) => Err(error),
    }
}

fn filled_inserted(
    alloc: Global,
    sort: Sort,
    rows: &InsertRows,
    left: &mut Values,
) -> Result<InsertRows, NoMemory>
    ensures { IfOk result (λ x. spec.rows_filled sort rows.now left.old ≡ (x, left.new)) }
{
    match rows {
        InsertRows::Values(rows) => match filled_rows(alloc, sort, rows.as_slice(), left) {
            Ok(rows) => Ok(InsertRows::Values(rows)),
            Err(error) => Err(error),
        },
        InsertRows::Select(select) => match filled_select(alloc, sort, select, left) {
            Ok(select) => Ok(InsertRows::Select(select)),
            Err(error) => Err(error),
        },
    }
}

fn filled_insert(
    alloc: Global,
    sort: Sort,
    table: &Text,
    columns: &Option<Items<Text>>,
    rows: &InsertRows,
    left: &mut Values,
) -> Result<Stmt, NoMemory>
    ensures { IfOk result (λ x. spec.insert_filled sort table.now columns.now rows.now left.old ≡ (x, left.new)) }
{
    let target = both(table.copy(alloc), copied_names(alloc, columns));
    match both(target, filled_inserted(alloc, sort, rows, left)) {
        Ok(((table, columns), rows)) => Ok(Stmt::Insert {
            table,
            columns,
            rows,
        }),
        Err(error) => Err(error),
    }
}

fn filled_update(
    alloc: Global,
    sort: Sort,
    table: &Text,
    sets: &[(Text, Expr)],
    filter: &Option<Expr>,
    left: &mut Values,
) -> Result<Stmt, NoMemory>
    ensures { IfOk result (λ x. spec.update_filled sort table.now sets.now filter.now left.old ≡ (x, left.new)) }
{
    let target = both(table.copy(alloc), filled_sets(alloc, sort, sets, left));
    match both(target, filled_maybe(alloc, sort, filter, left)) {
        Ok(((table, sets), filter)) => Ok(Stmt::Update {
            table,
            sets,
            filter,
        }),
        Err(error) => Err(error),
    }
}

fn filled_delete(
    alloc: Global,
    sort: Sort,
    table: &Text,
    filter: &Option<Expr>,
    left: &mut Values,
) -> Result<Stmt, NoMemory>
    ensures { IfOk result (λ x. spec.delete_filled sort table.now filter.now left.old ≡ (x, left.new)) }
{
    match both(table.copy(alloc), filled_maybe(alloc, sort, filter, left)) {
        Ok((table, filter)) => Ok(Stmt::Delete { table, filter }),
        Err(error) => Err(error),
    }
}

/// The statement with the next values in place of its nodes.
pub fn filled_stmt(
    alloc: Global,
    sort: Sort,
    stmt: &Stmt,
    left: &mut Values,
) -> Result<Stmt, NoMemory>
    ensures { IfOk result (λ x. spec.stmt_filled sort stmt.now left.old ≡ (x, left.new)) }
{
    match stmt {
        Stmt::Create { .. } => stmt.copy(alloc),
        Stmt::Drop { .. } => stmt.copy(alloc),
        Stmt::Insert {
            table,
            columns,
            rows,
        } => filled_insert(alloc, sort, table, columns, rows, left),
        Stmt::Update {
            table,
            sets,
            filter,
        } => filled_update(alloc, sort, table, sets.as_slice(), filter, left),
        Stmt::Delete { table, filter } => filled_delete(alloc, sort, table, filter, left),
        Stmt::Select(select) => match filled_select(alloc, sort, select, left) {
            Ok(select) => Ok(Stmt::Select(select)),
            Err(error) => Err(error),
        },
    }
}
