//! A statement in memory has texts as names and texts, and bytes in its blobs: its parts are `Text` and `Bytes`.
//! These functions change nothing; what they say of their argument is in their contracts.
ghost use Rattle.std.specs.Prelude.{◌≡◌, nat_lt, true, map};
ghost use Rattle.std.specs.List.{list_all};
ghost use Rattle.rq_values.specs.Text.{is_text};
ghost use Rattle.rq_grammar.specs.Proper.{all_of};
ghost use Rattle.rq_print.specs.Written as spec;

use rq_grammar::{ColumnDef, Expr, InsertRows, OrderTerm, ResultItem, SelectStmt, Stmt};
use rq_values::{Text, Value};
use sqlite_items::Items;

fn know_text(text: &Text)
    ensures { is_text text.now ≡ true }
{
    let _bytes = text.bytes();
}

fn know_maybe_text(text: &Option<Text>)
    ensures { spec.maybe_text text.now ≡ true }
{
    match text {
        None => (),
        Some(text) => know_text(text),
    }
}

fn know_texts(texts: &[Text])
    ensures { all_of (map is_text texts.now) ≡ true }
{
    for text in texts {
        know_text(text);
    }
}

fn know_bytes(bytes: &[u8])
    ensures { list_all (λ b. nat_lt b 256) bytes.now ≡ true }
{
    for byte in bytes {
        let _byte = *byte;
    }
}

fn know_literal(value: &Value)
    ensures { spec.literal_written value.now ≡ true }
{
    match value {
        Value::Null => (),
        Value::Int(_) => (),
        Value::Text(text) => know_text(text),
        Value::Blob(bytes) => know_bytes(bytes.bytes()),
    }
}

#[cycle(know)]
fn know_list(list: &[Expr])
    ensures { all_of (map spec.is_written list.now) ≡ true }
{
    for expr in list {
        know_expr(expr);
    }
}

#[cycle(know)]
fn know_expr(expr: &Expr)
    ensures { spec.is_written expr.now ≡ true }
{
    match expr {
        Expr::Literal(value) => know_literal(value),
        Expr::Name(name) => know_text(name),
        Expr::Qualified { table, column } => {
            know_text(table);
            know_text(column);
        }
        Expr::Call { args, .. } => know_list(args.as_slice()),
        Expr::Minus(operand) => know_expr(operand.get()),
        Expr::Not(operand) => know_expr(operand.get()),
        Expr::Binary { left, right, .. } => {
            know_expr(left.get());
            know_expr(right.get());
        }
        Expr::InList { left, list, .. } => {
            know_expr(left.get());
            know_list(list.as_slice());
        }
        Expr::Between {
            left,
            low,
            high,
            ..
        } => {
            know_expr(left.get());
            know_expr(low.get());
            know_expr(high.get());
        }
        _ => (),
    }
}

fn know_maybe(expr: &Option<Expr>)
    ensures { spec.maybe_written expr.now ≡ true }
{
    match expr {
        None => (),
        Some(expr) => know_expr(expr),
    }
}

fn know_result(item: &ResultItem)
    ensures { spec.result_written item.now ≡ true }
{
    match item {
        ResultItem::All => (),
        ResultItem::Value { expr, alias } => {
            know_expr(expr);
            know_maybe_text(alias);
        }
    }
}

fn know_results(results: &[ResultItem])
    ensures { all_of (map spec.result_written results.now) ≡ true }
{
    for item in results {
        know_result(item);
    }
}

fn know_terms(terms: &[OrderTerm])
    ensures { all_of (map spec.term_written terms.now) ≡ true }
{
    for term in terms {
        know_expr(&term.expr);
    }
}

fn know_select(select: &SelectStmt)
    ensures { spec.select_written select.now ≡ true }
{
    know_results(select.results.as_slice());
    know_maybe_text(&select.table);
    know_maybe(&select.filter);
    know_terms(select.order.as_slice());
    know_maybe(&select.limit);
    know_maybe(&select.offset);
}

fn know_columns(columns: &[ColumnDef])
    ensures { all_of (map spec.column_written columns.now) ≡ true }
{
    for column in columns {
        know_text(&column.name);
    }
}

fn know_names(names: &Option<Items<Text>>)
    ensures { spec.names_written names.now ≡ true }
{
    match names {
        None => (),
        Some(names) => know_texts(names.as_slice()),
    }
}

fn know_row(row: &Items<Expr>)
    ensures { spec.row_written row.now ≡ true }
{
    know_list(row.as_slice());
}

fn know_rows(rows: &[Items<Expr>])
    ensures { all_of (map spec.row_written rows.now) ≡ true }
{
    for row in rows {
        know_row(row);
    }
}

fn know_inserted(inserted: &InsertRows)
    ensures { spec.rows_written inserted.now ≡ true }
{
    match inserted {
        InsertRows::Values(rows) => know_rows(rows.as_slice()),
        InsertRows::Select(select) => know_select(select),
    }
}

fn know_set(set: &(Text, Expr))
    ensures { spec.set_written set.now ≡ true }
{
    know_text(&set.0);
    know_expr(&set.1);
}

fn know_sets(sets: &[(Text, Expr)])
    ensures { all_of (map spec.set_written sets.now) ≡ true }
{
    for set in sets {
        know_set(set);
    }
}

/// Each statement in memory has texts as names and texts, and bytes in its blobs.
pub fn each_statement_is_written(stmt: &Stmt)
    ensures { spec.statement_written stmt.now ≡ true }
{
    match stmt {
        Stmt::Create { table, columns, .. } => {
            know_text(table);
            know_columns(columns.as_slice());
        }
        Stmt::Drop { table, .. } => know_text(table),
        Stmt::Insert {
            table,
            columns,
            rows,
        } => {
            know_text(table);
            know_names(columns);
            know_inserted(rows);
        }
        Stmt::Update {
            table,
            sets,
            filter,
        } => {
            know_text(table);
            know_sets(sets.as_slice());
            know_maybe(filter);
        }
        Stmt::Delete { table, filter } => {
            know_text(table);
            know_maybe(filter);
        }
        Stmt::Select(select) => know_select(select),
    }
}
