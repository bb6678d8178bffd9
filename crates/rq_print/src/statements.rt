//! The canonical text of a statement.
ghost use Rattle.std.specs.Prelude.{◌≡◌, ◌++◌, OnOk, map};
ghost use Rattle.rq_grammar.specs.declared.stmt.Stmt.TheVariants as form;
ghost use Rattle.rq_print.specs.Text as spec;

use crate::expressions::{print_expression, print_list_within};
use crate::pieces::{
    print_bytes, print_flag, print_kind, print_name, print_name_behind, print_name_clause,
};
use rq_grammar::{ColumnDef, Expr, InsertRows, OrderTerm, ResultItem, SelectStmt, Stmt};
use rq_values::{NoMemory, Text};
use sqlite_items::Items;

fn print_clause(before: &[u8], expr: &Option<Expr>, into: &mut Vec<u8>) -> Result<(), NoMemory>
    ensures { OnOk result (into.new.items ≡ into.old.items ++ spec.clause_text before.now expr.now) }
{
    match expr {
        None => Ok(()),
        Some(expr) => {
            print_bytes(before, into)?;
            print_expression(expr, into)
        }
    }
}

fn print_result(result_item: &ResultItem, into: &mut Vec<u8>) -> Result<(), NoMemory>
    ensures { OnOk result (into.new.items ≡ into.old.items ++ spec.result_text result_item.now) }
{
    match result_item {
        ResultItem::All => print_bytes(b"*", into),
        ResultItem::Value { expr, alias } => {
            print_expression(expr, into)?;
            print_name_clause(b" AS ", alias, into)
        }
    }
}

fn print_results(results: &[ResultItem], into: &mut Vec<u8>) -> Result<(), NoMemory>
    ensures { OnOk result (into.new.items ≡ into.old.items ++ spec.listed (map spec.result_text results.now)) }
{
    let mut between: &[u8] = b"";
    for result in results {
        print_bytes(between, into)?;
        print_result(result, into)?;
        between = b", ";
    }
    Ok(())
}

fn print_term(term: &OrderTerm, into: &mut Vec<u8>) -> Result<(), NoMemory>
    ensures { OnOk result (into.new.items ≡ into.old.items ++ spec.term_text term.now) }
{
    print_expression(&term.expr, into)?;
    print_flag(term.descending, b" DESC", into)
}

fn print_terms(terms: &[OrderTerm], into: &mut Vec<u8>) -> Result<(), NoMemory>
    ensures { OnOk result (into.new.items ≡ into.old.items ++ spec.listed (map spec.term_text terms.now)) }
{
    let mut between: &[u8] = b"";
    for term in terms {
        print_bytes(between, into)?;
        print_term(term, into)?;
        between = b", ";
    }
    Ok(())
}

fn print_order(terms: &[OrderTerm], into: &mut Vec<u8>) -> Result<(), NoMemory>
    ensures { OnOk result (into.new.items ≡ into.old.items ++ spec.order_text terms.now) }
{
    match terms {
        [] => Ok(()),
        [_, ..] => {
            print_bytes(b" ORDER BY ", into)?;
            print_terms(terms, into)
        }
    }
}

fn print_limit(
    limit: &Option<Expr>,
    offset: &Option<Expr>,
    into: &mut Vec<u8>,
) -> Result<(), NoMemory>
    ensures { OnOk result (into.new.items ≡ into.old.items ++ spec.limit_text limit.now offset.now) }
{
    match limit {
        None => Ok(()),
        Some(limit) => {
            print_bytes(b" LIMIT ", into)?;
            print_expression(limit, into)?;
            print_clause(b" OFFSET ", offset, into)
        }
    }
}

/// What stands behind the table.
fn print_tail(select: &SelectStmt, into: &mut Vec<u8>) -> Result<(), NoMemory>
    ensures { OnOk result (into.new.items ≡ into.old.items ++ spec.tail_text select.now) }
{
    print_clause(b" WHERE ", &select.filter, into)?;
    print_order(select.order.as_slice(), into)?;
    print_limit(&select.limit, &select.offset, into)
}

fn print_select(select: &SelectStmt, into: &mut Vec<u8>) -> Result<(), NoMemory>
    ensures { OnOk result (into.new.items ≡ into.old.items ++ spec.select_text select.now) }
{
    print_bytes(b"SELECT ", into)?;
    print_results(select.results.as_slice(), into)?;
    print_name_clause(b" FROM ", &select.table, into)?;
    print_tail(select, into)
}

/// The rules of a column, in their order.
fn print_rules(column: &ColumnDef, into: &mut Vec<u8>) -> Result<(), NoMemory>
    ensures { OnOk result (into.new.items ≡ into.old.items ++ spec.rules_text column.now) }
{
    print_flag(column.primary, b" PRIMARY KEY", into)?;
    print_flag(column.not_null, b" NOT NULL", into)?;
    print_flag(column.unique, b" UNIQUE", into)
}

fn print_column(column: &ColumnDef, into: &mut Vec<u8>) -> Result<(), NoMemory>
    ensures { OnOk result (into.new.items ≡ into.old.items ++ spec.column_text column.now) }
{
    print_name(&column.name, into)?;
    print_kind(column.kind, into)?;
    print_rules(column, into)
}

fn print_columns(columns: &[ColumnDef], into: &mut Vec<u8>) -> Result<(), NoMemory>
    ensures { OnOk result (into.new.items ≡ into.old.items ++ spec.listed (map spec.column_text columns.now)) }
{
    let mut between: &[u8] = b"";
    for column in columns {
        print_bytes(between, into)?;
        print_column(column, into)?;
        between = b", ";
    }
    Ok(())
}

/// A list of columns in parentheses.
fn enclose_columns(columns: &[ColumnDef], into: &mut Vec<u8>) -> Result<(), NoMemory>
    ensures { OnOk result (into.new.items ≡ into.old.items ++ spec.columns_text columns.now) }
{
    print_bytes(b" (", into)?;
    print_columns(columns, into)?;
    print_bytes(b")", into)
}

fn print_names(names: &[Text], into: &mut Vec<u8>) -> Result<(), NoMemory>
    ensures { OnOk result (into.new.items ≡ into.old.items ++ spec.listed (map spec.name_text names.now)) }
{
    let mut between: &[u8] = b"";
    for name in names {
        print_bytes(between, into)?;
        print_name(name, into)?;
        between = b", ";
    }
    Ok(())
}

fn enclose_names(names: &Option<Items<Text>>, into: &mut Vec<u8>) -> Result<(), NoMemory>
    ensures { OnOk result (into.new.items ≡ into.old.items ++ spec.names_text names.now) }
{
    match names {
        None => Ok(()),
        Some(names) => {
            print_bytes(b" (", into)?;
            print_names(names.as_slice(), into)?;
            print_bytes(b")", into)
        }
    }
}

fn print_row(row: &Items<Expr>, into: &mut Vec<u8>) -> Result<(), NoMemory>
    ensures { OnOk result (into.new.items ≡ into.old.items ++ spec.row_text row.now) }
{
    print_list_within(b"(", row.as_slice(), b")", into)
}

fn print_rows(rows: &[Items<Expr>], into: &mut Vec<u8>) -> Result<(), NoMemory>
    ensures { OnOk result (into.new.items ≡ into.old.items ++ spec.listed (map spec.row_text rows.now)) }
{
    let mut between: &[u8] = b"";
    for row in rows {
        print_bytes(between, into)?;
        print_row(row, into)?;
        between = b", ";
    }
    Ok(())
}

fn print_inserted(inserted: &InsertRows, into: &mut Vec<u8>) -> Result<(), NoMemory>
    ensures { OnOk result (into.new.items ≡ into.old.items ++ spec.inserted_text inserted.now) }
{
    match inserted {
        InsertRows::Values(rows) => {
            print_bytes(b" VALUES ", into)?;
            print_rows(rows.as_slice(), into)
        }
        InsertRows::Select(select) => {
            print_bytes(b" ", into)?;
            print_select(select, into)
        }
    }
}

fn print_set(set: &(Text, Expr), into: &mut Vec<u8>) -> Result<(), NoMemory>
    ensures { OnOk result (into.new.items ≡ into.old.items ++ spec.set_text set.now) }
{
    print_name(&set.0, into)?;
    print_bytes(b" = ", into)?;
    print_expression(&set.1, into)
}

fn print_sets(sets: &[(Text, Expr)], into: &mut Vec<u8>) -> Result<(), NoMemory>
    ensures { OnOk result (into.new.items ≡ into.old.items ++ spec.listed (map spec.set_text sets.now)) }
{
    let mut between: &[u8] = b"";
    for set in sets {
        print_bytes(between, into)?;
        print_set(set, into)?;
        between = b", ";
    }
    Ok(())
}

/// `SET`, and the new values.
fn print_changes(sets: &[(Text, Expr)], into: &mut Vec<u8>) -> Result<(), NoMemory>
    ensures { OnOk result (into.new.items ≡ into.old.items ++ spec.changes_text sets.now) }
{
    print_bytes(b" SET ", into)?;
    print_sets(sets, into)
}

fn print_create(
    if_not_exists: bool,
    table: &Text,
    columns: &[ColumnDef],
    into: &mut Vec<u8>,
) -> Result<(), NoMemory>
    ensures { OnOk result (into.new.items ≡ into.old.items ++ spec.text_of (form.Create if_not_exists table.now columns.now)) }
{
    print_bytes(b"CREATE TABLE ", into)?;
    print_flag(if_not_exists, b"IF NOT EXISTS ", into)?;
    print_name(table, into)?;
    enclose_columns(columns, into)
}

fn print_insert(
    table: &Text,
    columns: &Option<Items<Text>>,
    rows: &InsertRows,
    into: &mut Vec<u8>,
) -> Result<(), NoMemory>
    ensures { OnOk result (into.new.items ≡ into.old.items ++ spec.text_of (form.Insert table.now columns.now rows.now)) }
{
    print_name_behind(b"INSERT INTO ", table, into)?;
    enclose_names(columns, into)?;
    print_inserted(rows, into)
}

fn print_delete(table: &Text, filter: &Option<Expr>, into: &mut Vec<u8>) -> Result<(), NoMemory>
    ensures { OnOk result (into.new.items ≡ into.old.items ++ spec.text_of (form.Delete table.now filter.now)) }
{
    print_name_behind(b"DELETE FROM ", table, into)?;
    print_clause(b" WHERE ", filter, into)
}

/// Adds the statement's canonical text. With no memory a part of it may be there.
pub fn print_statement(stmt: &Stmt, into: &mut Vec<u8>) -> Result<(), NoMemory>
    ensures { OnOk result (into.new.items ≡ into.old.items ++ spec.text_of stmt.now) }
{
    match stmt {
        Stmt::Create {
            if_not_exists,
            table,
            columns,
        } => print_create(*if_not_exists, table, columns.as_slice(), into),
        Stmt::Drop { if_exists, table } => {
            print_bytes(b"DROP TABLE ", into)?;
            print_flag(*if_exists, b"IF EXISTS ", into)?;
            print_name(table, into)
        }
        Stmt::Insert {
            table,
            columns,
            rows,
        } => print_insert(table, columns, rows, into),
        Stmt::Update {
            table,
            sets,
            filter,
        } => {
            print_name_behind(b"UPDATE ", table, into)?;
            print_changes(sets.as_slice(), into)?;
            print_clause(b" WHERE ", filter, into)
        }
        Stmt::Delete { table, filter } => print_delete(table, filter, into),
        Stmt::Select(select) => print_select(select, into),
    }
}
