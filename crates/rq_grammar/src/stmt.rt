//! Statements.

use crate::expr::Expr;
use rq_values::Text;
use sqlite_items::Items;

#[derive(Clone, Copy, PartialEq, Eq)]
pub enum ColumnKind {
    Integer,
    Text,
    Blob,
}

#[derive(Drop)]
pub struct ColumnDef {
    pub name: Text,
    pub kind: ColumnKind,
    pub primary: bool,
    pub not_null: bool,
    pub unique: bool,
}

#[derive(Drop)]
pub enum ResultItem {
    /// `*`
    All,
    Value { expr: Expr, alias: Option<Text> },
}

#[derive(Drop)]
pub struct OrderTerm {
    pub expr: Expr,
    pub descending: bool,
}

/// An offset is there only with a limit.
#[derive(Drop)]
pub struct SelectStmt {
    pub results: Items<ResultItem>,
    pub table: Option<Text>,
    pub filter: Option<Expr>,
    pub order: Items<OrderTerm>,
    pub limit: Option<Expr>,
    pub offset: Option<Expr>,
}

/// What is inserted.
#[derive(Drop)]
pub enum InsertRows {
    Values(Items<Items<Expr>>),
    Select(SelectStmt),
}

pub enum Stmt {
    Create {
        if_not_exists: bool,
        table: Text,
        columns: Items<ColumnDef>,
    },
    Drop {
        if_exists: bool,
        table: Text,
    },
    Insert {
        table: Text,
        columns: Option<Items<Text>>,
        rows: InsertRows,
    },
    Update {
        table: Text,
        sets: Items<(Text, Expr)>,
        filter: Option<Expr>,
    },
    Delete {
        table: Text,
        filter: Option<Expr>,
    },
    Select(SelectStmt),
}

impl Drop for Stmt {
    fn drop(self) {
        match self {
            Stmt::Create {
                if_not_exists: _,
                table,
                columns,
            } => {
                drop(table);
                drop(columns);
            }
            Stmt::Drop {
                if_exists: _,
                table,
            } => drop(table),
            Stmt::Insert {
                table,
                columns,
                rows,
            } => {
                drop(table);
                drop(columns);
                drop(rows);
            }
            Stmt::Update {
                table,
                sets,
                filter,
            } => {
                drop(table);
                drop(sets);
                drop(filter);
            }
            Stmt::Delete { table, filter } => {
                drop(table);
                drop(filter);
            }
            Stmt::Select(select) => drop(select),
        }
    }
}
