//! Where in a statement the machine stands between expressions.

ghost use Rattle.std.specs.Prelude.{◌≡◌, min, IfOk};
ghost use Rattle.rq_grammar.specs.declared.stmt.ResultItem.TheVariants as item;
ghost use Rattle.rq_grammar.specs.declared.stmt.Stmt.TheVariants as s;
ghost use Rattle.rq_grammar.specs.Depth.{maybe_depth, select_depth, deepest};
ghost use Rattle.rq_automaton.specs.Load.{stage_depth};
ghost use Rattle.rq_automaton.specs.Places as spec;

use crate::measured::{Measured, MeasuredRows, MeasuredSets};
use rq_grammar::{ColumnDef, Expr, InsertRows, OrderTerm, ResultItem, SelectStmt, Stmt};
use rq_values::{NoMemory, Text};
use sqlite_items::Items;
use std::alloc::Global;
use std::marker::Model;

/// `CREATE TABLE [IF NOT EXISTS] table ( column, ..`
#[derive(Drop)]
pub struct NewTable {
    pub if_not_exists: bool,
    pub table: Text,
    pub columns: Items<ColumnDef>,
}

/// `INSERT INTO table [( name, .. )]`
#[derive(Drop)]
pub struct Target {
    pub table: Text,
    pub columns: Option<Items<Text>>,
}

/// A select as far as it is read, and what it is inserted into.
#[derive(Drop)]
pub struct Query {
    pub target: Option<Target>,
    pub select: SelectStmt,
}

/// How much of a select is read.
#[derive(Clone, Copy)]
pub enum Stage {
    /// The results.
    Results,
    /// `FROM` and its table.
    Source,
    /// `WHERE` and its condition.
    Filtered,
    /// `ORDER BY` and its terms.
    Ordered,
    /// All.
    Limited,
}

/// A select as far as it is read, and the depth of each of its parts.
pub struct MeasuredQuery {
    query: Query,
    results: u8,
    filter: u8,
    order: u8,
    limit: u8,
    offset: u8,
}

impl Drop for MeasuredQuery {
    fn drop(self) {
        let MeasuredQuery {
            query,
            results: _,
            filter: _,
            order: _,
            limit: _,
            offset: _,
        } = self;
        drop(query);
    }
}

impl Model for MeasuredQuery {
    ghost use Rattle.std.specs.Prelude.{◌≡◌, min};
    ghost use Rattle.std.specs.Coded.{codes};
    ghost use Rattle.rq_automaton.specs.declared.place.Query.{Query};
    ghost use Rattle.rq_grammar.specs.Depth.{results_depth, maybe_depth, order_depth};
    ghost use Rattle.rq_grammar.specs.contracts.expr.Expr as c;

    ghost Value = { Query };

    ghost coded = { Prim.hlevel (codes, c.the_row.coded) };

    ghost view = { λ q. q.query };

    ghost invariant = { λ q. (q.results ≡ min 101 (results_depth q.query.select.results)) × (q.filter ≡ min 101 (maybe_depth q.query.select.filter)) × (q.order ≡ min 101 (order_depth q.query.select.order)) × (q.limit ≡ min 101 (maybe_depth q.query.select.limit)) × (q.offset ≡ min 101 (maybe_depth q.query.select.offset)) };
}

impl MeasuredQuery {
    /// Of which nothing is read.
    pub fn new(alloc: Global, target: Option<Target>) -> MeasuredQuery
        ensures { result ≡ spec.query target }
    {
        MeasuredQuery {
            query: Query {
                target,
                select: SelectStmt {
                    results: Items::new(alloc),
                    table: None,
                    filter: None,
                    order: Items::new(alloc),
                    limit: None,
                    offset: None,
                },
            },
            results: 0,
            filter: 0,
            order: 0,
            limit: 0,
            offset: 0,
        }
    }

    /// With `*` behind its results.
    #[tactic(auto, using(crate::proofs::Depths::results_more))]
    pub fn with_all(mut self) -> Result<MeasuredQuery, NoMemory>
        ensures { IfOk result (λ q. q ≡ spec.add_result self item.All) }
    {
        match self.query.select.results.push(ResultItem::All) {
            Ok(()) => Ok(self),
            Err(_) => {
                drop(self);
                Err(NoMemory)
            }
        }
    }

    /// With one more result.
    #[tactic(auto, using(crate::proofs::Depths::results_more))]
    pub fn with_result(
        mut self,
        expr: Measured,
        alias: Option<Text>,
    ) -> Result<MeasuredQuery, NoMemory>
        ensures { IfOk result (λ q. q ≡ spec.add_result self (item.Value expr alias)) }
    {
        let levels = expr.levels();
        let expr = expr.into_inner();
        match self
            .query
            .select
            .results
            .push(ResultItem::Value { expr, alias })
        {
            Ok(()) => {
                self.results = self.results.max(levels);
                Ok(self)
            }
            Err(_) => {
                drop(self);
                Err(NoMemory)
            }
        }
    }

    pub fn with_table(mut self, table: Text) -> MeasuredQuery
        ensures { result ≡ spec.with_table self table }
    {
        self.query.select.table = Some(table);
        self
    }

    pub fn with_filter(mut self, expr: Measured) -> MeasuredQuery
        ensures { result ≡ spec.with_filter self expr }
    {
        self.filter = expr.levels();
        drop(self.query.select.filter.replace(expr.into_inner()));
        self
    }

    /// With one more term of its order.
    #[tactic(auto, using(crate::proofs::Depths::order_more))]
    pub fn with_term(mut self, expr: Measured, descending: bool) -> Result<MeasuredQuery, NoMemory>
        ensures { IfOk result (λ q. q ≡ spec.add_term self (record { expr = expr; descending = descending })) }
    {
        let levels = expr.levels();
        let expr = expr.into_inner();
        match self.query.select.order.push(OrderTerm { expr, descending }) {
            Ok(()) => {
                self.order = self.order.max(levels);
                Ok(self)
            }
            Err(_) => {
                drop(self);
                Err(NoMemory)
            }
        }
    }

    pub fn with_limit(mut self, expr: Measured) -> MeasuredQuery
        ensures { result ≡ spec.with_limit self expr }
    {
        self.limit = expr.levels();
        drop(self.query.select.limit.replace(expr.into_inner()));
        self
    }

    pub fn with_offset(mut self, expr: Measured) -> MeasuredQuery
        ensures { result ≡ spec.with_offset self expr }
    {
        self.offset = expr.levels();
        drop(self.query.select.offset.replace(expr.into_inner()));
        self
    }

    /// The depth of the parts that are read at the stage.
    pub fn levels(&self, stage: Stage) -> u8
        ensures { result ≡ min 101 (stage_depth stage self.now) }
    {
        let filtered = self.results.max(self.filter);
        match stage {
            Stage::Results | Stage::Source => self.results,
            Stage::Filtered => filtered,
            Stage::Ordered => filtered.max(self.order),
            Stage::Limited => filtered.max(self.order).max(self.limit).max(self.offset),
        }
    }

    /// The depth of the limit.
    pub fn limit_levels(&self) -> u8
        ensures { result ≡ min 101 (maybe_depth self.now.select.limit) }
    {
        self.limit
    }

    /// The statement, if nothing more is to come.
    pub fn into_stmt(self) -> MeasuredStmt
        ensures { result ≡ spec.selected self }
    {
        let levels = self.levels(Stage::Limited);
        let MeasuredQuery {
            query,
            results: _,
            filter: _,
            order: _,
            limit: _,
            offset: _,
        } = self;
        let Query { target, select } = query;
        MeasuredStmt {
            stmt: select_into(target, select),
            levels,
        }
    }
}

/// The select, or the insert of what it selects.
fn select_into(target: Option<Target>, select: SelectStmt) -> Stmt
    ensures stmt { result ≡ spec.select_into target select }
    ensures depth { deepest result ≡ select_depth select }
{
    match target {
        None => Stmt::Select(select),
        Some(target) => Stmt::Insert {
            table: target.table,
            columns: target.columns,
            rows: InsertRows::Select(select),
        },
    }
}

/// A statement and its depth.
pub struct MeasuredStmt {
    stmt: Stmt,
    levels: u8,
}

impl Drop for MeasuredStmt {
    fn drop(self) {
        let MeasuredStmt { stmt, levels: _ } = self;
        drop(stmt);
    }
}

impl Model for MeasuredStmt {
    ghost use Rattle.std.specs.Prelude.{◌≡◌, min};
    ghost use Rattle.std.specs.Coded.{codes};
    ghost use Rattle.rq_grammar.specs.declared.stmt.Stmt.{Stmt};
    ghost use Rattle.rq_grammar.specs.Depth.{deepest};
    ghost use Rattle.rq_grammar.specs.contracts.expr.Expr as c;

    ghost Value = { Stmt };

    ghost coded = { Prim.hlevel (codes, c.the_row.coded) };

    ghost view = { λ s. s.stmt };

    ghost invariant = { λ s. s.levels ≡ min 101 (deepest s.stmt) };
}

impl MeasuredStmt {
    pub fn create(table: NewTable) -> MeasuredStmt
        ensures { result ≡ spec.create table }
    {
        MeasuredStmt {
            stmt: Stmt::Create {
                if_not_exists: table.if_not_exists,
                table: table.table,
                columns: table.columns,
            },
            levels: 0,
        }
    }

    pub fn drop_table(if_exists: bool, table: Text) -> MeasuredStmt
        ensures { result ≡ s.Drop if_exists table }
    {
        MeasuredStmt {
            stmt: Stmt::Drop { if_exists, table },
            levels: 0,
        }
    }

    pub fn insert(target: Target, rows: MeasuredRows) -> MeasuredStmt
        ensures { result ≡ spec.insert target rows }
    {
        let levels = rows.levels();
        MeasuredStmt {
            stmt: Stmt::Insert {
                table: target.table,
                columns: target.columns,
                rows: InsertRows::Values(rows.into_inner()),
            },
            levels,
        }
    }

    pub fn update(table: Text, sets: MeasuredSets, filter: Option<Measured>) -> MeasuredStmt
        ensures { result ≡ s.Update table sets filter }
    {
        let (filter, filter_levels) = measured(filter);
        let levels = sets.levels().max(filter_levels);
        MeasuredStmt {
            stmt: Stmt::Update {
                table,
                sets: sets.into_inner(),
                filter,
            },
            levels,
        }
    }

    pub fn delete(table: Text, filter: Option<Measured>) -> MeasuredStmt
        ensures { result ≡ s.Delete table filter }
    {
        let (filter, levels) = measured(filter);
        MeasuredStmt {
            stmt: Stmt::Delete { table, filter },
            levels,
        }
    }

    pub fn levels(&self) -> u8
        ensures { result ≡ min 101 (deepest self.now) }
    {
        self.levels
    }

    pub fn into_inner(self) -> Stmt
        ensures { result ≡ self }
    {
        let MeasuredStmt { stmt, levels: _ } = self;
        stmt
    }
}

/// The expression, if there is one, and its depth.
fn measured(expr: Option<Measured>) -> (Option<Expr>, u8)
    ensures expr { result.0 ≡ expr }
    ensures levels { result.1 ≡ min 101 (maybe_depth expr) }
{
    match expr {
        None => (None, 0),
        Some(expr) => {
            let levels = expr.levels();
            (Some(expr.into_inner()), levels)
        }
    }
}

/// Where in a `CREATE` the machine stands.
#[derive(Drop)]
pub enum CreatePlace {
    /// `CREATE`
    Begun,
    /// `CREATE TABLE`
    Table,
    /// `CREATE TABLE if`: the word or the table's name.
    If(Text),
    /// `CREATE TABLE IF NOT`
    IfNot,
    /// `CREATE TABLE IF NOT EXISTS`
    IfNotExists,
    /// `CREATE TABLE [IF NOT EXISTS] name`
    Named(bool, Text),
    /// A column is to come.
    ColumnStart(NewTable),
    /// Behind a column's name.
    ColumnNamed(NewTable, Text),
    /// Behind a column's kind, or one of its rules.
    Column(NewTable, ColumnDef),
    /// Behind `PRIMARY`.
    ColumnPrimary(NewTable, ColumnDef),
    /// Behind a column's `NOT`.
    ColumnNot(NewTable, ColumnDef),
}

/// Where in a `DROP` the machine stands.
#[derive(Drop)]
pub enum DropPlace {
    /// `DROP`
    Begun,
    /// `DROP TABLE`
    Table,
    /// `DROP TABLE if`: the word or the table's name.
    If(Text),
    /// `DROP TABLE IF EXISTS`
    IfExists,
}

/// Where in an `INSERT` the machine stands, up to its select.
#[derive(Drop)]
pub enum InsertPlace {
    /// `INSERT`
    Begun,
    /// `INSERT INTO`
    Into,
    /// `INSERT INTO table`
    Table(Text),
    /// `INSERT INTO table ( name, .. ,`
    NameStart(Text, Items<Text>),
    /// `INSERT INTO table ( name, ..`
    Names(Text, Items<Text>),
    /// `INSERT INTO table ( name, .. )`
    Columns(Target),
    /// A row is to come.
    Values(Target, MeasuredRows),
    /// Behind a row.
    Rows(Target, MeasuredRows),
}

/// Where in an `UPDATE` the machine stands.
#[derive(Drop)]
pub enum UpdatePlace {
    /// `UPDATE`
    Begun,
    /// `UPDATE table`
    Table(Text),
    /// `UPDATE table SET name = expr, .. ,`
    SetStart(Text, MeasuredSets),
    /// `UPDATE table SET name = expr, .. , name`
    SetName(Text, MeasuredSets, Text),
    /// `UPDATE table SET name = expr, ..`
    Sets(Text, MeasuredSets),
}

/// Where in a `DELETE` the machine stands.
#[derive(Drop)]
pub enum DeletePlace {
    /// `DELETE`
    Begun,
    /// `DELETE FROM`
    From,
    /// `DELETE FROM table`
    Table(Text),
}

/// Where in a select the machine stands.
#[derive(Drop)]
pub enum SelectPlace {
    /// A result is to come.
    Result(MeasuredQuery),
    /// `expr AS`
    Alias(MeasuredQuery, Measured),
    /// Behind a part of a select.
    Tail(Stage, MeasuredQuery),
    /// `SELECT results FROM`
    From(MeasuredQuery),
    /// `.. ORDER`
    Order(MeasuredQuery),
}

/// Where in a text the machine stands between expressions, by statement.
#[derive(Drop)]
pub enum Place {
    Start,
    Create(CreatePlace),
    Drop(DropPlace),
    Insert(InsertPlace),
    Update(UpdatePlace),
    Delete(DeletePlace),
    Select(SelectPlace),
    /// A whole statement.
    Ended(MeasuredStmt),
}
