//! Expressions beside their depth, which contracts see as the expressions alone. A depth counts up to 101.

ghost use Rattle.std.specs.Prelude.{◌≡◌, [], ◌∷◌, ◌++◌, None, Some, Ok, suc, min, IfOk, OnOk};
ghost use Rattle.rq_grammar.specs.declared.expr.Expr.TheVariants as e;
ghost use Rattle.rq_grammar.specs.Depth as d;

use rq_grammar::{BinaryOp, Expr, both};
use rq_values::{NoMemory, Text, Value};
use sqlite_items::{Boxed, Items};
use std::alloc::Global;
use std::marker::Model;

/// An expression and its depth.
pub struct Measured {
    expr: Expr,
    levels: u8,
}

impl Drop for Measured {
    fn drop(self) {
        let Measured { expr, levels: _ } = self;
        drop(expr);
    }
}

impl Model for Measured {
    ghost use Rattle.std.specs.Prelude.{◌≡◌, min};
    ghost use Rattle.rq_grammar.specs.declared.expr.Expr.{Expr};
    ghost use Rattle.rq_grammar.specs.Depth.{depth};
    ghost use Rattle.rq_grammar.specs.contracts.expr.Expr as c;

    ghost Value = { Expr };

    ghost coded = { c.the_row.coded };

    ghost view = { λ a. a.expr };

    ghost invariant = { λ a. a.levels ≡ min 101 (depth a.expr) };
}

/// Expressions, and the depth of the deepest.
pub struct MeasuredList {
    items: Items<Expr>,
    levels: u8,
}

impl Drop for MeasuredList {
    fn drop(self) {
        let MeasuredList { items, levels: _ } = self;
        drop(items);
    }
}

impl Model for MeasuredList {
    ghost use Rattle.std.specs.Prelude.{List, ◌≡◌, min};
    ghost use Rattle.std.specs.Coded.{coded_list, codes};
    ghost use Rattle.rq_grammar.specs.declared.expr.Expr.{Expr};
    ghost use Rattle.rq_grammar.specs.Depth.{depths};
    ghost use Rattle.rq_grammar.specs.contracts.expr.Expr as c;

    ghost Value = { List Expr };

    ghost coded = { Prim.hlevel (codes, c.the_row.coded) };

    ghost view = { λ xs. xs.items };

    ghost invariant = { λ xs. xs.levels ≡ min 101 (depths xs.items) };
}

/// Rows of expressions, and the depth of the deepest.
pub struct MeasuredRows {
    rows: Items<Items<Expr>>,
    levels: u8,
}

impl Drop for MeasuredRows {
    fn drop(self) {
        let MeasuredRows { rows, levels: _ } = self;
        drop(rows);
    }
}

impl Model for MeasuredRows {
    ghost use Rattle.std.specs.Prelude.{List, ◌≡◌, min};
    ghost use Rattle.std.specs.Coded.{codes};
    ghost use Rattle.rq_grammar.specs.declared.expr.Expr.{Expr};
    ghost use Rattle.rq_grammar.specs.Depth.{rows_depth};
    ghost use Rattle.rq_grammar.specs.contracts.expr.Expr as c;

    ghost Value = { List (List Expr) };

    ghost coded = { Prim.hlevel (codes, c.the_row.coded) };

    ghost view = { λ rs. rs.rows };

    ghost invariant = { λ rs. rs.levels ≡ min 101 (rows_depth rs.rows) };
}

/// What an UPDATE sets, and the depth of the deepest.
pub struct MeasuredSets {
    sets: Items<(Text, Expr)>,
    levels: u8,
}

impl Drop for MeasuredSets {
    fn drop(self) {
        let MeasuredSets { sets, levels: _ } = self;
        drop(sets);
    }
}

impl Model for MeasuredSets {
    ghost use Rattle.std.specs.Prelude.{List, ◌≡◌, min};
    ghost use Rattle.std.specs.Coded.{codes};
    ghost use Rattle.rq_grammar.specs.declared.expr.Expr.{Expr};
    ghost use Rattle.rq_grammar.specs.Words.{Text};
    ghost use Rattle.rq_grammar.specs.Depth.{sets_depth};
    ghost use Rattle.rq_grammar.specs.contracts.expr.Expr as c;

    ghost Value = { List (Text × Expr) };

    ghost coded = { Prim.hlevel (codes, c.the_row.coded) };

    ghost view = { λ is. is.sets };

    ghost invariant = { λ is. is.levels ≡ min 101 (sets_depth is.sets) };
}

/// One level above so many, counted up to 101.
pub(crate) fn above(levels: u8) -> u8
    ensures { result ≡ min 101 (suc levels) }
{
    levels.saturating_add(1).min(101)
}

fn boxed(alloc: Global, expr: Expr) -> Result<Boxed<Expr>, NoMemory>
    ensures { IfOk result (λ b. b ≡ expr) }
{
    Ok(Boxed::new(alloc, expr)?)
}

impl Measured {
    pub fn literal(value: Value) -> Measured
        ensures { result ≡ e.Literal value }
    {
        Measured {
            expr: Expr::Literal(value),
            levels: 1,
        }
    }

    pub fn param(name: Option<Text>) -> Measured
        ensures { result ≡ e.Param name }
    {
        Measured {
            expr: Expr::Param(name),
            levels: 1,
        }
    }

    pub fn name(name: Text) -> Measured
        ensures { result ≡ e.Name name }
    {
        Measured {
            expr: Expr::Name(name),
            levels: 1,
        }
    }

    pub fn qualified(table: Text, column: Text) -> Measured
        ensures { result ≡ e.Qualified table column }
    {
        Measured {
            expr: Expr::Qualified { table, column },
            levels: 1,
        }
    }

    pub fn current_timestamp() -> Measured
        ensures { result ≡ e.CurrentTimestamp }
    {
        Measured {
            expr: Expr::CurrentTimestamp,
            levels: 1,
        }
    }

    pub fn current_date() -> Measured
        ensures { result ≡ e.CurrentDate }
    {
        Measured {
            expr: Expr::CurrentDate,
            levels: 1,
        }
    }

    pub fn current_time() -> Measured
        ensures { result ≡ e.CurrentTime }
    {
        Measured {
            expr: Expr::CurrentTime,
            levels: 1,
        }
    }

    pub fn count_all() -> Measured
        ensures { result ≡ e.CountAll }
    {
        Measured {
            expr: Expr::CountAll,
            levels: 1,
        }
    }

    pub fn call(name: Text, args: MeasuredList) -> Measured
        ensures { result ≡ e.Call name args }
    {
        let levels = above(args.levels.max(1));
        Measured {
            expr: Expr::Call {
                name,
                args: args.into_inner(),
            },
            levels,
        }
    }

    pub fn minus(alloc: Global, operand: Measured) -> Result<Measured, NoMemory>
        ensures { IfOk result (λ x. x ≡ e.Minus operand) }
    {
        let levels = above(operand.levels);
        Ok(Measured {
            expr: Expr::Minus(Boxed::new(alloc, operand.into_inner())?),
            levels,
        })
    }

    pub fn not(alloc: Global, operand: Measured) -> Result<Measured, NoMemory>
        ensures { IfOk result (λ x. x ≡ e.Not operand) }
    {
        let levels = above(operand.levels);
        Ok(Measured {
            expr: Expr::Not(Boxed::new(alloc, operand.into_inner())?),
            levels,
        })
    }

    pub fn binary(
        alloc: Global,
        op: BinaryOp,
        left: Measured,
        right: Measured,
    ) -> Result<Measured, NoMemory>
        ensures { IfOk result (λ x. x ≡ e.Binary op left right) }
    {
        let levels = above(left.levels.max(right.levels));
        let (left, right) = both(
            boxed(alloc, left.into_inner()),
            boxed(alloc, right.into_inner()),
        )?;
        Ok(Measured {
            expr: Expr::Binary { op, left, right },
            levels,
        })
    }

    pub fn in_list(
        alloc: Global,
        negated: bool,
        left: Measured,
        list: MeasuredList,
    ) -> Result<Measured, NoMemory>
        ensures { IfOk result (λ x. x ≡ e.InList negated left list) }
    {
        let levels = above(left.levels.max(list.levels));
        Ok(Measured {
            expr: Expr::InList {
                negated,
                left: Boxed::new(alloc, left.into_inner())?,
                list: list.into_inner(),
            },
            levels,
        })
    }

    pub fn between(
        alloc: Global,
        negated: bool,
        left: Measured,
        low: Measured,
        high: Measured,
    ) -> Result<Measured, NoMemory>
        ensures { IfOk result (λ x. x ≡ e.Between negated left low high) }
    {
        let levels = above(left.levels.max(low.levels.max(high.levels)));
        let halves = both(
            boxed(alloc, left.into_inner()),
            boxed(alloc, low.into_inner()),
        );
        let ((left, low), high) = both(halves, boxed(alloc, high.into_inner()))?;
        Ok(Measured {
            expr: Expr::Between {
                negated,
                left,
                low,
                high,
            },
            levels,
        })
    }

    pub fn levels(&self) -> u8
        ensures { result ≡ min 101 (d.depth self.now) }
    {
        self.levels
    }

    pub fn into_inner(self) -> Expr
        ensures { result ≡ self }
    {
        let Measured { expr, levels: _ } = self;
        expr
    }
}

impl MeasuredList {
    pub fn new(alloc: Global) -> MeasuredList
        ensures { result ≡ [] }
    {
        MeasuredList {
            items: Items::new(alloc),
            levels: 0,
        }
    }

    #[tactic(auto, using(crate::proofs::Depths::depths_more))]
    pub fn push(&mut self, expr: Measured) -> Result<(), NoMemory>
        ensures { OnOk result (self.new ≡ self.old ++ expr ∷ []) }
    {
        let levels = expr.levels;
        self.items.push(expr.into_inner())?;
        self.levels = self.levels.max(levels);
        Ok(())
    }

    pub fn levels(&self) -> u8
        ensures { result ≡ min 101 (d.depths self.now) }
    {
        self.levels
    }

    pub fn into_inner(self) -> Items<Expr>
        ensures { result ≡ self }
    {
        let MeasuredList { items, levels: _ } = self;
        items
    }
}

impl MeasuredRows {
    pub fn new(alloc: Global) -> MeasuredRows
        ensures { result ≡ [] }
    {
        MeasuredRows {
            rows: Items::new(alloc),
            levels: 0,
        }
    }

    #[tactic(auto, using(crate::proofs::Depths::rows_more))]
    pub fn push(&mut self, row: MeasuredList) -> Result<(), NoMemory>
        ensures { OnOk result (self.new ≡ self.old ++ row ∷ []) }
    {
        let levels = row.levels;
        self.rows.push(row.into_inner())?;
        self.levels = self.levels.max(levels);
        Ok(())
    }

    pub fn levels(&self) -> u8
        ensures { result ≡ min 101 (d.rows_depth self.now) }
    {
        self.levels
    }

    pub fn into_inner(self) -> Items<Items<Expr>>
        ensures { result ≡ self }
    {
        let MeasuredRows { rows, levels: _ } = self;
        rows
    }
}

impl MeasuredSets {
    pub fn new(alloc: Global) -> MeasuredSets
        ensures { result ≡ [] }
    {
        MeasuredSets {
            sets: Items::new(alloc),
            levels: 0,
        }
    }

    #[tactic(auto, using(crate::proofs::Depths::sets_more))]
    pub fn push(&mut self, name: Text, expr: Measured) -> Result<(), NoMemory>
        ensures { OnOk result (self.new ≡ self.old ++ (name, expr) ∷ []) }
    {
        let levels = expr.levels;
        self.sets.push((name, expr.into_inner()))?;
        self.levels = self.levels.max(levels);
        Ok(())
    }

    pub fn levels(&self) -> u8
        ensures { result ≡ min 101 (d.sets_depth self.now) }
    {
        self.levels
    }

    pub fn into_inner(self) -> Items<(Text, Expr)>
        ensures { result ≡ self }
    {
        let MeasuredSets { sets, levels: _ } = self;
        sets
    }
}
