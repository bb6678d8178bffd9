//! Settled statements.
ghost use Rattle.std.specs.Prelude.{◌≡◌, ◌≤◌, true, IfOk, IfErr};
ghost use Rattle.rq_grammar.specs.Depth.{deepest, the_limits};
ghost use Rattle.rq_grammar.specs.Proper.{is_statement};
ghost use Rattle.rq_print.specs.Text.{text_of};
ghost use Rattle.rq_statement.specs.Settled as spec;
ghost use Rattle.rq_statement.specs.Unsettled.{IsUnsettled};

use crate::fixed::is_fixed_statement;
use rq_grammar::Stmt;
use rq_print::{each_statement_is_written, printed};
use rq_values::{NoMemory, TryCopy};
use std::alloc::Global;
use std::marker::Model;

/// How many bytes a canonical text may have, as many as a text that is read.
const MOST_BYTES: usize = 4_194_304;

/// A proper statement within the limits, without parameters, random nodes and time nodes, and its canonical text: what
/// enters the log. A contract sees the statement.
pub struct Settled {
    stmt: Stmt,
    text: Vec<u8>,
}

impl Model for Settled {
    ghost use Rattle.std.specs.Prelude.{◌≡◌};
    ghost use Rattle.std.specs.Coded.{codes};
    ghost use Rattle.rq_grammar.specs.declared.stmt.Stmt.{Stmt};
    ghost use Rattle.rq_grammar.specs.contracts.stmt.Stmt as c;
    ghost use Rattle.rq_print.specs.Text.{text_of};
    ghost use Rattle.rq_statement.specs.Settled.{IsSettled};

    ghost Value = { Stmt };

    ghost coded = { Prim.hlevel (codes, c.the_row.coded) };

    ghost view = { λ s. s.stmt };

    ghost invariant = { λ s. IsSettled s.stmt × (s.text.items ≡ text_of s.stmt) };
}

impl Drop for Settled {
    fn drop(self) {
        let Settled { stmt, text } = self;
        drop(stmt);
        drop(text);
    }
}

/// Why a statement can't be settled.
#[derive(Clone, Copy)]
pub enum Unsettled {
    /// It has a parameter, a random node or a time node.
    NotFixed,
    /// Its canonical text has so many bytes, more than one may have.
    TooLarge(usize),
    NoMemory,
}

impl Settled {
    /// The statement with its canonical text, where it has no parameter, no random node and no time node, and that text isn't
    /// too long.
    pub fn new(alloc: Global, stmt: Stmt) -> Result<Settled, Unsettled>
        requires proper { is_statement stmt ≡ true }
        requires shallow { deepest stmt ≤ the_limits.depth }
        ensures settled { IfOk result (λ settled. (settled ≡ stmt) × spec.IsSettled stmt) }
        ensures refused { IfErr result (IsUnsettled stmt) }
    {
        if !is_fixed_statement(&stmt) {
            drop(stmt);
            return Err(Unsettled::NotFixed);
        }
        each_statement_is_written(&stmt);
        match printed(alloc, &stmt) {
            Ok(text) => with_text(stmt, text),
            Err(_) => {
                drop(stmt);
                Err(Unsettled::NoMemory)
            }
        }
    }

    pub fn stmt(&self) -> &Stmt
        ensures stmt { result.now ≡ self.now }
        ensures settled { spec.IsSettled self.now }
    {
        &self.stmt
    }

    /// The text that enters the log.
    pub fn text(&self) -> &[u8]
        ensures { result.now ≡ text_of self.now }
    {
        self.text.as_slice()
    }
}

impl TryCopy for Settled {
    fn copy(&self, alloc: Global) -> Result<Settled, NoMemory> {
        let text = Vec::from_slice(alloc, self.text.as_slice())?;
        match self.stmt.copy(alloc) {
            Ok(stmt) => Ok(Settled { stmt, text }),
            Err(error) => {
                drop(text);
                Err(error)
            }
        }
    }
}

/// The statement with its text, where that isn't too long.
fn with_text(stmt: Stmt, text: Vec<u8>) -> Result<Settled, Unsettled>
    requires fixed { spec.IsFixed stmt }
    requires text { text.items ≡ text_of stmt }
    ensures settled { IfOk result (λ settled. (settled ≡ stmt) × spec.IsSettled stmt) }
    ensures refused { IfErr result (IsUnsettled stmt) }
{
    let len = text.len();
    if len <= MOST_BYTES {
        Ok(Settled { stmt, text })
    } else {
        drop(text);
        drop(stmt);
        Err(Unsettled::TooLarge(len))
    }
}
