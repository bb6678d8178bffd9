//! What is still open.

ghost use Rattle.std.specs.Prelude.{ℕ, ◌≡◌, [], ◌∷◌, false, min, IfOk, OnOk};
ghost use Rattle.rq_automaton.specs.declared.frame.Frame.TheVariants as f;
ghost use Rattle.rq_automaton.specs.Stack.{order, room, closes, pop_of};
ghost use Rattle.rq_automaton.specs.Popping.{PopsClosing, IsBehindPlus, is_low, PopsLow};
ghost use Rattle.rq_automaton.specs.Weight.{least};
ghost use Rattle.rq_automaton.specs.Load.{clause_least, is_clause, needs, adds, height, floor};
ghost use Rattle.rq_automaton.specs.Machine.{Start};

use crate::measured::{Measured, MeasuredList, MeasuredRows, MeasuredSets, above};
use crate::place::{MeasuredQuery, Place, Target};
use rq_grammar::BinaryOp;
use rq_values::{NoMemory, Text};
use sqlite_items::Boxed;
use std::alloc::Global;
use std::marker::Model;

/// The clause in which an expression stands.
#[derive(Drop)]
pub enum Clause {
    /// `INSERT INTO target VALUES rows, ( row ,`
    Row {
        target: Target,
        rows: MeasuredRows,
        row: MeasuredList,
    },
    /// `SELECT results ,`
    Results(MeasuredQuery),
    /// `.. WHERE`
    Filter(MeasuredQuery),
    /// `.. ORDER BY terms ,`
    Order(MeasuredQuery),
    /// `.. LIMIT`
    Limit(MeasuredQuery),
    /// `.. LIMIT expr OFFSET`
    Offset(MeasuredQuery),
    /// `UPDATE table SET sets , name =`
    Set {
        table: Text,
        sets: MeasuredSets,
        name: Text,
    },
    /// `UPDATE table SET sets WHERE`
    UpdateFilter {
        table: Text,
        sets: MeasuredSets,
    },
    /// `DELETE FROM table WHERE`
    DeleteFilter(Text),
}

/// What waits for an operand.
#[derive(Drop)]
pub enum Frame {
    Binary {
        op: BinaryOp,
        left: Measured,
    },
    Not,
    /// One prefix `+` or more.
    Plus,
    Minus,
    /// `left BETWEEN`
    Low {
        negated: bool,
        left: Measured,
    },
    /// `left BETWEEN low AND`
    High {
        negated: bool,
        left: Measured,
        low: Measured,
    },
    Paren,
    /// `name ( args ,`
    Args {
        name: Text,
        args: MeasuredList,
    },
    /// `left IN ( list ,`
    Among {
        negated: bool,
        left: Measured,
        list: MeasuredList,
    },
    /// The clause, always outermost.
    Clause(Boxed<Clause>),
}

impl Frame {
    /// The least level of an operand that the frame takes.
    pub fn order(&self) -> u8
        ensures { result ≡ order self.now }
    {
        match self {
            Frame::Binary { op, .. } => op.level() + 1,
            Frame::Not => 3,
            Frame::Plus | Frame::Minus => 9,
            Frame::Low { .. } | Frame::High { .. } => 5,
            _ => 0,
        }
    }

    /// Whether the frame waits for the low end of a BETWEEN.
    fn is_low(&self) -> bool
        ensures { result ≡ is_low self.now }
    {
        match self {
            Frame::Low { .. } => true,
            _ => false,
        }
    }

    /// The depth that the frame needs, whatever its operand is.
    fn needs(&self) -> u8
        ensures { result ≡ min 101 (needs self.now) }
    {
        match self {
            Frame::Binary { left, .. } => above(left.levels()),
            Frame::Low { left, .. } => above(left.levels().max(1)),
            Frame::High { left, low, .. } => above(left.levels().max(low.levels())),
            Frame::Args { args, .. } => above(args.levels().max(1)),
            Frame::Among { left, list, .. } => above(left.levels().max(list.levels())),
            _ => 0,
        }
    }

    /// The levels that the frame adds to its operand.
    fn adds(&self) -> u8
        ensures { result ≡ adds self.now }
    {
        match self {
            Frame::Plus | Frame::Paren | Frame::Clause(_) => 0,
            _ => 1,
        }
    }

    /// Whether the frame's expression ends before an operator of level `k`.
    pub fn closes(&self, k: u8) -> bool
        ensures { result ≡ closes k self.now }
    {
        match self {
            Frame::Binary { op, .. } => k <= op.level(),
            Frame::Not => k <= 3,
            Frame::Plus | Frame::Minus => true,
            Frame::High { .. } => k <= 4,
            _ => false,
        }
    }
}

/// A frame, what the stack up to it needs of a statement's depth, and the levels above its operand.
struct Held {
    frame: Frame,
    floor: u8,
    height: u8,
}

impl Drop for Held {
    fn drop(self) {
        let Held {
            frame,
            floor: _,
            height: _,
        } = self;
        drop(frame);
    }
}

impl Held {
    fn into_frame(self) -> Frame
        ensures { result ≡ self.frame }
    {
        let Held {
            frame,
            floor: _,
            height: _,
        } = self;
        frame
    }
}

/// What is open, the innermost first.
pub struct Stack {
    held: Vec<Held>,
}

impl Drop for Stack {
    fn drop(self) {
        let Stack { held } = self;
        drop(held);
    }
}

impl Model for Stack {
    ghost use Rattle.std.specs.Prelude.{List, reverse};
    ghost use Rattle.rq_automaton.specs.declared.frame.Frame.{Frame};
    ghost use Rattle.rq_automaton.specs.Load.{frames, Loaded};
    ghost use Rattle.rq_grammar.specs.contracts.expr.Expr as e;
    ghost use Rattle.std.specs.Coded.{codes};

    ghost Value = { List Frame };

    ghost coded = { Prim.hlevel (codes, e.the_row.coded) };

    ghost view = { λ s. frames (reverse s.held.items) };

    ghost invariant = { λ s. Loaded (reverse s.held.items) };
}

impl Stack {
    pub fn new(alloc: Global) -> Stack
        ensures { result ≡ [] }
    {
        Stack {
            held: Vec::new(alloc),
        }
    }

    /// The stack that has the clause alone, whose parts are as deep as `floor` says.
    pub fn of_clause(alloc: Global, clause: Clause, floor: u8) -> Result<Stack, NoMemory>
        requires { floor ≡ min 101 (clause_least clause 0) }
        ensures { IfOk result (λ st. st ≡ f.Clause clause ∷ []) }
    {
        let frame = Frame::Clause(Boxed::new(alloc, clause)?);
        let mut held = Vec::new(alloc);
        match held.push(Held {
            frame,
            floor,
            height: 0,
        }) {
            Ok(()) => Ok(Stack { held }),
            Err(failed) => {
                drop(failed);
                drop(held);
                Err(NoMemory)
            }
        }
    }

    /// Puts a frame on that is no clause.
    pub fn push(&mut self, frame: Frame) -> Result<(), NoMemory>
        requires { is_clause frame ≡ false }
        ensures { OnOk result (self.new ≡ frame ∷ self.old) }
    {
        let (floor, height) = self.load();
        let floor = frame.needs().saturating_add(height).min(101).max(floor);
        let height = frame.adds().saturating_add(height).min(101);
        self.held.push(Held {
            frame,
            floor,
            height,
        })?;
        Ok(())
    }

    pub fn pop(&mut self) -> Option<Frame>
        ensures { pop_of self.old ≡ (result, self.new) }
    {
        match self.held.pop() {
            None => None,
            Some(held) => Some(held.into_frame()),
        }
    }

    /// The least level of an operand that the innermost frame takes.
    pub fn room(&self) -> u8
        ensures { result ≡ room self.now }
    {
        match self.held.last() {
            None => 0,
            Some(held) => held.frame.order(),
        }
    }

    /// Takes the innermost frame off, if its expression ends before an operator of level `k`.
    pub fn pop_closing(&mut self, k: u8) -> Option<Frame>
        ensures { PopsClosing k self.old result self.new }
    {
        let closes = match self.held.last() {
            None => false,
            Some(held) => held.frame.closes(k),
        };
        if closes { self.pop() } else { None }
    }

    /// Whether the innermost frame is a prefix `+`.
    pub fn is_behind_plus(&self) -> bool
        ensures { IsBehindPlus self.now result }
    {
        match self.held.last() {
            None => false,
            Some(held) => matches!(held.frame, Frame::Plus),
        }
    }

    /// Takes the innermost frame off, if it waits for the low end of a BETWEEN: whether NOT stood before it, and what is between.
    #[tactic(auto, using(crate::proofs::Popped::no_low, crate::proofs::Popped::no_frame))]
    pub fn pop_low(&mut self) -> Option<(bool, Measured)>
        ensures { PopsLow self.old result self.new }
    {
        let is_low = match self.held.last() {
            None => false,
            Some(held) => held.frame.is_low(),
        };
        if !is_low {
            return None;
        }
        match self.pop() {
            Some(Frame::Low { negated, left }) => Some((negated, left)),
            other => {
                drop(other);
                None
            }
        }
    }

    /// The least depth of a statement in which an operand of this depth stands on the stack. Depths count up to 101.
    #[tactic(auto, using(crate::proofs::Room::least_is))]
    pub fn least(&self, depth: u8) -> u8
        ensures { (d : ℕ) → depth ≡ min 101 d → result ≡ min 101 (least self.now d) }
    {
        let (floor, height) = self.load();
        depth.saturating_add(height).min(101).max(floor)
    }

    /// What the stack needs of a statement's depth, and the levels above its operand.
    fn load(&self) -> (u8, u8)
        ensures floor { result.0 ≡ min 101 (floor self.now) }
        ensures height { result.1 ≡ min 101 (height self.now) }
    {
        match self.held.last() {
            None => (0, 0),
            Some(held) => (held.floor, held.height),
        }
    }
}

/// Where the machine stands.
#[derive(Drop)]
pub enum State {
    /// Between expressions.
    Flat(Boxed<Place>),
    /// An operand is to come.
    Operand(Stack),
    /// An operand is to come, directly behind a prefix `-`.
    Signed(Stack),
    /// A quoted name is read in an operand's place.
    Quoted(Stack, Text),
    /// A bare name is read in an operand's place, and whether it is COUNT.
    Named(Stack, bool, Text),
    /// `name .`
    Dotted(Stack, Text),
    /// `name (`, and whether the name is COUNT.
    Opened(Stack, bool, Text),
    /// `COUNT ( *`
    Counted(Stack),
    /// An operand of this level is read.
    Done(Stack, u8, Measured),
    /// `operand NOT`
    Denied(Stack, Measured),
    /// `operand IS`
    Is(Stack, Measured),
    /// `operand IN`, `operand NOT IN`
    In(Stack, bool, Measured),
    /// `operand IN (`
    Listed(Stack, bool, Measured),
}

impl State {
    /// Before the first token.
    pub fn start(alloc: Global) -> Result<State, NoMemory>
        ensures { IfOk result (λ q. q ≡ Start) }
    {
        Ok(State::Flat(Boxed::new(alloc, Place::Start)?))
    }
}
