//! A statement as a request has it.
use rq_values::{Seq, Text, Value};

/// What is given for the parameters of a statement.
pub enum Params {
    None,
    /// For each `?`, in order.
    List(Seq<Value>),
    /// For each name, without the mark before it.
    Named(Seq<(Text, Value)>),
}

impl Drop for Params {
    fn drop(self) {
        match self {
            Params::None => (),
            Params::List(values) => drop(values),
            Params::Named(values) => drop(values),
        }
    }
}

/// A statement's text, and what is given for its parameters.
pub struct Statement {
    pub text: Text,
    pub params: Params,
}

impl Drop for Statement {
    fn drop(self) {
        let Statement { text, params } = self;
        drop(text);
        drop(params);
    }
}
