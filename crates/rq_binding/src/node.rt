//! The nodes that become literals.

use rq_values::Text;

/// Which nodes a walk looks at.
#[derive(Clone, Copy)]
pub enum Sort {
    /// Parameters.
    Parameters,
    /// Random nodes and time nodes.
    Drawn,
}

/// What a time node shows of the moment.
#[derive(Clone, Copy)]
pub enum Part {
    Timestamp,
    Date,
    Time,
}

/// A random node or a time node.
#[derive(Clone, Copy)]
pub enum Drawn {
    /// `RANDOM()`
    Random,
    /// `RANDOMBLOB(n)`, None where n is no integer literal.
    Blob(Option<i64>),
    Moment(Part),
}

/// A node that becomes a literal.
pub enum Node {
    /// `?`, or a named parameter.
    Parameter(Option<Text>),
    Drawn(Drawn),
}

impl Drop for Node {
    fn drop(self) {
        match self {
            Node::Parameter(name) => drop(name),
            Node::Drawn(_) => (),
        }
    }
}
