//! Which hub it is.
use std::marker::Brand;

/// Which hub it is: the book of its history, and its node as it was opened. Each call of a program picks them.
pub trait Naming {
    ghost use Rattle.logbook.specs.Pages.{Book};
    ghost use Rattle.rq_node.specs.Node.{Node};

    ghost book: { Book };

    ghost start: { Node };
}

impl Naming for Brand {
    ghost use Rattle.std.specs.Prelude.{[]};
    ghost use Rattle.rq_node.specs.Files.{first_persistent};
    ghost use Rattle.rq_node.specs.Rules.{started};

    ghost book = { record { number = 0; log_name = 0; cells_name = 0 } };

    ghost start = { (started [] first_persistent).node };
}
