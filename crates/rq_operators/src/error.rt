//! Why an operator gives no value.

use rq_values::NoMemory;

/// What is wrong with the values that an operator or a function is given.
#[derive(Clone, Copy)]
pub enum ValueError {
    NotInteger,
    NotText,
    NotCondition,
    NotTimeText,
    IntegerOverflow,
}

/// Why an operator gives no value.
#[derive(Clone, Copy)]
pub enum OperatorError {
    Says(ValueError),
    NoMemory,
}

impl From<NoMemory> for OperatorError {
    ghost use Rattle.std.specs.Prelude.{◌≡◌};
    ghost use Rattle.rq_operators.specs.declared.error.OperatorError.TheVariants as e;

    ghost from_gives = { λ _ x. x ≡ e.NoMemory };

    fn from(_error: NoMemory) -> OperatorError {
        OperatorError::NoMemory
    }
}
