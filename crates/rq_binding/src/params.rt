//! What is given for parameters, and why a statement isn't bound.
ghost use Rattle.std.specs.Prelude.{◌≡◌};
ghost use Rattle.rq_binding.specs.declared.params.BindError.TheVariants as errors;
ghost use Rattle.rq_binding.specs.Bound as spec;

use rq_request::Params;
use rq_values::{NoMemory, Text, Value};

/// The values of a list.
pub fn list_of(params: &Params) -> &[Value]
    ensures { result.now ≡ spec.list_of params.now }
{
    match params {
        Params::List(list) => list.as_slice(),
        Params::None | Params::Named(_) => &[],
    }
}

/// The names with their values.
pub fn named_of(params: &Params) -> &[(Text, Value)]
    ensures { result.now ≡ spec.named_of params.now }
{
    match params {
        Params::Named(named) => named.as_slice(),
        Params::None | Params::List(_) => &[],
    }
}

/// Why a statement isn't bound.
pub enum BindError {
    /// The number of `?` isn't that of the values in the list, 0 without a list.
    Count { needed: u64, given: u64 },
    /// The first name in the statement that has no value.
    Missing(Text),
    NoMemory,
}

impl Drop for BindError {
    fn drop(self) {
        match self {
            BindError::Count {
                needed: _,
                given: _,
            } => (),
            BindError::Missing(name) => drop(name),
            BindError::NoMemory => (),
        }
    }
}

impl From<NoMemory> for BindError {
    ghost from_gives = { λ _ e. e ≡ errors.NoMemory };

    fn from(_e: NoMemory) -> BindError {
        BindError::NoMemory
    }
}
