//! Two things out of two results, and an item more in a list.
ghost use Rattle.std.specs.Prelude.{◌≡◌, ◌++◌, ◌∷◌, [], IfOk, Ok};

use rq_values::NoMemory;
use sqlite_items::Items;

/// Both, if both are there.
pub fn both<A: Drop, B: Drop>(
    one: Result<A, NoMemory>,
    two: Result<B, NoMemory>,
) -> Result<(A, B), NoMemory>
    ensures { IfOk result (λ pair. (one ≡ Ok pair.0) × (two ≡ Ok pair.1)) }
{
    match one {
        Ok(one) => match two {
            Ok(two) => Ok((one, two)),
            Err(error) => {
                drop(one);
                Err(error)
            }
        },
        Err(error) => {
            drop(two);
            Err(error)
        }
    }
}

/// The list with one more item at its end.
pub fn with_item<T: Drop>(mut list: Items<T>, item: T) -> Result<Items<T>, NoMemory>
    ensures { IfOk result (λ xs. xs ≡ list ++ item ∷ []) }
{
    match list.push(item) {
        Ok(()) => Ok(list),
        Err(_) => {
            drop(list);
            Err(NoMemory)
        }
    }
}
