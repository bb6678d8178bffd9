// The names of a cluster line.
ghost use Rattle.std.specs.Prelude.{◌≡◌, ◌<◌, ◌+◌, ◌++◌, length, drop, [], ◌∷◌, true, false, Some, None, IfOk, MatchOption};
ghost use Rattle.rq_values.specs.Text.{is_id};
ghost use Rattle.rq_play.specs.Line.{Cluster};
ghost use Rattle.rq_lines.specs.Read.{Adds};
ghost use Rattle.rq_lines.specs.Spelled.{cluster_of};

use crate::words::first_blank;
use rq_values::{Id, NoMemory, Seq};
use std::alloc::Global;

/// Appends the name, if it is an id.
fn add_name(ids: &mut Seq<Id>, name: &[u8]) -> Result<bool, NoMemory>
    ensures { IfOk result (Adds name.now ids.old ids.new) }
{
    match Id::new(name) {
        Some(id) => {
            ids.push(id)?;
            Ok(true)
        }
        None => Ok(false),
    }
}

/// Appends the last name, if it is an id.
fn with_last(mut ids: Seq<Id>, name: &[u8]) -> Result<Option<Seq<Id>>, NoMemory>
    ensures { IfOk result (λ o. MatchOption o (is_id name.now ≡ false) (λ all. (is_id name.now ≡ true) × (all ≡ ids ++ name.now ∷ []))) }
{
    match add_name(&mut ids, name) {
        Ok(true) => Ok(Some(ids)),
        Ok(false) => {
            drop(ids);
            Ok(None)
        }
        Err(error) => {
            drop(ids);
            Err(error)
        }
    }
}

/// What stands behind this place.
fn behind(bytes: &[u8], at: usize) -> &[u8]
    requires { at < length bytes.now }
    ensures { result.now ≡ drop (at + 1) bytes.now }
{
    &bytes[at + 1..]
}

/// The ids that stand there with one blank between two, or None exactly where something else stands there.
pub fn names_of(alloc: Global, rest: &[u8]) -> Result<Option<Seq<Id>>, NoMemory>
    ensures { IfOk result (λ o. MatchOption o (cluster_of rest.now ≡ None) (λ ids. cluster_of rest.now ≡ Some (Cluster ids))) }
{
    let mut ids = Seq::new(alloc);
    let mut left = rest;
    while let Some(end) = first_blank(left) {
        match add_name(&mut ids, &left[..end]) {
            Ok(true) => {}
            Ok(false) => {
                drop(ids);
                return Ok(None);
            }
            Err(error) => {
                drop(ids);
                return Err(error);
            }
        }
        left = behind(left, end);
    }
    with_last(ids, left)
}
