//! How many rows are enough, where LIMIT lets few through.

ghost use Rattle.std.specs.Prelude.{◌≡◌, ◌+◌, true, false, [], IfSome};
ghost use Rattle.rq_select.specs.Keys.{AllPlain, Fine};
ghost use Rattle.rq_select.specs.Planned.{passes};
ghost use Rattle.rq_select.specs.Stopping as spec;

use crate::keys::{are_plain, is_test};
use crate::planning::Plan;
use rq_eval::ResolvedExpr;

/// So many rows behind others; none where there is no such number.
fn behind(offset: u64, limit: u64) -> Option<usize>
    ensures { IfSome result (λ n. n ≡ offset + limit) }
{
    match offset.checked_add(limit) {
        Some(most) => Some(most as usize),
        None => None,
    }
}

/// Whether WHERE fails on no row.
#[tactic(auto, using(crate::proofs::FirstRows::fine_without))]
fn is_fine(filter: &Option<ResolvedExpr>) -> bool
    ensures { result ≡ true → Fine (passes filter.now) }
{
    match filter {
        None => true,
        Some(expr) => is_test(expr),
    }
}

fn is_unordered(plan: &Plan) -> bool
    ensures { result ≡ true → plan.now.terms ≡ [] }
{
    plan.terms.is_empty()
}

fn is_row_by_row(plan: &Plan) -> bool
    ensures { result ≡ true → plan.now.over_all ≡ false }
{
    !plan.over_all
}

/// Whether there is no ORDER BY and no aggregate, and WHERE and the results fail on no row.
fn is_plain(plan: &Plan) -> bool
    ensures { result ≡ true → spec.IsPlain plan.now }
{
    if is_row_by_row(plan) && is_fine(&plan.filter) && is_unordered(plan) {
        are_plain(plan.results.as_slice())
    } else {
        false
    }
}

/// How many of the rows that WHERE leaves are enough: up to the last that LIMIT lets through, where nothing can fail and nothing is ordered
/// or counted.
pub fn enough_rows(plan: &Plan) -> Option<usize>
    ensures { IfSome result (spec.IsEnough plan.now) }
{
    match plan.limit {
        Some(limit) => {
            if is_plain(plan) {
                behind(plan.offset, limit)
            } else {
                None
            }
        }
        None => None,
    }
}
