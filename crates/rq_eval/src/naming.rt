//! What a name names.

ghost use Rattle.std.specs.Prelude.{◌≡◌};
ghost use Rattle.rq_eval.specs.Names as spec;

use crate::row::Scope;
use rq_values::Text;

fn is_same_name(a: &[u8], b: &[u8]) -> bool
    ensures { result ≡ spec.is_same_name a.now b.now }
{
    a.eq_ignore_ascii_case(b)
}

fn find_in(columns: &[Text], name: &Text) -> Option<usize>
    ensures { result ≡ spec.place_from 0 columns.now name.now }
{
    for i in 0..columns.len() {
        if is_same_name(columns[i].bytes(), name.bytes()) {
            return Some(i);
        }
    }
    if is_same_name(b"rowid", name.bytes()) {
        Some(columns.len())
    } else {
        None
    }
}

/// The place of the column that the name names; that of the rowid is the number of columns.
pub fn find_column(scope: &Scope, name: &Text) -> Option<usize>
    ensures { result ≡ spec.place scope.now name.now }
{
    match scope {
        Scope::Empty => None,
        Scope::Table { name: _, columns } => find_in(columns.as_slice(), name),
    }
}

/// The place of the column that the name behind a table's name names.
pub fn find_qualified_column(scope: &Scope, table: &Text, name: &Text) -> Option<usize>
    ensures { result ≡ spec.qualified_place scope.now table.now name.now }
{
    match scope {
        Scope::Empty => None,
        Scope::Table {
            name: scope_name,
            columns,
        } => {
            if is_same_name(scope_name.bytes(), table.bytes()) {
                find_in(columns.as_slice(), name)
            } else {
                None
            }
        }
    }
}
