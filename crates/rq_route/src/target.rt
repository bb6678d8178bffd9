// A target's path and query.
ghost use Rattle.std.specs.Prelude.{◌≡◌};
ghost use Rattle.rq_route.specs.Target.{is_absolute, behind_authority, origin_form, path_part, query_part};

use http1::text::eq_ignore_case;

/// How an absolute target begins.
const SCHEME: &[u8] = b"http://";

fn is_absolute(target: &[u8]) -> bool
    ensures { result ≡ is_absolute target.now }
{
    target.len() >= 7 && eq_ignore_case(&target[..7], SCHEME)
}

/// What stands from the first slash or question mark on.
fn behind_authority(bytes: &[u8]) -> &[u8]
    ensures { result.now ≡ behind_authority bytes.now }
{
    for at in 0..bytes.len() {
        if bytes[at] == b'/' || bytes[at] == b'?' {
            return &bytes[at..];
        }
    }
    &[]
}

/// The target without its scheme and authority, where it has them.
fn origin_form(target: &[u8]) -> &[u8]
    ensures { result.now ≡ origin_form target.now }
{
    if is_absolute(target) {
        behind_authority(&target[7..])
    } else {
        target
    }
}

/// What stands up to the first question mark, and what stands behind it.
fn split(target: &[u8]) -> (&[u8], &[u8])
    ensures path { result.0.now ≡ path_part target.now }
    ensures query { result.1.now ≡ query_part target.now }
{
    for at in 0..target.len() {
        if target[at] == b'?' {
            return (&target[..at], &target[at + 1..]);
        }
    }
    (target, &[])
}

/// A target's path and query, without scheme and authority.
pub fn parts(target: &[u8]) -> (&[u8], &[u8])
    ensures path { result.0.now ≡ path_part (origin_form target.now) }
    ensures query { result.1.now ≡ query_part (origin_form target.now) }
{
    split(origin_form(target))
}
