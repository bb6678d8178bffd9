//! LIKE.

ghost use Rattle.std.specs.Prelude.{◌≡◌, ◌≤◌, ◌+◌, drop, length};
ghost use Rattle.rq_texts.specs.Like as spec;

/// How far a pattern came without its first `%`.
#[derive(Clone, Copy)]
enum Run {
    /// It came to its end, or a character isn't stood for.
    Done(bool),
    /// So many characters were stood for, and then comes `%`.
    Percent(usize),
}

fn stands_for(p: char, c: char) -> bool
    ensures { result ≡ spec.stands_for p c }
{
    p == '_' || p.to_ascii_lowercase() == c.to_ascii_lowercase()
}

/// Holds the text against the pattern up to its first `%`.
fn held(pattern: &[char], text: &[char]) -> Run
    ensures { spec.Ran pattern.now text.now result }
{
    for i in 0..pattern.len() {
        let p = pattern[i];
        if p == '%' {
            return Run::Percent(i);
        }
        if i >= text.len() || !stands_for(p, text[i]) {
            return Run::Done(false);
        }
    }
    Run::Done(pattern.len() == text.len())
}

/// What follows the first run in the text that is like the pattern up to its `%`.
#[derive(Clone, Copy)]
enum Found {
    Done(bool),
    Rest { pattern: usize, text: usize },
}

/// Looks for the first rest of the text that is like the pattern up to its first `%`.
fn find(pattern: &[char], text: &[char]) -> Found
    ensures { spec.Finds pattern.now text.now result }
{
    for start in 0..text.len() {
        match held(pattern, &text[start..]) {
            Run::Done(true) => return Found::Done(true),
            Run::Done(false) => {}
            Run::Percent(n) => {
                return Found::Rest {
                    pattern: n + 1,
                    text: start + n,
                };
            }
        }
    }
    match held(pattern, &text[text.len()..]) {
        Run::Done(is) => Found::Done(is),
        Run::Percent(n) => Found::Rest {
            pattern: n + 1,
            text: text.len() + n,
        },
    }
}

/// Whether the text is like the pattern.
pub fn is_like(pattern: &[char], text: &[char]) -> bool
    ensures { result ≡ spec.like pattern.now text.now }
{
    let n = match held(pattern, text) {
        Run::Done(is) => return is,
        Run::Percent(n) => n,
    };
    let mut p = n + 1;
    let mut t = n;
    for _turn in 0..pattern.len() {
        match find(&pattern[p..], &text[t..]) {
            Found::Done(is) => return is,
            Found::Rest {
                pattern: m,
                text: k,
            } => {
                p += m;
                t += k;
            }
        }
    }
    false
}
