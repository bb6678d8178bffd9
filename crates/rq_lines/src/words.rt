// Words, with one blank between two.
ghost use Rattle.std.specs.Prelude.{◌≡◌, ◌==◌, ◌<◌, length, position, IfSome};
ghost use Rattle.rq_lines.specs.Spelled.{is_word};

/// Where the first blank stands.
pub fn first_blank(bytes: &[u8]) -> Option<usize>
    ensures place { result ≡ position (λ byte. byte == 32) bytes.now }
    ensures within { IfSome result (λ at. at < length bytes.now) }
{
    bytes.iter().position(|byte| *byte == b' ')
}

/// Whether there is a byte.
pub fn is_word(bytes: &[u8]) -> bool
    ensures { result ≡ is_word bytes.now }
{
    match bytes {
        [] => false,
        _ => true,
    }
}
