ghost use Rattle.std.specs.Option.{MatchOption};
ghost use Rattle.text.specs.Fields.{Cut, Lacks};

/// The bytes before the first `mark`, and those after it.
pub fn cut(bytes: &[u8], mark: u8) -> Option<(&[u8], &[u8])>
    ensures { MatchOption result (Lacks mark bytes.now) (λ p. Cut mark bytes.now p.0.now p.1.now) }
{
    let at = bytes.iter().position(|b| *b == mark)?;
    Some((&bytes[..at], &bytes[at + 1..]))
}
