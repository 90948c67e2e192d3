// Finding a byte, and a line's first field.
ghost use Rattle.std.specs.Prelude.{◌≡◌, [], ◌∷◌, IfSome, MatchOption};
ghost use Rattle.text.specs.Fields.{Found, fields, Parted, PartsAt};

// The index of the first such byte.
pub fn find(bytes: &[u8], wanted: u8) -> Option<usize>
    ensures { Found bytes.now wanted result }
{
    bytes.iter().position(|byte| *byte == wanted)
}

// The first field of a line, which ends at the first space, and what follows the space.
pub fn split(line: &[u8]) -> Option<(&[u8], &[u8])>
    ensures is { MatchOption result (fields line.now ≡ line.now ∷ []) (λ p. Parted line.now p.0.now p.1.now) }
    ensures at { IfSome result (λ p. PartsAt line.entry p.0 p.1) }
{
    let end = find(line, b' ')?;
    Some((&line[..end], &line[end + 1..]))
}
