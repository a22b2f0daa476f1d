ghost use Rattle.std.specs.Prelude.{◌≡◌};
ghost use Rattle.kdb_grep.specs.Filter.{first_is, last_is, behind_mark, before_mark};

/// Whether the pattern begins with `^`, and what is left of it.
pub fn cut_start(pattern: &[u8]) -> (bool, &[u8])
    ensures mark { result.0 ≡ first_is 94 pattern.now }
    ensures rest { result.1.now ≡ behind_mark pattern.now }
{
    match pattern {
        [b'^', rest @ ..] => (true, rest),
        _ => (false, pattern),
    }
}

/// Whether the pattern ends with `$`, and what is left of it.
pub fn cut_end(pattern: &[u8]) -> (bool, &[u8])
    ensures mark { result.0 ≡ last_is 36 pattern.now }
    ensures rest { result.1.now ≡ before_mark pattern.now }
{
    match pattern {
        [text @ .., b'$'] => (true, text),
        _ => (false, pattern),
    }
}
