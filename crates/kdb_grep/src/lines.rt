ghost use Rattle.std.specs.Prelude.{◌≡◌, ◌≤◌, ◌<◌, ◌++◌, IfOk, length, take, drop};
ghost use Rattle.kdb_grep.specs.Filter.{filtered, pattern_of};
ghost use Rattle.kdb_grep.specs.Ends.{EndsLine};

use crate::keep;
use mach_base::OutOfMemory;
use memchr::memchr;
use std::alloc::Global;

/// The lines of a text that match the pattern, in their order and as they are. A last line that lacks its LF gets
/// none.
pub fn filter(alloc: Global, text: &[u8], pattern: &[u8]) -> Result<Vec<u8>, OutOfMemory>
    ensures { IfOk result (λ out. out.items ≡ filtered (pattern_of pattern.now) text.now) }
{
    let mut out = Vec::new(alloc);
    let mut rest = text;
    while !rest.is_empty() {
        let (kept, end) = first_kept(rest, pattern);
        let (front, _) = rest.split_at(kept);
        out.extend_from_slice(front)?;
        let (_, behind) = rest.split_at(end);
        rest = behind;
    }
    Ok(out)
}

/// How much of the first line is kept, all or nothing, and where it ends.
fn first_kept(text: &[u8], pattern: &[u8]) -> (usize, usize)
    requires { 0 < length text.now }
    ensures kept { let p = pattern_of pattern.now in filtered p text.now ≡ take result.0 text.now ++ filtered p (drop result.1 text.now) }
    ensures front { result.0 ≤ result.1 }
    ensures moves { 0 < result.1 }
    ensures within { result.1 ≤ length text.now }
{
    let (line, end) = first_line(text);
    let (front, _) = text.split_at(line);
    if keep(front, pattern) {
        (end, end)
    } else {
        (0, end)
    }
}

/// The lengths of the first line, without and with its LF.
fn first_line(text: &[u8]) -> (usize, usize)
    requires { 0 < length text.now }
    ensures end { EndsLine text.now result.0 result.1 }
    ensures front { result.0 ≤ result.1 }
    ensures moves { 0 < result.1 }
    ensures within { result.1 ≤ length text.now }
{
    match memchr(b'\n', text) {
        Some(at) => (at, at + 1),
        None => (text.len(), text.len()),
    }
}
