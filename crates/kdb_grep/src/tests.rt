use super::*;
use std::test::Fail;

#[test]
fn keeps_matching_lines_as_they_are(rt: HostRuntime) -> Result<(), Fail> {
    // Each text and pattern, and what is left.
    let table: [(&[u8], &[u8], &[u8]); 9] = [
        (b"", b"a", b""),
        (b"ab\nb\nca", b"a", b"ab\nca"),
        (b"ab\nb", b"a", b"ab\n"),
        (b"ab\nba\n", b"^a", b"ab\n"),
        (b"ab\nba\n", b"a$", b"ba\n"),
        (b"a\naa\n", b"^a$", b"a\n"),
        (b"a\n\nb\n\n", b"^$", b"\n\n"),
        (b"a\n\nb\n", b"^", b"a\n\nb\n"),
        (b"^^\na^\n", b"^^^", b"^^\n"),
    ];
    for (text, pattern, want) in table {
        assert_eq!(rt; filter(rt.alloc(), text, pattern)?.as_slice(), want);
    }
    assert!(rt; keep(b"a$b", b"$b") && !keep(b"ab", b"a^"));
    Ok(())
}
