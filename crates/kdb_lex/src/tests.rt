use super::*;
use mach_base::Text;
use std::test::Fail;

#[test]
fn cuts_words_and_the_filter(rt: HostRuntime) -> Result<(), Fail> {
    // Each line with its words, joined by a slash, and its pattern.
    let table: [(&[u8], &[u8], Option<&[u8]>); 8] = [
        (b"md  2000\t8 ", b"md/2000/8", None),
        (b" \t# \" |", b"", None),
        (b"a\"b c\"d e", b"ab cd/e", None),
        (b"\"\" x", b"/x", None),
        (b"a\"|\"b", b"a|b", None),
        (b"rd | grep pc", b"rd", Some(b"pc")),
        (b"rd|grep ^\"a b\"$", b"rd", Some(b"^a b$")),
        (
            b"1 2 3 4 5 6 7 8 9 0 1 2 3 4 5 6 7 8 9 0",
            b"1/2/3/4/5/6/7/8/9/0/1/2/3/4/5/6/7/8/9/0",
            None,
        ),
    ];
    for (line, words, pattern) in table {
        let lexed = lex(rt.alloc(), line)?;
        let mut joined = Vec::new(rt.alloc());
        for (i, word) in lexed.words.iter().enumerate() {
            if i > 0 {
                joined.push(b'/')?;
            }
            joined.extend_from_slice(word.as_bytes())?;
        }
        assert_eq!(rt; joined.as_slice(), words);
        assert_eq!(rt;
            lexed.grep.as_ref().map(|text: &Text| text.as_bytes()),
            pattern
        );
    }
    Ok(())
}

#[test]
fn gives_the_first_refusal(rt: HostRuntime) -> Result<(), Fail> {
    let table: [(&[u8], LexFault); 5] = [
        (b"\"2000", LexFault::Unclosed),
        (
            b"1 2 3 4 5 6 7 8 9 0 1 2 3 4 5 6 7 8 9 0 1 |",
            LexFault::TooManyWords,
        ),
        (b"md 2000 | sort", LexFault::BadPipe),
        (b"rd | grep \"\"", LexFault::BadPipe),
        (b"rd | grep a |", LexFault::BadPipe),
    ];
    for (line, fault) in table {
        assert_eq!(rt; lex(rt.alloc(), line).err(), Some(fault));
    }
    Ok(())
}
