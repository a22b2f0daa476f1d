use super::*;
use mach_base::Text;
use std::test::Fail;

#[test]
fn commands_are_spelled(rt: HostRuntime) {
    for (word, count, want) in [
        (
            b"md".as_slice(),
            1,
            Some(Entry::Run(Command::Show(ShowCommand::Md))),
        ),
        (
            b"md4",
            2,
            Some(Entry::Run(Command::Show(ShowCommand::MdWidth))),
        ),
        (
            b"md8c12",
            1,
            Some(Entry::Run(Command::Show(ShowCommand::MdCount))),
        ),
        (b"id", 2, Some(Entry::Run(Command::Show(ShowCommand::Id)))),
        (b"md8c012", 1, None),
        (b"md3", 1, None),
        (
            b"bp",
            0,
            Some(Entry::Run(Command::Show(ShowCommand::BpList))),
        ),
        (b"bp", 1, Some(Entry::Run(Command::Bp))),
        (b"bc", 0, None),
        (b"defcmd", 3, Some(Entry::Define)),
        (b"", 0, None),
    ] {
        assert_eq!(rt; entry_of(word, count), want);
    }
    assert!(rt; is_command(b"bc"));
    assert_eq!(rt; spelled_width(b"md4"), 4);
    assert_eq!(rt; spelled_count(b"md4c256"), Some(256));
    assert_eq!(rt; spelled_count(b"md4c257"), None);
}

#[test]
fn diagnostics_are_printed(rt: HostRuntime) -> Result<(), Fail> {
    let words = [
        Text::from_vec(Vec::from_slice(rt.alloc(), b"md")?),
        Text::from_vec(Vec::from_slice(rt.alloc(), b"zork")?),
    ];
    for (diagnostic, want) in [
        (
            Diagnostic::UnknownName(1),
            b"diag: 1: unknown name zork\n".as_slice(),
        ),
        (
            Diagnostic::WrongArguments,
            b"diag: 2: wrong number of arguments\n",
        ),
        (
            Diagnostic::BadAddress(0x3000),
            b"diag: 12: bad address 0x0000000000003000\n",
        ),
        (Diagnostic::IsHalted(2), b"diag: 16: cpu 2 is halted\n"),
        (Diagnostic::NestedMacro, b"diag: 18: nested macro md\n"),
    ] {
        let text = diagnostic_text(rt.alloc(), &words, diagnostic)?;
        assert_eq!(rt; text.as_bytes(), want);
    }
    let usages = help_text(rt.alloc())?;
    assert!(rt;
        usages
            .as_bytes()
            .starts_with(b"md E [E]\nmdW E [E]\nmdWcN E\n")
    );
    Ok(())
}
