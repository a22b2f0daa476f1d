use super::*;
use std::alloc::{AllocError, Global};
use std::test::Fail;

fn words(alloc: Global, line: &str) -> Result<Vec<String>, AllocError> {
    let mut words = Vec::new(alloc);
    for word in line.split_whitespace() {
        words.push(String::from_str(alloc, word)?)?;
    }
    Ok(words)
}

/// Whether the words are a command.
fn is_command(alloc: Global, line: &str) -> Result<bool, AllocError> {
    let words = words(alloc, line)?;
    Ok(command_of(words.as_slice(), alloc).is_ok())
}

#[test]
fn words_are_commands_or_a_wrong_use(rt: HostRuntime) -> Result<(), Fail> {
    for (line, answer) in [
        ("", false),
        ("uni a b", true),
        ("uni a b --harts 2", false),
        ("uni a", false),
        ("help", false),
        ("replay a b c d", true),
        ("run a b c", false),
        ("run a b c d --harts 17", false),
        ("run a b c d --harts 2 --harts=2", false),
        ("lockstep --harts=+02 a b - d -- --e", true),
        ("asm a b", true),
        ("asm a", false),
        ("elf a b c", true),
        ("elf a a b", true),
        ("elf a b b", false),
        ("elf a b c d", false),
        ("load 4294967295", true),
        ("load 4294967296", false),
    ] {
        assert!(rt; is_command(rt.alloc(), line)? == answer);
    }
    Ok(())
}
