use super::*;
use std::test::Fail;

/// A name and a value, and whether the variable is set.
type Setting = (&'static [u8], &'static [u8], Result<(), EnvFault>);

/// Each refusal, and a new variable and the three that take only some values.
static SETTINGS: [Setting; 9] = [
    (b"1a", b"1", Err(EnvFault::BadName)),
    (b"abcdefghijklmnopq", b"1", Err(EnvFault::BadName)),
    (b"RADIX", b"2", Err(EnvFault::BadRadix)),
    (b"BYTESPERWORD", b"3", Err(EnvFault::BadWidth)),
    (b"MDCOUNT", b"257", Err(EnvFault::BadCount)),
    (b"a_1", b"", Ok(())),
    (b"MDCOUNT", b"0x10", Ok(())),
    (b"BYTESPERWORD", b"4", Ok(())),
    (b"RADIX", b"10", Ok(())),
];

/// The names in their places with their values after these settings.
static PLACES: [(&[u8], &[u8]); 6] = [
    (b"PROMPT", b"[%d]kdb> "),
    (b"RADIX", b"10"),
    (b"MDCOUNT", b"0x10"),
    (b"BYTESPERWORD", b"4"),
    (b"LINES", b"24"),
    (b"a_1", b""),
];

/// How many settings answer what is wanted before the first that doesn't.
fn settings_that_hold(env: &mut Env, settings: &[Setting]) -> usize {
    for (i, setting) in settings.iter().enumerate() {
        let (name, value, want) = *setting;
        if env.set(name, value) != want {
            return i;
        }
    }
    settings.len()
}

/// Whether the variable at this place has this name and value, and is found by its name.
fn has_place(env: &Env, i: usize, name: &[u8], value: &[u8]) -> bool {
    match env.at(i) {
        Some(pair) => pair.name == name && pair.value == value && env.get(name) == Some(value),
        None => false,
    }
}

/// How many places hold before the first that doesn't.
fn places_that_hold(env: &Env, places: &[(&[u8], &[u8])]) -> usize {
    for (i, (name, value)) in places.iter().enumerate() {
        if !has_place(env, i, name, value) {
            return i;
        }
    }
    places.len()
}

/// Sets one variable for each of these letters.
fn set_letters(env: &mut Env, letters: &[u8]) -> Result<(), EnvFault> {
    for letter in letters {
        env.set(&[*letter], b"")?;
    }
    Ok(())
}

#[test]
fn sets_in_place_or_after_the_others(rt: HostRuntime) -> Result<(), Fail> {
    let mut env = Env::new(rt.alloc())?;
    assert_eq!(rt; settings_that_hold(&mut env, &SETTINGS), SETTINGS.len());
    let copy = env.try_copy(rt.alloc())?;
    assert_eq!(rt; (copy.radix(), copy.width(), copy.count()), (10, 4, 16));
    assert_eq!(rt; places_that_hold(&copy, &PLACES), PLACES.len());
    assert!(rt; copy.at(6).is_none());
    Ok(())
}

#[test]
fn starts_with_five_and_takes_31(rt: HostRuntime) -> Result<(), Fail> {
    let mut env = Env::new(rt.alloc())?;
    assert_eq!(rt; (env.radix(), env.width(), env.count()), (16, 8, 8));
    set_letters(&mut env, b"abcdefghijklmnopqrstuvwxyz")?;
    assert_eq!(rt; env.set(b"A", b""), Err(EnvFault::Full));
    Ok(())
}
