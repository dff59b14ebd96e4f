use super::*;
use std::test::Fail;

/// The command that these words spell, which stand with one space between two.
fn command(rt: &HostRuntime, line: &str) -> Result<Option<Command>, Fail> {
    let mut words = Vec::new(rt.alloc());
    for word in line.split(' ') {
        words.push(String::from_str(rt.alloc(), word)?)?;
    }
    Ok(read_words(words.as_slice()))
}

const DEFAULTS: Setup = Setup {
    merge: Merge::Add,
    extents: 8192,
    sets: 64,
};

#[test]
fn options_stand_in_any_order(rt: HostRuntime) -> Result<(), Fail> {
    let small = Setup {
        merge: Merge::Own,
        extents: 5,
        sets: 1,
    };
    for (line, expected) in [
        ("run", Command::Run(DEFAULTS)),
        ("run --extents 5 --sets=1 --merge own", Command::Run(small)),
        (
            "run --merge=own --sets 0001 --extents=5",
            Command::Run(small),
        ),
        (
            "load --lines 5",
            Command::Load {
                setup: DEFAULTS,
                seed: 1,
                lines: 5,
            },
        ),
        (
            "load --extents=5 --seed 18446744073709551615 --sets=1 --merge=own",
            Command::Load {
                setup: small,
                seed: u64::MAX,
                lines: 1000,
            },
        ),
    ] {
        assert_eq!(rt; command(&rt, line)?, Some(expected), "{line}");
    }
    Ok(())
}

#[test]
fn other_words_are_refused(rt: HostRuntime) -> Result<(), Fail> {
    assert_eq!(rt; read_words(&[]), None);
    for line in [
        "",
        "ran",
        "run run",
        "run ",
        "run --",
        "--help",
        "run --help",
        "run --sets",
        "run --sets=",
        "run --sets ",
        "run --sets=0",
        "run --sets=4097",
        "run --extents=65537",
        "run --extents=+1",
        "run --extents 0x1",
        "run --extents=000000000000000000001",
        "run --extents=1 --extents=1",
        "run --extent=1",
        "run --extents==1",
        "run --EXTENTS=1",
        "run --merge=ad",
        "run --merge=Add",
        "run --lines=5",
        "run --seed=5",
        "run --callers=1",
        "load --lines=0",
        "load --lines=500001",
        "load --seed=18446744073709551616",
        "load --seed=1 --seed 1",
    ] {
        assert_eq!(rt; command(&rt, line)?, None, "{line}");
    }
    Ok(())
}
