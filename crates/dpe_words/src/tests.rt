use crate::{Mode, Settings, WordFault, settings, usage_line};
use cost_model::ModelKind;
use dpe_base::{BUFFER_MAX, Kind, WORKERS_MAX};
use plan_report::Format;
use std::alloc::Global;
use std::test::Fail;

const DEFAULTS: Settings = Settings {
    mode: Mode::Plan,
    enumerator: Kind::DpCcp,
    buffer: 4096,
    workers: 4,
    model: ModelKind::Ops,
    format: Format::Text,
    stats: false,
    number: 1,
};

fn settings_of(alloc: Global, words: &[&str]) -> Result<Settings, WordFault> {
    let mut owned = Vec::new(alloc);
    for word in words {
        owned.push(String::from_str(alloc, word)?)?;
    }
    settings(alloc, owned.as_slice())
}

#[test]
fn words_that_are_no_line(rt: HostRuntime) -> Result<(), Fail> {
    let alloc = rt.alloc();
    let lines: [&[&str]; 31] = [
        &["--workers", "0"],
        &["--workers", "65"],
        &["--workers", "four"],
        &["--buffer", "0"],
        &["--buffer", "65537"],
        &["--buffer", "4096 "],
        &["--enumerator", "dphyp"],
        &["--enumerator", "DPCCP"],
        &["--stats"],
        &["--stats", "yes"],
        &["--mode", "plan", "--mode", "plan"],
        &["--mode=plan", "--mode", "plan"],
        &["--mode", "unheard"],
        &["--mode", "sample", "--format", "xml"],
        &["--mode", "--"],
        &["plan"],
        &["--", "plan"],
        &["--mod", "ops"],
        &["--model", ""],
        &["--format="],
        &["--format", "--stats", "on"],
        &["--number", "-1"],
        &["--number=-1"],
        &["--number", "-"],
        &["--number", "1.0"],
        &["--number", "18446744073709551616"],
        &["--number", "000000000000000000001"],
        &["--mode", "plan", "--number", "x"],
        &["--help"],
        &["-h"],
        &["--version"],
    ];
    for line in lines {
        assert_eq!(rt;
            settings_of(alloc, line),
            Err(WordFault::Usage),
            "at {line:?}"
        );
    }
    Ok(())
}

#[test]
fn lines_and_their_settings(rt: HostRuntime) -> Result<(), Fail> {
    let alloc = rt.alloc();
    let lines: [(&[&str], Settings); 10] = [
        (&[], DEFAULTS),
        (&["--"], DEFAULTS),
        (
            &["--model=cout"],
            Settings {
                model: ModelKind::Cout,
                ..DEFAULTS
            },
        ),
        (
            &["--buffer", "007"],
            Settings {
                buffer: 7,
                ..DEFAULTS
            },
        ),
        (
            &["--number=00000000000000000020", "--"],
            Settings {
                number: 20,
                ..DEFAULTS
            },
        ),
        (
            &["--enumerator", "dpsub", "--workers", "1", "--buffer", "1"],
            Settings {
                enumerator: Kind::DpSub,
                workers: 1,
                buffer: 1,
                ..DEFAULTS
            },
        ),
        (
            &["--mode", "sample", "--number", "7"],
            Settings {
                mode: Mode::Sample,
                number: 7,
                ..DEFAULTS
            },
        ),
        (
            &["--mode", "reopt"],
            Settings {
                mode: Mode::Reopt,
                ..DEFAULTS
            },
        ),
        (
            &["--enumerator=dpsize", "--stats", "off", "--number", "0"],
            Settings {
                enumerator: Kind::DpSize,
                number: 0,
                ..DEFAULTS
            },
        ),
        (
            &[
                "--number",
                "18446744073709551615",
                "--stats",
                "on",
                "--format",
                "json",
                "--model",
                "cout",
                "--workers",
                "64",
                "--buffer",
                "65536",
                "--enumerator",
                "dpsva",
                "--mode",
                "plan",
            ],
            Settings {
                mode: Mode::Plan,
                enumerator: Kind::DpSva,
                buffer: BUFFER_MAX,
                workers: WORKERS_MAX,
                model: ModelKind::Cout,
                format: Format::Json,
                stats: true,
                number: u64::MAX,
            },
        ),
    ];
    for (line, want) in lines {
        assert_eq!(rt; settings_of(alloc, line), Ok(want), "at {line:?}");
    }
    Ok(())
}

#[test]
fn modes_and_their_names(rt: HostRuntime) -> Result<(), Fail> {
    let alloc = rt.alloc();
    for (name, mode) in [
        ("plan", Mode::Plan),
        ("sample", Mode::Sample),
        ("migrate", Mode::Migrate),
        ("certify", Mode::Certify),
        ("check", Mode::Check),
        ("narrow", Mode::Narrow),
        ("zigzag", Mode::Zigzag),
        ("leftdeep", Mode::Leftdeep),
        ("reopt", Mode::Reopt),
    ] {
        let want = Settings { mode, ..DEFAULTS };
        assert_eq!(rt; settings_of(alloc, &["--mode", name]), Ok(want), "{name}");
    }
    Ok(())
}

#[test]
fn the_usage_line(rt: HostRuntime) {
    let want =
        "usage: dpe [--mode M] [--enumerator E] [--buffer N] [--workers N] [--model M] [--format F] [--stats S] [--number N]\n";
    assert_eq!(rt; usage_line(), want);
}

#[test]
fn faults_and_their_numbers(rt: HostRuntime) {
    assert_eq!(rt; WordFault::Usage as u8, 1);
    assert_eq!(rt; WordFault::NoMemory as u8, 2);
}
