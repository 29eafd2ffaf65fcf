//! Command lines that are taken, and what each chooses; what is refused, and what is printed then,
//! the gate tries with the program (.ci/load_runs).

use command_line::{Chosen, LoadSize, SoakSize, options};
use std::alloc::{AllocError, Global};

// Lines after the program's name, and the size of load that each chooses: servers, rows, pieces,
// workers, limit.
const LOADS: [(&str, [u32; 5]); 18] = [
    ("load", [4, 1_000, 6, 3, 50]),
    ("load --rows 5", [4, 5, 6, 3, 50]),
    ("load --rows=5", [4, 5, 6, 3, 50]),
    ("load --rows 007", [4, 7, 6, 3, 50]),
    ("load -s 1", [1, 1_000, 6, 3, 50]),
    ("load --servers 16", [16, 1_000, 6, 3, 50]),
    ("load --rows 1", [4, 1, 6, 3, 50]),
    ("load --rows 100000", [4, 100_000, 6, 3, 50]),
    ("load --pieces 1", [4, 1_000, 1, 3, 50]),
    ("load --pieces 64", [4, 1_000, 64, 3, 50]),
    ("load --workers 1", [4, 1_000, 6, 1, 50]),
    ("load --workers 16", [4, 1_000, 6, 16, 50]),
    ("load --limit 1", [4, 1_000, 6, 3, 1]),
    ("load --limit 1000", [4, 1_000, 6, 3, 1_000]),
    ("load -s 2 -r 30 -p 4 -w 5 -l 6", [2, 30, 4, 5, 6]),
    (
        "load --limit 5 --workers 4 --pieces 3 --rows 2 --servers 1",
        [1, 2, 3, 4, 5],
    ),
    (
        "load --servers 9 --rows 8 --pieces 7 --workers 6 --limit 5",
        [9, 8, 7, 6, 5],
    ),
    // no number is another's, or a default
    (
        "load --servers 16 --rows 15 --pieces 14 --workers 13 --limit 12",
        [16, 15, 14, 13, 12],
    ),
];

// Lines that choose a script, its file, and whether the run stops.
const RUNS: [(&str, Option<&str>, bool); 5] = [
    ("run", None, false),
    ("run x", Some("x"), false),
    ("run --stop", None, true),
    ("run -s x", Some("x"), true),
    ("run x --stop", Some("x"), true),
];

// Lines that choose a prompt or a rollout.
const OTHERS: [(&str, Chosen<'static>); 7] = [
    (
        "prompt",
        Chosen::Prompt {
            file: None,
            at: None,
            is_json: false,
        },
    ),
    (
        "prompt x",
        Chosen::Prompt {
            file: Some("x"),
            at: None,
            is_json: false,
        },
    ),
    (
        "prompt --at y",
        Chosen::Prompt {
            file: None,
            at: Some("y"),
            is_json: false,
        },
    ),
    (
        "prompt --at=y x",
        Chosen::Prompt {
            file: Some("x"),
            at: Some("y"),
            is_json: false,
        },
    ),
    (
        "prompt --json",
        Chosen::Prompt {
            file: None,
            at: None,
            is_json: true,
        },
    ),
    (
        "prompt --at y --json x",
        Chosen::Prompt {
            file: Some("x"),
            at: Some("y"),
            is_json: true,
        },
    ),
    ("rollout", Chosen::Rollout),
];

// Lines that choose a load of five rows, its rate, and whether it is sampled and timed.
const RATES: [(&str, Option<u32>, bool, bool); 9] = [
    ("load -r 5", None, false, false),
    ("load --time -r 5", None, false, true),
    ("load -r 5 -t", None, false, true),
    ("load -r 5 --rate 1", Some(1), false, false),
    ("load --rate 1000000 -r 5", Some(1_000_000), false, false),
    ("load --rate=0200 -r 5", Some(200), false, false),
    ("load --samples -r 5", None, true, false),
    ("load -r 5 --samples --rate 8000", Some(8_000), true, false),
    ("load --rate 7 -t -r 5 --samples", Some(7), true, true),
];

// Lines that choose a soak, and its size: updates, rows, servers.
const SOAKS: [(&str, [u32; 3]); 9] = [
    ("soak", [10_000_000, 1_000, 4]),
    ("soak --updates 1", [1, 1_000, 4]),
    ("soak --updates 1000000000", [1_000_000_000, 1_000, 4]),
    ("soak --rows 1", [10_000_000, 1, 4]),
    ("soak --rows 100000", [10_000_000, 100_000, 4]),
    ("soak --servers 1", [10_000_000, 1_000, 1]),
    ("soak --servers 16", [10_000_000, 1_000, 16]),
    ("soak -u 007 -r 6 -s 5", [7, 6, 5]),
    ("soak --servers=2 --rows=3 --updates=4", [4, 3, 2]),
];

// Whether the line is taken and chooses this.
fn chooses(alloc: Global, line: &str, wanted: Chosen<'_>) -> Result<bool, AllocError> {
    let mut words = Vec::new(alloc);
    words.push("shell".to_string(alloc)?)?;
    for word in line.split_whitespace() {
        words.push(word.to_string(alloc)?)?;
    }
    Ok(match options(alloc, words.as_slice()) {
        Ok(chosen) => chosen == wanted,
        Err(_) => false,
    })
}

fn load_size([servers, rows, pieces, workers, limit]: [u32; 5]) -> LoadSize {
    LoadSize {
        servers,
        rows,
        pieces,
        workers,
        limit,
    }
}

#[test]
fn what_lines_choose(rt: HostRuntime) {
    for (line, file, stops) in RUNS {
        let chosen = Chosen::Run { file, stops };
        assert!(rt;
            matches!(chooses(rt.alloc(), line, chosen), Ok(true)),
            "{line}"
        );
    }
    for (line, chosen) in OTHERS {
        assert!(rt;
            matches!(chooses(rt.alloc(), line, chosen), Ok(true)),
            "{line}"
        );
    }
    for (line, numbers) in LOADS {
        let chosen = Chosen::Load {
            size: load_size(numbers),
            rate: None,
            is_sampled: false,
            is_timed: false,
        };
        assert!(rt;
            matches!(chooses(rt.alloc(), line, chosen), Ok(true)),
            "{line}"
        );
    }
}

#[test]
fn what_rates_and_flags_choose(rt: HostRuntime) {
    for (line, rate, is_sampled, is_timed) in RATES {
        let chosen = Chosen::Load {
            size: load_size([4, 5, 6, 3, 50]),
            rate,
            is_sampled,
            is_timed,
        };
        assert!(rt;
            matches!(chooses(rt.alloc(), line, chosen), Ok(true)),
            "{line}"
        );
    }
}

#[test]
fn what_soaks_choose(rt: HostRuntime) {
    for (line, [updates, rows, servers]) in SOAKS {
        let size = SoakSize {
            updates,
            rows,
            servers,
        };
        let chosen = Chosen::Soak { size };
        assert!(rt;
            matches!(chooses(rt.alloc(), line, chosen), Ok(true)),
            "{line}"
        );
    }
}
