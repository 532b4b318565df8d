//! The program's commands as tables: what help shows of each, and its arguments.
use crate::helps::{
    ABOUT_ALL, ABOUT_ALLOW, ABOUT_CALLS, ABOUT_CHECK, ABOUT_CLAIMS, ABOUT_CLIENTS, ABOUT_CONDS,
    ABOUT_CORE, ABOUT_DOT, ABOUT_DRAW, ABOUT_DRIVE, ABOUT_ENDS, ABOUT_EXPLORE, ABOUT_FAULTS,
    ABOUT_FILE, ABOUT_FILES, ABOUT_FOLLOW, ABOUT_FOUND_HTML, ABOUT_FOUND_JSON, ABOUT_FROM,
    ABOUT_HISTORIES, ABOUT_HTML, ABOUT_JOBS, ABOUT_JOINED, ABOUT_JSON, ABOUT_JUDGE, ABOUT_KEPT,
    ABOUT_LEAST, ABOUT_LINES, ABOUT_MIGRATE, ABOUT_MUTEXES, ABOUT_PART_LINES, ABOUT_PLAIN,
    ABOUT_PRINT, ABOUT_RANDOM, ABOUT_REPLAY, ABOUT_ROBUST, ABOUT_RUN, ABOUT_RUN_HTML,
    ABOUT_RUN_JSON, ABOUT_SCHEDULES, ABOUT_SEARCHED, ABOUT_SECONDS, ABOUT_SEED, ABOUT_SHELL,
    ABOUT_SHOW, ABOUT_SPLIT, ABOUT_STATES, ABOUT_STRICT, ABOUT_THREADS, ABOUT_TIMES, ABOUT_TO,
    ABOUT_TRACE, ABOUT_WITNESS, ABOUT_WRITE, MORE_CHECK, MORE_DRAW, MORE_DRIVE, MORE_EXPLORE,
    MORE_JUDGE, MORE_MIGRATE, MORE_RANDOM, MORE_REPLAY, MORE_RUN, MORE_SHELL, MORE_SHOW,
    MORE_TRACE, USAGE_CHECK, USAGE_DRAW, USAGE_DRIVE, USAGE_EXPLORE, USAGE_JUDGE, USAGE_MIGRATE,
    USAGE_RANDOM, USAGE_REPLAY, USAGE_RUN, USAGE_SHELL, USAGE_SHOW, USAGE_TRACE,
};
use crate::options::{Absent, Form};
use crate::random::MOST_SEED;

/// An argument of a command: its name, its form, and what help says of it.
pub type Argument = (&'static str, Form<'static>, &'static str);

/// A command of the program.
pub struct Table {
    /// The word that names it.
    pub name: &'static str,
    /// What it is about, as help says.
    pub about: &'static str,
    /// How it is called.
    pub usage: &'static str,
    /// What help says at the end.
    pub more: &'static str,
    /// Its arguments.
    pub rows: &'static [Argument],
}

/// The last line of a story that can be named.
const MOST_LINE: u64 = 4_294_967_295;

/// The file of one input.
const FILE: Argument = ("FILE", Form::File, ABOUT_FILE);

pub const RUN: Table = Table {
    name: "run",
    about: ABOUT_RUN,
    usage: USAGE_RUN,
    more: MORE_RUN,
    rows: &[FILE],
};

pub const SHOW: Table = Table {
    name: "show",
    about: ABOUT_SHOW,
    usage: USAGE_SHOW,
    more: MORE_SHOW,
    rows: &[
        ("all", Form::Flag, ABOUT_ALL),
        ("json", Form::Flag, ABOUT_JSON),
        ("dot", Form::Flag, ABOUT_DOT),
        FILE,
    ],
};

pub const DRAW: Table = Table {
    name: "draw",
    about: ABOUT_DRAW,
    usage: USAGE_DRAW,
    more: MORE_DRAW,
    rows: &[
        ("html", Form::Flag, ABOUT_HTML),
        (
            "from",
            Form::Number("L", 1, MOST_LINE, Absent::Empty),
            ABOUT_FROM,
        ),
        (
            "to",
            Form::Number("L", 1, MOST_LINE, Absent::Empty),
            ABOUT_TO,
        ),
        FILE,
    ],
};

pub const SHELL: Table = Table {
    name: "shell",
    about: ABOUT_SHELL,
    usage: USAGE_SHELL,
    more: MORE_SHELL,
    rows: &[],
};

pub const CHECK: Table = Table {
    name: "check",
    about: ABOUT_CHECK,
    usage: USAGE_CHECK,
    more: MORE_CHECK,
    rows: &[
        ("strict", Form::Flag, ABOUT_STRICT),
        ("print", Form::Flag, ABOUT_PRINT),
        ("write", Form::Flag, ABOUT_WRITE),
        ("FILE", Form::Files, ABOUT_FILES),
    ],
};

pub const JUDGE: Table = Table {
    name: "judge",
    about: ABOUT_JUDGE,
    usage: USAGE_JUDGE,
    more: MORE_JUDGE,
    rows: &[
        ("witness", Form::Flag, ABOUT_WITNESS),
        ("json", Form::Flag, ABOUT_RUN_JSON),
        ("html", Form::Flag, ABOUT_RUN_HTML),
        ("least", Form::Flag, ABOUT_LEAST),
        ("plain", Form::Flag, ABOUT_PLAIN),
        (
            "states",
            Form::Number("N", 1, 16_777_216, Absent::Is("200000")),
            ABOUT_STATES,
        ),
        (
            "seconds",
            Form::Number("N", 0, 86_400, Absent::Empty),
            ABOUT_SECONDS,
        ),
        ("jobs", Form::Number("N", 1, 64, Absent::Empty), ABOUT_JOBS),
        ("allow", Form::Rules, ABOUT_ALLOW),
        ("split", Form::Name("DIR"), ABOUT_SPLIT),
        (
            "lines",
            Form::Number("N", 1, MOST_LINE, Absent::Is("10000")),
            ABOUT_PART_LINES,
        ),
        ("joined", Form::Name("INDEX"), ABOUT_JOINED),
        ("follow", Form::Flag, ABOUT_FOLLOW),
        ("FILE", Form::Files, ABOUT_HISTORIES),
    ],
};

pub const EXPLORE: Table = Table {
    name: "explore",
    about: ABOUT_EXPLORE,
    usage: USAGE_EXPLORE,
    more: MORE_EXPLORE,
    rows: &[
        ("witness", Form::Flag, ABOUT_SCHEDULES),
        ("calls", Form::Flag, ABOUT_CALLS),
        ("claims", Form::Flag, ABOUT_CLAIMS),
        ("json", Form::Flag, ABOUT_FOUND_JSON),
        ("html", Form::Flag, ABOUT_FOUND_HTML),
        ("strict", Form::Flag, ABOUT_FAULTS),
        (
            "states",
            Form::Number("N", 1, 16_777_216, Absent::Is("1000000")),
            ABOUT_KEPT,
        ),
        (
            "seconds",
            Form::Number("N", 0, 86_400, Absent::Empty),
            ABOUT_SEARCHED,
        ),
        (
            "core",
            Form::Number("N", 1, 1_000_000, Absent::Empty),
            ABOUT_CORE,
        ),
        FILE,
    ],
};

pub const REPLAY: Table = Table {
    name: "replay",
    about: ABOUT_REPLAY,
    usage: USAGE_REPLAY,
    more: MORE_REPLAY,
    rows: &[FILE],
};

pub const TRACE: Table = Table {
    name: "trace",
    about: ABOUT_TRACE,
    usage: USAGE_TRACE,
    more: MORE_TRACE,
    rows: &[FILE],
};

pub const MIGRATE: Table = Table {
    name: "migrate",
    about: ABOUT_MIGRATE,
    usage: USAGE_MIGRATE,
    more: MORE_MIGRATE,
    rows: &[FILE],
};

/// The options that must be given, how much of each there is, and what happens.
pub const RANDOM: Table = Table {
    name: "random",
    about: ABOUT_RANDOM,
    usage: USAGE_RANDOM,
    more: MORE_RANDOM,
    rows: &[
        (
            "seed",
            Form::Number("N", 0, MOST_SEED, Absent::Refused),
            ABOUT_SEED,
        ),
        (
            "lines",
            Form::Number("L", 1, 262_144, Absent::Refused),
            ABOUT_LINES,
        ),
        (
            "threads",
            Form::Number("T", 1, 1_024, Absent::Is("4")),
            ABOUT_THREADS,
        ),
        (
            "mutexes",
            Form::Number("M", 0, 1_024, Absent::Is("3")),
            ABOUT_MUTEXES,
        ),
        (
            "conds",
            Form::Number("C", 0, 256, Absent::Is("1")),
            ABOUT_CONDS,
        ),
        ("robust", Form::Flag, ABOUT_ROBUST),
        ("ends", Form::Flag, ABOUT_ENDS),
        ("times", Form::Flag, ABOUT_TIMES),
    ],
};

pub const DRIVE: Table = Table {
    name: "drive",
    about: ABOUT_DRIVE,
    usage: USAGE_DRIVE,
    more: MORE_DRIVE,
    rows: &[("N", Form::Placed(1, 64), ABOUT_CLIENTS)],
};
