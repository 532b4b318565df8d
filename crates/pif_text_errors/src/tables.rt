use crate::forms::{Form, Part, Parts, Rest};
use pif_text::{DEFAULT_WORD, ERROR_CHECK_WORD, NORMAL_WORD, RECURSIVE_WORD};

const LIMITS: Form = Form {
    name: "limits",
    text: "limits THREADS MUTEXES VARIABLES SIGNALS",
    parts: Parts::Of(&[Part::Number, Part::Number, Part::Number, Part::Number]),
    rest: Rest::End,
};

const THREAD: Form = Form {
    name: "thread",
    text: "thread P",
    parts: Parts::Of(&[Part::Number]),
    rest: Rest::End,
};

const MUTEX: Form = Form {
    name: "mutex",
    text: "mutex KIND [robust]",
    parts: Parts::Of(&[]),
    rest: Rest::Kind,
};

/// The same in histories and programs, which have mutexes of PTHREAD_PRIO_NONE.
const MUTEX_OF_PROTOCOL: Form = Form {
    name: "mutex",
    text: MUTEX_TEXT,
    parts: Parts::Of(&[]),
    rest: Rest::KindOfProtocol,
};

/// A mutex of histories and programs.
const MUTEX_TEXT: &str = "mutex KIND [robust] [none]";

const COND: Form = Form {
    name: "cond",
    text: "cond mN",
    parts: Parts::Of(&[Part::Mutex]),
    rest: Rest::End,
};

const BEGIN: Form = Form {
    name: "begin",
    text: "begin tN CALL",
    parts: Parts::Of(&[Part::Thread]),
    rest: Rest::Begin,
};

const END: Form = Form {
    name: "end",
    text: "end tN",
    parts: Parts::Of(&[Part::Thread]),
    rest: Rest::End,
};

const TICK: Form = Form {
    name: "tick",
    text: "tick N",
    parts: Parts::Of(&[Part::Number]),
    rest: Rest::End,
};

const ALLOW: Form = Form {
    name: "allow",
    text: "allow RULE ..",
    parts: Parts::Of(&[]),
    rest: Rest::Rules,
};

/// The commands of scripts, by their first word.
pub static COMMANDS: [Form; 15] = [
    LIMITS,
    THREAD,
    MUTEX,
    COND,
    BEGIN,
    Form {
        name: "go",
        text: "go tN",
        parts: Parts::Of(&[Part::Thread]),
        rest: Rest::End,
    },
    END,
    TICK,
    Form {
        name: "call",
        text: "call tN CALL",
        parts: Parts::Of(&[Part::Thread]),
        rest: Rest::Call,
    },
    Form {
        name: "finish",
        text: "finish tN",
        parts: Parts::Of(&[Part::Thread]),
        rest: Rest::End,
    },
    Form {
        name: "word",
        text: "word mN",
        parts: Parts::Of(&[Part::Mutex]),
        rest: Rest::End,
    },
    Form {
        name: "health",
        text: "health mN",
        parts: Parts::Of(&[Part::Mutex]),
        rest: Rest::End,
    },
    Form {
        name: "condword",
        text: "condword cN",
        parts: Parts::Of(&[Part::Cond]),
        rest: Rest::End,
    },
    Form {
        name: "prio",
        text: "prio tN",
        parts: Parts::Of(&[Part::Thread]),
        rest: Rest::End,
    },
    Form {
        name: "pick",
        text: "pick",
        parts: Parts::Of(&[]),
        rest: Rest::End,
    },
];

/// The lines of histories, by their first word.
pub static HISTORY: [Form; 15] = [
    LIMITS,
    ALLOW,
    THREAD,
    MUTEX_OF_PROTOCOL,
    COND,
    BEGIN,
    Form {
        name: "answer",
        text: "answer tN A",
        parts: Parts::Of(&[Part::Thread, Part::Answer]),
        rest: Rest::End,
    },
    Form {
        name: "dying",
        text: "dying tN",
        parts: Parts::Of(&[Part::Thread]),
        rest: Rest::End,
    },
    END,
    TICK,
    Form {
        name: "rests",
        text: "rests tN",
        parts: Parts::Of(&[Part::Thread]),
        rest: Rest::End,
    },
    Form {
        name: "prio",
        text: "prio tN P",
        parts: Parts::Of(&[Part::Thread, Part::Number]),
        rest: Rest::End,
    },
    Form {
        name: "process",
        text: "process tN ..",
        parts: Parts::Of(&[Part::Thread]),
        rest: Rest::Threads,
    },
    Form {
        name: "halted",
        text: "halted",
        parts: Parts::Of(&[]),
        rest: Rest::End,
    },
    Form {
        name: "resumed",
        text: "resumed",
        parts: Parts::Of(&[]),
        rest: Rest::End,
    },
];

/// The lines of programs that are explored, by their first word.
pub static PROGRAM: [Form; 15] = [
    LIMITS,
    ALLOW,
    Form {
        name: "thread",
        text: "thread P [NAME]",
        parts: Parts::Of(&[Part::Priority, Part::Name]),
        rest: Rest::End,
    },
    Form {
        name: "mutex",
        text: NAMED_MUTEX_TEXT,
        parts: Parts::Of(&[]),
        rest: Rest::KindOfProgram,
    },
    Form {
        name: "cond",
        text: "cond mN [NAME]",
        parts: Parts::Of(&[Part::Mutex, Part::Name]),
        rest: Rest::End,
    },
    Form {
        name: "cell",
        text: "cell xN V",
        parts: Parts::Of(&[Part::NewCell, Part::Value]),
        rest: Rest::End,
    },
    Form {
        name: "schedule",
        text: "schedule K",
        parts: Parts::Of(&[Part::Processors]),
        rest: Rest::End,
    },
    Form {
        name: "do",
        text: "do tN ..: S; S; ..",
        parts: Parts::Of(&[Part::Thread]),
        rest: Rest::Program,
    },
    Form {
        name: "ends",
        text: "ends N [of tN ..]",
        parts: Parts::Of(&[Part::Value]),
        rest: Rest::OfThreads,
    },
    Form {
        name: "ticks",
        text: "ticks N N ..",
        parts: Parts::Of(&[]),
        rest: Rest::Ticks,
    },
    Form {
        name: "never",
        text: "never: C",
        parts: Parts::Of(&[Part::Colon]),
        rest: Rest::Condition,
    },
    Form {
        name: "always",
        text: "always: C",
        parts: Parts::Of(&[Part::Colon]),
        rest: Rest::Condition,
    },
    Form {
        name: "finally",
        text: "finally: C",
        parts: Parts::Of(&[Part::Colon]),
        rest: Rest::Condition,
    },
    Form {
        name: "sometimes",
        text: "sometimes: C",
        parts: Parts::Of(&[Part::Colon]),
        rest: Rest::Condition,
    },
    Form {
        name: "delay",
        text: "delay tN",
        parts: Parts::Of(&[Part::Thread]),
        rest: Rest::End,
    },
];

/// The kinds of mutexes. Behind a kind the line ends, and is a command, or `robust` is wanted.
pub static KINDS: [Form; 4] = [
    Form {
        name: NORMAL_WORD,
        text: "mutex KIND [robust]",
        parts: Parts::Of(&[Part::Robust]),
        rest: Rest::End,
    },
    Form {
        name: DEFAULT_WORD,
        text: "mutex KIND [robust]",
        parts: Parts::Of(&[Part::Robust]),
        rest: Rest::End,
    },
    Form {
        name: ERROR_CHECK_WORD,
        text: "mutex KIND [robust]",
        parts: Parts::Of(&[Part::Robust]),
        rest: Rest::End,
    },
    Form {
        name: RECURSIVE_WORD,
        text: "mutex KIND [robust]",
        parts: Parts::Of(&[Part::Robust]),
        rest: Rest::End,
    },
];

/// What is wanted behind a kind.
pub static ROBUST: [Form; 1] = [Form {
    name: "robust",
    text: "mutex KIND [robust]",
    parts: Parts::Of(&[]),
    rest: Rest::End,
}];

/// The kinds of mutexes of histories and programs. Behind a kind the line ends, or `robust` or `none` is wanted.
pub static KINDS_OF_PROTOCOL: [Form; 4] = [
    Form {
        name: NORMAL_WORD,
        text: MUTEX_TEXT,
        parts: Parts::Of(&[Part::Modifier, Part::Lending]),
        rest: Rest::End,
    },
    Form {
        name: DEFAULT_WORD,
        text: MUTEX_TEXT,
        parts: Parts::Of(&[Part::Modifier, Part::Lending]),
        rest: Rest::End,
    },
    Form {
        name: ERROR_CHECK_WORD,
        text: MUTEX_TEXT,
        parts: Parts::Of(&[Part::Modifier, Part::Lending]),
        rest: Rest::End,
    },
    Form {
        name: RECURSIVE_WORD,
        text: MUTEX_TEXT,
        parts: Parts::Of(&[Part::Modifier, Part::Lending]),
        rest: Rest::End,
    },
];

/// A mutex of programs.
const NAMED_MUTEX_TEXT: &str = "mutex KIND [robust] [none] [NAME]";

/// The kinds of mutexes of programs. Behind a kind the line ends, or `robust`, `none` or a name is wanted.
pub static KINDS_OF_PROGRAM: [Form; 4] = [
    Form {
        name: NORMAL_WORD,
        text: NAMED_MUTEX_TEXT,
        parts: Parts::Of(&[Part::ModifierOrName, Part::LendingOrName, Part::Name]),
        rest: Rest::End,
    },
    Form {
        name: DEFAULT_WORD,
        text: NAMED_MUTEX_TEXT,
        parts: Parts::Of(&[Part::ModifierOrName, Part::LendingOrName, Part::Name]),
        rest: Rest::End,
    },
    Form {
        name: ERROR_CHECK_WORD,
        text: NAMED_MUTEX_TEXT,
        parts: Parts::Of(&[Part::ModifierOrName, Part::LendingOrName, Part::Name]),
        rest: Rest::End,
    },
    Form {
        name: RECURSIVE_WORD,
        text: NAMED_MUTEX_TEXT,
        parts: Parts::Of(&[Part::ModifierOrName, Part::LendingOrName, Part::Name]),
        rest: Rest::End,
    },
];

/// The words of programs that are no calls and no errors: none of them is a name.
pub static RESERVED: [&str; 60] = [
    "if",
    "else",
    "while",
    "break",
    "set",
    "add",
    "choose",
    "join",
    "start",
    "exit",
    "not",
    "and",
    "or",
    "stuck",
    "ended",
    "answered",
    "runs",
    "at",
    "least",
    "waits",
    "for",
    "blocked",
    "on",
    "holds",
    "once",
    "twice",
    "times",
    "free",
    "inconsistent",
    "unusable",
    "held",
    "by",
    "race",
    "misuse",
    "deadlock",
    "lost",
    "wake-up",
    "livelock",
    "limits",
    "allow",
    "thread",
    "mutex",
    "cond",
    "cell",
    "schedule",
    "do",
    "ends",
    "of",
    "ticks",
    "never",
    "always",
    "finally",
    "sometimes",
    "delay",
    "normal",
    "default",
    "errorcheck",
    "recursive",
    "robust",
    "none",
];

/// What is wanted behind such a kind.
pub static MODIFIERS: [Form; 2] = [
    Form {
        name: "robust",
        text: MUTEX_TEXT,
        parts: Parts::Of(&[]),
        rest: Rest::End,
    },
    Form {
        name: "none",
        text: MUTEX_TEXT,
        parts: Parts::Of(&[]),
        rest: Rest::End,
    },
];

/// What is wanted behind `robust` there.
pub static LENDING: [Form; 1] = [Form {
    name: "none",
    text: MUTEX_TEXT,
    parts: Parts::Of(&[]),
    rest: Rest::End,
}];

/// How many words name rules.
pub const RULE_COUNT: usize = 23;

/// The rules that a history or a program may allow, and the name of those of POSIX.
pub static RULES: [Form; RULE_COUNT] = [
    Form {
        name: "steal",
        text: "allow RULE ..",
        parts: Parts::Of(&[]),
        rest: Rest::End,
    },
    Form {
        name: "any_waiter",
        text: "allow RULE ..",
        parts: Parts::Of(&[]),
        rest: Rest::End,
    },
    Form {
        name: "spurious",
        text: "allow RULE ..",
        parts: Parts::Of(&[]),
        rest: Rest::End,
    },
    Form {
        name: "recursion",
        text: "allow recursion A..B",
        parts: Parts::Of(&[Part::Recursion]),
        rest: Rest::End,
    },
    Form {
        name: "own_errorcheck",
        text: "allow RULE ..",
        parts: Parts::Of(&[]),
        rest: Rest::End,
    },
    Form {
        name: "any_consistent",
        text: "allow RULE ..",
        parts: Parts::Of(&[]),
        rest: Rest::End,
    },
    Form {
        name: "held_wait",
        text: "allow RULE ..",
        parts: Parts::Of(&[]),
        rest: Rest::End,
    },
    Form {
        name: "lost_signal",
        text: "allow RULE ..",
        parts: Parts::Of(&[]),
        rest: Rest::End,
    },
    Form {
        name: "revives",
        text: "allow RULE ..",
        parts: Parts::Of(&[]),
        rest: Rest::End,
    },
    Form {
        name: "barge",
        text: "allow RULE ..",
        parts: Parts::Of(&[]),
        rest: Rest::End,
    },
    Form {
        name: "cycle_waits",
        text: "allow RULE ..",
        parts: Parts::Of(&[]),
        rest: Rest::End,
    },
    Form {
        name: "cycle_refused",
        text: "allow RULE ..",
        parts: Parts::Of(&[]),
        rest: Rest::End,
    },
    Form {
        name: "timeout_consumes",
        text: "allow RULE ..",
        parts: Parts::Of(&[]),
        rest: Rest::End,
    },
    Form {
        name: "ends_apart",
        text: "allow RULE ..",
        parts: Parts::Of(&[]),
        rest: Rest::End,
    },
    Form {
        name: "stays_locked",
        text: "allow RULE ..",
        parts: Parts::Of(&[]),
        rest: Rest::End,
    },
    Form {
        name: "rebinds",
        text: "allow RULE ..",
        parts: Parts::Of(&[]),
        rest: Rest::End,
    },
    Form {
        name: "more_uses",
        text: "allow RULE ..",
        parts: Parts::Of(&[]),
        rest: Rest::End,
    },
    Form {
        name: "refuses_setprio",
        text: "allow RULE ..",
        parts: Parts::Of(&[]),
        rest: Rest::End,
    },
    Form {
        name: "consistent_by_any",
        text: "allow RULE ..",
        parts: Parts::Of(&[]),
        rest: Rest::End,
    },
    Form {
        name: "cut_unlock",
        text: "allow RULE ..",
        parts: Parts::Of(&[]),
        rest: Rest::End,
    },
    Form {
        name: "other_error",
        text: "allow RULE ..",
        parts: Parts::Of(&[]),
        rest: Rest::End,
    },
    Form {
        name: "wait_gives_all",
        text: "allow RULE ..",
        parts: Parts::Of(&[]),
        rest: Rest::End,
    },
    Form {
        name: "posix",
        text: "allow RULE ..",
        parts: Parts::Of(&[]),
        rest: Rest::End,
    },
];

/// The faults of which a condition may speak.
pub static FAULTS: [Form; 5] = [
    Form {
        name: "race",
        text: "race",
        parts: Parts::Of(&[]),
        rest: Rest::End,
    },
    Form {
        name: "misuse",
        text: "misuse",
        parts: Parts::Of(&[]),
        rest: Rest::End,
    },
    Form {
        name: "deadlock",
        text: "deadlock",
        parts: Parts::Of(&[]),
        rest: Rest::End,
    },
    Form {
        name: "stuck",
        text: "stuck",
        parts: Parts::Of(&[]),
        rest: Rest::End,
    },
    Form {
        name: "lost",
        text: "lost wake-up",
        parts: Parts::Of(&[Part::WakeUp]),
        rest: Rest::End,
    },
];

/// What a condition may say of a thread.
pub static OF_THREADS: [Form; 7] = [
    Form {
        name: "stuck",
        text: "tN stuck",
        parts: Parts::Of(&[]),
        rest: Rest::End,
    },
    Form {
        name: "ended",
        text: "tN ended",
        parts: Parts::Of(&[]),
        rest: Rest::End,
    },
    Form {
        name: "answered",
        text: "tN answered A",
        parts: Parts::Of(&[Part::Answer]),
        rest: Rest::End,
    },
    Form {
        name: "runs",
        text: "tN runs at [least] P",
        parts: Parts::Of(&[Part::At, Part::PriorityOrLeast, Part::Priority]),
        rest: Rest::End,
    },
    Form {
        name: "waits",
        text: "tN waits for mN",
        parts: Parts::Of(&[Part::For, Part::Mutex]),
        rest: Rest::End,
    },
    Form {
        name: "blocked",
        text: "tN blocked on cN",
        parts: Parts::Of(&[Part::On, Part::Cond]),
        rest: Rest::End,
    },
    Form {
        name: "holds",
        text: "tN holds mN N times",
        parts: Parts::Of(&[Part::Mutex, Part::Count, Part::Times]),
        rest: Rest::End,
    },
];

/// What a condition may say of a mutex.
pub static OF_MUTEXES: [Form; 4] = [
    Form {
        name: "free",
        text: "mN free",
        parts: Parts::Of(&[]),
        rest: Rest::End,
    },
    Form {
        name: "inconsistent",
        text: "mN inconsistent",
        parts: Parts::Of(&[]),
        rest: Rest::End,
    },
    Form {
        name: "unusable",
        text: "mN unusable",
        parts: Parts::Of(&[]),
        rest: Rest::End,
    },
    Form {
        name: "held",
        text: "mN held by tN",
        parts: Parts::Of(&[Part::By, Part::Thread]),
        rest: Rest::End,
    },
];

/// What a test or a condition may say of a cell.
pub static OF_CELLS: [Form; 3] = [
    Form {
        name: "=",
        text: "xN = O",
        parts: Parts::Of(&[Part::Operand]),
        rest: Rest::End,
    },
    Form {
        name: "<",
        text: "xN < O",
        parts: Parts::Of(&[Part::Operand]),
        rest: Rest::End,
    },
    Form {
        name: ">",
        text: "xN > O",
        parts: Parts::Of(&[Part::Operand]),
        rest: Rest::End,
    },
];

/// What is said of a cell first.
pub static OF_CELL: Form = Form {
    name: "",
    text: "xN = O",
    parts: Parts::Of(&[Part::Equals, Part::Operand]),
    rest: Rest::End,
};
