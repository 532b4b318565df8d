use crate::calls::{BEHIND_BEGIN, BEHIND_CALL, BEHIND_DO, Table, calls, statements};
use crate::forms::Part;
use crate::tables::{HISTORY, KINDS, OF_MUTEXES, OF_THREADS, PROGRAM, RULES};
use pif_text::Cause;

/// Why a line has no place where it stands, though it is right by itself.
#[derive(Clone, Copy)]
pub enum Misplaced {
    /// Limits stand behind another line.
    Limits,
    /// Rules of a history stand behind its first call, or one of them was allowed before.
    HistoryRules,
    /// Rules of a program stand behind what it does, or one of them was allowed before.
    ProgramRules,
    /// An addition stands behind what a program does.
    Addition,
    /// The text has such a line already.
    Second,
    /// There is no room for what is added.
    NoRoom,
    /// A delay is asked for without a schedule.
    Unscheduled,
    /// A `break` stands in no `while`.
    Break,
    /// It stands too late or twice.
    Other,
}

impl Misplaced {
    /// Why it has no place, in words: printable ASCII, and at most 100 bytes.
    fn words(self) -> &'static str {
        match self {
            Misplaced::Limits => "limits may stand before all other lines only",
            Misplaced::HistoryRules => {
                "'allow' may stand before the first 'begin' only, and names each rule once"
            }
            Misplaced::ProgramRules => {
                "'allow' may stand before 'do', 'ends', 'ticks' and claims only, and names each rule once"
            }
            Misplaced::Addition => "it may stand before 'do', 'ends', 'ticks' and claims only",
            Misplaced::Second => "there is such a line already",
            Misplaced::NoRoom => "no room is left for it (limits)",
            Misplaced::Unscheduled => "'delay' stands behind a line 'schedule' only",
            Misplaced::Break => "'break' may stand in a 'while' only",
            Misplaced::Other => "it stands too late or twice",
        }
    }
}

/// What is wrong with a line that is no command of a script, no line of a history or none of a program.
#[derive(Clone, Copy)]
pub enum Wrong {
    /// The line is empty.
    Empty,
    /// The line ends in CR.
    CarriageReturn,
    /// A blank stands at an end of the line or behind another blank, or there is a tab.
    Spaces,
    /// There is a tab where further blanks would do no harm.
    Tab,
    /// There is a `#`: scripts have no comments, but stories may have them.
    Comment,
    /// There is a `#` behind the front of a line whose text has comments in lines of their own.
    CommentBehind,
    /// The word would be right in small letters.
    Capitals,
    /// The first word is no command.
    NoCommand,
    /// The first word begins no line of histories.
    NoHistory,
    /// The first word begins no line of programs.
    NoProgram,
    /// A call is wanted, as `lock`.
    NoCall,
    /// A statement is wanted, as `lock` or `set`.
    NoStatement,
    /// A kind of mutex is wanted, as `normal`.
    NoKind,
    /// A rule is wanted, as `steal`.
    NoRule,
    /// The line ends where a word is wanted.
    Missing,
    /// The line ends in an open block.
    OpenBlock,
    /// The line ends in open brackets.
    OpenBrackets,
    /// There are more words after the end of the command.
    TooMany,
    /// An answer has a sign.
    Signed,
    /// Another part is wanted here.
    Not(Part),
    /// The letter is right, and the number behind it is that of no name.
    NameNumber,
    /// Nobody has this name of a thread, a mutex or a condition variable.
    NotAdded(Part),
    /// The rule is named a second time.
    RuleTwice,
    /// The time is 0, or not above the one before.
    NotRising,
    /// A `)` or `}` closes nothing.
    ClosesNothing,
    /// A limit is out of its range.
    Limits,
    /// The line is right by itself, and has no place where it stands.
    Misplaced(Misplaced),
}

impl Wrong {
    /// The words of which one is allowed in the place of the wrong word. There are none if another word is wrong.
    pub(crate) fn allowed(self) -> Table {
        match self {
            Wrong::NoCall => calls(),
            Wrong::NoStatement => statements(),
            Wrong::NoKind => Table::of(&KINDS),
            Wrong::NoRule => Table::of(&RULES),
            Wrong::NoHistory => Table::of(&HISTORY),
            Wrong::NoProgram => Table::of(&PROGRAM),
            Wrong::Not(Part::OfThread) => Table::of(&OF_THREADS),
            Wrong::Not(Part::OfMutex) => Table::of(&OF_MUTEXES),
            _ => Table::of(&[]),
        }
    }

    /// What stands before a call in the text of which this is the first word; `None` if another word is wrong.
    pub(crate) fn before_call(self) -> Option<&'static str> {
        match self {
            Wrong::NoCommand => Some(BEHIND_CALL),
            Wrong::NoHistory => Some(BEHIND_BEGIN),
            Wrong::NoProgram => Some(BEHIND_DO),
            _ => None,
        }
    }

    /// What is wrong, in words: printable ASCII, and at most 130 bytes.
    pub fn words(self) -> &'static str {
        match self {
            Wrong::Empty => "an empty line is no command",
            Wrong::CarriageReturn => "the line ends in CR LF, and not in LF alone",
            Wrong::Spaces => "words are separated by one space, with none at either end",
            Wrong::Tab => "words are separated by spaces, and not by a tab",
            Wrong::Comment => "scripts have no comments; a story may have them",
            Wrong::CommentBehind => "a comment is a line that begins with '#'",
            Wrong::Capitals => "the word is written in small letters",
            Wrong::NoCommand => "no such command",
            Wrong::NoHistory => "no line of a history begins so",
            Wrong::NoProgram => "no line of a program begins so",
            Wrong::NoCall => "no such call",
            Wrong::NoStatement => "no such call or statement",
            Wrong::NoKind => "no such kind of mutex",
            Wrong::NoRule => "no such rule",
            Wrong::Missing => "the line ends where a word is wanted",
            Wrong::OpenBlock => "the line ends where a '}' is wanted",
            Wrong::OpenBrackets => "the line ends where a ')' is wanted",
            Wrong::TooMany => "there are more words after the end of the command",
            Wrong::Signed => "an answer is written without its sign, as 16 or EBUSY",
            Wrong::Not(part) => part.words(),
            Wrong::NameNumber => "a name has a number from 1 to 4294967295, with no zero in front",
            Wrong::NotAdded(Part::Thread) => "there is no thread",
            Wrong::NotAdded(Part::Mutex) => "there is no mutex",
            Wrong::NotAdded(_) => "there is no condition variable",
            Wrong::RuleTwice => "the rule is named twice",
            Wrong::NotRising => "the times of ticks rise, and are above 0",
            Wrong::ClosesNothing => "it closes nothing",
            Wrong::Limits => cause_words(Cause::Limits),
            Wrong::Misplaced(why) => why.words(),
        }
    }
}

/// What a fault of this cause is, in words: printable ASCII, and at most 130 bytes. `Command` is that of a line that is
/// a command by itself.
pub fn cause_words(cause: Cause) -> &'static str {
    match cause {
        Cause::Size => "the input has more than 16777216 bytes",
        Cause::Long => "the line has more than 120 bytes",
        Cause::Cut => "the input ends inside the line, with no LF after it",
        Cause::Limits => {
            "a limit is out of range (threads 1 to 1024, mutexes 0 to 1024, variables 0 to 256, \
            signals 1 to 4294967295)"
        }
        Cause::Command => "limits may stand on the first line only",
    }
}
