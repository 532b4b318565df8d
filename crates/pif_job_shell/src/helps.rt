use pif_text::{errno_name, errno_of};
use std::str::from_utf8;

/// A word and the help on it.
struct Help {
    /// The word.
    word: &'static str,
    /// The help, in lines of at most 80 bytes.
    text: &'static str,
}

/// The help on the shell.
const ALL: &str = "\
Commands of scripts:
  thread P              adds a thread of base priority P, 1 to 99: t1, t2, ..
  mutex KIND [robust]   adds a mutex: m1, m2, ..
  cond mN               adds a condition variable, bound to that mutex: c1, ..
  call tN CALL          the thread begins the call, and goes on until it is
                        answered or waits
  begin tN CALL         the thread begins the call, and takes no step yet
  go tN                 the thread takes one step of its call
  finish tN             the thread goes on until its call is answered or waits
  end tN                the thread ends, whatever it does
  tick N                the time is N from now on
  word mN, health mN, condword cN, prio tN, pick     ask something
  limits T M C S        the most of each, as the first command only
Calls: lock mN, trylock mN, unlock mN, consistent mN, wait cN mN, signal cN,
  broadcast cN, setprio tN P, timedlock mN D, timedwait cN mN D
Commands of the shell:
  help WORD             tells of a command, a call, an error or another answer
  state                 shows what there is
  undo, undo N          takes the last command back, or the last N
  redo                  gives the command again that was taken back last
  save FILE             saves the commands as a story, in a new file
  save! FILE            the same, in place of a file that is there
  load FILE             begins with the commands of a story or a script
  exit, quit            ends, as the end of input (Ctrl-D) does
A line that begins with # is a comment.
";

/// The help on each word.
static HELPS: [Help; 61] = [
    Help {
        word: "thread",
        text: "\
thread P
  Adds a thread of base priority P, 1 to 99, 99 the greatest. Prints its name.
",
    },
    Help {
        word: "mutex",
        text: "\
mutex KIND [robust]
  Adds a mutex: normal, default (the same), errorcheck or recursive. If the
  owner of a robust one ends, the next gets EOWNERDEAD. Prints its name.
",
    },
    Help {
        word: "cond",
        text: "\
cond mN
  Adds a condition variable that is bound to this mutex. Prints its name.
",
    },
    Help {
        word: "limits",
        text: "\
limits THREADS MUTEXES VARIABLES SIGNALS
  The most of each, and the most signals and broadcasts of one variable. As the
  first command only; without it they are 1024 1024 256 4294967295.
",
    },
    Help {
        word: "call",
        text: "\
call tN CALL
  The thread begins the call, and goes on until it is answered, or waits. Prints
  'answer' and 0 or the number of an error, or 'waits', or why it is refused.
",
    },
    Help {
        word: "begin",
        text: "\
begin tN CALL
  The thread begins the call, and takes no step yet: 'go' takes the first.
",
    },
    Help {
        word: "go",
        text: "\
go tN
  The thread takes one step of its open call: an access to a word, or a kernel
  call. Prints 'went', 'waits', or 'answer' and a number.
",
    },
    Help {
        word: "finish",
        text: "\
finish tN
  The thread goes on with its open call until it is answered, or waits.
",
    },
    Help {
        word: "end",
        text: "\
end tN
  The thread ends, whatever it does, in the middle of a call too.
",
    },
    Help {
        word: "tick",
        text: "\
tick N
  The time is N from now on. It never goes back, and wakes nobody.
",
    },
    Help {
        word: "word",
        text: "\
word mN
  Prints the word of the mutex in user memory: the number of its owner, with the
  bits WAITERS (0x80000000) and OWNER_DIED (0x40000000).
",
    },
    Help {
        word: "health",
        text: "\
health mN
  Prints what the health word of the mutex says: fine, inconsistent or unusable.
",
    },
    Help {
        word: "condword",
        text: "\
condword cN
  Prints how often the condition variable was signalled or broadcast.
",
    },
    Help {
        word: "prio",
        text: "\
prio tN
  Prints the effective priority: the greatest base priority of the thread and of
  all that wait for it.
",
    },
    Help {
        word: "pick",
        text: "\
pick
  Prints the thread that runs next, or 'none'.
",
    },
    Help {
        word: "lock",
        text: "\
lock mN
  Locks the mutex; waits while another thread owns it. Errors:
  EAGAIN           the caller holds a recursive mutex 255 times
  EDEADLK          the caller holds an errorcheck mutex, or the wait would close
                   a cycle
  EOWNERDEAD       the caller owns it now, and its last owner ended
  ENOTRECOVERABLE  it was given up while it was inconsistent
",
    },
    Help {
        word: "trylock",
        text: "\
trylock mN
  Locks the mutex if it is free. Errors:
  EBUSY            it is not free
  and EAGAIN, EOWNERDEAD and ENOTRECOVERABLE, as of 'lock'
",
    },
    Help {
        word: "unlock",
        text: "\
unlock mN
  Unlocks the mutex; the next waiter gets it. Errors:
  EPERM            the caller is not the owner
",
    },
    Help {
        word: "consistent",
        text: "\
consistent mN
  Says that what a robust mutex protects is right again. Errors:
  EINVAL           it is not robust, or not inconsistent
  EPERM            the caller is not the owner
",
    },
    Help {
        word: "wait",
        text: "\
wait cN mN
  Gives the mutex up, waits for a signal or a broadcast, and locks the mutex
  again. Errors:
  EINVAL           another mutex is bound, or this one is held more than once
  EPERM            the caller is not the owner
  and those of 'lock'
",
    },
    Help {
        word: "signal",
        text: "\
signal cN
  Wakes the blocked thread of greatest priority, if there is one. Errors:
  EOVERFLOW        the limit of signals is reached
",
    },
    Help {
        word: "broadcast",
        text: "\
broadcast cN
  Wakes all blocked threads. Errors:
  EOVERFLOW        the limit of signals is reached
",
    },
    Help {
        word: "setprio",
        text: "\
setprio tN P
  Gives that thread the base priority P. Errors:
  EINVAL           P is not 1 to 99
  ESRCH            there is no such thread, or it has ended
",
    },
    Help {
        word: "timedlock",
        text: "\
timedlock mN D
  As 'lock', until the time is D. Errors:
  ETIMEDOUT        the time is D, and the caller does not own it
  and those of 'lock'
",
    },
    Help {
        word: "timedwait",
        text: "\
timedwait cN mN D
  As 'wait', until the time is D; then it locks the mutex again. Errors:
  ETIMEDOUT        the time was D before a signal or a broadcast came
  and those of 'wait'
",
    },
    Help {
        word: "help",
        text: "\
help [WORD]
  Names the commands, or tells of one, of a call, of an error, as EDEADLK or 35,
  or of another answer, as waits.
",
    },
    Help {
        word: "state",
        text: "\
state
  Shows each thread, mutex and condition variable, the run queue, and the chains
  of waiting, as 'pif show' does.
",
    },
    Help {
        word: "undo",
        text: "\
undo [N]
  Takes the last command back, or the last N: the others are played again from
  the start. 'redo' gives them again.
",
    },
    Help {
        word: "redo",
        text: "\
redo
  Gives the command again that was taken back last. A new command forgets those
  that were taken back.
",
    },
    Help {
        word: "save",
        text: SAVE,
    },
    Help {
        word: "save!",
        text: SAVE,
    },
    Help {
        word: "load",
        text: "\
load FILE
  Begins with the commands of a story or a script. Their answers are not
  compared. There may be no command before: 'undo N' takes them back.
",
    },
    Help {
        word: "exit",
        text: LEAVE,
    },
    Help {
        word: "quit",
        text: LEAVE,
    },
    // Answers: errors by their names, what else a call or a command is answered, and why a command is refused.
    Help {
        word: "EPERM",
        text: "\
EPERM (answer 1)
  unlock, consistent, wait, timedwait: the caller is not the owner of the mutex,
  also if nobody is.
",
    },
    Help {
        word: "ESRCH",
        text: "\
ESRCH (answer 3)
  setprio: there is no such thread, or it has ended.
",
    },
    Help {
        word: "EAGAIN",
        text: "\
EAGAIN (answer 11)
  lock, timedlock, trylock: the caller holds a recursive mutex 255 times.
",
    },
    Help {
        word: "EBUSY",
        text: "\
EBUSY (answer 16)
  trylock: another thread owns the mutex, or the caller does and it is not
  recursive, or it is not robust and its owner has ended.
",
    },
    Help {
        word: "EINVAL",
        text: "\
EINVAL (answer 22)
  setprio: the priority is not 1 to 99.
  consistent: the mutex is not robust, or not inconsistent.
  wait, timedwait: another mutex is bound to the variable, or the mutex is held
  more than once.
",
    },
    Help {
        word: "EDEADLK",
        text: "\
EDEADLK (answer 35)
  lock, timedlock: the caller holds an errorcheck mutex already.
  lock, timedlock, wait, timedwait: the owner of the mutex waits for the caller,
  through some chain. A wait that ends so doesn't hold its mutex.
",
    },
    Help {
        word: "EOVERFLOW",
        text: "\
EOVERFLOW (answer 75)
  signal, broadcast: the variable was used as often as the limits allow.
",
    },
    Help {
        word: "ETIMEDOUT",
        text: "\
ETIMEDOUT (answer 110)
  timedlock: the time is that of the deadline, and the caller does not own the
  mutex. timedwait: the time was that before a signal came; the caller owns it.
",
    },
    Help {
        word: "EOWNERDEAD",
        text: "\
EOWNERDEAD (answer 130)
  lock, timedlock, trylock, wait, timedwait: the caller owns the robust mutex,
  whose last owner ended: what it protects is to be repaired, and then
  'consistent' is called.
",
    },
    Help {
        word: "ENOTRECOVERABLE",
        text: "\
ENOTRECOVERABLE (answer 131)
  lock, timedlock, trylock, wait, timedwait: the robust mutex was given up while
  it was inconsistent, and nobody can own it any more.
",
    },
    Help {
        word: "answer",
        text: "\
answer A
  The call has returned A: 0, or the number of an error. 'help A' tells of it.
",
    },
    Help {
        word: "0",
        text: "\
answer 0
  The call has succeeded.
",
    },
    Help {
        word: "waits",
        text: "\
waits
  The thread waits, for a mutex or for a signal. Its call stays open: 'finish'
  goes on with it once it was handed the mutex, was signalled, or its deadline
  is reached. 'state' shows for what it waits.
",
    },
    Help {
        word: "went",
        text: "\
went
  The thread has taken a step of its call, and the call goes on.
",
    },
    Help {
        word: "begun",
        text: "\
begun
  The call has begun, and no step of it was taken yet.
",
    },
    Help {
        word: "ended",
        text: "\
ended
  The thread has ended.
",
    },
    Help {
        word: "dead",
        text: "\
dead
  The thread has ended: 'prio' prints so. 'refused dead' is a command that a
  thread that has ended is to do.
",
    },
    Help {
        word: "ticked",
        text: "\
ticked
  The time was set.
",
    },
    Help {
        word: "ok",
        text: "\
ok
  The limits were set.
",
    },
    Help {
        word: "none",
        text: "\
none
  No thread can run.
",
    },
    Help {
        word: "refused",
        text: "\
refused WHY
  The command was not done, and nothing has changed. 'help WHY' tells why.
",
    },
    Help {
        word: "nosuch",
        text: "\
refused nosuch
  There is no thread, mutex or condition variable of this name.
",
    },
    Help {
        word: "busy",
        text: "\
refused busy
  The thread has a call open: 'finish' goes on with it.
",
    },
    Help {
        word: "idle",
        text: "\
refused idle
  The thread has no call open.
",
    },
    Help {
        word: "past",
        text: "\
refused past
  The time is later already: it never goes back.
",
    },
    Help {
        word: "badprio",
        text: "\
refused badprio
  The priority of a new thread is not 1 to 99.
",
    },
    Help {
        word: "toomany",
        text: "\
refused toomany
  There are as many as the limits allow.
",
    },
];

/// The help on saving.
const SAVE: &str = "\
save FILE, save! FILE
  Saves the commands with their answers as a story, for 'pif check FILE'. A file
  that is there already is left as it is by 'save', and replaced by 'save!', but
  for what is no plain file, as a folder or a link. The file keeps its mode.
";

/// The help on leaving.
const LEAVE: &str = "\
exit, quit
  Ends. At a terminal the story in which the session was kept is removed, if
  nothing changed after the last 'save'.
";

/// What is said of a word on which there is no help.
const UNKNOWN: &str = "\
no help on this word; there is help on
  thread mutex cond limits call begin go finish end tick
  word health condword prio pick
  lock trylock unlock consistent wait signal broadcast setprio timedlock
  timedwait
  help state undo redo save load exit quit
  EPERM ESRCH EAGAIN EBUSY EINVAL EDEADLK EOVERFLOW ETIMEDOUT EOWNERDEAD
  ENOTRECOVERABLE, and their numbers
  answer waits went begun ended dead ticked ok none refused
  nosuch busy idle past badprio toomany
";

/// The name of the error that has this number, if the word is such a number.
fn error_word(word: &[u8]) -> Option<&'static str> {
    let number = from_utf8(word).ok()?.parse::<u32>().ok()?;
    Some(errno_name(errno_of(number)?))
}

/// The help on a word, on the shell if there is no word, and which words there are if there is no help on it. It is
/// printable ASCII, in lines of at most 80 bytes that end in LF. An error is found by its name or its number.
pub fn help_of(word: &[u8]) -> &'static str {
    if word.is_empty() {
        return ALL;
    }
    let name = match error_word(word) {
        Some(name) => name.as_bytes(),
        None => word,
    };
    for help in HELPS.as_slice() {
        if name == help.word.as_bytes() {
            return help.text;
        }
    }
    UNKNOWN
}
