// `enum pif_result`: why there is no number.

/// There is one.
pub const OK: u32 = 0;
/// The handle holds no core.
pub const NO_CORE: u32 = 1;
/// Nothing of that number was ever added, or what is asked for isn't there.
pub const NONE: u32 = 2;
/// The limit is reached.
pub const TOO_MANY: u32 = 3;
/// The priority is outside 1 to 99.
pub const BAD_PRIO: u32 = 4;
/// The mutex to which a variable is to be bound was never added.
pub const NO_MUTEX: u32 = 5;
/// A number is outside its range.
pub const INVALID: u32 = 6;
/// The handle holds a core already.
pub const FULL: u32 = 7;
/// The heap refused a request.
pub const NO_MEMORY: u32 = 8;

// `enum pif_state`: what a thread does.

/// It may run.
pub const READY: u32 = 0;
/// It waits for a mutex.
pub const QUEUED: u32 = 1;
/// It waits for a condition variable.
pub const PARKED: u32 = 2;
/// It waits for good.
pub const STOPPED: u32 = 3;
/// It has ended.
pub const GONE: u32 = 4;

// `enum pif_what`: what became of an event.

/// The handle holds no core.
pub const NOTHING: u32 = 0;
/// The call is open.
pub const BEGUN: u32 = 1;
/// The step was taken; the call stays open and goes on.
pub const WENT: u32 = 2;
/// The thread waits.
pub const WAITS: u32 = 3;
/// The call is closed.
pub const ANSWERED: u32 = 4;
/// The thread has ended.
pub const ENDED: u32 = 5;
/// The time is the one that was handed in.
pub const TICKED: u32 = 6;
/// The event was refused, and nothing has changed.
pub const REFUSED: u32 = 7;
/// A number names nothing, and nothing has changed.
pub const UNNAMED: u32 = 8;

// `enum pif_refusal`: why an event was refused.

/// The thread was never added, or the call names what was never added.
pub const NO_SUCH: u32 = 1;
/// The thread has ended.
pub const DEAD: u32 = 2;
/// The thread has a call open already.
pub const BUSY: u32 = 3;
/// The thread has no call open.
pub const IDLE: u32 = 4;
/// The time that was handed in is before the present one.
pub const PAST: u32 = 5;

// `enum pif_kind`: the kind of a mutex, by the numbers of <pthread.h> of Linux.

/// PTHREAD_MUTEX_NORMAL.
pub const NORMAL: u32 = 0;
/// PTHREAD_MUTEX_RECURSIVE.
pub const RECURSIVE: u32 = 1;
/// PTHREAD_MUTEX_ERRORCHECK.
pub const ERRORCHECK: u32 = 2;

// `enum pif_health_of`: what a health word says.

/// What the mutex protects is in order.
pub const FINE: u32 = 0;
/// Its owner ended, and the next one has not made it consistent yet.
pub const INCONSISTENT: u32 = 1;
/// It was left inconsistent, and nobody can lock it again.
pub const UNUSABLE: u32 = 2;

// `enum pif_ended_by`: how a job over texts ended.

/// The text was read to its end; a history is legal.
pub const WHOLE: u32 = 0;
/// A line is no command, or is not allowed there.
pub const FAULT: u32 = 1;
/// A line has another answer than the core gives; a history is illegal at a line.
pub const DIFFERS: u32 = 2;
/// The heap refused a request.
pub const OUT_OF_MEMORY: u32 = 3;
/// The text could not be written to its end.
pub const UNWRITTEN: u32 = 4;
/// The text could not be read to its end.
pub const UNREAD: u32 = 5;
/// A search was given up at a line, and nothing is claimed.
pub const UNDECIDED: u32 = 6;
/// A line is a mistake of the log: the lines before it are legal, and refuse it.
pub const MISTAKE: u32 = 8;
