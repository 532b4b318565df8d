/// The program's version.
pub const VERSION: &str = "0.1";

/// What the program is for.
pub const ABOUT: &str =
    "Runs scripts on a model of priority-inheriting mutexes and condition variables,\n\
    judges histories of other implementations, and explores small programs";

/// What `run` does.
pub const ABOUT_RUN: &str = "Reads a script, and writes an answer for each of its lines";

/// What `replay` does.
pub const ABOUT_REPLAY: &str = "Reads a trace, and says whether each of its answers is given again";

/// What `trace` does.
pub const ABOUT_TRACE: &str = "Reads a story or a script, and writes its trace for 'pif replay'";

/// What `migrate` does.
pub const ABOUT_MIGRATE: &str = "Reads a trace, and writes it as a trace of version 2";

/// What `show` does.
pub const ABOUT_SHOW: &str = "Reads a story or a script, and shows each answer and what changes";

/// What `draw` does.
pub const ABOUT_DRAW: &str = "Reads a story or a script, and draws it as an SVG image";

/// What the flag of `draw` for a page does.
pub const ABOUT_HTML: &str = "Writes a page with the state after each command";

/// What the first line of `draw` is.
pub const ABOUT_FROM: &str = "The first line of the story that is drawn";

/// What the last line of `draw` is.
pub const ABOUT_TO: &str = "The last line of the story that is drawn";

/// What the flag of `show` for all there is does.
pub const ABOUT_ALL: &str = "Prints all there is after each line, not just what has changed";

/// What `shell` does.
pub const ABOUT_SHELL: &str = "Answers a script line by line while a person types it";

/// What the flag of `show` for JSON does.
pub const ABOUT_JSON: &str = "Writes the state after each command as a line of JSON";

/// What the flag of `show` for Graphviz does.
pub const ABOUT_DOT: &str = "Writes who waits for whom at the end, for Graphviz";

/// What `check` does.
pub const ABOUT_CHECK: &str = "Reads stories, and says whether the core gives their answers";

/// What `judge` does.
pub const ABOUT_JUDGE: &str =
    "Reads histories of an implementation, and says whether they are legal";

/// What the flag of `judge` for a person does.
pub const ABOUT_WITNESS: &str = "Writes a run of each legal history, too";

/// What the flag of `judge` for JSON does.
pub const ABOUT_RUN_JSON: &str = "Writes the verdict and a run as lines of JSON";

/// What the flag of `judge` for a page does.
pub const ABOUT_RUN_HTML: &str = "Writes a page with the verdict and a run; of one file";

/// What the flag of `judge` for rules does.
pub const ABOUT_LEAST: &str = "Says which of the rules of --allow a history needs";

/// What the flag of `judge` against the second line does.
pub const ABOUT_PLAIN: &str = "Doesn't say what POSIX says if a history isn't legal";

/// What the option of `judge` for states does.
pub const ABOUT_STATES: &str = "Most states for a line, 1 to 16777216";

/// What the option of `judge` for a time does.
pub const ABOUT_SECONDS: &str = "Searches no line after N seconds, to 86400; 0: no limit";

/// What the option of `judge` for several histories does.
pub const ABOUT_JOBS: &str = "Most histories judged side by side, 1 to 64";

/// What the option of `judge` for rules does.
pub const ABOUT_ALLOW: &str = "Allows a rule: 'steal', 'recursion=300', 'posix', 'all'";

/// What the option of `judge` for parts does.
pub const ABOUT_SPLIT: &str = "Writes the parts of the history, and an index, into DIR";

/// What the option of `judge` for the lines of a part does.
pub const ABOUT_PART_LINES: &str = "Least lines of a part, 1 to 4294967295";

/// What the option of `judge` for the verdicts on parts does.
pub const ABOUT_JOINED: &str = "Joins the verdicts on the parts of INDEX into one";

/// What the flag of `judge` for a history that is still written does.
pub const ABOUT_FOLLOW: &str = "Judges one history while it is read, to its end";

/// What the files of `judge` are.
pub const ABOUT_HISTORIES: &str = "The histories to read; '-' or none is the standard input";

/// What `explore` does.
pub const ABOUT_EXPLORE: &str = "Reads a small program that locks, and tells all its outcomes";

/// What the flag of `explore` does.
pub const ABOUT_SCHEDULES: &str = "Writes a schedule of each outcome, too";

/// What the flag of `explore` for calls does.
pub const ABOUT_CALLS: &str = "Names the call before each answer of an outcome";

/// What the flag of `explore` for claims alone does.
pub const ABOUT_CLAIMS: &str = "Leaves the answers of calls out; makes fewer states";

/// What the flag of `explore` for programs does.
pub const ABOUT_FOUND_JSON: &str = "Writes lines of JSON, with a schedule of each outcome";

/// What the flag of `explore` for a page does.
pub const ABOUT_FOUND_HTML: &str = "Writes a page with all that is found, and its schedules";

/// What the flag of `explore` for faults does.
pub const ABOUT_FAULTS: &str = "Ends with status 5 if a fault is reported, too";

/// What the option of `explore` for a time does.
pub const ABOUT_SEARCHED: &str = "Searches for at most N seconds, 0 to 86400; 0: no limit";

/// What the option of `explore` for cores does.
pub const ABOUT_CORE: &str = "Plays N schedules on the core, 1 to 1000000; else 10000";

/// What the option of `explore` for states does.
pub const ABOUT_KEPT: &str = "Most states that are kept, 1 to 16777216";

/// What the file of a command is.
pub const ABOUT_FILE: &str = "The file to read; '-' or none is the standard input";

/// What the files of `check` are.
pub const ABOUT_FILES: &str = "The files to read, each a story; '-' or none is the standard input";

/// What the flag of `check` for refusals does.
pub const ABOUT_STRICT: &str = "Wants an answer beside each refusal, too";

/// What the flag of `check` for stories on standard output does.
pub const ABOUT_PRINT: &str = "Prints each story with its answers, and checks none";

/// What the flag of `check` for stories in their files does.
pub const ABOUT_WRITE: &str = "Writes the answers of each story into its file, and checks none";

/// How `check` is called.
pub const USAGE_CHECK: &str = "pif check [--strict | --print | --write] [FILE]...";

/// How `judge` is called.
pub const USAGE_JUDGE: &str =
    "pif judge [--witness | --json | --html | --least] [OPTIONS] [FILE]...";

/// How `explore` is called.
pub const USAGE_EXPLORE: &str =
    "pif explore [--witness] [--calls] [--json | --html] [OPTIONS] [FILE]";

/// How `run` is called.
pub const USAGE_RUN: &str = "pif run [FILE]";

/// How `replay` is called.
pub const USAGE_REPLAY: &str = "pif replay [FILE]";

/// How `trace` is called.
pub const USAGE_TRACE: &str = "pif trace [FILE]";

/// How `migrate` is called.
pub const USAGE_MIGRATE: &str = "pif migrate [FILE]";

/// How `show` is called.
pub const USAGE_SHOW: &str = "pif show [--all | --json | --dot] [FILE]";

/// How `draw` is called.
pub const USAGE_DRAW: &str = "pif draw [--html] [--from L] [--to L] [FILE]";

/// How `shell` is called.
pub const USAGE_SHELL: &str = "pif shell";

/// What `random` does.
pub const ABOUT_RANDOM: &str = "Writes a random script, the same for the same seed";

/// How `random` is called.
pub const USAGE_RANDOM: &str = "pif random --seed N --lines L [OPTIONS]";

/// What the seed of `random` is.
pub const ABOUT_SEED: &str = "Which script, 0 to 18446744073709551615";

/// What the lines of `random` are.
pub const ABOUT_LINES: &str = "How many lines, 1 to 262144";

/// What the threads of `random` are.
pub const ABOUT_THREADS: &str = "How many threads at first, 1 to 1024";

/// What the mutexes of `random` are.
pub const ABOUT_MUTEXES: &str = "How many mutexes at first, 0 to 1024";

/// What the condition variables of `random` are.
pub const ABOUT_CONDS: &str = "How many condition variables, 0 to 256";

/// What the robust mutexes of `random` are.
pub const ABOUT_ROBUST: &str = "Makes about half of the mutexes robust";

/// What the ends of `random` are.
pub const ABOUT_ENDS: &str = "Lets threads end, in the middle of calls too";

/// What the times of `random` are.
pub const ABOUT_TIMES: &str = "Lets time go on, and calls have deadlines";

/// What `drive` does.
pub const ABOUT_DRIVE: &str = "Lets clients in real threads lock a mutex, and counts the answers";

/// How `drive` is called.
pub const USAGE_DRIVE: &str = "pif drive N";

/// What the number of `drive` is.
pub const ABOUT_CLIENTS: &str = "How many clients, 1 to 64";

/// The end of the program's help.
pub const EXAMPLE: &str =
    "Example:\n  printf 'thread 10\\nmutex normal\\ncall t1 lock m1\\nword m1\\n' | pif run";

/// The end of the help of `run`.
pub const MORE_RUN: &str =
    "A script comes from FILE, or from the standard input: one command a line, each
answered by one line.

The commands of scripts:
  limits T M C S    the most threads, mutexes, variables and signals; on the
                    first line only
  thread P          adds a thread of base priority P, 1 to 99; the first is t1
  mutex K           adds a mutex, normal, default, errorcheck or recursive; the
                    first is m1
  mutex K robust    adds one that outlives its owner's end
  cond mN           adds a condition variable, bound to mutex N; the first is c1
  call tN Q         thread N begins the call Q, and goes on until it is answered
                    or waits
  begin tN Q        thread N begins the call Q, and takes no step yet
  go tN             thread N takes one step of its call
  finish tN         thread N goes on until its call is answered or waits
  end tN            thread N ends, whatever it does
  tick N            the time is N from now on; it is 0 at first
  word mN           shows the word of mutex N
  health mN         shows whether mutex N is fine, inconsistent or unusable
  condword cN       shows how often condition variable N was signalled or
                    broadcast
  prio tN           shows the effective priority of thread N
  pick              shows the thread that runs next

The calls Q: lock mN, trylock mN, unlock mN, consistent mN, setprio tN P,
wait cN mN, signal cN, broadcast cN, timedlock mN D, timedwait cN mN D, which
wait until the time is D

Status: 0 done, 1 wrong words, 2 a fault of the script, 3 a read or write
failed, 4 out of memory.
Standard error says what went wrong, and in which line.";

/// The end of the help of `replay`.
pub const MORE_REPLAY: &str =
    "A trace comes from FILE, or from the standard input. Its first line is
'pif-trace 2', or 'pif-trace 1' of an older one; each line after it is a
command, ' = ' and the answer that was recorded, as in 'thread 10 = t1'.

The commands of traces:
  limits T M C S    the most threads, mutexes, variables and signals; on the
                    second line only
  thread P          adds a thread of base priority P
  mutex K           adds a mutex, normal, default, errorcheck or recursive
  mutex K robust    adds one that outlives its owner's end
  cond mN           adds a condition variable, bound to mutex N
  begin tN Q        thread N begins the call Q
  go tN             thread N takes one step of its call
  end tN            thread N ends
  tick N            the time is N from now on; in version 2 alone

It prints 'same N', with the number of answers; or 'differs L X', with the first
line that differs and what the core gives there; or 'fault L cause', with the
first line that is not a line of a trace.

Status: 0 the same, 1 wrong words, 2 a fault of the trace, 3 a read or write
failed, 4 out of memory, 5 a difference.
Standard error says what went wrong, and in which line.";

/// The end of the help of `trace`.
pub const MORE_TRACE: &str =
    "A story or a script comes from FILE, or from the standard input, as 'pif check'
or 'pif run' takes it; 'pif run --help' names the commands. All is read first.
Answers that stand in it are not compared.

Its trace begins with 'pif-trace 2' and the line of the limits. After them
stand the threads, mutexes and variables that were added, and each begin, go,
end and tick, all with what the core answered, as in 'go t1 = went'. 'call' and
'finish' stand there as the begin and the go of which they are made. What was
not added, and what only asks, leaves no line; nor does a fault.

Status: 0 done, 1 wrong words, 2 a fault, 3 a read or write failed, 4 out of
memory.
Standard error says what went wrong, and in which line.";

/// The end of the help of `migrate`.
pub const MORE_MIGRATE: &str =
    "A trace comes from FILE, or from the standard input, of version 1 or 2, as
'pif replay' takes it.

It is read to its end. Then it is written with 'pif-trace 2' as its first line,
and all after that as it is. Nothing is run and no answer is compared:
'pif replay' prints the same of both. The form of each line is checked; of a
fault 'fault L cause' is printed, and nothing of the trace.

Status: 0 done, 1 wrong words, 2 a fault of the trace, 3 a read or write
failed, 4 out of memory.
Standard error says what went wrong, and in which line.";

/// The end of the help of `show`.
pub const MORE_SHOW: &str =
    "A story or a script comes from FILE, or from the standard input, as 'pif check'
or 'pif run' takes it; 'pif run --help' names the commands. All is read first.
Answers that stand in it are not compared.

For each command it prints the command after '> ', what 'pif run' answers it,
with the name of an error after its number, and those of these lines that it
has changed; with --all, all of them:
  time N         the time, once one was handed in
  tN             its effective priority, and its base priority if that differs;
                 what it does; the call that it has open; the mutexes that it
                 holds
  mN             its kind; of a robust one its state by POSIX, and its health
                 word if that still says something else; its word; its owner;
                 its waiters, the next one first
  cN             its mutex; how often it was used; who is parked on it, the next
                 one first
  run queue      the threads that are ready, the one that runs next first
  chain          who waits for which mutex, who holds it, and for which that one
                 waits
What is empty is left out; if a line has emptied the run queue, or ended the
last chain, 'none' stands there. A comment '# t1: low' gives t1 the name low,
which then stands after it. This text is for reading, and may change; 'pif run'
prints for programs.

With --json or --dot it prints nothing of a story with a fault. docs/FORMATS.md
says what they print. Of several flags the first of --json, --dot and --all
counts.

Status: 0 done, 1 wrong words, 2 a fault, 3 a read or write failed, 4 out of
memory.
Standard error says what went wrong, and in which line; without --json and
--dot, at status 0, which names nobody has. 'fault N' counts commands alone;
standard error has the line of the file.

Example:
  pif show --json examples/unusable_mutex.story | tools/perfetto > trace.json";

/// The end of the help of `draw`.
pub const MORE_DRAW: &str =
    "A story or a script comes from FILE, or from the standard input, as 'pif check'
or 'pif run' takes it. Answers that stand in it are not compared.

The image has a column for each command and a lane for each thread: whether it
runs, is ready, waits or is parked; its priority, with a boost filled in; and
the mutexes that it holds. Arrows are hand-overs and signals. It has no scripts,
and a browser shows what each part is under the pointer. With --html it stands
in a page, which needs nothing else, above the state after a command that one
chooses. A comment '# t1: low' gives t1 the name low.

At most 5000 commands are drawn, since browsers open no wider image. Of a longer
story --from and --to choose the lines; with --html all commands count. All is
read first, and nothing is printed of a story with a fault.

Status: 0 done, 1 wrong words, 2 a fault of the story, 3 a read or write failed,
4 out of memory.
Standard error says what went wrong, and in which line.

Example:
  pif draw examples/holder_is_boosted_until_it_unlocks.story > x.svg";

/// The end of the help of `shell`.
pub const MORE_SHELL: &str =
    "It reads one command a line, as 'pif run --help' names them, and answers each at
once, with the name of an error after its number. A line that begins with '#',
and an empty one, are passed over. A line that is no command is told so, and
changes nothing.

Besides, it knows
  help          names the commands; 'help WORD' tells of one, of a call, of an
                error, as EDEADLK or 35, or of another answer, as waits
  state         shows what there is, as 'pif show' does
  undo          takes the last command back; 'undo N' the last N of them
  redo          gives the command again that was taken back last
  save FILE     saves the commands with their answers as a story, in a new file;
                'save! FILE' replaces a plain file
  load FILE     begins with the commands of a story or a script
  exit          ends, and so does 'quit'

At a terminal each line has '> ' before it. The session is kept as one goes on,
in a story that is named at the beginning and at the end. 'exit' removes it if
nothing came after the last 'save'. The end of input, Ctrl-D, ends too.

Status: 0 at the end, 1 wrong words, 3 a read or write failed.
Standard error says what went wrong.";

/// What `judge` reads, and what it answers.
pub const MORE_JUDGE: &str =
    "A history is what was seen of an implementation with real threads, in the order
in which it was seen. Its lines:
  limits T M C S              first, or not at all
  allow RULE ..               before the first 'begin': rules, by their names
  thread P, mutex K [robust] [none], cond mN
                              as in scripts, before the first use; who waits for
                              a mutex with 'none' lends nothing
  begin tN CALL               the thread entered the call, as 'begin t1 lock m1'
  answer tN A                 its call returned 0, or an error: 16 or EBUSY
  dying tN, later end tN      the thread ended somewhere between these lines
  tick N                      the time is N from here on
  rests tN, prio tN P         the thread was seen blocked, or at this priority
  halted, later resumed       nothing ran between these lines, which are
                              'rests', 'prio' and 'end'
  process tN ..               the process of these threads ends, with them all

Rules are what may happen beside. POSIX leaves open: any_waiter, spurious,
recursion N or A..B (--allow recursion=N), held_wait, barge, cycle_waits,
cycle_refused, timeout_consumes, ends_apart, stays_locked, rebinds, more_uses,
refuses_setprio, consistent_by_any, cut_unlock, other_error, wait_gives_all;
'posix' names all of them.
Implementations do against POSIX: steal, own_errorcheck, any_consistent,
lost_signal, revives. Those of the history and of each --allow hold together.

For each history it prints:
  legal N, C calls
    some run of the POSIX machine, with the rules, shows its N lines, which
    begin C calls; ', but for 41: EPERM of consistent' if it has an answer that
    no page of POSIX has; 'legal N, with no call' if none begins: nothing was
    judged. 'open at the end: t1 lock m2, ..' has the calls without an answer,
    and 'deadlock at the end: t1 m2, ..' says that none can have one any more
  illegal at L: LINE
    no run shows the lines up to L; 'possible there: A ..' has the answers with
    which one does, 'refused WORD' says why there is none, whatever was
    answered, and 'legal if line K had A' has another answer that mends it
  log L: refused WORD
    the lines before L are legal, and refuse line L by themselves: a mistake of
    the log
  legal up to K; undecided from L: LINE; found there: A ..
    some run shows the lines up to K, and it isn't known whether one shows those
    up to L: more states than --states were made for a line, or the time of
    --seconds was over. With these answers in L a run was found
  fault L CAUSE
    line L is the first that is a fault
Of an illegal or undecided one a line says what POSIX says, unless --plain is
given. It is asked with 'posix' and with the rules that are allowed; it knows no
mutexes without inheritance:
  POSIX allows it: RULE ..
    with these of its rules, and no fewer, some run shows the lines; or with
    these, 'perhaps fewer'; and 'but for 41: ..' as above
  POSIX forbids it from M
    with all its rules no run shows the lines up to M; what is possible there is
    told behind it
  POSIX may leave it undefined: K: LINE
    it forbids it from a line behind K; but in some run it leaves undefined what
    the call does that begins at K
  POSIX: undecided
With --json it prints an object for the verdict, and one for each line of a run
with the moves before it: of a run that shows the history, or the lines before
line L. Behind them come what POSIX says, and both again with its rules. With
--html they stand in a page, which needs nothing from elsewhere: a lane for each
thread, and a click on a step shows the state after it. A fault has no object
and no page.
With --least it looks among the rules of --allow for the fewest with which the
history is legal, as 'legal N, C calls, with steal spurious'; it names none if
none is needed, and 'recursion' with the bounds that are needed. If it is
illegal with all of them, that is told as without --least. If the search is
given up for some rules, it prints 'undecided at L with' and these rules.
Several files are judged side by side, by as many threads as there are
processors, or as --jobs says. What is printed is the same, in their order.

With --split DIR a long history is written into the folder DIR in parts, which
are histories of their own, with the file 'index'; the names of the parts are
printed. It is cut where no call is open, nobody holds a mutex and no thread is
dying. With --joined INDEX what 'pif judge' printed of the parts is read, in any
order, and the verdict on the whole is printed:
  pif judge --split parts long.history | parallel --tag pif judge --plain |
    pif judge --joined parts/index
With --follow one history is judged as it is read, at such places, after each
--lines lines, and what was judged is forgotten. Each time standard error
says 'legal up to K'. Input that still grows is read to its end, as of a pipe:
  tail -n +1 -f --pid=PID a.history | pif judge --follow
A history with rules, 'none', 'process', 'halted' or 'resumed' isn't cut.

Example:
  printf 'thread 10\\nmutex normal\\nbegin t1 lock m1\\nanswer t1 0\\n' | pif judge
prints 'legal 4, 1 call'.

Status, of the first history that is not legal: 0 legal, 1 wrong words, 2 a
fault, 3 a read or write failed, 4 out of memory, 5 illegal, 7 undecided or no
call, 8 POSIX allows it, 9 it may leave it undefined, 10 a mistake of the log.
With a line of POSIX, 5 and 7 are what it says. Standard error says what went
wrong, and in which line.";

/// What `explore` reads, and what it answers.
pub const MORE_EXPLORE: &str =
    "A file has what there is, a program for each thread, and what must hold. Its
lines:
  limits T M C S              first, or not at all
  allow RULE ..               as in histories, before all programs
  thread P, mutex K [robust] [none], cond mN
                              as in histories, before all programs
  cell xN V                   the value of a cell at first, 0 to 255. These four
                              may have a name: 'thread P NAME', 'cell NAME V'
  do tN ..: S; S; ..          what the threads do. S is a call, as 'lock m1',
                              'set x1 1', 'add x1 x2' or 'choose x1 0..3' for
                              a cell, 'join tN', 'start tN', 'exit', 'break', or
                              has a block, which may have several lines:
                              'if T { .. } else if T { .. } else { .. }' and
                              'while T { .. }'. T asks for the last answer, as
                              '130', or for a cell, as 'x1 = 0' or 'x1 < x2',
                              also with 'not', 'and', 'or' and '(..)'
  ends N [of tN ..]           at most N threads end, if 'of' is there only these
  ticks N N ..                these times come
  never: C, always: C         of all states that are reached
  finally: C                  of those from which only ends lead
  sometimes: C                of some state. C is made of 'tN stuck',
                              'tN ended', 'tN answered A',
                              'tN runs at [least] P',
                              'tN waits for mN', 'tN blocked on cN',
                              'tN holds mN N times', 'mN free',
                              'mN held by tN', 'mN inconsistent',
                              'mN unusable', 'xN = V', 'xN < xN', 'xN > V',
                              'not', 'and', 'or' and '(..)'

It runs the programs in all interleavings, and prints a line for each outcome:
the last answer of each call, '-' for one that was never answered, why a thread
is stuck, and mutexes and cells. Then, and last:
  kept at L, broken at L      line L is kept; or the steps below lead to a state
                              that breaks it, or, of 'sometimes', meets it
  undecided at L              no state that was found breaks it, and there are
                              more
  race: tN tN xN              two accesses to xN unordered; the first writes it
  misuse: tN CALL             POSIX leaves tN's call undefined, or refuses it
  deadlock: tN                at the end tN waits for a mutex
  cycle: tN mN                tN locks mN next, whose owner waits for tN
  lost wake-up: tN cN         at the end tN waits on cN; a signal woke nobody
  stuck: tN WHY               at the end tN is not through its program
  livelock                    from some state no final one is reached
  N outcomes, S states, T steps
It begins with 'undecided: ' if there are more states than --states, or the time
of --seconds was over. The first line that is a fault is told by 'fault L
CAUSE', alone. With --calls an outcome has 't1 lock m1 0; wait c1 m1 -; ..'.
With --claims it has no answers of calls: 't1; t2 ended; m1 free'. Then fewer
states are made, and claims, delays and faults are the same. With --json it
prints an object for the program, and one for each claim, delay, fault and
outcome, with a schedule and the state after each step; the last one has the
counts. With --html they stand in a page, which needs nothing from elsewhere. A
fault of the file has no object and no page. With --core a line for each outcome
follows, 'outcome K: seen on the core' or 'not seen on the core', one for each
claim, and 'N schedules on the core', where N is 10000 if no number
stands after --core. The core has no mutex with 'none'.

Example:
  printf 'thread 10\\nmutex normal\\ndo t1: lock m1\\n' | pif explore
prints 't1 0; m1 held by t1' and '1 outcomes, 4 states, 3 steps'.

Status: 0 all is kept, 1 wrong words, 2 a fault, 3 a read or write failed, 4 out
of memory, 5 a claim is broken or, with --strict, a fault such as 'race' is
reported, 7 undecided. Standard error says what went wrong.";

/// The end of the help of `check`.
pub const MORE_CHECK: &str =
    "A story is a script for people. A line of it is a command, as 'pif run' takes
it, with ' = ' and its answer after it or without, as in 'thread 10   = t1'; or
it is empty. More blanks, and tabs, do as one, and '#' begins a comment. The
answer of an error may name it, as 'answer EDEADLK' or 'answer 35 EDEADLK'.

For a story that is ok it prints one line, else one for each flaw; after the
20th, one for all others:
  ok NAME N
    it has N commands, and each answer that stands in it is the core's
  NAME: differs L: C = W, but the core gives G
    line L has another answer, after the command C
  NAME: refused L: C: R
    with --strict: line L has no answer after the command C, and the core
    refuses it by R
  NAME: fault L CAUSE: C
    line L is the first that is a fault, with the command C
  NAME: and K more
    K flaws have no line of their own

With --print it prints each story with the answers of all its commands, in one
column, and in the form that they have there. Of several stories each stands
after a line '# NAME'.

With --write it does so in the file of each story: a new file, whose name ends
in '.new', takes its place and has its mode. A story with a fault stays as it
is, and so does what is no plain file.

Status, of the first story that is not ok: 0 ok, 1 wrong words, 2 a fault,
3 a read or write failed, 4 out of memory, 5 a difference or such a refusal.
Standard error says what went wrong, and in which line; of a story that is ok,
which names in it nobody has.";

/// The end of the help of `random`.
pub const MORE_RANDOM: &str =
    "Each line is a command, and a run of the script has no fault. The threads,
mutexes and condition variables come first. Then threads begin calls and go on
with them, a step at a time or up to the answer. Most calls are possible, and
some are refused. If a thread has ended, or all rest, one more is added; so is a
mutex if one is of no use any more.

Status: 0 done, 1 wrong words, 3 a write failed, 4 out of memory.
Standard error says what went wrong.

Example:
  pif random --seed 1 --lines 30 --robust --ends | pif show";

/// The end of the help of `drive`.
pub const MORE_DRIVE: &str =
    "The mutex is errorcheck and robust. Client i has priority i; each locks and
unlocks the mutex 100 times, in a thread of its own. Then the journal of what
was done is compared with what each client was answered.

It prints 'answered A', where A is 200 times N; or 'fault threads', if a thread
cannot be started; or 'unsettled', if journal and clients don't agree.

Status: 0 done, 1 wrong words, 3 a write failed, 4 out of memory, 6 a thread
cannot be started, or journal and clients don't agree.
Standard error says what went wrong.";
