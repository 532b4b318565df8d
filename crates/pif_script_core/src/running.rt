ghost use Rattle.std.specs.Prelude.{◌≡◌, ◌+◌, ◌≤◌, ◌++◌, ◌∷◌, [], Ok, Err, None, Some, MatchOption};
ghost use Rattle.arrayvec.specs.ArrayVec.{array_vec_len};
ghost use Rattle.pif_types.specs.Bounds.{Bounds};
ghost use Rattle.pif_model.specs.Table.{new_table};
ghost use Rattle.pif_text_model.specs.declared.replies.Fact.TheVariants as fact;
ghost use Rattle.pif_text_model.specs.Replies.{text_of};
ghost use Rattle.pif_text_model.specs.Limits.{default_limits};
ghost use Rattle.pif_script_model.specs.Running.{addition_answer, addition_after, fact_or_none, was_added, priority_fact, question_answer, run_outcome, command_answer, script, first_answer, limited_answer, answer_or_fault, IsAnswer, Makes};
ghost use Rattle.pif_script_model.specs.Transcripts.{first_limits};

use pif_core::{Core, Seen};
use pif_script::{ANSWER_ROOM, Listener, OUTPUT_ROOM, Output, REPLY_ROOM, append_end};
use pif_script_model::{End, Ending, OpenFault};
use pif_text::{
    Added, Addition, Cause, Command, Fact, Question, Reply, Version, command_of, default_limits,
    reply_text,
};
use pif_types::{Health, Limits, Prio, Request, Tid};
use std::alloc::Global;
use std::marker::Model;

/// Makes an addition, and says what it is answered.
#[tactic(auto, unfolding(pif_script_model::specs::Running::addition_answer, pif_script_model::specs::Running::addition_after))]
fn add(core: &mut Core, addition: Addition) -> Added
    ensures answer { result ≡ addition_answer addition core.old }
    ensures after { core.new ≡ addition_after addition core.old }
{
    match addition {
        Addition::Thread(priority) => match core.add_thread(priority) {
            Ok(thread) => Added::Thread(thread),
            Err(fault) => Added::Refused(fault),
        },
        Addition::Mutex(kind, robust) => match core.add_mutex(kind, robust) {
            Ok(mutex) => Added::Mutex(mutex),
            Err(fault) => Added::Refused(fault),
        },
        Addition::Cond(mutex) => match core.add_cond(mutex) {
            Ok(cond) => Added::Cond(cond),
            Err(fault) => Added::Refused(fault),
        },
    }
}

fn word_fact(word: Option<u32>) -> Fact
    ensures { result ≡ fact_or_none fact.Word word }
{
    match word {
        Some(word) => Fact::Word(word),
        None => Fact::NoSuch,
    }
}

fn health_fact(health: Option<Health>) -> Fact
    ensures { result ≡ fact_or_none fact.Health health }
{
    match health {
        Some(health) => Fact::Health(health),
        None => Fact::NoSuch,
    }
}

fn uses_fact(uses: Option<u32>) -> Fact
    ensures { result ≡ fact_or_none fact.Uses uses }
{
    match uses {
        Some(uses) => Fact::Uses(uses),
        None => Fact::NoSuch,
    }
}

/// Whether a thread of this number was ever added.
fn was_added(core: &Core, thread: Tid) -> bool
    ensures { result ≡ was_added thread core.now }
{
    thread.get() <= core.threads()
}

/// The priority that a thread runs at; one that was added and runs at none has ended.
fn priority_fact(priority: Option<Prio>, added: bool) -> Fact
    ensures { result ≡ priority_fact priority added }
{
    match priority {
        Some(priority) => Fact::Priority(priority),
        None => if added { Fact::Dead } else { Fact::NoSuch },
    }
}

/// What a question is answered.
#[tactic(auto, unfolding(pif_script_model::specs::Running::question_answer))]
fn ask(core: &Core, question: Question) -> Fact
    ensures { result ≡ question_answer question core.now }
{
    match question {
        Question::Word(mutex) => word_fact(core.word(mutex)),
        Question::Health(mutex) => health_fact(core.health(mutex)),
        Question::CondWord(cond) => uses_fact(core.cond_word(cond)),
        Question::Prio(thread) => priority_fact(core.effective(thread), was_added(core, thread)),
        Question::Pick => Fact::Thread(core.pick()),
    }
}

/// A thread goes on with its call, after it has begun this one, if one is given.
fn run(core: &mut Core, thread: Tid, request: Option<Request>) -> Seen
    ensures seen { result ≡ (run_outcome thread request core.old).seen }
    ensures after { core.new ≡ (run_outcome thread request core.old).after }
{
    match request {
        Some(request) => core.call(thread, request),
        None => core.finish(thread),
    }
}

/// What a command is answered. `None` for `limits`, which is a first command alone; the core is then unchanged.
#[tactic(auto, unfolding(pif_script_model::specs::Running::command_answer))]
pub fn obey(core: &mut Core, command: Command) -> Option<Reply>
    ensures { MatchOption result ((command_answer command core.old ≡ None) × (core.new ≡ core.old))
        (λ reply. command_answer command core.old ≡ Some (reply, core.new)) }
{
    match command {
        Command::Limits(..) => None,
        Command::Add(addition) => Some(Reply::Added(add(core, addition))),
        Command::Event(event) => Some(Reply::Seen(core.step(event))),
        Command::Run(thread, request) => Some(Reply::Seen(run(core, thread, request))),
        Command::Ask(question) => Some(Reply::Told(ask(core, question))),
    }
}

/// Appends a reply and LF.
pub fn tell(reply: Reply, output: &mut Output)
    requires { array_vec_len output.old + REPLY_ROOM ≤ OUTPUT_ROOM }
    ensures told { output.new.items ≡ output.old.items ++ (text_of reply ++ 10 ∷ []) }
    ensures room { array_vec_len output.new ≤ array_vec_len output.old + REPLY_ROOM }
{
    reply_text(reply, output);
    output.push(b'\n');
}

/// The limits of the core that a first command makes; `None` if it names one that is out of its range.
#[tactic(auto, unfolding(pif_script_model::specs::Transcripts::first_limits, pif_script_model::specs::Running::limits_in))]
pub fn first_limits(command: Command) -> Option<Limits>
    ensures { result ≡ first_limits command }
{
    match command {
        Command::Limits(threads, mutexes, conds, signals) => {
            Limits::new(threads, mutexes, conds, signals)
        }
        _ => Some(default_limits()),
    }
}

/// The core under these limits, and the answer to the command `limits` that names them.
fn open_limited(alloc: Global, limits: Option<Limits>) -> Result<(Core, Reply), OpenFault>
    ensures { Makes (limited_answer limits) result }
{
    match limits {
        Some(limits) => match Core::new(alloc, limits) {
            Ok(core) => Ok((core, Reply::Done)),
            Err(_) => Err(OpenFault::NoMemory),
        },
        None => Err(OpenFault::Ended(Ending::Fault(Cause::Limits))),
    }
}

/// The core under the default limits, and the answer of it to the first command, which is one that it answers.
fn open_default(alloc: Global, command: Command) -> Result<(Core, Reply), OpenFault>
    requires { IsAnswer (answer_or_fault (command_answer command (new_table default_limits))) }
    ensures { Makes (answer_or_fault (command_answer command (new_table default_limits))) result }
{
    match Core::new(alloc, default_limits()) {
        Ok(mut core) => match obey(&mut core, command) {
            Some(reply) => Ok((core, reply)),
            None => Err(OpenFault::Ended(Ending::Fault(Cause::Command))),
        },
        Err(_) => Err(OpenFault::NoMemory),
    }
}

/// The core that the first command makes, and the answer to that command.
///
/// # Errors
///
/// The cause if the command is a fault as the first one, and `NoMemory`.
#[tactic(auto, unfolding(pif_script_model::specs::Running::first_answer, pif_script_model::specs::Running::limits_in))]
pub fn open_core(alloc: Global, command: Command) -> Result<(Core, Reply), OpenFault>
    ensures { Makes (first_answer command) result }
{
    match command {
        Command::Limits(threads, mutexes, conds, signals) => {
            open_limited(alloc, Limits::new(threads, mutexes, conds, signals))
        }
        other => open_default(alloc, other),
    }
}

/// A core that answers the lines of a script. In contracts it is the core.
#[derive(Drop)]
pub struct Running {
    core: Core,
}

impl Model for Running {
    ghost use Rattle.pif_model.specs.Table.{Table};

    ghost Value = { Table };

    ghost view = { λ s. s.core };
}

impl Listener for Running {
    ghost hearing = { script };

    #[tactic(auto, unfolding(pif_script_model::specs::Running::first_line_meaning))]
    fn open(
        alloc: Global,
        _version: Option<Version>,
        line: &[u8],
        output: &mut Output,
    ) -> Result<Option<Running>, OpenFault> {
        match command_of(line) {
            Some(command) => {
                let (core, reply) = open_core(alloc, command)?;
                tell(reply, output);
                Ok(Some(Running { core }))
            }
            None => Err(OpenFault::Ended(Ending::Fault(Cause::Command))),
        }
    }

    #[tactic(auto, unfolding(pif_script_model::specs::Running::line_meaning))]
    fn hear(&mut self, line: &[u8], output: &mut Output) -> Result<(), Ending> {
        let Some(command) = command_of(line) else {
            return Err(Ending::Fault(Cause::Command));
        };
        match obey(&mut self.core, command) {
            Some(reply) => {
                tell(reply, output);
                Ok(())
            }
            None => Err(Ending::Fault(Cause::Command)),
        }
    }

    fn close(_number: u64, _output: &mut Output) -> Result<(), Cause> {
        Ok(())
    }

    fn report(end: End, output: &mut Output) {
        append_end(end, output);
    }
}
