ghost use Rattle.std.specs.Prelude.{◌≡◌, option_and_then};
ghost use Rattle.pif_story.specs.Notes.{asked_priority, asked_room, asked_time, first_of, known_after, known_behind, known_with, missing_cond, missing_in, missing_in_addition, missing_in_event, missing_in_names, missing_in_run, missing_mutex, missing_thread, nothing_known, noted, one_more, room_for};

use crate::comparing::is_refusal;
use pif_model::Event;
use pif_text::{Addition, Command};
use pif_types::{CondId, MutexId, Named, Request, Tid};

/// What a command names or asks for, and isn't there.
#[derive(Clone, Copy)]
pub enum Missing {
    /// The thread of this number: nobody has it.
    Thread(u32),
    /// The mutex of this number: nobody has it.
    Mutex(u32),
    /// The condition variable of this number: nobody has it.
    Cond(u32),
    /// A priority that is out of range.
    Priority(u32),
    /// Room for another thread: as many as may be added are there, and this is their number.
    ThreadRoom(u32),
    /// The same for a mutex.
    MutexRoom(u32),
    /// The same for a condition variable.
    CondRoom(u32),
    /// A time before the present one, and that.
    Time(u32, u32),
}

impl Default for Missing {
    /// What fills a note that is not yet made.
    fn default() -> Missing {
        Missing::Thread(0)
    }
}

/// What is noted of a command: where it names what isn't there.
#[derive(Clone, Copy, Default)]
pub struct Note {
    /// The number of its line, from 1.
    pub line: u64,
    /// The column of what isn't there, from 1.
    pub column: u64,
    /// What isn't there.
    pub missing: Missing,
}

/// How many threads, mutexes and condition variables were added, each numbered from 1, one after the other, and which
/// time it is.
#[derive(Clone, Copy)]
pub struct Known {
    /// How many threads.
    pub threads: u32,
    /// How many mutexes.
    pub mutexes: u32,
    /// How many condition variables.
    pub conds: u32,
    /// The time, which is 0 at first.
    pub time: u32,
}

/// One more; `u32::MAX` stays.
pub fn one_more(count: u32) -> u32
    ensures { result ≡ one_more count }
{
    if count < u32::MAX { count + 1 } else { count }
}

impl Known {
    /// Before the first command.
    pub fn nothing() -> Known
        ensures { result ≡ nothing_known }
    {
        Known {
            threads: 0,
            mutexes: 0,
            conds: 0,
            time: 0,
        }
    }

    /// What is there once this was added.
    #[tactic(auto, unfolding(crate::specs::Notes::known_with))]
    fn with(&self, addition: Addition) -> Known
        ensures { result ≡ known_with self.now addition }
    {
        let Known {
            threads,
            mutexes,
            conds,
            time,
        } = *self;
        match addition {
            Addition::Thread(_) => Known {
                threads: one_more(threads),
                mutexes,
                conds,
                time,
            },
            Addition::Mutex(..) => Known {
                threads,
                mutexes: one_more(mutexes),
                conds,
                time,
            },
            Addition::Cond(_) => Known {
                threads,
                mutexes,
                conds: one_more(conds),
                time,
            },
        }
    }

    /// What is there after this event.
    #[tactic(auto, unfolding(crate::specs::Notes::known_after))]
    fn after(&self, event: Event) -> Known
        ensures { result ≡ known_after self.now event }
    {
        match event {
            Event::Tick(time) => {
                let Known {
                    threads,
                    mutexes,
                    conds,
                    ..
                } = *self;
                Known {
                    threads,
                    mutexes,
                    conds,
                    time,
                }
            }
            Event::Begin(..) | Event::Go(_) | Event::End(_) => *self,
        }
    }

    /// What is there behind a command for which this is printed.
    #[tactic(auto, unfolding(crate::specs::Notes::known_behind))]
    pub fn behind(&self, command: Command, given: &[u8]) -> Known
        ensures { result ≡ known_behind self.now command given.now }
    {
        match command {
            Command::Add(addition) => {
                if is_refusal(given) {
                    *self
                } else {
                    self.with(addition)
                }
            }
            Command::Event(event) => {
                if is_refusal(given) {
                    *self
                } else {
                    self.after(event)
                }
            }
            Command::Limits(..) | Command::Run(..) | Command::Ask(_) => *self,
        }
    }

    /// The name of a thread, if nobody has it.
    fn thread(&self, thread: Tid) -> Option<Missing>
        ensures { result ≡ missing_thread self.now thread }
    {
        let number = thread.get();
        if number <= self.threads {
            None
        } else {
            Some(Missing::Thread(number))
        }
    }

    /// The name of a mutex, if nobody has it.
    fn mutex(&self, mutex: MutexId) -> Option<Missing>
        ensures { result ≡ missing_mutex self.now mutex }
    {
        let number = mutex.get();
        if number <= self.mutexes {
            None
        } else {
            Some(Missing::Mutex(number))
        }
    }

    /// The name of a condition variable, if nobody has it.
    fn cond(&self, cond: CondId) -> Option<Missing>
        ensures { result ≡ missing_cond self.now cond }
    {
        let number = cond.get();
        if number <= self.conds {
            None
        } else {
            Some(Missing::Cond(number))
        }
    }

    /// The name of a thread, if there is one and nobody has it.
    fn thread_if_any(&self, thread: Option<Tid>) -> Option<Missing>
        ensures { result ≡ option_and_then (missing_thread self.now) thread }
    {
        self.thread(thread?)
    }

    /// The name of a mutex, if there is one and nobody has it.
    fn mutex_if_any(&self, mutex: Option<MutexId>) -> Option<Missing>
        ensures { result ≡ option_and_then (missing_mutex self.now) mutex }
    {
        self.mutex(mutex?)
    }

    /// The name of a condition variable, if there is one and nobody has it.
    fn cond_if_any(&self, cond: Option<CondId>) -> Option<Missing>
        ensures { result ≡ option_and_then (missing_cond self.now) cond }
    {
        self.cond(cond?)
    }

    /// The first of these names that nobody has: of a condition variable, a mutex and a thread, in this order.
    #[tactic(auto, unfolding(crate::specs::Notes::missing_in_names))]
    fn in_names(&self, named: &Named) -> Option<Missing>
        ensures { result ≡ missing_in_names self.now named.now }
    {
        let others = first_of(
            self.mutex_if_any(named.mutex),
            self.thread_if_any(named.thread),
        );
        first_of(self.cond_if_any(named.cond), others)
    }

    /// The first name in a request that nobody has, if there is a request.
    fn in_run(&self, request: Option<Request>) -> Option<Missing>
        ensures { result ≡ missing_in_run self.now request }
    {
        match request {
            Some(request) => self.in_names(&request.names()),
            None => None,
        }
    }

    /// The first name in an event that nobody has.
    #[tactic(auto, unfolding(crate::specs::Notes::missing_in_event))]
    fn in_event(&self, event: Event) -> Option<Missing>
        ensures { result ≡ missing_in_event self.now event }
    {
        match event {
            Event::Begin(thread, request) => {
                first_of(self.thread(thread), self.in_names(&request.names()))
            }
            Event::Go(thread) | Event::End(thread) => self.thread(thread),
            Event::Tick(_) => None,
        }
    }

    /// The name of the mutex to which an addition is bound, if nobody has it.
    fn in_addition(&self, addition: Addition) -> Option<Missing>
        ensures { result ≡ missing_in_addition self.now addition }
    {
        match addition {
            Addition::Thread(_) | Addition::Mutex(..) => None,
            Addition::Cond(mutex) => self.mutex(mutex),
        }
    }

    /// The first name in a command that nobody has.
    #[tactic(auto, unfolding(crate::specs::Notes::missing_in))]
    fn in_command(&self, command: Command) -> Option<Missing>
        ensures { result ≡ missing_in self.now command }
    {
        match command {
            Command::Limits(..) => None,
            Command::Add(addition) => self.in_addition(addition),
            Command::Event(event) => self.in_event(event),
            Command::Run(thread, request) => first_of(self.thread(thread), self.in_run(request)),
            Command::Ask(question) => self.in_names(&question.names()),
        }
    }

    /// Room for one more of what is added here, of which there are as many as may be.
    fn room_for(&self, addition: Addition) -> Missing
        ensures { result ≡ room_for self.now addition }
    {
        match addition {
            Addition::Thread(_) => Missing::ThreadRoom(self.threads),
            Addition::Mutex(..) => Missing::MutexRoom(self.mutexes),
            Addition::Cond(_) => Missing::CondRoom(self.conds),
        }
    }

    /// The room that a command asks for, if it adds something, and there are as many of these as may be.
    #[tactic(auto, unfolding(crate::specs::Notes::asked_room))]
    fn asked_room(&self, command: Command) -> Option<Missing>
        ensures { result ≡ asked_room self.now command }
    {
        match command {
            Command::Add(addition) => Some(self.room_for(addition)),
            Command::Limits(..) | Command::Event(_) | Command::Run(..) | Command::Ask(_) => None,
        }
    }

    /// The time that a command asks for, if it is a tick, and the present time.
    #[tactic(auto, unfolding(crate::specs::Notes::asked_time))]
    fn asked_time(&self, command: Command) -> Option<Missing>
        ensures { result ≡ asked_time self.now command }
    {
        match command {
            Command::Event(Event::Tick(time)) => Some(Missing::Time(time, self.time)),
            _ => None,
        }
    }
}

/// The first of two that is missing.
fn first_of(one: Option<Missing>, other: Option<Missing>) -> Option<Missing>
    ensures { result ≡ first_of one other }
{
    match one {
        Some(missing) => Some(missing),
        None => other,
    }
}

/// The priority that a command asks for, if it adds a thread.
#[tactic(auto, unfolding(crate::specs::Notes::asked_priority))]
fn asked_priority(command: Command) -> Option<Missing>
    ensures { result ≡ asked_priority command }
{
    match command {
        Command::Add(Addition::Thread(priority)) => Some(Missing::Priority(priority)),
        _ => None,
    }
}

/// What is noted of a command for which this is printed: the first name that nobody has if it is `refused nosuch`, the
/// priority that is out of range if it is `refused badprio`, the room that is missing if it is `refused toomany`, and the
/// time that is past if it is `refused past`.
#[tactic(auto, unfolding(crate::specs::Notes::noted))]
pub fn noted(known: &Known, command: Command, given: &[u8]) -> Option<Missing>
    ensures { result ≡ noted known.now command given.now }
{
    if given == b"refused nosuch".as_slice() {
        known.in_command(command)
    } else if given == b"refused badprio".as_slice() {
        asked_priority(command)
    } else if given == b"refused toomany".as_slice() {
        known.asked_room(command)
    } else if given == b"refused past".as_slice() {
        known.asked_time(command)
    } else {
        None
    }
}
