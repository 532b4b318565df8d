//! A core with the journal of what was done with it.
ghost use Rattle.std.specs.Prelude.{◌≡◌, ◌<◌, ◌≤◌, ◌++◌, [], ◌∷◌, length, vec_len, vec_capacity, true, Ok, IfOk, IfErr, OnOk, OnErr};
ghost use Rattle.pif_model.specs.declared.events.Entry.{Entry};
ghost use Rattle.pif_model.specs.Posix.{World};
ghost use Rattle.pif_model.specs.Standing.{Stands, WhereStands};
ghost use Rattle.pif_model.specs.Lines.{event_outcome};
ghost use Rattle.pif_model.specs.Table.{thread_added, mutex_added, cond_added};
ghost use Rattle.pif_model.specs.Calls.{add_thread_answer, add_mutex_answer, add_cond_answer};
ghost use Rattle.pif_desk.specs.Logs.{event_of, begins, is_answer_to, is_answer_of};
ghost use Rattle.pif_desk.specs.Rooms.{StandsAfter, Turns, Adds, IsExact, IsWhyNotAdded, client_after};
ghost use Rattle.pif_desk.specs.Sleeping.{rests_in};

use crate::client::Client;
use crate::faults::DeskFault;
use crate::log::{Act, Call, Mark, note};
use pif_core::Core;
use pif_model::{Entry, Event, Seen};
use pif_types::{AddFault, CondId, Kind, MutexId, NoMemory, Prio, Request, Tid, push_within};
use std::alloc::Global;
use std::marker::Model;

/// A core, and the journal of all that was done with it, the oldest entry first. The core stands after the history that
/// the journal tells.
#[derive(Drop)]
pub struct Room {
    pub(crate) core: Core,
    pub(crate) journal: Vec<Entry>,
    /// How many entries more there shall be room for once the journal is full.
    growth: usize,
}

impl Model for Room {
    ghost use Rattle.std.specs.Prelude.{◌≤◌};
    ghost use Rattle.pif_desk.specs.Rooms.{RoomState, StandsAfter};

    ghost Value = { RoomState };

    ghost view = { λ r. record { core = r.core; journal = r.journal.items } };

    ghost invariant = { λ r. (1 ≤ r.growth) × StandsAfter r.core r.journal.items };
}

/// Makes room for one item more, or, if the list is full, for so many, and changes none.
fn make_room<T: Drop>(items: &mut Vec<T>, growth: usize) -> Result<(), NoMemory>
    requires { 1 ≤ growth }
    ensures items { items.new.items ≡ items.old.items }
    ensures room { OnOk result (vec_len items.new < vec_capacity items.new) }
    ensures refused { OnErr result (vec_len items.old ≡ vec_capacity items.old) }
{
    if items.len() < items.capacity() {
        return Ok(());
    }
    match items.try_reserve(growth) {
        Ok(()) => Ok(()),
        Err(_) => Err(NoMemory),
    }
}

/// Makes room in a log for a call that begins, and changes none.
fn make_room_for(calls: &mut Vec<Call>, act: &Act) -> Result<(), NoMemory>
    ensures items { calls.new.items ≡ calls.old.items }
    ensures room { OnOk result (begins act.now ≡ true → vec_len calls.new < vec_capacity calls.new) }
{
    match act {
        Act::Begin(_) => make_room(calls, 1),
        Act::Go | Act::End => Ok(()),
    }
}

/// The entry that this event was answered so.
fn step_entry(event: &Event, seen: &Seen) -> Entry
    ensures { result ≡ Entry.Step event.now seen.now }
{
    Entry::Step(*event, *seen)
}

/// The entry that this thread was added.
fn thread_entry(t: &Tid, prio: Prio) -> Entry
    ensures { result ≡ Entry.Thread t.now prio }
{
    Entry::Thread(*t, prio)
}

/// The entry that this mutex was added.
fn mutex_entry(m: &MutexId, kind: Kind, robust: bool) -> Entry
    ensures { result ≡ Entry.Mutex m.now kind robust }
{
    Entry::Mutex(*m, kind, robust)
}

/// The entry that this variable was added.
fn cond_entry(c: &CondId, m: &MutexId) -> Entry
    ensures { result ≡ Entry.Cond c.now m.now }
{
    Entry::Cond(*c, *m)
}

/// Writes an entry behind the others. There has to be room for it.
fn write(journal: &mut Vec<Entry>, entry: Entry)
    requires { vec_len journal.old < vec_capacity journal.old }
    ensures { journal.new.items ≡ journal.old.items ++ entry ∷ [] }
{
    // The types that an entry has inside are named, so that the borrow checker finds them.
    let _inside: Option<(Event, Request)> = None;
    push_within(journal, entry);
}

/// The core makes this step, and the journal has it. There has to be room for it.
fn step(core: &mut Core, journal: &mut Vec<Entry>, event: Event) -> Seen
    requires { vec_len journal.old < vec_capacity journal.old }
    ensures answer { result ≡ (event_outcome event core.old).seen }
    ensures core { core.new ≡ (event_outcome event core.old).after }
    ensures journal { journal.new.items ≡ journal.old.items ++ Entry.Step event result ∷ [] }
    ensures stands { WhereStands core.old (λ h r w.
        (v : World) × Stands core.new (Entry.Step event result ∷ h) (w ∷ r) v) }
{
    let seen = core.step(event);
    write(journal, step_entry(&event, &seen));
    seen
}

impl Room {
    /// A room with this core, to which nothing was added, and an empty journal.
    pub(crate) fn new(alloc: Global, core: Core) -> Room
        requires { (w : World) × Stands core [] [] w }
        ensures core { result.core ≡ core }
        ensures journal { result.journal ≡ [] }
    {
        Room {
            core,
            journal: Vec::new(alloc),
            growth: 1,
        }
    }

    /// One event, and what it was answered: the core makes that step, also if it refuses the event, and the journal has
    /// one entry more. `NoMemory`, with nothing changed, if the journal can't grow.
    pub fn turn(&mut self, event: Event) -> Result<Seen, NoMemory>
        ensures turned { IfOk result (λ seen. Turns event seen self.old self.new) }
        ensures fits { IfOk result (λ seen. is_answer_of event seen ≡ true) }
        ensures unchanged { OnErr result (self.new ≡ self.old) }
    {
        // Room first: a step can't be taken back, and the journal would lack the entry of one that found no room.
        make_room(&mut self.journal, self.growth)?;
        Ok(step(&mut self.core, &mut self.journal, event))
    }

    /// Adds a thread of base priority `prio`, 1 to 99, as `Core::add_thread` does, and the journal has one entry more.
    /// `NoMemory` if the journal can't grow, which is tried first. Else `NotAdded(BadPrio)` if `prio` is outside its
    /// range, and `NotAdded(TooMany)` at the limit. Nothing has changed then.
    pub fn add_thread(&mut self, prio: u32) -> Result<Tid, DeskFault>
        ensures added { IfOk result (λ t. (add_thread_answer prio self.old.core ≡ Ok t)
            × Adds (thread_added prio self.old.core) (Entry.Thread t prio) self.old self.new) }
        ensures unchanged { OnErr result (self.new ≡ self.old) }
        ensures why { IfErr result (λ f. IsWhyNotAdded f (add_thread_answer prio self.old.core)) }
    {
        if make_room(&mut self.journal, self.growth).is_err() {
            return Err(DeskFault::NoMemory);
        }
        let Some(level) = Prio::new(prio) else {
            return Err(DeskFault::NotAdded(AddFault::BadPrio));
        };
        match self.core.add_thread(prio) {
            Ok(t) => {
                write(&mut self.journal, thread_entry(&t, level));
                Ok(t)
            }
            Err(fault) => Err(DeskFault::NotAdded(fault)),
        }
    }

    /// Adds a mutex as `Core::add_mutex` does, and the journal has one entry more. `NoMemory` if the journal can't
    /// grow, which is tried first, else `NotAdded(TooMany)` at the limit. Nothing has changed then.
    pub fn add_mutex(&mut self, kind: Kind, robust: bool) -> Result<MutexId, DeskFault>
        ensures added { IfOk result (λ m. (add_mutex_answer self.old.core ≡ Ok m)
            × Adds (mutex_added kind robust self.old.core) (Entry.Mutex m kind robust) self.old self.new) }
        ensures unchanged { OnErr result (self.new ≡ self.old) }
        ensures why { IfErr result (λ f. IsWhyNotAdded f (add_mutex_answer self.old.core)) }
    {
        if make_room(&mut self.journal, self.growth).is_err() {
            return Err(DeskFault::NoMemory);
        }
        match self.core.add_mutex(kind, robust) {
            Ok(m) => {
                write(&mut self.journal, mutex_entry(&m, kind, robust));
                Ok(m)
            }
            Err(fault) => Err(DeskFault::NotAdded(fault)),
        }
    }

    /// Adds a condition variable that is bound to a mutex, as `Core::add_cond` does, and the journal has one entry
    /// more. `NoMemory` if the journal can't grow, which is tried first. Else `NotAdded(NoSuch)` if the mutex was never
    /// added, and `NotAdded(TooMany)` at the limit. Nothing has changed then.
    pub fn add_cond(&mut self, mutex: MutexId) -> Result<CondId, DeskFault>
        ensures added { IfOk result (λ c. (add_cond_answer mutex self.old.core ≡ Ok c)
            × Adds (cond_added mutex self.old.core) (Entry.Cond c mutex) self.old self.new) }
        ensures unchanged { OnErr result (self.new ≡ self.old) }
        ensures why { IfErr result (λ f. IsWhyNotAdded f (add_cond_answer mutex self.old.core)) }
    {
        if make_room(&mut self.journal, self.growth).is_err() {
            return Err(DeskFault::NoMemory);
        }
        match self.core.add_cond(mutex) {
            Ok(c) => {
                write(&mut self.journal, cond_entry(&c, &mutex));
                Ok(c)
            }
            Err(fault) => Err(DeskFault::NotAdded(fault)),
        }
    }

    /// One event of a client's thread, as `turn` makes it. The client's log has it: a call that has begun is an open
    /// entry more, an answer closes the last entry, if it is open, with the position that it has in the journal, and an
    /// end marks the log. All else leaves the log. `NoMemory`, with nothing changed, if the journal can't grow, or the
    /// log at a beginning. A log that was just the calls of its thread in the journal is so afterwards.
    pub fn play(&mut self, client: &mut Client, act: Act) -> Result<Seen, NoMemory>
        ensures turned { IfOk result (λ seen. Turns (event_of act client.old.thread) seen self.old self.new) }
        ensures fits { IfOk result (λ seen. is_answer_to act seen ≡ true) }
        ensures log { IfOk result (λ seen. client.new ≡ client_after act seen (length self.old.journal) client.old) }
        ensures unchanged { OnErr result ((self.new ≡ self.old) × (client.new ≡ client.old)) }
        ensures exact { IsExact client.old self.old.journal → IsExact client.new self.new.journal }
    {
        make_room_for(&mut client.calls, &act)?;
        let at = self.journal.len();
        let seen = self.turn(act.event(client.t))?;
        let mark = Mark::of(&act, &seen);
        note(&mut client.calls, &mut client.ended, &mark, at);
        Ok(seen)
    }

    /// One event of a client's thread, as `play` makes it, with the position of its entry.
    pub(crate) fn play_at(
        &mut self,
        client: &mut Client,
        act: Act,
    ) -> Result<(Seen, usize), NoMemory>
        ensures turned { IfOk result (λ r. Turns (event_of act client.old.thread) r.0 self.old self.new) }
        ensures at { IfOk result (λ r. r.1 ≡ length self.old.journal) }
        ensures fits { IfOk result (λ r. is_answer_to act r.0 ≡ true) }
        ensures log { IfOk result (λ r. client.new ≡ client_after act r.0 r.1 client.old) }
        ensures unchanged { OnErr result ((self.new ≡ self.old) × (client.new ≡ client.old)) }
    {
        let at = self.entries();
        let seen = self.play(client, act)?;
        Ok((seen, at))
    }

    /// How many entries the journal has.
    pub(crate) fn entries(&self) -> usize
        ensures { result ≡ length self.now.journal }
    {
        self.journal.len()
    }

    /// Whether a thread rests: false also if it has ended, has no call open, or was never added.
    pub(crate) fn is_resting(&self, t: Tid) -> bool
        ensures rests { result ≡ rests_in self.now.core t }
        ensures number { result ≡ true → t ≤ 1024 }
    {
        self.core.waiting(t).unwrap_or(false)
    }

    /// How many entries more the journal has room for.
    pub(crate) fn spare_entries(&self) -> usize {
        self.journal.capacity().wrapping_sub(self.journal.len())
    }

    /// How many entries more, at least, a full journal asks memory for from now on: 1 or more, and 1 in a new room.
    /// Core and journal stay what they are, and no memory is taken yet. With a larger number the journal grows more
    /// rarely, by larger pieces. No list has room for `usize::MAX`: each growth is refused then, so that it can be
    /// tried what a caller does without memory.
    pub fn set_growth(&mut self, growth: usize)
        requires { 1 ≤ growth }
        ensures { self.new ≡ self.old }
    {
        self.growth = growth;
    }
}
