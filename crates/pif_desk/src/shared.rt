//! What stands behind the lock of a desk.
ghost use Rattle.std.specs.Prelude.{◌≡◌, filter, length, true, IfOk, OnErr, if◌then◌else◌};
ghost use Rattle.pif_model.specs.declared.events.Event.{Event};
ghost use Rattle.pif_desk.specs.Logs.{event_of, is_answer_to, is_answer_of};
ghost use Rattle.pif_desk.specs.Rooms.{ClientState, Turns, IsExact, client_after};
ghost use Rattle.pif_desk.specs.Sleeping.{rests_in, with_sleeper};

use crate::client::Client;
use crate::log::Act;
use crate::room::Room;
use crate::sleepers::{Bells, Sleepers};
use pif_model::{Event, Seen};
use pif_types::{NoMemory, Tid};

/// A room, and the threads whose clients sleep.
#[derive(Drop)]
pub(crate) struct Shared {
    pub(crate) room: Room,
    pub(crate) sleepers: Sleepers,
}

impl Shared {
    /// Whether a thread rests. If so, it is from now on among those whose clients sleep.
    pub(crate) fn is_to_sleep(&mut self, t: Tid) -> bool
        ensures rests { result ≡ rests_in self.old.room.core t }
        ensures room { self.new.room ≡ self.old.room }
        ensures sleepers { self.new.sleepers ≡ (if result then with_sleeper t self.old.sleepers else self.old.sleepers) }
    {
        let rests = self.room.is_resting(t);
        if rests {
            self.sleepers.add(t);
        }
        rests
    }

    /// One event of a client's thread, as `Room::play_at` makes it. It wakes the clients that sleep and whose threads
    /// rest no longer, and no others.
    pub(crate) fn play(
        &mut self,
        client: &mut Client,
        act: Act,
        bells: &Bells,
    ) -> Result<(Seen, usize), NoMemory>
        ensures turned { IfOk result (λ r. Turns (event_of act client.old.thread) r.0 self.old.room self.new.room) }
        ensures at { IfOk result (λ r. r.1 ≡ length self.old.room.journal) }
        ensures fits { IfOk result (λ r. is_answer_to act r.0 ≡ true) }
        ensures log { IfOk result (λ r. client.new ≡ client_after act r.0 r.1 client.old) }
        ensures woken { IfOk result (λ r. self.new.sleepers ≡ filter (rests_in self.new.room.core) self.old.sleepers) }
        ensures unchanged { OnErr result ((self.new ≡ self.old) × (client.new ≡ client.old)) }
    {
        let made = self.room.play_at(client, act)?;
        self.sleepers.wake(&self.room, bells);
        Ok(made)
    }

    /// The time is this from now on, by one event as `Room::turn` makes it. It wakes the clients that sleep and whose
    /// threads rest no longer, since their calls are due, and no others. `NoMemory`, with nothing changed, if the
    /// journal can't grow. A log that was just the calls of its thread in the journal is so afterwards.
    pub(crate) fn tick(&mut self, time: u32, bells: &Bells) -> Result<Seen, NoMemory>
        ensures turned { IfOk result (λ seen. Turns (Event.Tick time) seen self.old.room self.new.room) }
        ensures fits { IfOk result (λ seen. is_answer_of (Event.Tick time) seen ≡ true) }
        ensures woken { IfOk result (λ seen. self.new.sleepers ≡ filter (rests_in self.new.room.core) self.old.sleepers) }
        ensures exact { (c : ClientState) → IsExact c self.old.room.journal → IsExact c self.new.room.journal }
        ensures unchanged { OnErr result (self.new ≡ self.old) }
    {
        let seen = self.room.turn(Event::Tick(time))?;
        self.sleepers.wake(&self.room, bells);
        Ok(seen)
    }
}
