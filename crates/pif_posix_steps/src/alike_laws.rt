ghost use Rattle.std.specs.Prelude.{ℕ};
ghost use Rattle.pif_types.specs.Bounds.{Bounds};
ghost use Rattle.pif_types.specs.declared.requests.Request.{Request};
ghost use Rattle.pif_model.specs.declared.events.Event.TheVariants.{Begin, Go, End, Tick};
ghost use Rattle.pif_model.specs.declared.events.Seen.TheVariants.{Begun, Answered, Ended, Ticked};
ghost use Rattle.pif_model.specs.declared.events.Entry.TheVariants.{Step as Happened};
ghost use Rattle.pif_model.specs.Posix.{World};
ghost use Rattle.pif_posix_steps.specs.Once.{MovesOnce, Enters};
ghost use Rattle.pif_posix_steps.specs.Alike.{IsAlike};

/// A law: a move from a state has one from each alike state, to an alike state.
pub fn alike_states_have_the_same_moves()
    ensures { (thread : ℕ) (first second after : World) → IsAlike first second → MovesOnce thread first after → (other : World) × MovesOnce thread second other × IsAlike after other }
{}

/// A law: a begin of a call from a state has one from each alike state, to an alike state.
pub fn alike_states_have_the_same_begins()
    ensures { (limits : Bounds) (thread : ℕ) (request : Request) (first second after : World) → IsAlike first second → Enters limits first (Happened (Begin thread request) Begun) after → (other : World) × Enters limits second (Happened (Begin thread request) Begun) other × IsAlike after other }
{}

/// A law: an answer from a state has one from each alike state, to an alike state.
pub fn alike_states_have_the_same_answers()
    ensures { (limits : Bounds) (thread answer : ℕ) (first second after : World) → IsAlike first second → Enters limits first (Happened (Go thread) (Answered answer)) after → (other : World) × Enters limits second (Happened (Go thread) (Answered answer)) other × IsAlike after other }
{}

/// A law: a tick from a state has one from each alike state, to an alike state.
pub fn alike_states_have_the_same_ticks()
    ensures { (limits : Bounds) (time : ℕ) (first second after : World) → IsAlike first second → Enters limits first (Happened (Tick time) Ticked) after → (other : World) × Enters limits second (Happened (Tick time) Ticked) other × IsAlike after other }
{}

/// A law: a thread's end from a state has one from each alike state, to an alike state.
pub fn alike_states_have_the_same_ends()
    ensures { (limits : Bounds) (thread : ℕ) (first second after : World) → IsAlike first second → Enters limits first (Happened (End thread) Ended) after → (other : World) × Enters limits second (Happened (End thread) Ended) other × IsAlike after other }
{}
