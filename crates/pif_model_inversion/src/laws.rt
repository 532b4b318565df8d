ghost use Rattle.std.specs.Prelude.{◌≡◌, ◌≢◌, ◌≤◌, ◌⊎◌, ℕ, List, [], ◌∷◌, length, true, false};
ghost use Rattle.std.specs.List.{sum_by};
ghost use Rattle.pif_types.specs.Bounds.{Bounds};
ghost use Rattle.pif_model.specs.declared.events.Entry.{Entry};
ghost use Rattle.pif_model.specs.Graph.{Reaches, has_waiter};
ghost use Rattle.pif_types.specs.declared.requests.Request.TheVariants.{Lock, Unlock, Consistent};
ghost use Rattle.pif_model.specs.declared.events.Event.TheVariants.{End};
ghost use Rattle.pif_model.specs.declared.events.Seen.TheVariants.{Answered, Ended};
ghost use Rattle.pif_model.specs.declared.events.Entry.TheVariants.{Step as Happened};
ghost use Rattle.pif_model.specs.Posix.{World, IsRun, WaitsFor, is_living, mutex_at, effective_of};
ghost use Rattle.pif_model.specs.World.Health.{Fine, Inconsistent};
ghost use Rattle.pif_model.specs.PiKernel.{is_living as lives_in};
ghost use Rattle.pif_model.specs.Lines.{is_open};
ghost use Rattle.pif_model.specs.Table.{Table, line_at};
ghost use Rattle.pif_model.specs.Standing.{IsPick, Stands};
ghost use Rattle.pif_model_inversion.specs.Inversion.{IsReady, IsHighestAwake, IsHighest, RunsNoLower, IsLost, RunOn, is_one_of};
ghost use Rattle.pif_model_inversion.specs.Delays.{IsDelay, IsCalmDelay, IsEngaged, AreAllLowerEngaged, IsAlwaysHighestAwake, AreOnItsChain, has_run, ran_high, times_owning, lower_turns};
ghost use Rattle.pif_model_inversion.specs.Recovery.{HasPassedOn, CallsAlone, RepairedBy, answer_of_free};
ghost use Rattle.pif_model_simulation.specs.Calls.{call_outcome};

/// A law: in each state that a run of the POSIX machine reaches, let a thread wait, through any chain, for one that is
/// ready. Then somebody runs next, with at least the effective priority of the first. And a living thread lends it
/// that: itself, or one that waits for it through a chain, whose own base priority is as great.
pub fn who_runs_is_no_lower()
    ensures { (limits : Bounds) (history : List Entry) (states : List World) (last : World) → IsRun limits history states last → (high end pick : ℕ) → Reaches (WaitsFor last) high end → IsReady last end → IsPick last pick → RunsNoLower last high pick }
{}

/// A law: wherever a core stands, let a thread live. Then whoever runs next does so with at least its effective
/// priority, as above. Or the chain of the thread is lost: it ends at one that has ended, waits for good, or is blocked
/// on a variable.
pub fn who_runs_is_no_lower_or_the_chain_is_lost()
    ensures { (table : Table) (history : List Entry) (states : List World) (last : World) → Stands table history states last → (high pick : ℕ) → is_living last high ≡ true → IsPick last pick → RunsNoLower last high pick ⊎ IsLost last high }
{}

/// A law: if a thread waits, through any chain, for one that is ready, and its base priority is above that of all
/// others that are ready or wait for mutexes, then that end of its chain runs next.
pub fn who_runs_is_on_the_chain()
    ensures { (limits : Bounds) (history : List Entry) (states : List World) (last : World) → IsRun limits history states last → (high end pick : ℕ) → Reaches (WaitsFor last) high end → IsReady last end → IsHighestAwake last high → IsPick last pick → pick ≡ end }
{}

/// A law: in a delay of a thread, each one that runs, and always with a lower base priority, was engaged when the delay
/// began: it owned a mutex, waited for one, waited for good, or was blocked on a variable. So no lower thread runs that
/// was ready then and owned nothing.
pub fn no_middle_thread_runs()
    ensures { (limits : Bounds) (history : List Entry) (states : List World) (first : World) → IsRun limits history states first → (high : ℕ) (turns : List (ℕ × World)) (last : World) → IsDelay limits high first turns last → (thread : ℕ) → has_run turns thread ≡ true → ran_high high turns thread ≡ false → IsEngaged first thread }
{}

/// A law: lower threads have no more turns in a delay than those of them that were engaged when it began had there
/// together while they owned a mutex.
pub fn inversion_is_bounded()
    ensures { (limits : Bounds) (history : List Entry) (states : List World) (first : World) → IsRun limits history states first → (high : ℕ) (turns : List (ℕ × World)) (last : World) → IsDelay limits high first turns last → (engaged : List ℕ) → AreAllLowerEngaged first high turns engaged → lower_turns high turns ≤ sum_by (times_owning turns) engaged }
{}

/// A law: if the base priority of the delayed thread is above that of all others that are ready or wait for mutexes,
/// whenever somebody runs, then nobody runs but threads for which it waits there. All of them are lower ones, so that
/// the same number bounds the turns of the whole delay.
pub fn only_the_chain_runs()
    ensures chain { (limits : Bounds) (history : List Entry) (states : List World) (first : World) → IsRun limits history states first → (high : ℕ) (turns : List (ℕ × World)) (last : World) → IsDelay limits high first turns last → IsAlwaysHighestAwake high turns → AreOnItsChain high turns }
    ensures lower { (limits : Bounds) (history : List Entry) (states : List World) (first : World) → IsRun limits history states first → (high : ℕ) (turns : List (ℕ × World)) (last : World) → IsDelay limits high first turns last → IsAlwaysHighestAwake high turns → (thread : ℕ) → ran_high high turns thread ≡ false }
    ensures bounded { (limits : Bounds) (history : List Entry) (states : List World) (first : World) → IsRun limits history states first → (high : ℕ) (turns : List (ℕ × World)) (last : World) → IsDelay limits high first turns last → IsAlwaysHighestAwake high turns → (engaged : List ℕ) → AreAllLowerEngaged first high turns engaged → length turns ≤ sum_by (times_owning turns) engaged }
{}

/// A law: the highest of all living threads is so whenever somebody runs, if the delay is calm: nobody takes a step of
/// a setprio, and no thread of its base priority or more is added.
pub fn highest_stays_above()
    ensures { (limits : Bounds) (first : World) (high : ℕ) (turns : List (ℕ × World)) (last : World) → IsHighest first high → IsCalmDelay limits high first turns last → IsDelay limits high first turns last × IsAlwaysHighestAwake high turns }
{}

/// A law on several processors: in each state that a run of the POSIX machine reaches, let a thread wait, through any
/// chain, for one that is ready. Then that end of its chain is among the threads that run, or each of these has at
/// least the effective priority of the first. On one processor just the thread runs that runs next, and has that.
pub fn processors_run_the_end_or_no_lower()
    ensures several { (limits : Bounds) (history : List Entry) (states : List World) (last : World) → IsRun limits history states last → (high end : ℕ) → Reaches (WaitsFor last) high end → IsReady last end → (processors : ℕ) (running : List ℕ) → RunOn last processors running → (is_one_of running end ≡ true) ⊎ ((thread : ℕ) → is_one_of running thread ≡ true → effective_of last high ≤ effective_of last thread) }
    ensures one { (limits : Bounds) (history : List Entry) (states : List World) (last : World) → IsRun limits history states last → (high end pick : ℕ) → Reaches (WaitsFor last) high end → IsReady last end → IsPick last pick → RunOn last 1 (pick ∷ []) × (effective_of last high ≤ effective_of last pick) }
{}

/// A law: a lock whose holder died can be taken again.
/// - `ended`: once the owner of a robust mutex has ended, its next waiter owns it, or nobody if it has none. It is
///   inconsistent, or unusable if it was.
/// - `told`: wherever a core stands, let a mutex be inconsistent or unusable, and no living thread own it. Let a living
///   thread with no call open lock it, and go on alone. Within 24 steps it is answered EOWNERDEAD, or ENOTRECOVERABLE
///   if the mutex is unusable.
/// - `repaired`: if it is inconsistent, then a `consistent` and an unlock of that thread are answered 0, and so is the
///   next lock.
/// - `answered`, `made_fine`, `given_up`: the same over the POSIX machine, which need not answer a call. If it answers
///   one that a thread makes alone, it does so.
pub fn lock_whose_holder_died_can_be_taken_again()
    ensures ended { (limits : Bounds) (history : List Entry) (states : List World) (before last : World) (owner : ℕ) → IsRun limits (Happened (End owner) Ended ∷ history) (before ∷ states) last → (mutex : ℕ) → (mutex_at before mutex).robust ≡ true → (mutex_at before mutex).owner ≡ owner → HasPassedOn before last owner mutex }
    ensures told { (table : Table) (history : List Entry) (states : List World) (last : World) → Stands table history states last → (thread mutex : ℕ) → (mutex_at last mutex).health ≢ Fine → is_living last (mutex_at last mutex).owner ≡ false → lives_in table.kernel thread ≡ true → is_open (line_at table thread) ≡ false → (call_outcome thread (Lock mutex) table).seen ≡ Answered (answer_of_free (mutex_at last mutex).health) }
    ensures repaired { (table : Table) (history : List Entry) (states : List World) (last : World) → Stands table history states last → (thread mutex : ℕ) → (mutex_at last mutex).health ≡ Inconsistent → is_living last (mutex_at last mutex).owner ≡ false → lives_in table.kernel thread ≡ true → is_open (line_at table thread) ≡ false → RepairedBy thread mutex (call_outcome thread (Lock mutex) table).after }
    ensures answered { (limits : Bounds) (history : List Entry) (states : List World) (before : World) → IsRun limits history states before → (thread mutex : ℕ) → (mutex_at before mutex).robust ≡ true → is_living before (mutex_at before mutex).owner ≡ false → (answer : ℕ) (last : World) → CallsAlone limits thread (Lock mutex) before (Answered answer) last → answer ≡ answer_of_free (mutex_at before mutex).health }
    ensures made_fine { (limits : Bounds) (history : List Entry) (states : List World) (before : World) → IsRun limits history states before → (thread mutex : ℕ) → (mutex_at before mutex).owner ≡ thread → (mutex_at before mutex).robust ≡ true → (mutex_at before mutex).health ≡ Inconsistent → (answer : ℕ) (last : World) → CallsAlone limits thread (Consistent mutex) before (Answered answer) last → (answer ≡ 0) × (mutex_at last mutex ≡ record (mutex_at before mutex) { health = Fine }) }
    ensures given_up { (limits : Bounds) (history : List Entry) (states : List World) (before : World) → IsRun limits history states before → (thread mutex : ℕ) → (mutex_at before mutex).owner ≡ thread → (mutex_at before mutex).count ≡ 1 → (mutex_at before mutex).health ≡ Fine → has_waiter before.waiters mutex ≡ false → (answer : ℕ) (last : World) → CallsAlone limits thread (Unlock mutex) before (Answered answer) last → (answer ≡ 0) × (mutex_at last mutex ≡ record (mutex_at before mutex) { owner = 0; count = 1 }) }
{}
