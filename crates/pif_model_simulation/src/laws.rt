ghost use Rattle.std.specs.Prelude.{◌≡◌, ◌≤◌, ℕ, List, [], ◌∷◌, map, eqb, true, false};
ghost use Rattle.std.specs.List.{IsDistinct};
ghost use Rattle.pif_types.specs.Bounds.{Bounds};
ghost use Rattle.pif_model.specs.NamedNumbers.{ETIMEDOUT};
ghost use Rattle.pif_model.specs.declared.events.Event.TheVariants.{Go};
ghost use Rattle.pif_model.specs.declared.events.Seen.TheVariants.{Waits, Answered};
ghost use Rattle.pif_model.specs.declared.events.Entry.{Entry};
ghost use Rattle.pif_model.specs.declared.events.Entry.TheVariants.{Step as Happened};
ghost use Rattle.pif_model.specs.Graph.{has_waiter, next_waiter, without, waiting_order, IsNextWaiter, Reaches};
ghost use Rattle.pif_model.specs.Posix.{World, IsRun, WaitsFor, Expires, is_thread, effective_of, leads_to, mutex_at, is_due};
ghost use Rattle.pif_model.specs.Standing.{HasEffective};
ghost use Rattle.pif_model.specs.History.{holds, AlwaysOneHolder};
ghost use Rattle.pif_model.specs.PiKernel.{is_living};
ghost use Rattle.pif_model.specs.Table.{Table, line_at};
ghost use Rattle.pif_model_simulation.specs.Fates.{fate};
ghost use Rattle.pif_model_simulation.specs.Fates.Fate.{Expired};
ghost use Rattle.pif_model_simulation.specs.Waiters.{is_waiter, WaitsInItsCall};
ghost use Rattle.pif_model.specs.Lines.{is_open, goes_on, ClosesOrWaits};

/// A law: the next waiter of a mutex for which threads wait is, among those of greatest effective priority, the first
/// in arrival (SCHED_FIFO, sched(7)).
pub fn next_waiter_is_first_of_greatest()
    ensures { (effective : ℕ → ℕ) (waiters : List (ℕ × ℕ)) (m : ℕ) → has_waiter waiters m ≡ true → IsNextWaiter effective waiters m (next_waiter effective waiters m) }
{}

/// A law: if nobody waits twice and no effective priority is above 99, the waiters of a mutex in order are those
/// that get it, one after another: its next waiter, and then the order of those that wait when that one has it. If
/// nobody waits for it, there is none.
pub fn waiters_get_a_mutex_in_order()
    ensures none { (effective : ℕ → ℕ) (waiters : List (ℕ × ℕ)) (m : ℕ) → has_waiter waiters m ≡ false → waiting_order effective waiters m ≡ [] }
    ensures next { (effective : ℕ → ℕ) (waiters : List (ℕ × ℕ)) (m : ℕ) → IsDistinct eqb (map (λ (w : ℕ × ℕ). w.0) waiters) → ((u : ℕ) → effective u ≤ 99) → has_waiter waiters m ≡ true → waiting_order effective waiters m ≡ next_waiter effective waiters m ∷ waiting_order effective (without waiters (next_waiter effective waiters m)) m }
{}

/// A law: in a history that a run of the POSIX machine gives, no mutex has two holders by the answers at any point.
pub fn no_mutex_has_two_holders()
    ensures { (limits : Bounds) (history : List Entry) (states : List World) (last : World) → IsRun limits history states last → AlwaysOneHolder history }
{}

/// A law: in each state that a run of the POSIX machine reaches, who holds a mutex by the answers owns it.
pub fn holders_by_answers_own()
    ensures { (limits : Bounds) (history : List Entry) (states : List World) (last : World) → IsRun limits history states last → (t m : ℕ) → holds t m history ≡ true → (mutex_at last m).owner ≡ t }
{}

/// A law: in each state that a run of the POSIX machine reaches, a thread that is among the waiters of a mutex has a
/// call open that locks it, or a wait that locks it again, and waits for it there. So a mutex that passes on to a
/// thread is taken within a call of that thread.
pub fn waiters_wait_in_their_calls()
    ensures { (limits : Bounds) (history : List Entry) (states : List World) (last : World) → IsRun limits history states last → (t m : ℕ) → 1 ≤ m → is_waiter last t m ≡ true → WaitsInItsCall last t m }
{}

/// A law: in each state that a run of the POSIX machine reaches, the effective priority of a thread, which looks over
/// as many hops as there are threads, is the greatest base priority of it and of all that wait for it through a chain
/// of any length.
pub fn effective_priority_is_greatest_over_any_chain()
    ensures { (limits : Bounds) (history : List Entry) (states : List World) (last : World) → IsRun limits history states last → (t : ℕ) → is_thread last t ≡ true → HasEffective last t (effective_of last t) }
{}

/// A law: in each state that a run of the POSIX machine reaches, the test for a chain of waiting, which looks over as
/// many hops as there are threads, finds one from a thread to another exactly if there is one, of any length.
pub fn chain_is_found_where_there_is_one()
    ensures found { (limits : Bounds) (history : List Entry) (states : List World) (last : World) → IsRun limits history states last → (u t : ℕ) → leads_to last u t ≡ true → Reaches (WaitsFor last) u t }
    ensures finds { (limits : Bounds) (history : List Entry) (states : List World) (last : World) → IsRun limits history states last → (u t : ℕ) → Reaches (WaitsFor last) u t → leads_to last u t ≡ true }
{}

/// A law: of 24 steps of one living thread with a call open, with nothing between them, one closes the call or waits.
pub fn call_closes_or_waits_within_24_steps()
    ensures { (thread : ℕ) (table : Table) → is_living table.kernel thread ≡ true → is_open (line_at table thread) ≡ true → ClosesOrWaits (goes_on 23 thread table).seen }
{}

/// A law: time never goes back: what it is after an entry of a run is no less than what it was before.
pub fn time_never_falls()
    ensures { (limits : Bounds) (history : List Entry) (states : List World) (entry : Entry) (before last : World) → IsRun limits (entry ∷ history) (before ∷ states) last → before.time ≤ last.time }
{}

/// A law: who is told to wait was not due: the deadline of its call didn't count before that step, or was not reached.
pub fn whoever_is_told_to_wait_was_not_due()
    ensures { (limits : Bounds) (history : List Entry) (states : List World) (before last : World) (thread : ℕ) → IsRun limits (Happened (Go thread) Waits ∷ history) (before ∷ states) last → is_due before thread ≡ false }
{}

/// A law: an expiry leaves every mutex as it was: its owner, its count and its health.
pub fn expiry_leaves_mutexes()
    ensures { (thread : ℕ) (before after : World) → Expires thread before after → (m : ℕ) → mutex_at after m ≡ mutex_at before m }
{}

/// A law: ETIMEDOUT (110) is answered only to a call that expired while it was among the waiters of a mutex, was stuck
/// or was parked: one that was handed its mutex, was unblocked or had a result before that is never answered so.
pub fn timed_out_call_has_expired()
    ensures { (limits : Bounds) (history : List Entry) (states : List World) (before last : World) (thread : ℕ) → IsRun limits (Happened (Go thread) (Answered ETIMEDOUT) ∷ history) (before ∷ states) last → fate thread (Happened (Go thread) (Answered ETIMEDOUT) ∷ history) (before ∷ states) ≡ Expired }
{}
