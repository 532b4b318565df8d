ghost use Rattle.std.specs.Prelude.{◌≡◌, ℕ, ◌+◌, ◌<◌, ◌≤◌, ◌↔◌, true, false, [], ◌∷◌, ◌++◌, length, get_or, set, IfOk, IfSome, IfNone, IsSome, IsTrue, Some, None, option_map};
ghost use Rattle.std.specs.List.{slice_get};
ghost use Rattle.pif_model.specs.Graph.{Reaches, IsPath, waiting_order};
ghost use Rattle.pif_model.specs.PiKernel.{parked_pairs, parkings_without};
ghost use Rattle.pif_nodes_model.specs.Lists.{has, list_without};
ghost use Rattle.pif_nodes_model.specs.declared.keys.Key.{Key as RankSeen};
ghost use Rattle.pif_nodes_model.specs.Levels.{Holds, IsLevel, IsQueued, IsEmpty, IsFirstOfGreatest, all_below, level_of, level_after_add};
ghost use Rattle.pif_kernel_model.specs.Owners.{task_at, owner_at, count, waits_on, waits_for, rank_of, WaitsFor, IsTop, HasNoWaiter, KeepsOrder, with_task, with_base, with_wait, with_ticket, with_owner, without_state};
ghost use Rattle.pif_kernel_model.specs.Behind.{IsLast, IsBehind};
ghost use Rattle.pif_kernel_model.specs.Boosts.{IsRepaired, IsRepairedBut, base_of, local_of, level_after_walk};
ghost use Rattle.pif_kernel_model.specs.Chained.{Chained, IsUnused, KeepsLevels};
ghost use Rattle.pif_kernel_model.specs.Takings.{first_parked, have_target};
ghost use Rattle.pif_kernel_model.specs.Tickets.{is_named};

use arrayvec::ArrayVec;
use pif_kernel_model::Key;
use pif_types::{CondId, MutexId, NoMemory, Prio, Tid};
use std::alloc::Global;

/// The chains of a kernel's threads: the owner states of mutexes, with who waits where and by which priority and
/// ticket, the threads that are parked on condition variables, and the run queue. Of what a call doesn't name, all
/// stays as it was. Only `new` takes memory.
pub trait Chains {
    /// The owner states, the parked threads and the run queue that these are.
    ghost seen: { Self → Chained };

    /// No owner state, and a place for each of `threads` threads, at most 1,024, of which none is admitted, parked or
    /// ready. Chains that give parked threads tickets begin with `first_ticket`, at least 1.
    fn new(alloc: Global, threads: u32, first_ticket: u64) -> Result<Self, NoMemory>
        requires threads { threads ≤ 1024 }
        requires ticket { 1 ≤ first_ticket }
        ensures { IfOk result (λ c. IsUnused threads (seen c)) };

    /// Gives the thread `t`, which waits for nothing and is not parked, this base priority, which is its effective
    /// priority at first.
    fn admit(&mut self, t: Tid, prio: Prio)
        requires row { t < length (seen self.old).owners.seats }
        requires free { waits_on (seen self.old).owners t ≡ None }
        requires unparked { is_named t (parked_pairs (seen self.old).parked) ≡ false }
        ensures { seen self.new ≡ record (seen self.old) {
          owners = with_task t (record { base = prio; local = prio; wait = None }) (seen self.old).owners;
        } };

    /// The base priority of the thread `t`. `None` if it was given none.
    fn base(&self, t: Tid) -> Option<Prio>
        ensures given { IsSome result ↔ (1 ≤ (task_at (seen self.now).owners t).base) }
        ensures value { IfSome result (λ p. p ≡ (task_at (seen self.now).owners t).base) };

    /// Makes `prio` the base priority of the thread `t`.
    fn set_base(&mut self, t: Tid, prio: Prio)
        ensures { seen self.new ≡ record (seen self.old) { owners = with_base t prio (seen self.old).owners } };

    /// The effective priority of the thread `t`. `None` if it was given none.
    fn local(&self, t: Tid) -> Option<Prio>
        ensures given { IsSome result ↔ (1 ≤ (task_at (seen self.now).owners t).local) }
        ensures value { IfSome result (λ p. p ≡ (task_at (seen self.now).owners t).local) };

    /// The key of the owner state of a mutex. `None` if it has none.
    fn find(&self, m: MutexId) -> Option<Key>
        ensures { result ≡ get_or (seen self.now).keys m None };

    /// Makes an owner state of `owner`, which has a place, for a mutex that has none. Nobody is queued on it, and no
    /// other state has its key. There have to be fewer states than threads.
    fn open(&mut self, m: MutexId, owner: Tid) -> Key
        requires mutex { m < length (seen self.old).keys }
        requires none { get_or (seen self.old).keys m None ≡ None }
        requires owner { owner < length (seen self.old).owners.seats }
        requires room { count (seen self.old).owners + 1 < length (seen self.old).owners.seats }
        ensures fresh { owner_at (seen self.old).owners result ≡ None }
        ensures made { (seen self.new).owners ≡ with_owner result owner (seen self.old).owners }
        ensures count { count (seen self.new).owners ≡ count (seen self.old).owners + 1 }
        ensures kept { KeepsLevels (record (seen self.old) { keys = set (seen self.old).keys m (Some result) }) (seen self.new) };

    /// The owner of a state, which has to be there.
    fn owner(&self, key: Key) -> Tid
        requires { IsSome (owner_at (seen self.now).owners key) }
        ensures value { owner_at (seen self.now).owners key ≡ Some result };

    /// The top waiter of a state: of those that are queued on it the one with the highest priority, and of equal ones
    /// the one with the lowest ticket. `None` if nobody is queued on it.
    fn top(&self, key: Key) -> Option<Tid>
        ensures none { IfNone result (HasNoWaiter (seen self.now).owners key) }
        ensures top { IfSome result (λ t. IsTop (seen self.now).owners key t) };

    /// The waiter that stands right behind the thread `t`, which is queued on a state, among those of that state.
    /// `None` if `t` is the last of them.
    fn behind(&self, t: Tid) -> Option<Tid>
        requires { IsSome (waits_on (seen self.now).owners t) }
        ensures last { IfNone result (IsLast (seen self.now).owners t) }
        ensures behind { IfSome result (λ u. IsBehind (seen self.now).owners t u) };

    /// The ticket with which the thread `t` is queued. `None` if it waits for nothing.
    fn ticket(&self, t: Tid) -> Option<u64>
        ensures { result ≡ option_map (λ (r : RankSeen). r.ticket) (rank_of (seen self.now).owners t) };

    /// Queues the thread `t`, which waits for nothing and is not parked, on a state, with this priority and ticket. The
    /// owner of the state may not be `t`, nor wait for it through any chain.
    fn enqueue(&mut self, key: Key, t: Tid, prio: Prio, ticket: u64)
        requires state { IsSome (owner_at (seen self.old).owners key) }
        requires row { t < length (seen self.old).owners.seats }
        requires free { waits_on (seen self.old).owners t ≡ None }
        requires unparked { is_named t (parked_pairs (seen self.old).parked) ≡ false }
        requires no_cycle { (n : ℕ) → owner_at (seen self.old).owners key ≡ Some n
            → Reaches (WaitsFor (seen self.old).owners) n t → ⊥ }
        ensures queued { let rank : RankSeen = record { prio = prio; ticket = ticket } in
            (seen self.new).owners ≡ with_wait t (Some (record { state = key; rank = rank })) (seen self.old).owners }
        ensures kept { KeepsLevels (seen self.old) (seen self.new) };

    /// Takes the thread `t` off the state on which it is queued.
    fn dequeue(&mut self, key: Key, t: Tid)
        requires { waits_on (seen self.old).owners t ≡ Some key }
        ensures free { (seen self.new).owners ≡ with_wait t None (seen self.old).owners }
        ensures kept { KeepsLevels (seen self.old) (seen self.new) };

    /// Gives the thread `t`, which is queued on a state, another ticket, with which it stands among the other waiters
    /// of that state as before.
    fn set_ticket(&mut self, t: Tid, ticket: u64)
        requires queued { IsSome (waits_on (seen self.old).owners t) }
        requires order { KeepsOrder (seen self.old).owners t ticket }
        ensures changed { (seen self.new).owners ≡ with_ticket t ticket (seen self.old).owners }
        ensures kept { KeepsLevels (seen self.old) (seen self.new) };

    /// Hands a state on which somebody is queued to its top waiter, which waits no longer; the others wait for it now.
    /// Answers who that is: of those of the greatest priority with which they are queued the one of the lowest ticket.
    fn hand_over(&mut self, key: Key) -> Tid
        requires waiter { (t : ℕ) × (waits_on (seen self.old).owners t ≡ Some key) }
        ensures top { IsTop (seen self.old).owners key result }
        ensures handed { (seen self.new).owners
            ≡ with_owner key result (with_wait result None (seen self.old).owners) }
        ensures kept { KeepsLevels (seen self.old) (seen self.new) };

    /// Ends the owner state of a mutex, which has this key, and on which nobody is queued.
    fn close(&mut self, m: MutexId, key: Key)
        requires mutex { get_or (seen self.old).keys m None ≡ Some key }
        requires state { IsSome (owner_at (seen self.old).owners key) }
        requires free { HasNoWaiter (seen self.old).owners key }
        ensures ended { (seen self.new).owners ≡ without_state key (seen self.old).owners }
        ensures count { count (seen self.new).owners + 1 ≡ count (seen self.old).owners }
        ensures kept { KeepsLevels (record (seen self.old) { keys = set (seen self.old).keys m None }) (seen self.new) };

    /// Parks the thread `t`, which was admitted, waits for nothing and is not parked, on a variable, whose number is
    /// 256 at most, behind all that are parked. It is to get the mutex `m` once it is taken from there.
    fn park(&mut self, t: Tid, c: CondId, m: MutexId)
        requires row { t < length (seen self.old).owners.seats }
        requires admitted { 1 ≤ local_of (seen self.old).owners t }
        requires cond { c ≤ 256 }
        requires free { waits_on (seen self.old).owners t ≡ None }
        requires unparked { is_named t (parked_pairs (seen self.old).parked) ≡ false }
        ensures owners { (seen self.new).owners ≡ (seen self.old).owners }
        ensures kept { KeepsLevels (record (seen self.old) {
          parked = (seen self.old).parked ++ record { thread = t; cond = c; target = m } ∷ [];
        }) (seen self.new) };

    /// Takes the thread `t` off the variable on which it is parked, if it is.
    fn unpark(&mut self, t: Tid)
        ensures owners { (seen self.new).owners ≡ (seen self.old).owners }
        ensures kept { KeepsLevels (record (seen self.old) { parked = parkings_without (seen self.old).parked t }) (seen self.new) };

    /// The first of those that are parked on a variable: of those with the highest effective priority the one that was
    /// parked first. `None` if nobody is parked on it.
    fn top_parked(&self, c: CondId) -> Option<Tid>
        ensures { result ≡ first_parked (local_of (seen self.now).owners) (parked_pairs (seen self.now).parked) c };

    /// The thread that is parked on a variable and before which `place` others stand: those with the highest effective
    /// priority first, and equals in the order in which they were parked. `None` if so few are parked on it.
    fn nth_parked(&self, c: CondId, place: u32) -> Option<Tid>
        ensures { result ≡ slice_get (waiting_order (local_of (seen self.now).owners) (parked_pairs (seen self.now).parked) c) place };

    /// Whether each thread that is parked on the variable is to get this mutex (futex(2), FUTEX_CMP_REQUEUE_PI).
    fn match_requeue(&self, c: CondId, m: MutexId) -> bool
        ensures { result ≡ have_target (seen self.now).parked c m };

    /// Puts the thread `t`, which is on no level, at the end of the level `prio`.
    fn add(&mut self, t: Tid, prio: Prio)
        requires thread { t ≤ (seen self.old).queue.threads }
        requires off { IsQueued (seen self.old).queue (seen self.old).table t → ⊥ }
        ensures owners { (seen self.new).owners ≡ (seen self.old).owners }
        ensures levels { (p : ℕ) → IsLevel p → level_of (seen self.new).queue (seen self.new).table p
            ≡ level_after_add t prio p (level_of (seen self.old).queue (seen self.old).table p) }
        ensures place { (seen self.new).queue ≡ record (seen self.old).queue { mask = (seen self.new).queue.mask } }
        ensures holds { Holds (seen self.new).queue (seen self.new).table }
        ensures keys { (seen self.new).keys ≡ (seen self.old).keys }
        ensures parked { (seen self.new).parked ≡ (seen self.old).parked };

    /// Takes the thread `t` out of the level on which it is.
    fn take_out(&mut self, t: Tid)
        requires { IsQueued (seen self.old).queue (seen self.old).table t }
        ensures owners { (seen self.new).owners ≡ (seen self.old).owners }
        ensures levels { (p : ℕ) → IsLevel p → level_of (seen self.new).queue (seen self.new).table p
            ≡ list_without t (level_of (seen self.old).queue (seen self.old).table p) }
        ensures place { (seen self.new).queue ≡ record (seen self.old).queue { mask = (seen self.new).queue.mask } }
        ensures holds { Holds (seen self.new).queue (seen self.new).table }
        ensures keys { (seen self.new).keys ≡ (seen self.old).keys }
        ensures parked { (seen self.new).parked ≡ (seen self.old).parked };

    /// The first thread of the greatest level that has one. `None` if no level has a thread.
    fn pick(&self) -> Option<Tid>
        ensures none { IfNone result (IsEmpty (seen self.now).queue (seen self.now).table) }
        ensures first { IfSome result (λ t. IsFirstOfGreatest (seen self.now).queue (seen self.now).table t) };

    /// The thread before which `place` others stand: those of the greatest level first, and those of each level in the
    /// order in which they joined it. `None` if so few threads are on a level.
    fn nth(&self, place: u32) -> Option<Tid>
        ensures { result ≡ slice_get (all_below (seen self.now).queue (seen self.now).table 100) place };

    /// Gives each thread the greatest base priority of it and of all that wait for it through any chain, also if it
    /// stands among the waiters of a state, with the ticket that it has. A thread of the run queue is moved to the
    /// level of its priority; one that keeps its level keeps its place. (RT-mutex design, the priority chain walk.)
    ///
    /// Before the call nothing may be left to repair but the effective priority of `start`, which was admitted. The
    /// threads of the run queue were admitted, wait for nobody, and are on the levels of the effective priorities that
    /// they have.
    fn walk(&mut self, start: Tid)
        requires admitted { 1 ≤ base_of (seen self.old).owners start }
        requires repaired { IsRepairedBut start (seen self.old).owners }
        requires ready { (u : ℕ) → IsQueued (seen self.old).queue (seen self.old).table u → 1 ≤ base_of (seen self.old).owners u }
        requires running { (u : ℕ) → IsQueued (seen self.old).queue (seen self.old).table u
            → waits_on (seen self.old).owners u ≡ None }
        requires level { (u p : ℕ) → IsLevel p → has u (level_of (seen self.old).queue (seen self.old).table p) ≡ true
            → p ≡ local_of (seen self.old).owners u }
        ensures repaired { IsRepaired (seen self.old).owners (seen self.new).owners }
        ensures levels { (p : ℕ) → IsLevel p → level_of (seen self.new).queue (seen self.new).table p
            ≡ level_after_walk (seen self.old).owners (seen self.old).queue (seen self.old).table p }
        ensures place { (seen self.new).queue ≡ record (seen self.old).queue { mask = (seen self.new).queue.mask } }
        ensures holds { Holds (seen self.new).queue (seen self.new).table }
        ensures keys { (seen self.new).keys ≡ (seen self.old).keys }
        ensures parked { (seen self.new).parked ≡ (seen self.old).parked };

    /// Whether a wait of the thread `t` for the thread `owner` would close a cycle: whether `owner` is `t`, or waits
    /// for it through any chain (futex(2), EDEADLK). An owner without a place waits for nobody.
    fn would_close(&self, t: Tid, owner: Tid) -> bool
        ensures { IsTrue result ↔ Reaches (WaitsFor (seen self.now).owners) owner t };

    /// The threads from `start` on along whom each waits for, in order: `start`, the owner of the state on which it is
    /// queued, and so on, up to the one that waits for nobody. The owner of each state on which a thread is queued has
    /// to have a place. So each comes once, and there are at most 1,024.
    fn path(&self, start: Tid) -> ArrayVec<Tid, 1024>
        requires { (u : ℕ) → waits_for (seen self.now).owners u < length (seen self.now).owners.seats }
        ensures { IsPath (waits_for (seen self.now).owners) start result.items };
}
