ghost use Rattle.std.specs.Prelude.{◌≡◌};
ghost use Rattle.pif_rules_model.specs.Sets.{has, no_rules};

/// A rule: what may happen beside what the POSIX machine does. Each adds to what may happen, and takes nothing away.
/// `Sets.antt` says which of them POSIX allows.
#[derive(Clone, Copy, PartialEq, Eq)]
pub enum Rule {
    /// `steal`: a thread of greater effective priority takes a mutex from a thread that got it and was not answered yet.
    Steal,
    /// `any_waiter`: a signal wakes any thread that is blocked on the variable.
    AnyWaiter,
    /// `spurious`: a thread that is blocked on a variable wakes, though nobody woke it.
    Spurious,
    /// `recursion A..B`: a recursive mutex may be held up to B times, and from A holds on a lock may be refused.
    Recursion,
    /// `own_errorcheck`: the owner of an errorcheck mutex that tries to lock it is answered EDEADLK.
    OwnErrorcheck,
    /// `any_consistent`: a thread that doesn't own a robust mutex makes it consistent, or is refused.
    AnyConsistent,
    /// `held_wait`: a wait gives up one hold of a recursive mutex that its thread holds more than once.
    HeldWait,
    /// `lost_signal`: a signal wakes nobody, once for each thread that ended while it was blocked on the variable.
    LostSignal,
    /// `revives`: an unusable mutex is inconsistent again if its owner ends before it has given the mutex up.
    Revives,
    /// `barge`: a mutex that is given up may be left free though threads wait for it. Whoever comes first takes it.
    Barge,
    /// `cycle_waits`: a lock that closes a cycle through other threads waits.
    CycleWaits,
    /// `cycle_refused`: a lock that would wait for its own thread, or for one that never goes on, is answered EDEADLK.
    CycleRefused,
    /// `timeout_consumes`: a wait that runs out of time takes a signal with it that is open, which wakes nobody.
    TimeoutConsumes,
    /// `ends_apart`: a thread that ends first leaves all that it waits for. Its robust mutexes pass on later, one by one.
    EndsApart,
    /// `stays_locked`: a robust mutex may stay with its owner, which has ended.
    StaysLocked,
    /// `rebinds`: a wait with another mutex binds a variable to it on which nobody is blocked.
    Rebinds,
    /// `more_uses`: a signal or a broadcast needs no use of those that are left.
    MoreUses,
    /// `refuses_setprio`: a change of a priority may be refused.
    RefusesSetprio,
    /// `consistent_by_any`: a thread that doesn't own a robust mutex makes it consistent if it is inconsistent.
    ConsistentByAny,
    /// `cut_unlock`: an unlock that its thread's end cuts off has not made an inconsistent mutex unusable.
    CutUnlock,
    /// `other_error`: a call of which two errors of its page hold is answered the other one.
    OtherError,
    /// `wait_gives_all`: a wait gives up all holds of a recursive mutex, and takes them again before it is answered.
    WaitGivesAll,
}

/// How often a recursive mutex may be held.
#[derive(Clone, Copy, PartialEq, Eq)]
pub struct HoldLimits {
    /// From so many holds on, a further lock may be refused.
    pub least: u32,
    /// It may be held so often.
    pub most: u32,
}

/// A set of rules.
#[derive(Clone, Copy, PartialEq, Eq)]
pub struct Rules {
    /// `steal`.
    pub steal: bool,
    /// `any_waiter`.
    pub any_waiter: bool,
    /// `spurious`.
    pub spurious: bool,
    /// `recursion`, with its bounds.
    pub recursion: Option<HoldLimits>,
    /// `own_errorcheck`.
    pub own_errorcheck: bool,
    /// `any_consistent`.
    pub any_consistent: bool,
    /// `held_wait`.
    pub held_wait: bool,
    /// `lost_signal`.
    pub lost_signal: bool,
    /// `revives`.
    pub revives: bool,
    /// `barge`.
    pub barge: bool,
    /// `cycle_waits`.
    pub cycle_waits: bool,
    /// `cycle_refused`.
    pub cycle_refused: bool,
    /// `timeout_consumes`.
    pub timeout_consumes: bool,
    /// `ends_apart`.
    pub ends_apart: bool,
    /// `stays_locked`.
    pub stays_locked: bool,
    /// `rebinds`.
    pub rebinds: bool,
    /// `more_uses`.
    pub more_uses: bool,
    /// `refuses_setprio`.
    pub refuses_setprio: bool,
    /// `consistent_by_any`.
    pub consistent_by_any: bool,
    /// `cut_unlock`.
    pub cut_unlock: bool,
    /// `other_error`.
    pub other_error: bool,
    /// `wait_gives_all`.
    pub wait_gives_all: bool,
    /// Whether mutexes of PTHREAD_PRIO_NONE may be added. That is no rule: it stands here since the plain machine has none.
    pub prio_none: bool,
    /// Whether the lines `halted`, `resumed` and `process` may stand in a history. That is no rule either.
    pub extra_lines: bool,
}

/// All rules, in the order in which they are told and tried.
pub const RULES: [Rule; 22] = [
    Rule::Steal,
    Rule::AnyWaiter,
    Rule::Spurious,
    Rule::Recursion,
    Rule::OwnErrorcheck,
    Rule::AnyConsistent,
    Rule::HeldWait,
    Rule::LostSignal,
    Rule::Revives,
    Rule::Barge,
    Rule::CycleWaits,
    Rule::CycleRefused,
    Rule::TimeoutConsumes,
    Rule::EndsApart,
    Rule::StaysLocked,
    Rule::Rebinds,
    Rule::MoreUses,
    Rule::RefusesSetprio,
    Rule::ConsistentByAny,
    Rule::CutUnlock,
    Rule::OtherError,
    Rule::WaitGivesAll,
];

/// No rule.
pub fn no_rules() -> Rules
    ensures { result ≡ no_rules }
{
    Rules {
        steal: false,
        any_waiter: false,
        spurious: false,
        recursion: None,
        own_errorcheck: false,
        any_consistent: false,
        held_wait: false,
        lost_signal: false,
        revives: false,
        barge: false,
        cycle_waits: false,
        cycle_refused: false,
        timeout_consumes: false,
        ends_apart: false,
        stays_locked: false,
        rebinds: false,
        more_uses: false,
        refuses_setprio: false,
        consistent_by_any: false,
        cut_unlock: false,
        other_error: false,
        wait_gives_all: false,
        prio_none: false,
        extra_lines: false,
    }
}

/// Whether a rule is one of these.
pub fn has(rules: &Rules, rule: Rule) -> bool
    ensures { result ≡ has rules.now rule }
{
    match rule {
        Rule::Steal => rules.steal,
        Rule::AnyWaiter => rules.any_waiter,
        Rule::Spurious => rules.spurious,
        Rule::Recursion => rules.recursion.is_some(),
        Rule::OwnErrorcheck => rules.own_errorcheck,
        Rule::AnyConsistent => rules.any_consistent,
        Rule::HeldWait => rules.held_wait,
        Rule::LostSignal => rules.lost_signal,
        Rule::Revives => rules.revives,
        Rule::Barge => rules.barge,
        Rule::CycleWaits => rules.cycle_waits,
        Rule::CycleRefused => rules.cycle_refused,
        Rule::TimeoutConsumes => rules.timeout_consumes,
        Rule::EndsApart => rules.ends_apart,
        Rule::StaysLocked => rules.stays_locked,
        Rule::Rebinds => rules.rebinds,
        Rule::MoreUses => rules.more_uses,
        Rule::RefusesSetprio => rules.refuses_setprio,
        Rule::ConsistentByAny => rules.consistent_by_any,
        Rule::CutUnlock => rules.cut_unlock,
        Rule::OtherError => rules.other_error,
        Rule::WaitGivesAll => rules.wait_gives_all,
    }
}
