ghost use Rattle.std.specs.Prelude.{◌≡◌, ◌≤◌, ◌↔◌, IsSome, IfSome, unwrap_or};

use pif_types::Prio;
use std::marker::Model;

/// The base and the effective priority of a thread, each `None` if it was given none.
#[derive(Clone, Copy)]
pub struct ThreadPriorities {
    pub base: Option<Prio>,
    pub local: Option<Prio>,
}

impl Model for ThreadPriorities {
    ghost use Rattle.std.specs.Prelude.{unwrap_or};
    ghost use Rattle.pif_kernel_model.specs.Owners.{prio_of, IsPrio, prio_of-unwrap_or};
    ghost use Rattle.pif_rtmutex.specs.Priorities.{ThreadPriorities as PrioritiesSeen, priorities_code};

    ghost Value = { PrioritiesSeen };

    ghost coded = { priorities_code };

    ghost view = { λ p. record { base = unwrap_or p.base 0; local = unwrap_or p.local 0 } };

    ghost invariant = { λ p. IsPrio p.base × IsPrio p.local };

    ghost inverse = { λ s. record { base = prio_of s.base; local = prio_of s.local } };

    ghost inverse_ok = { λ a h. λ i. record { base = prio_of-unwrap_or a.base h.0 i; local = prio_of-unwrap_or a.local h.1 i } };
}

impl ThreadPriorities {
    /// Those of a thread that was given none.
    pub const NONE: ThreadPriorities = ThreadPriorities {
        base: None,
        local: None,
    };

    /// Those of a thread that was given this base priority, with which it runs.
    pub fn of(prio: Prio) -> ThreadPriorities
        ensures both { result ≡ record { base = prio; local = prio } }
        ensures most { result.base ≤ 99 }
    {
        ThreadPriorities {
            base: Some(prio),
            local: Some(prio),
        }
    }

    /// These with another base priority.
    pub fn with_base(self, prio: Prio) -> ThreadPriorities
        ensures changed { result ≡ record self { base = prio } }
        ensures most { result.base ≤ 99 }
    {
        ThreadPriorities {
            base: Some(prio),
            local: self.local,
        }
    }

    /// These with another effective priority.
    pub fn with_local(self, prio: Prio) -> ThreadPriorities
        ensures changed { result ≡ record self { local = prio } }
        ensures most { result.local ≤ 99 }
    {
        ThreadPriorities {
            base: self.base,
            local: Some(prio),
        }
    }

    /// The base priority. `None` if there is none.
    pub fn base(self) -> Option<Prio>
        ensures number { unwrap_or result 0 ≡ self.base }
        ensures given { IsSome result ↔ (1 ≤ self.base) }
        ensures value { IfSome result (λ p. p ≡ self.base) }
        ensures most { self.base ≤ 99 }
    {
        self.base
    }

    /// The effective priority. `None` if there is none.
    pub fn local(self) -> Option<Prio>
        ensures given { IsSome result ↔ (1 ≤ self.local) }
        ensures value { IfSome result (λ p. p ≡ self.local) }
        ensures most { self.local ≤ 99 }
    {
        self.local
    }
}
