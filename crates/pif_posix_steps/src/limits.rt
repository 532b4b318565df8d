ghost use Rattle.std.specs.Prelude.{◌≡◌};

use std::marker::Model;

/// How much the machine of a history takes: threads, mutexes and condition variables ever added, and signals and
/// broadcasts together on one variable. Each is 0 to 4,294,967,295, since the POSIX machine takes any; the limits of a
/// core, `Limits`, are narrower.
#[derive(Clone, Copy)]
pub struct HistoryLimits {
    /// The most threads that are ever added.
    pub threads: u32,
    /// The most mutexes.
    pub mutexes: u32,
    /// The most condition variables.
    pub conds: u32,
    /// The most signals and broadcasts together on one variable.
    pub signals: u32,
}

impl Model for HistoryLimits {
    ghost use Rattle.pif_types.specs.Bounds.{Bounds};

    ghost Value = { Bounds };

    ghost view = { λ l. record { threads = l.threads; mutexes = l.mutexes; conds = l.conds; signals = l.signals } };

    ghost inverse = { λ b. record { threads = b.threads; mutexes = b.mutexes; conds = b.conds; signals = b.signals } };
}

impl HistoryLimits {
    /// The most threads that are ever added.
    pub fn most_threads(&self) -> u32
        ensures { result ≡ self.now.threads }
    {
        self.threads
    }

    /// The most mutexes.
    pub fn most_mutexes(&self) -> u32
        ensures { result ≡ self.now.mutexes }
    {
        self.mutexes
    }

    /// The most condition variables.
    pub fn most_variables(&self) -> u32
        ensures { result ≡ self.now.conds }
    {
        self.conds
    }
}
