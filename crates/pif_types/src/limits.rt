ghost use Rattle.std.specs.Prelude.{◌≡◌, ◌↔◌, IsSome, IfSome};
ghost use Rattle.pif_types.specs.Bounds.{Bounds, IsWithin};

use std::marker::Model;

/// How much a core may take: 1 to 1,024 threads ever, 0 to 1,024 mutexes, 0 to 256 condition variables, and 1 to
/// 4,294,967,295 signals and broadcasts together on one variable.
#[derive(Clone, Copy, Debug, PartialEq, Eq)]
pub struct Limits {
    threads: u32,
    mutexes: u32,
    conds: u32,
    signals: u32,
}

impl Model for Limits {
    ghost use Rattle.pif_types.specs.Bounds.{Bounds, IsWithin};

    ghost Value = { Bounds };

    ghost view = { λ l. record { threads = l.threads; mutexes = l.mutexes; conds = l.conds; signals = l.signals } };

    ghost invariant = { λ l. IsWithin (record { threads = l.threads; mutexes = l.mutexes; conds = l.conds; signals = l.signals }) };

    ghost inverse = { λ b. record { threads = b.threads; mutexes = b.mutexes; conds = b.conds; signals = b.signals } };
}

impl Limits {
    /// These limits, or `None` if one of them is outside its range.
    pub fn new(threads: u32, mutexes: u32, conds: u32, signals: u32) -> Option<Limits>
        ensures valid { IsSome result ↔ IsWithin (record { threads = threads; mutexes = mutexes; conds = conds; signals = signals }) }
        ensures value { IfSome result (λ l. l ≡ record { threads = threads; mutexes = mutexes; conds = conds; signals = signals }) }
    {
        if threads >= 1 && threads <= 1024 && mutexes <= 1024 && conds <= 256 && signals >= 1 {
            Some(Limits {
                threads,
                mutexes,
                conds,
                signals,
            })
        } else {
            None
        }
    }

    /// The most threads that may ever be added, 1 to 1,024.
    pub fn threads(&self) -> u32
        ensures value { result ≡ self.now.threads }
        ensures range { IsWithin self.now }
    {
        self.threads
    }

    /// The most mutexes, 0 to 1,024.
    pub fn mutexes(&self) -> u32
        ensures value { result ≡ self.now.mutexes }
        ensures range { IsWithin self.now }
    {
        self.mutexes
    }

    /// The most condition variables, 0 to 256.
    pub fn conds(&self) -> u32
        ensures value { result ≡ self.now.conds }
        ensures range { IsWithin self.now }
    {
        self.conds
    }

    /// The most signals and broadcasts together on one variable, 1 to 4,294,967,295.
    pub fn signals(&self) -> u32
        ensures value { result ≡ self.now.signals }
        ensures range { IsWithin self.now }
    {
        self.signals
    }
}
