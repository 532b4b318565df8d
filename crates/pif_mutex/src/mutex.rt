ghost use Rattle.std.specs.Prelude.{◌≡◌};
ghost use Rattle.pif_model.specs.Table.{new_mutex};

use pif_types::Kind;
use std::marker::Model;

/// What the library knows of a mutex beside its words.
#[derive(Clone, Copy)]
pub struct Mutex {
    /// Its kind.
    pub(crate) kind: Kind,
    /// Whether it is robust.
    pub(crate) robust: bool,
    /// How often its owner holds it.
    pub(crate) count: u32,
}

impl Model for Mutex {
    ghost use Rattle.pif_model.specs.Table.{LibraryMutex};

    ghost Value = { LibraryMutex };

    ghost view = { λ m. record { kind = m.kind; robust = m.robust; count = m.count } };

    ghost inverse = { λ m. record { kind = m.kind; robust = m.robust; count = m.count } };
}

impl Mutex {
    /// A new mutex of this kind, which nobody holds.
    pub fn new(kind: Kind, robust: bool) -> Mutex
        ensures { result ≡ new_mutex kind robust }
    {
        Mutex {
            kind,
            robust,
            count: 1,
        }
    }
}
