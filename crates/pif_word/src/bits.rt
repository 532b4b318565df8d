ghost use Rattle.std.specs.Prelude.{◌≡◌, ◌<◌, ◌^◌, false, option_map};
ghost use Rattle.pif_model.specs.Word as model;
ghost use Rattle.pif_model.specs.Word.{word_of};

use pif_types::Health;

/// FUTEX_WAITERS: threads contend for the mutex, or did.
pub const WAITERS: u32 = 0x8000_0000;

/// FUTEX_OWNER_DIED: the last owner of the mutex ended.
pub const OWNER_DIED: u32 = 0x4000_0000;

/// FUTEX_TID_MASK: the bits in which the owner's number stands.
pub const TID_MASK: u32 = 0x3fff_ffff;

/// The owner's number in the word `w`, below 2^30. 0 if there is no owner.
pub fn number(w: u32) -> u32
    ensures value { result ≡ (word_of w).number }
    ensures range { result < 2 ^ 30 }
{
    w & TID_MASK
}

/// Whether `WAITERS` is set in the word `w`.
pub fn has_waiters(w: u32) -> bool
    ensures { result ≡ (word_of w).waiters }
{
    w & WAITERS != 0
}

/// Whether `OWNER_DIED` is set in the word `w`.
pub fn owner_died(w: u32) -> bool
    ensures { result ≡ (word_of w).died }
{
    w & OWNER_DIED != 0
}

/// The word after a compare-exchange of the word `w` from 0 to the number `t`, below 2^30: how user space takes a
/// mutex. `Some(t)` if `w` is 0, and `None`, with nothing written, if it is not.
pub fn take_word(w: u32, t: u32) -> Option<u32>
    requires { t < 2 ^ 30 }
    ensures { option_map word_of result ≡ model.take_word (word_of w) t }
{
    if w == 0 { Some(t) } else { None }
}

/// The word after a compare-exchange of the word `w` from the number `t`, below 2^30, to 0: how user space releases a
/// mutex. `Some(0)` if `w` is `t` with no flag, and `None`, with nothing written, if it is not.
pub fn release_word(w: u32, t: u32) -> Option<u32>
    requires { t < 2 ^ 30 }
    ensures { option_map word_of result ≡ model.release_word (word_of w) t }
{
    if w == t { Some(0) } else { None }
}

/// The word `w` with `WAITERS` set: what the kernel writes when a thread queues. The number and `OWNER_DIED` stay.
pub fn mark_word(w: u32) -> u32
    ensures { word_of result ≡ model.mark_word (word_of w) }
{
    w | WAITERS
}

/// The word that the kernel writes when it hands a mutex to the thread `u`, below 2^30: its number, and `WAITERS`.
pub fn hand_word(u: u32) -> u32
    requires { u < 2 ^ 30 }
    ensures { word_of result ≡ model.hand_word u }
{
    u | WAITERS
}

/// The word that the kernel writes when the thread `t`, below 2^30, takes a mutex whose word is `w` and has no owner:
/// its number, and what `w` says of `OWNER_DIED`.
pub fn taken_word(w: u32, t: u32) -> u32
    requires { t < 2 ^ 30 }
    ensures { word_of result ≡ model.taken_word t (word_of w) }
{
    (w & OWNER_DIED) | t
}

/// The word that the kernel writes when the owner of a mutex, whose word is `w`, has ended and nobody is queued: no
/// number, `WAITERS` as it was, and `OWNER_DIED`.
pub fn orphan_word(w: u32) -> u32
    ensures { word_of result ≡ model.orphan_word (word_of w) }
{
    (w & WAITERS) | OWNER_DIED
}

/// The word that the kernel writes when it hands a mutex, whose owner has ended, to the thread `u`, below 2^30: its
/// number, and both flags.
pub fn inherit_word(u: u32) -> u32
    requires { u < 2 ^ 30 }
    ensures { word_of result ≡ model.inherit_word u }
{
    u | (WAITERS | OWNER_DIED)
}

/// What the health word `w` says: 1 inconsistent, 2 unusable, and any other fine.
pub fn health_in(w: u32) -> Health
    ensures { result ≡ model.health_in w }
{
    match w {
        1 => Health::Inconsistent,
        2 => Health::Unusable,
        _ => Health::Fine,
    }
}

/// The health word that says `health`: 0 fine, 1 inconsistent, 2 unusable.
pub fn health_word(health: Health) -> u32
    ensures { result ≡ model.health_word health }
{
    match health {
        Health::Fine => 0,
        Health::Inconsistent => 1,
        Health::Unusable => 2,
    }
}
