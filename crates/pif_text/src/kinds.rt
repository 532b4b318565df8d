//! The words of the kinds of mutexes: those that a line has, and that a text shows.
ghost use Rattle.std.specs.Prelude.{◌≡◌, ◌≤◌, length};
ghost use Rattle.pif_text_model.specs.Commands.{kind_in};
ghost use Rattle.pif_text_model.specs.CommandTexts.{kind_word};

use pif_types::Kind;

/// The word of `Kind::Normal`.
pub const NORMAL_WORD: &str = "normal";

/// Another word of `Kind::Normal`, which is read and never written.
pub const DEFAULT_WORD: &str = "default";

/// The word of `Kind::ErrorCheck`.
pub const ERROR_CHECK_WORD: &str = "errorcheck";

/// The word of `Kind::Recursive`.
pub const RECURSIVE_WORD: &str = "recursive";

/// The type of a mutex, in one word of at most 10 letters: `normal`, `errorcheck` or `recursive`, after the names
/// PTHREAD_MUTEX_NORMAL, PTHREAD_MUTEX_ERRORCHECK and PTHREAD_MUTEX_RECURSIVE of pthread_mutexattr_settype(3p).
pub fn kind_word(kind: Kind) -> &'static str
    ensures items { result.now ≡ kind_word kind }
    ensures len { length result.now ≤ 10 }
{
    match kind {
        Kind::Normal => NORMAL_WORD,
        Kind::ErrorCheck => ERROR_CHECK_WORD,
        Kind::Recursive => RECURSIVE_WORD,
    }
}

/// The type of a mutex that a word names.
#[tactic(auto, unfolding(pif_text_model::specs::Commands::kind_in))]
pub(crate) fn kind_of(word: &[u8]) -> Option<Kind>
    ensures { result ≡ kind_in word.now }
{
    if word == NORMAL_WORD.as_bytes() || word == DEFAULT_WORD.as_bytes() {
        Some(Kind::Normal)
    } else if word == ERROR_CHECK_WORD.as_bytes() {
        Some(Kind::ErrorCheck)
    } else if word == RECURSIVE_WORD.as_bytes() {
        Some(Kind::Recursive)
    } else {
        None
    }
}
