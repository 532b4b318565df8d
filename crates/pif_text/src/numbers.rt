ghost use Rattle.std.specs.Prelude.{◌≡◌, ℕ, ◌<◌, decimal};
ghost use Rattle.pif_text_model.specs.Numbers.{value_in, name_in, number_in, thread_in, mutex_in, cond_in};

use pif_types::{CondId, MutexId, Tid};

/// The number below 2 ^ 32 that decimal digits write, zeros in front of it or not.
fn value_of(digits: &[u8]) -> Option<u32>
    ensures { result ≡ value_in digits.now }
{
    let mut value: u64 = 0;
    for digit in digits {
        if !digit.is_ascii_digit() {
            return None;
        }
        value = value * 10 + u64::from(*digit - b'0');
        if value >= 4_294_967_296 {
            return None;
        }
    }
    Some(value as u32)
}

/// The number that a word writes.
#[tactic(auto, unfolding(pif_text_model::specs::Numbers::number_in, pif_text_model::specs::Numbers::value_in))]
pub fn number_of(word: &[u8]) -> Option<u32>
    ensures { result ≡ number_in word.now }
{
    match word {
        [] | [b'0', _, ..] => None,
        digits => value_of(digits),
    }
}

/// The number of a name: this letter, and right behind it a number that is at least 1. `None` if the word is no such
/// name.
pub fn number_behind(letter: u8, word: &[u8]) -> Option<u32>
    ensures { result ≡ name_in letter word.now }
{
    match word {
        [first, digits @ ..] if *first == letter => number_of(digits).filter(|number| *number > 0),
        _ => None,
    }
}

/// The thread that a word names.
#[tactic(auto, unfolding(pif_text_model::specs::Numbers::thread_in))]
pub fn thread_of(word: &[u8]) -> Option<Tid>
    ensures { result ≡ thread_in word.now }
{
    match word {
        [b't', digits @ ..] => Tid::new(number_of(digits)?),
        _ => None,
    }
}

/// The mutex that a word names.
#[tactic(auto, unfolding(pif_text_model::specs::Numbers::mutex_in))]
pub fn mutex_of(word: &[u8]) -> Option<MutexId>
    ensures { result ≡ mutex_in word.now }
{
    match word {
        [b'm', digits @ ..] => MutexId::new(number_of(digits)?),
        _ => None,
    }
}

/// The condition variable that a word names.
#[tactic(auto, unfolding(pif_text_model::specs::Numbers::cond_in))]
pub fn cond_of(word: &[u8]) -> Option<CondId>
    ensures { result ≡ cond_in word.now }
{
    match word {
        [b'c', digits @ ..] => CondId::new(number_of(digits)?),
        _ => None,
    }
}

/// Each number below 2 ^ 32, written in decimal digits, is read as itself.
pub fn number_reads_back()
    ensures { (n : ℕ) → n < 4294967296 → number_in (decimal n) ≡ Some n }
{}
