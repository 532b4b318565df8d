ghost use Rattle.std.specs.Prelude.{flat_map, unwrap_or, ◌≡◌, ◌≤◌, ◌==◌, [], false, codes, decimal, option_copied, if◌then◌else◌};
ghost use Rattle.pif_model.specs.Calls.{kind_answer, owner_answer, word_answer};
ghost use Rattle.pif_model.specs.Projection.{health_of};
ghost use Rattle.pif_model.specs.Word.{health_word, word_of};
ghost use Rattle.pif_text_model.specs.Replies.{thread_name};
ghost use Rattle.pif_text.specs.Json.{numbers};
ghost use Rattle.pif_text_core.specs.Changes.{new_mutex_line};
ghost use Rattle.pif_text_core.specs.Pages.{Tells};
ghost use Rattle.pif_text_core.specs.Texts.{has_own_line, health_at, health_part, if_some, lag_text, kind_by, lags, mutex_line, owner_text, state_by, times_text, word_front, word_text};
ghost use Rattle.pif_text_core.specs.Waiting.{mutexes_added};

use crate::changes::was_mutex_there;
use crate::counts::mutexes_added;
use crate::names::Names;
use crate::pages::Page;
use crate::queues::show_queue;
use crate::threads::{show_owner, show_times};
use pif_core::{Core, Order};
use pif_text::{health_word, kind_word};
use pif_types::{Health, MutexId};
use pif_word::{has_waiters, number, owner_died};
use std::io::Write;

/// Writes a line for each mutex, or if there is a core from before, for each of which the line has changed.
pub fn show_mutexes<W: Write>(
    names: &Names<'_>,
    before: Option<&Core>,
    core: &Core,
    page: &mut Page,
    writer: &mut W,
)
    ensures { Tells page.old page.new (W.contents writer.old) (W.contents writer.new)
        (flat_map (new_mutex_line names.now (option_copied before.entry) core.now) (numbers (mutexes_added core.now))) }
{
    for place in 0..mutexes_added(core) {
        show_mutex_if_new(names, before, core, place + 1, page, writer);
    }
}

/// Writes the line of the mutex of this number if it wasn't there before.
fn show_mutex_if_new<W: Write>(
    names: &Names<'_>,
    before: Option<&Core>,
    core: &Core,
    number: u32,
    page: &mut Page,
    writer: &mut W,
)
    requires { 1 ≤ number }
    ensures { Tells page.old page.new (W.contents writer.old) (W.contents writer.new)
        (new_mutex_line names.now (option_copied before.entry) core.now number) }
{
    let Some(mutex) = MutexId::new(number) else {
        return;
    };
    if !was_mutex_there(before, core, mutex) {
        show_mutex(names, core, mutex, page, writer);
    }
}

/// Writes the line of a mutex. If the health word of a robust one lags behind its state, there are two lines.
fn show_mutex<W: Write>(
    names: &Names<'_>,
    core: &Core,
    mutex: MutexId,
    page: &mut Page,
    writer: &mut W,
)
    ensures { Tells page.old page.new (W.contents writer.old) (W.contents writer.new) (mutex_line names.now core.now mutex) }
{
    let word = word_in(core, mutex);
    let health = health_at(core, mutex);
    let died = owner_died(word);
    page.mutex("  ", mutex, writer);
    show_kind(core, mutex, health, died, page, writer);
    page.words(front_of_word(core, mutex, health, died), writer);
    show_word(word, page, writer);
    show_ownership(names, core, mutex, page, writer);
    show_queue(
        names,
        core,
        &Order::Waiters(mutex),
        "; waiters ",
        page,
        writer,
    );
    page.words("\n", writer);
}

/// The word of a mutex; 0 if there is none.
fn word_in(core: &Core, mutex: MutexId) -> u32
    ensures { result ≡ unwrap_or (word_answer mutex core.now) 0 }
{
    core.word(mutex).unwrap_or(0)
}

/// The health word of a mutex.
fn health_at(core: &Core, mutex: MutexId) -> Health
    ensures { result ≡ health_at mutex core.now }
{
    core.health(mutex).unwrap_or(Health::Fine)
}

/// Writes the kind of a mutex, whether it is robust, and its state.
fn show_kind<W: Write>(
    core: &Core,
    mutex: MutexId,
    health: Health,
    died: bool,
    page: &mut Page,
    writer: &mut W,
)
    ensures { Tells page.old page.new (W.contents writer.old) (W.contents writer.new) (if_some (kind_by health died) (kind_answer mutex core.now)) }
{
    if let Some((kind, is_robust)) = core.kind(mutex) {
        page.words(": ", writer);
        page.words(kind_word(kind), writer);
        if is_robust {
            show_state(health, died, page, writer);
        }
    }
}

/// What stands before the word of a mutex, which has a line of its own behind a health word that lags.
fn front_of_word(core: &Core, mutex: MutexId, health: Health, died: bool) -> &'static str
    ensures { result.now ≡ word_front (has_own_line health died (kind_answer mutex core.now)) }
{
    match core.kind(mutex) {
        Some((_, true)) if lags(health, died) => "\n      word ",
        _ => "; word ",
    }
}

/// Whether the health word of a robust mutex lags behind its state.
fn lags(health: Health, died: bool) -> bool
    ensures { result ≡ lags health died }
{
    match health {
        Health::Fine => died,
        _ => false,
    }
}

/// Writes the state of a robust mutex by POSIX, and what the health word says if that is something else.
fn show_state<W: Write>(health: Health, died: bool, page: &mut Page, writer: &mut W)
    ensures { Tells page.old page.new (W.contents writer.old) (W.contents writer.new) (health_part health died) }
{
    page.words(", robust, ", writer);
    page.words(health_word(state_of(health, died)), writer);
    show_lag(health, died, page, writer);
}

/// Writes what the health word of a mutex says if it lags behind the state.
fn show_lag<W: Write>(health: Health, died: bool, page: &mut Page, writer: &mut W)
    ensures { Tells page.old page.new (W.contents writer.old) (W.contents writer.new) (lag_text (lags health died) health) }
{
    if lags(health, died) {
        page.words(" (health word: ", writer);
        page.words(health_word(health), writer);
        page.words(")", writer);
    }
}

/// The state of a robust mutex by POSIX, of which this is the health word, by whether OWNER_DIED is set. Once its owner
/// has ended it is inconsistent, though the health word is written only when a thread takes the mutex over.
fn state_of(health: Health, died: bool) -> Health
    ensures state { result ≡ state_by health died }
    ensures posix { health_of (health_word result) false ≡ health_of (health_word health) died }
{
    match health {
        Health::Fine if died => Health::Inconsistent,
        health => health,
    }
}

/// Writes the parts of the word of a mutex.
fn show_word<W: Write>(word: u32, page: &mut Page, writer: &mut W)
    ensures { Tells page.old page.new (W.contents writer.old) (W.contents writer.new) (word_text (word_of word)) }
{
    show_number(number(word), page, writer);
    show_bit(has_waiters(word), " + WAITERS", page, writer);
    show_bit(owner_died(word), " + OWNER_DIED", page, writer);
}

/// Writes the owner's number in a word, as a thread; 0 if there is none.
fn show_number<W: Write>(number: u32, page: &mut Page, writer: &mut W)
    ensures { Tells page.old page.new (W.contents writer.old) (W.contents writer.new) (if number == 0 then decimal 0 else thread_name number) }
{
    if number == 0 {
        page.number("", 0, writer);
    } else {
        page.number("t", number, writer);
    }
}

/// Writes the name of a bit if it is set.
fn show_bit<W: Write>(is_set: bool, words: &str, page: &mut Page, writer: &mut W)
    ensures { Tells page.old page.new (W.contents writer.old) (W.contents writer.new) (if is_set then words.now else []) }
{
    if is_set {
        page.words(words, writer);
    }
}

/// Writes the owner of a mutex, and how often it holds the mutex; nothing if nobody owns it.
fn show_ownership<W: Write>(
    names: &Names<'_>,
    core: &Core,
    mutex: MutexId,
    page: &mut Page,
    writer: &mut W,
)
    ensures { Tells page.old page.new (W.contents writer.old) (W.contents writer.new) (owner_text names.now mutex core.now) }
{
    show_owner("; owner ", names, core, mutex, page, writer);
    show_count(core, mutex, page, writer);
}

/// Writes how often a mutex is held, if it is held more than once.
fn show_count<W: Write>(core: &Core, mutex: MutexId, page: &mut Page, writer: &mut W)
    ensures { Tells page.old page.new (W.contents writer.old) (W.contents writer.new) (if_some (λ owner. times_text (codes ", ") (codes " times") owner.1) (owner_answer mutex core.now)) }
{
    if let Some((_, count)) = core.owner(mutex) {
        show_times(", ", count, " times", page, writer);
    }
}
