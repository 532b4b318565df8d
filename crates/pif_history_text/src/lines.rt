ghost use Rattle.std.specs.Prelude.{◌≡◌, ◌∷◌, ◌+◌, ◌≤◌, ◌<◌, ◌↔◌, ◌==◌, IsTrue, length, option_copied, option_map};
ghost use Rattle.pif_types.specs.Numbers.{number_of};
ghost use Rattle.pif_text_model.specs.Words.{words};
ghost use Rattle.pif_history_text.specs.Lines.{addition_said, answer_in, command_said, event_said, is_long, lending_nothing, line_of_one, line_of_three, line_of_two, line_of_words, none_before, none_in, said_by_text, said_by_words, said_in, several_in, text_of_line};

use crate::Said;
use crate::allowed::allowed_of;
use crate::texts::is_passed;
use pif_history_model::{Line, Protocol};
use pif_model::Event;
use pif_text::{
    Addition, Command, command_of, errno_named, is_word, number_of, split_first, thread_of,
};
use pif_types::Answer;

/// What stands after a mutex of PTHREAD_PRIO_NONE, and how long it is.
const NONE: &[u8; 5] = b" none";

/// What a call returned, as a word says it: the number that it writes, or that of the error which it names. `None` if
/// the word is neither.
#[tactic(auto, unfolding(crate::specs::Lines::answer_in))]
pub fn answer_of(word: &[u8]) -> Option<Answer>
    ensures { result ≡ answer_in word.now }
{
    match number_of(word) {
        Some(number) => Some(number),
        None => Some(errno_named(word)?.number()),
    }
}

/// What an event of scripts says.
fn said_by_event(event: Event) -> Option<Said>
    ensures { result ≡ event_said event }
{
    match event {
        Event::Begin(thread, request) => Some(Said::Shown(Line::Begin(thread, request))),
        Event::End(thread) => Some(Said::Shown(Line::End(thread))),
        Event::Tick(time) => Some(Said::Shown(Line::Tick(time))),
        Event::Go(_) => None,
    }
}

/// What an addition says. The mutexes of scripts inherit.
fn said_by_addition(addition: Addition) -> Said
    ensures { result ≡ addition_said addition }
{
    match addition {
        Addition::Thread(priority) => Said::Shown(Line::Thread(priority)),
        Addition::Mutex(kind, robust) => {
            Said::Shown(Line::Mutex(kind, robust, Protocol::PrioInherit))
        }
        Addition::Cond(mutex) => Said::Shown(Line::Cond(mutex)),
    }
}

/// What a command of scripts says.
fn said_by_command(command: Command) -> Option<Said>
    ensures { result ≡ command_said command }
{
    match command {
        Command::Limits(threads, mutexes, conds, signals) => {
            Some(Said::Limits(threads, mutexes, conds, signals))
        }
        Command::Add(addition) => Some(said_by_addition(addition)),
        Command::Event(event) => said_by_event(event),
        Command::Run(..) | Command::Ask(_) => None,
    }
}

/// The line of a mutex that lends nothing, if this command adds a mutex.
fn lending_nothing(command: Command) -> Option<Line>
    ensures { result ≡ lending_nothing command }
{
    match command {
        Command::Add(Addition::Mutex(kind, robust)) => {
            Some(Line::Mutex(kind, robust, Protocol::PrioNone))
        }
        _ => None,
    }
}

/// The line of a mutex that lends nothing, if a text is the command that adds a mutex.
fn none_before(front: &[u8]) -> Option<Line>
    ensures { result ≡ none_before front.now }
{
    match command_of(front) {
        Some(command) => lending_nothing(command),
        None => None,
    }
}

/// The line of a mutex of PTHREAD_PRIO_NONE, if a text adds one.
#[tactic(auto, unfolding(crate::specs::Lines::none_in))]
fn none_of(text: &[u8]) -> Option<Line>
    ensures { result ≡ none_in text.now }
{
    if text.len() < NONE.len() {
        return None;
    }
    let (front, last) = text.split_at(text.len() - NONE.len());
    if is_word(last, NONE) {
        none_before(front)
    } else {
        None
    }
}

/// The line of one word.
#[tactic(auto, unfolding(crate::specs::Lines::line_of_one))]
fn of_one(name: &[u8]) -> Option<Line>
    ensures { result ≡ line_of_one name.now }
{
    if is_word(name, b"halted") {
        Some(Line::Halted)
    } else if is_word(name, b"resumed") {
        Some(Line::Resumed)
    } else {
        None
    }
}

/// The line of two words.
#[tactic(auto, unfolding(crate::specs::Lines::line_of_two))]
fn of_two(name: &[u8], word: &[u8]) -> Option<Line>
    ensures { result ≡ line_of_two name.now word.now }
{
    let thread = thread_of(word)?;
    if is_word(name, b"dying") {
        Some(Line::Dying(thread))
    } else if is_word(name, b"rests") {
        Some(Line::Rests(thread))
    } else if is_word(name, b"process") {
        Some(Line::Process(thread))
    } else {
        None
    }
}

/// The line of three words.
#[tactic(auto, unfolding(crate::specs::Lines::line_of_three))]
fn of_three(name: &[u8], first: &[u8], second: &[u8]) -> Option<Line>
    ensures { result ≡ line_of_three name.now first.now second.now }
{
    let thread = thread_of(first)?;
    if is_word(name, b"answer") {
        Some(Line::Answer(thread, answer_of(second)?))
    } else if is_word(name, b"prio") {
        Some(Line::Prio(thread, number_of(second)?))
    } else {
        None
    }
}

/// The line that begins with a name, before `rest`.
fn of_named(name: &[u8], rest: &[u8]) -> Option<Line>
    ensures { result ≡ line_of_words (name.now ∷ words rest.now) }
{
    let (first, rest) = split_first(rest);
    let Some(rest) = rest else {
        return of_two(name, first);
    };
    let (second, rest) = split_first(rest);
    match rest {
        None => of_three(name, first, second),
        Some(_) => None,
    }
}

/// The line that the words of a text make, if they make one that is no command of scripts.
fn of_words(text: &[u8]) -> Option<Line>
    ensures { result ≡ line_of_words (words text.now) }
{
    let (name, rest) = split_first(text);
    match rest {
        None => of_one(name),
        Some(rest) => of_named(name, rest),
    }
}

/// What stands after `process` in a text, if that is two words or more: a line of one thread is a line of two words.
#[tactic(auto, unfolding(crate::specs::Lines::several_in), using(crate::proofs::SplitLemmas::several, crate::proofs::SplitLemmas::none_several))]
pub fn several_of(text: &[u8]) -> Option<&[u8]>
    ensures { option_map words (option_copied result) ≡ several_in (words text.now) }
{
    let (name, rest) = split_first(text);
    let Some(names) = rest else {
        return None;
    };
    let (_, more) = split_first(names);
    let Some(_more) = more else {
        return None;
    };
    if is_word(name, b"process") {
        Some(names)
    } else {
        None
    }
}

/// What a text says that is no command of scripts: a line, or which rules are allowed.
fn said_by_words(text: &[u8]) -> Option<Said>
    ensures { result ≡ said_by_words (words text.now) }
{
    match of_words(text) {
        Some(line) => Some(Said::Shown(line)),
        None => Some(Said::Allow(allowed_of(text)?)),
    }
}

/// What a text says that is no command of scripts: what its words say, or else a mutex of PTHREAD_PRIO_NONE.
fn said_by_text(text: &[u8]) -> Option<Said>
    ensures { result ≡ said_by_text text.now }
{
    match said_by_words(text) {
        Some(said) => Some(said),
        None => Some(Said::Shown(none_of(text)?)),
    }
}

/// What the text of a line says, or `None` if the line is a fault.
#[tactic(auto, unfolding(crate::specs::Lines::said_in))]
pub fn said_of(text: &[u8]) -> Option<Said>
    ensures { result ≡ said_in text.now }
{
    if is_passed(text) {
        return Some(Said::Nothing);
    }
    match command_of(text) {
        Some(command) => said_by_command(command),
        None => said_by_text(text),
    }
}
