ghost use Rattle.std.specs.Prelude.{◌≡◌, ◌∷◌, [], option_copied};
ghost use Rattle.pif_text_model.specs.Words.{words, words_behind};
ghost use Rattle.pif_text_model.specs.Commands.{with_argument, with_arguments, request_in, robust_in, limits_in, command_of_one, command_of_two, command_of_more, command_of_words, command_in};

use crate::kinds::kind_of;
use crate::numbers::{cond_of, mutex_of, number_of, thread_of};
use crate::questions::{question_of_one, question_of_two};
use crate::words::{is_word, split_first};
use crate::{Addition, Command};
use pif_model::Event;
use pif_text_model::{Arguments, CallKind, Parameter};
use pif_types::{CondId, MutexId, Request, Tid};

/// Arguments with what a word writes for a parameter.
#[tactic(auto, unfolding(pif_text_model::specs::Commands::with_argument))]
fn with_argument(parameter: Parameter, word: &[u8], arguments: &Arguments) -> Option<Arguments>
    ensures { result ≡ with_argument parameter word.now arguments.now }
{
    let mut arguments = *arguments;
    match parameter {
        Parameter::Thread => arguments.thread = Some(thread_of(word)?),
        Parameter::Mutex => arguments.mutex = Some(mutex_of(word)?),
        Parameter::Cond => arguments.cond = Some(cond_of(word)?),
        Parameter::Priority => arguments.priority = Some(number_of(word)?),
        Parameter::Deadline => arguments.deadline = Some(number_of(word)?),
    }
    Some(arguments)
}

/// Arguments with those that words write, one word for each parameter.
#[tactic(auto, using(pif_text_model::proofs::Splits::no_more_arguments), unfolding(pif_text_model::specs::Commands::with_arguments))]
fn with_arguments(
    parameters: &[Parameter],
    rest: Option<&[u8]>,
    arguments: &Arguments,
) -> Option<Arguments>
    ensures { result ≡ with_arguments parameters.now (words_behind (option_copied rest.entry)) arguments.now }
{
    match parameters {
        [] => match rest {
            None => Some(*arguments),
            Some(_) => None,
        },
        [parameter, more @ ..] => {
            let (word, behind) = split_first(rest?);
            with_arguments(more, behind, &with_argument(*parameter, word, arguments)?)
        }
    }
}

/// The request that a text writes, as `lock m1`: the word of a call, and then a word for each of its parameters, with
/// one space between them. `None` if it is none. Any bytes and any length may be given.
#[tactic(auto, unfolding(pif_text_model::specs::Commands::request_in))]
pub fn request_of(text: &[u8]) -> Option<Request>
    ensures { result ≡ request_in (words text.now) }
{
    // The check has to be told of the types that arguments hold.
    let _none: (Option<Tid>, Option<MutexId>, Option<CondId>) = (None, None, None);
    let (name, rest) = split_first(text);
    let call = CallKind::named(name)?;
    let arguments = with_arguments(call.row().parameters, rest, &Arguments::none())?;
    call.request(&arguments)
}

/// The command of one word.
#[tactic(auto, unfolding(pif_text_model::specs::Commands::command_of_one))]
fn of_one(name: &[u8]) -> Option<Command>
    ensures { result ≡ command_of_one name.now }
{
    question_of_one(name).map(Command::Ask)
}

/// The command of two words.
#[tactic(auto, unfolding(pif_text_model::specs::Commands::command_of_two))]
fn of_two(name: &[u8], word: &[u8]) -> Option<Command>
    ensures { result ≡ command_of_two name.now word.now }
{
    if is_word(name, b"go") {
        Some(Command::Event(Event::Go(thread_of(word)?)))
    } else if is_word(name, b"finish") {
        Some(Command::Run(thread_of(word)?, None))
    } else if is_word(name, b"end") {
        Some(Command::Event(Event::End(thread_of(word)?)))
    } else if is_word(name, b"tick") {
        Some(Command::Event(Event::Tick(number_of(word)?)))
    } else if is_word(name, b"thread") {
        Some(Command::Add(Addition::Thread(number_of(word)?)))
    } else if is_word(name, b"mutex") {
        Some(Command::Add(Addition::Mutex(kind_of(word)?, false)))
    } else if is_word(name, b"cond") {
        Some(Command::Add(Addition::Cond(mutex_of(word)?)))
    } else {
        question_of_two(name, word).map(Command::Ask)
    }
}

/// The command `mutex K robust`, given what stands behind its kind.
#[tactic(auto, using(pif_text_model::proofs::Splits::no_more_robust), unfolding(pif_text_model::specs::Commands::robust_in))]
fn robust_of(kind: &[u8], rest: &[u8]) -> Option<Command>
    ensures { result ≡ robust_in kind.now (words rest.now) }
{
    let (last, behind) = split_first(rest);
    match behind {
        None if is_word(last, b"robust") => {
            Some(Command::Add(Addition::Mutex(kind_of(kind)?, true)))
        }
        None => None,
        Some(_) => None,
    }
}

/// The command `limits T M C S`, given what stands behind its first number.
#[tactic(auto, using(pif_text_model::proofs::Splits::no_more_limits), unfolding(pif_text_model::specs::Commands::limits_in))]
fn limits_of(threads: &[u8], rest: &[u8]) -> Option<Command>
    ensures { result ≡ limits_in threads.now (words rest.now) }
{
    let (mutexes, rest) = split_first(rest);
    let (conds, rest) = split_first(rest?);
    let (signals, behind) = split_first(rest?);
    match behind {
        None => Some(Command::Limits(
            number_of(threads)?,
            number_of(mutexes)?,
            number_of(conds)?,
            number_of(signals)?,
        )),
        Some(_) => None,
    }
}

/// The command that begins with a name and a word, before `rest`.
#[tactic(auto, unfolding(pif_text_model::specs::Commands::command_of_more))]
fn of_more(name: &[u8], word: &[u8], rest: &[u8]) -> Option<Command>
    ensures { result ≡ command_of_more name.now word.now (words rest.now) }
{
    if is_word(name, b"call") {
        Some(Command::Run(thread_of(word)?, Some(request_of(rest)?)))
    } else if is_word(name, b"begin") {
        Some(Command::Event(Event::Begin(thread_of(word)?, request_of(rest)?)))
    } else if is_word(name, b"limits") {
        limits_of(word, rest)
    } else if is_word(name, b"mutex") {
        robust_of(word, rest)
    } else {
        None
    }
}

/// The command that begins with a name, before `rest`.
fn of_named(name: &[u8], rest: &[u8]) -> Option<Command>
    ensures { result ≡ command_of_words (name.now ∷ words rest.now) }
{
    let (word, rest) = split_first(rest);
    match rest {
        None => of_two(name, word),
        Some(rest) => of_more(name, word, rest),
    }
}

/// The command of a line, given as its bytes without the line feed, or `None` if the line is no command. Any bytes and
/// any length may be given.
#[tactic(auto, unfolding(pif_text_model::specs::Commands::command_in))]
pub fn command_of(line: &[u8]) -> Option<Command>
    ensures { result ≡ command_in line.now }
{
    let (name, rest) = split_first(line);
    match rest {
        None => of_one(name),
        Some(rest) => of_named(name, rest),
    }
}
