ghost use Rattle.std.specs.Prelude.{◌≡◌, ℕ, List, Some, ◌+◌, ◌≤◌, ◌++◌, codes, decimal, length};
ghost use Rattle.arrayvec.specs.ArrayVec.{array_vec_len};
ghost use Rattle.pif_text_model.specs.declared.commands.Command.{Command};
ghost use Rattle.pif_text_model.specs.Commands.{command_in};
ghost use Rattle.pif_text_model.specs.CommandTexts.{IsWritten, addition_text, argument_text, arguments_text, command_text, event_text, mutex_text, request_text, room_of, room_of_one, run_text, text_if_any};
ghost use Rattle.pif_text_model.specs.Replies.{thread_name};

use crate::kinds::kind_word;
use crate::questions::append_question;
use crate::writing::{
    append, append_cond, append_mutex, append_number, append_on_mutex, append_on_thread,
    append_thread,
};
use crate::{Addition, Command, TEXT_ROOM, Text};
use pif_model::Event;
use pif_text_model::{Arguments, CallKind, Parameter};
use pif_types::{Kind, Request, Tid};

/// How many bytes of room `command_text` asks for. The longest is `begin tN timedwait cN mN D`, each number of 10
/// digits.
pub const COMMAND_ROOM: usize = 62;

/// How many bytes of room `append_request` asks for. The longest is `timedwait cN mN D`, each number of 10 digits.
pub const REQUEST_ROOM: usize = 44;

/// Appends the command that adds a mutex of this type, robust or not, with no line feed, at most `COMMAND_ROOM` bytes.
/// What stands in `out` stays.
pub fn mutex_text(kind: Kind, robust: bool, out: &mut Text)
    requires { array_vec_len out.old + COMMAND_ROOM ≤ TEXT_ROOM }
    ensures written { out.new.items ≡ out.old.items ++ mutex_text kind robust }
    ensures within { array_vec_len out.new ≤ array_vec_len out.old + COMMAND_ROOM }
{
    append(out, b"mutex ");
    append(out, kind_word(kind).as_bytes());
    if robust {
        append(out, b" robust");
    }
}

/// Appends a number behind a space.
fn append_next(out: &mut Text, number: u32)
    requires { array_vec_len out.old + 11 ≤ TEXT_ROOM }
    ensures items { out.new.items ≡ out.old.items ++ codes " " ++ decimal number }
    ensures len { array_vec_len out.new ≤ array_vec_len out.old + 11 }
{
    append(out, b" ");
    append_number(out, number);
}

/// Appends the argument for a parameter, behind a space.
fn append_argument(out: &mut Text, parameter: Parameter, arguments: &Arguments)
    requires { array_vec_len out.old + room_of_one parameter ≤ TEXT_ROOM }
    ensures items { out.new.items ≡ out.old.items ++ (codes " " ++ argument_text parameter arguments.now) }
    ensures len { array_vec_len out.new ≤ array_vec_len out.old + room_of_one parameter }
{
    append(out, b" ");
    match parameter {
        Parameter::Thread => {
            if let Some(thread) = arguments.thread {
                append_thread(out, thread);
            }
        }
        Parameter::Mutex => {
            if let Some(mutex) = arguments.mutex {
                append_mutex(out, mutex);
            }
        }
        Parameter::Cond => {
            if let Some(cond) = arguments.cond {
                append_cond(out, cond);
            }
        }
        Parameter::Priority => append_number_if_any(out, arguments.priority),
        Parameter::Deadline => append_number_if_any(out, arguments.deadline),
    }
}

/// Appends a number, if there is one.
fn append_number_if_any(out: &mut Text, number: Option<u32>)
    requires { array_vec_len out.old + 10 ≤ TEXT_ROOM }
    ensures items { out.new.items ≡ out.old.items ++ text_if_any decimal number }
    ensures len { array_vec_len out.new ≤ array_vec_len out.old + 10 }
{
    if let Some(number) = number {
        append_number(out, number);
    }
}

/// Appends the arguments for these parameters, each behind a space.
fn append_arguments(out: &mut Text, parameters: &[Parameter], arguments: &Arguments)
    requires { array_vec_len out.old + room_of parameters.now ≤ TEXT_ROOM }
    ensures items { out.new.items ≡ out.old.items ++ arguments_text parameters.now arguments.now }
    ensures len { array_vec_len out.new ≤ array_vec_len out.old + room_of parameters.now }
{
    match parameters {
        [] => {}
        [parameter, more @ ..] => {
            append_argument(out, *parameter, arguments);
            append_arguments(out, more, arguments);
        }
    }
}

/// Appends a request as it stands in a script, at most `REQUEST_ROOM` bytes. What stands in `out` stays.
#[tactic(auto, unfolding(pif_text_model::specs::CommandTexts::request_text))]
pub fn append_request(out: &mut Text, request: Request)
    requires { array_vec_len out.old + REQUEST_ROOM ≤ TEXT_ROOM }
    ensures items { out.new.items ≡ out.old.items ++ request_text request }
    ensures len { array_vec_len out.new ≤ array_vec_len out.old + REQUEST_ROOM }
{
    let row = CallKind::of(&request).row();
    let arguments = Arguments::of(&request);
    append(out, row.name.as_bytes());
    append_arguments(out, row.parameters, &arguments);
}

/// Appends these words, and behind them a thread and its request.
fn append_call(out: &mut Text, words: &[u8], thread: Tid, request: Request)
    requires { array_vec_len out.old + length words.now + 56 ≤ TEXT_ROOM }
    ensures items { out.new.items ≡ out.old.items ++ (words.now ++ thread_name thread ++ codes " " ++ request_text request) }
    ensures len { array_vec_len out.new ≤ array_vec_len out.old + length words.now + 56 }
{
    append_on_thread(out, words, thread);
    append(out, b" ");
    append_request(out, request);
}

/// Appends four numbers.
fn append_numbers(out: &mut Text, first: u32, second: u32, third: u32, fourth: u32)
    requires { array_vec_len out.old + 43 ≤ TEXT_ROOM }
    ensures items { out.new.items ≡ out.old.items
        ++ (decimal first ++ codes " " ++ decimal second ++ codes " " ++ decimal third ++ codes " " ++ decimal fourth) }
    ensures len { array_vec_len out.new ≤ array_vec_len out.old + 43 }
{
    append_number(out, first);
    append_next(out, second);
    append_next(out, third);
    append_next(out, fourth);
}

/// Appends an addition.
#[tactic(auto, unfolding(pif_text_model::specs::CommandTexts::addition_text))]
fn append_addition(out: &mut Text, addition: Addition)
    requires { array_vec_len out.old + COMMAND_ROOM ≤ TEXT_ROOM }
    ensures items { out.new.items ≡ out.old.items ++ addition_text addition }
    ensures len { array_vec_len out.new ≤ array_vec_len out.old + COMMAND_ROOM }
{
    match addition {
        Addition::Thread(priority) => {
            append(out, b"thread ");
            append_number(out, priority);
        }
        Addition::Mutex(kind, robust) => mutex_text(kind, robust, out),
        Addition::Cond(mutex) => append_on_mutex(out, b"cond ", mutex),
    }
}

/// Appends an event.
#[tactic(auto, unfolding(pif_text_model::specs::CommandTexts::event_text))]
fn append_event(out: &mut Text, event: Event)
    requires { array_vec_len out.old + COMMAND_ROOM ≤ TEXT_ROOM }
    ensures items { out.new.items ≡ out.old.items ++ event_text event }
    ensures len { array_vec_len out.new ≤ array_vec_len out.old + COMMAND_ROOM }
{
    match event {
        Event::Begin(thread, request) => append_call(out, b"begin ", thread, request),
        Event::Go(thread) => append_on_thread(out, b"go ", thread),
        Event::End(thread) => append_on_thread(out, b"end ", thread),
        Event::Tick(time) => {
            append(out, b"tick ");
            append_number(out, time);
        }
    }
}

/// Appends a thread that goes on with a request or, with none, with what it has open.
#[tactic(auto, unfolding(pif_text_model::specs::CommandTexts::run_text))]
fn append_run(out: &mut Text, thread: Tid, request: Option<Request>)
    requires { array_vec_len out.old + COMMAND_ROOM ≤ TEXT_ROOM }
    ensures items { out.new.items ≡ out.old.items ++ run_text thread request }
    ensures len { array_vec_len out.new ≤ array_vec_len out.old + COMMAND_ROOM }
{
    match request {
        Some(request) => append_call(out, b"call ", thread, request),
        None => append_on_thread(out, b"finish ", thread),
    }
}

/// Appends the line that asks for a command, with no line feed, at most `COMMAND_ROOM` bytes. What stands in `out`
/// stays.
#[tactic(auto, unfolding(pif_text_model::specs::CommandTexts::command_text))]
pub fn command_text(command: Command, out: &mut Text)
    requires { array_vec_len out.old + COMMAND_ROOM ≤ TEXT_ROOM }
    ensures written { out.new.items ≡ out.old.items ++ command_text command }
    ensures within { array_vec_len out.new ≤ array_vec_len out.old + COMMAND_ROOM }
{
    match command {
        Command::Limits(threads, mutexes, conds, signals) => {
            append(out, b"limits ");
            append_numbers(out, threads, mutexes, conds, signals);
        }
        Command::Add(addition) => append_addition(out, addition),
        Command::Event(event) => append_event(out, event),
        Command::Run(thread, request) => append_run(out, thread, request),
        Command::Ask(question) => append_question(out, question),
    }
}

/// Each command is read from the line that `command_text` writes for it, as that very command.
pub fn command_reads_back()
    ensures { (command : Command) → IsWritten command → command_in (command_text command) ≡ Some command }
{}

/// Each command that a line asks for has numbers that `command_text` can write in a line.
pub fn commands_of_lines_are_written()
    ensures { (line : List ℕ) (command : Command) → command_in line ≡ Some command → IsWritten command }
{}
