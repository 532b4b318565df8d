ghost use Rattle.std.specs.Prelude.{◌≡◌, ◌≤◌, false, option_map};
ghost use Rattle.clap.specs.Words.{first_of, found_of, rows_of, rule_of};
ghost use Rattle.pif_cli_words.specs.Options.{flag_in, form_rule, is_named, number_between, unless_zero};
ghost use Rattle.pif_cli_words.specs.Words.{has_several};

use clap::ArgAction;
use clap::builder::ValueParser;
use std::alloc::Global;

/// What an option has for which no number is given.
#[derive(Clone, Copy)]
pub enum Absent<'a> {
    /// No number.
    Empty,
    /// The words are refused.
    Refused,
    /// This number.
    Is(&'a str),
}

/// How an argument is given, and what it may be.
#[derive(Clone, Copy)]
pub enum Form<'a> {
    /// An option that is given or not.
    Flag,
    /// An option with a number: what help calls one, the lowest, the highest, and what it has if none is given.
    Number(&'a str, u64, u64, Absent<'a>),
    /// An option that names a rule, and that may be given again for more.
    Rules,
    /// An option that names a file or a folder: what help calls it.
    Name(&'a str),
    /// The file of one input, which may be left out.
    File,
    /// The files of any number of inputs.
    Files,
    /// A number from the first of these to the second, which must be given, without a name before it.
    Placed(u64, u64),
}

/// An argument of this name and form, with what help says of it.
pub fn argument<'a>(alloc: Global, name: &'a str, help: &'a str, form: Form<'a>) -> clap::Arg<'a>
    ensures rule { rule_of result ≡ form_rule name.now form.entry }
    ensures local { result.global ≡ false }
{
    let arg = clap::Arg::new(alloc, name).help(help);
    match form {
        Form::Flag => arg.long(name).action(ArgAction::SetTrue),
        Form::Number(called, low, high, absent) => {
            let number = arg
                .long(name)
                .value_name(called)
                .value_parser(ValueParser::unsigned(low, high));
            match absent {
                Absent::Empty => number,
                Absent::Refused => number.required(true),
                Absent::Is(default) => number.default_value(default),
            }
        }
        Form::Rules => arg.long(name).value_name("RULE").action(ArgAction::Append),
        Form::Name(called) => arg.long(name).value_name(called),
        Form::File => arg,
        Form::Files => arg.num_args(0..),
        Form::Placed(low, high) => arg
            .required(true)
            .value_parser(ValueParser::unsigned(low, high)),
    }
}

/// What was given to the option of this name, or its default.
pub fn value_in<'a>(given: &clap::ArgMatches<'a>, name: &str) -> Option<&'a str>
    ensures { option_map (λ s. s.now) result ≡ first_of name.now (rows_of (found_of given.now)) }
{
    given.get_str(name)
}

/// Whether the option of this name has a value.
pub fn is_named(given: &clap::ArgMatches, name: &str) -> bool
    ensures { result ≡ is_named name.now (rows_of (found_of given.now)) }
{
    value_in(given, name).is_some()
}

/// Whether the flag of this name was given.
pub fn is_given(given: &clap::ArgMatches, name: &str) -> bool
    ensures { result ≡ flag_in name.now (rows_of (found_of given.now)) }
{
    match value_in(given, name) {
        Some(text) => text == "true",
        None => false,
    }
}

/// The number that was given to the option of this name, from `low` to `high`; 0 if it has no such number.
pub fn number_between(given: &clap::ArgMatches, name: &str, low: u64, high: u64) -> u64
    ensures value { result ≡ number_between low high (first_of name.now (rows_of (found_of given.now))) }
    ensures within { result ≤ high }
{
    match value_in(given, name) {
        Some(text) => number_of(text, low, high),
        None => 0,
    }
}

/// The number from `low` to `high` that a text writes; 0 if it writes none.
fn number_of(text: &str, low: u64, high: u64) -> u64
    ensures value { result ≡ number_between low high (Some text.now) }
    ensures within { result ≤ high }
{
    match text.parse::<u64>() {
        Ok(number) => if number >= low && number <= high {
            number
        } else {
            0
        },
        Err(_) => 0,
    }
}

/// The same of smaller numbers.
pub fn small_number_between(given: &clap::ArgMatches, name: &str, low: u32, high: u32) -> u32
    ensures { result ≡ number_between low high (first_of name.now (rows_of (found_of given.now))) }
{
    number_between(given, name, u64::from(low), u64::from(high)) as u32
}

/// The same if it isn't 0.
pub fn number_if_given(given: &clap::ArgMatches, name: &str, low: u32, high: u32) -> Option<u32>
    ensures { result ≡ unless_zero (number_between low high (first_of name.now (rows_of (found_of given.now)))) }
{
    let number = small_number_between(given, name, low, high);
    if number == 0 { None } else { Some(number) }
}

/// Whether several files are given to a command.
pub fn has_several(given: &clap::ArgMatches) -> bool
    ensures { result ≡ has_several (rows_of (found_of given.now)) }
{
    match given.get_strs("FILE") {
        Some(files) => files.len() > 1,
        None => false,
    }
}
