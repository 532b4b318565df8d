//! Words that `clap` takes one by one, and that ask for what cannot be had together.
ghost use Rattle.std.specs.Prelude.{◌≡◌, ◌∷◌, [], Some};
ghost use Rattle.clap.specs.Words.{HasKind, found_of, rows_of};
ghost use Rattle.pif_cli_words.specs.Words.{checking_clash, clash_by, clash_kinds, drawing_clash, form_clash, has_form, has_more, has_two, has_parts, judging_clash, parts_clash, exploring_clash, found_clash, has_lines};

use crate::commands::program;
use crate::options::{has_several, is_given, is_named, small_number_between};
use crate::rules::are_rules;
use clap::error::ErrorKind;
use std::alloc::Global;

/// How words clash.
#[derive(Clone, Copy)]
pub enum Clash {
    /// The rules that histories need are asked for, and another form, too.
    Least,
    /// A page is asked for, and another form, too.
    Forms,
    /// Lines of JSON are asked for, and another form, too.
    Json,
    /// A page is asked for, of several files.
    Files,
    /// Parts are to be written or joined, and more is asked for.
    Parts,
    /// Parts of several files are asked for.
    PartsOfOne,
    /// What is to be allowed is no rule.
    Rules,
    /// Stories are to be checked, printed and written, two of these at once.
    Checks,
    /// The last line that is to be drawn stands before the first.
    Range,
    /// A page of an exploration is asked for, and another form, too, or what lines alone have.
    Page,
    /// Lines of JSON of an exploration are asked for, and what other lines alone have.
    Objects,
    /// Answers of calls are to be left out of an exploration, and to be told.
    Answers,
}

impl Clash {
    /// The kind of the error.
    fn kind(self) -> ErrorKind
        ensures { clash_kinds (Some self) ≡ result ∷ [] }
    {
        match self {
            Clash::Least | Clash::Forms | Clash::Json | Clash::Parts | Clash::Checks => {
                ErrorKind::ArgumentConflict
            }
            Clash::Page | Clash::Objects | Clash::Answers => ErrorKind::ArgumentConflict,
            Clash::Files | Clash::PartsOfOne => ErrorKind::TooManyValues,
            Clash::Rules | Clash::Range => ErrorKind::InvalidValue,
        }
    }

    /// What is told of it.
    fn words(self) -> &'static str {
        match self {
            Clash::Least => "'judge --least' takes none of '--json', '--html' and '--witness'",
            Clash::Forms => "'judge --html' takes neither '--json' nor '--witness'",
            Clash::Json => "'judge --json' takes no '--witness': it has a run already",
            Clash::Files => "'judge --html' makes a page of one file",
            Clash::Parts => {
                "'judge --split', '--joined' and '--follow' go neither together nor with '--witness', \
                '--json', '--html', '--least', '--plain', '--seconds', '--jobs' and '--allow'"
            }
            Clash::PartsOfOne => {
                "'judge --split' and 'judge --follow' take one history, and 'judge --joined' one file \
                with all verdicts"
            }
            Clash::Checks => "'check' takes one of '--strict', '--print' and '--write'",
            Clash::Range => "'draw --from' names a line after that of '--to'",
            Clash::Page => {
                "'explore --html' takes none of '--json', '--witness', '--calls' and '--core'"
            }
            Clash::Objects => "'explore --json' takes none of '--witness', '--calls' and '--core'",
            Clash::Answers => "'explore --claims' takes no '--calls': it leaves their answers out",
            Clash::Rules => {
                "'judge --allow' takes a rule: steal, any_waiter, spurious, recursion=N (256 to \
                4294967295) or recursion=A..B, own_errorcheck, any_consistent, held_wait, lost_signal, \
                revives, barge, cycle_waits, cycle_refused, timeout_consumes, ends_apart, \
                stays_locked, rebinds, more_uses, refuses_setprio, consistent_by_any, cut_unlock, \
                other_error, wait_gives_all, posix, all"
            }
        }
    }

    /// The error of the program.
    pub fn error(self, alloc: Global) -> clap::Error
        ensures { HasKind (clash_kinds (Some self)) result }
    {
        let mut pif = match program(alloc) {
            Ok(pif) => pif,
            Err(failed) => return clap::Error::from(failed),
        };
        match pif.error(self.kind(), self.words()) {
            Ok(error) => error,
            Err(failed) => clap::Error::from(failed),
        }
    }
}

/// How the form of a verdict clashes with what else was given to `judge`.
fn form_clash(given: &clap::ArgMatches) -> Option<Clash>
    ensures { result ≡ form_clash (rows_of (found_of given.now)) }
{
    let (json, witness) = (is_given(given, "json"), is_given(given, "witness"));
    if is_given(given, "html") {
        if json || witness {
            Some(Clash::Forms)
        } else if has_several(given) {
            Some(Clash::Files)
        } else {
            None
        }
    } else if json && witness {
        Some(Clash::Json)
    } else {
        None
    }
}

/// Whether a form is given to `judge` that isn't its first one.
fn has_form(given: &clap::ArgMatches) -> bool
    ensures { result ≡ has_form (rows_of (found_of given.now)) }
{
    is_given(given, "json") || is_given(given, "html") || is_given(given, "witness")
}

/// Whether parts are to be written or followed, or their verdicts joined.
fn has_parts(given: &clap::ArgMatches) -> bool
    ensures { result ≡ has_parts (rows_of (found_of given.now)) }
{
    is_named(given, "split") || is_named(given, "joined") || is_given(given, "follow")
}

/// Whether two of these are asked for.
fn has_two(given: &clap::ArgMatches) -> bool
    ensures { result ≡ has_two (rows_of (found_of given.now)) }
{
    let (split, joined) = (is_named(given, "split"), is_named(given, "joined"));
    (split && joined) || (is_given(given, "follow") && (split || joined))
}

/// Whether more is given to `judge` than can be had of parts.
fn has_more(given: &clap::ArgMatches) -> bool
    ensures { result ≡ has_more (rows_of (found_of given.now)) }
{
    has_two(given)
        || has_form(given)
        || is_given(given, "least")
        || is_given(given, "plain")
        || is_named(given, "seconds")
        || is_named(given, "jobs")
        || is_named(given, "allow")
}

/// How parts clash with what was given to `judge`.
fn parts_clash(given: &clap::ArgMatches) -> Option<Clash>
    ensures { result ≡ parts_clash (rows_of (found_of given.now)) }
{
    if has_more(given) {
        Some(Clash::Parts)
    } else if has_several(given) {
        Some(Clash::PartsOfOne)
    } else {
        None
    }
}

/// How `judge` clashes with what was given to it.
fn judging_clash(given: &clap::ArgMatches) -> Option<Clash>
    ensures { result ≡ judging_clash (rows_of (found_of given.now)) }
{
    if has_parts(given) {
        parts_clash(given)
    } else if !are_rules(given) {
        Some(Clash::Rules)
    } else if !is_given(given, "least") {
        form_clash(given)
    } else if has_form(given) {
        Some(Clash::Least)
    } else {
        None
    }
}

/// Whether something is given to `explore` that lines alone have.
fn has_lines(given: &clap::ArgMatches) -> bool
    ensures { result ≡ has_lines (rows_of (found_of given.now)) }
{
    is_given(given, "witness")
        || is_given(given, "calls")
        || small_number_between(given, "core", 1, 1_000_000) > 0
}

/// How the form of an exploration clashes with what else was given to `explore`.
fn found_clash(given: &clap::ArgMatches) -> Option<Clash>
    ensures { result ≡ found_clash (rows_of (found_of given.now)) }
{
    let (json, has_lines) = (is_given(given, "json"), has_lines(given));
    if is_given(given, "html") {
        if json || has_lines {
            Some(Clash::Page)
        } else {
            None
        }
    } else if json && has_lines {
        Some(Clash::Objects)
    } else {
        None
    }
}

/// How `explore` clashes with what was given to it.
fn exploring_clash(given: &clap::ArgMatches) -> Option<Clash>
    ensures { result ≡ exploring_clash (rows_of (found_of given.now)) }
{
    if is_given(given, "claims") && is_given(given, "calls") {
        Some(Clash::Answers)
    } else {
        found_clash(given)
    }
}

/// How `check` clashes with what was given to it.
fn checking_clash(given: &clap::ArgMatches) -> Option<Clash>
    ensures { result ≡ checking_clash (rows_of (found_of given.now)) }
{
    let (strict, print) = (is_given(given, "strict"), is_given(given, "print"));
    if (strict && print) || ((strict || print) && is_given(given, "write")) {
        Some(Clash::Checks)
    } else {
        None
    }
}

/// How `draw` clashes with what was given to it.
fn drawing_clash(given: &clap::ArgMatches) -> Option<Clash>
    ensures { result ≡ drawing_clash (rows_of (found_of given.now)) }
{
    let from = small_number_between(given, "from", 1, u32::MAX);
    let to = small_number_between(given, "to", 1, u32::MAX);
    if to > 0 && to < from {
        Some(Clash::Range)
    } else {
        None
    }
}

/// How a command of this name clashes with what was given to it.
pub fn clash_in(name: &str, given: &clap::ArgMatches) -> Option<Clash>
    ensures { result ≡ clash_by (Some (name.now, rows_of (found_of given.now))) }
{
    if name == "judge" {
        judging_clash(given)
    } else if name == "check" {
        checking_clash(given)
    } else if name == "explore" {
        exploring_clash(given)
    } else if name == "draw" {
        drawing_clash(given)
    } else {
        None
    }
}
