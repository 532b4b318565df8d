//! Numbers that may be left out of the words.
ghost use Rattle.std.specs.Prelude.{◌≡◌, ◌++◌, OnOk, map};
ghost use Rattle.std.specs.Char.{is_ascii_digit};
ghost use Rattle.std.specs.List.{list_all};
ghost use Rattle.pif_cli_words.specs.Defaults.{begins_with_number, completed, is_number, with_numbers};

use std::alloc::AllocError;
use std::convert::AsStr;

/// The option of `explore` whose number may be left out.
const CORE: &str = "--core";

/// The number that it has then.
const SCHEDULES: &str = "10000";

/// Whether these bytes are digits.
fn are_digits(text: &[u8]) -> bool
    ensures { result ≡ list_all is_ascii_digit text.now }
{
    let mut rest = text;
    while let [byte, more @ ..] = rest {
        if !byte.is_ascii_digit() {
            return false;
        }
        rest = more;
    }
    true
}

/// Whether a text is a number: digits alone, and at least one.
fn is_number(text: &[u8]) -> bool
    ensures { result ≡ is_number text.now }
{
    !text.is_empty() && are_digits(text)
}

/// Whether the first word is a number.
fn begins_with_number<S: AsStr>(words: &[S]) -> bool
    ensures { result ≡ begins_with_number (map S.text words.now) }
{
    match words {
        [] => false,
        [word, ..] => is_number(word.as_str().as_bytes()),
    }
}

/// Appends these words as they are.
fn push_all<'a, S: AsStr>(words: &'a [S], out: &mut Vec<&'a str>) -> Result<(), AllocError>
    ensures { OnOk result (map (λ word. word.now) out.new.items ≡ map (λ word. word.now) out.old.items ++ map S.text words.now) }
{
    let mut rest = words;
    while let [word, more @ ..] = rest {
        out.push(word.as_str())?;
        rest = more;
    }
    Ok(())
}

/// Appends the words after `explore`, with the number of each `--core` that has none. After `--` they stay as they are.
fn push_with_numbers<'a, S: AsStr>(words: &'a [S], out: &mut Vec<&'a str>) -> Result<(), AllocError>
    ensures { OnOk result (map (λ word. word.now) out.new.items ≡ map (λ word. word.now) out.old.items ++ with_numbers (map S.text words.now)) }
{
    let mut rest = words;
    while let [word, more @ ..] = rest {
        if word.as_str() == "--" {
            return push_all(rest, out);
        }
        out.push(word.as_str())?;
        if word.as_str() == CORE && !begins_with_number(more) {
            out.push(SCHEDULES)?;
        }
        rest = more;
    }
    Ok(())
}

/// Appends the words of the program, its name first, with the numbers that were left out: `explore --core` without one
/// plays 10,000 schedules.
///
/// # Errors
///
/// A growth of memory was refused.
pub fn complete<'a, S: AsStr>(words: &'a [S], out: &mut Vec<&'a str>) -> Result<(), AllocError>
    ensures { OnOk result (map (λ word. word.now) out.new.items ≡ map (λ word. word.now) out.old.items ++ completed (map S.text words.now)) }
{
    match words {
        [name, command, more @ ..] if command.as_str() == "explore" => {
            out.push(name.as_str())?;
            out.push(command.as_str())?;
            push_with_numbers(more, out)
        }
        _ => push_all(words, out),
    }
}
