ghost use Rattle.std.specs.Prelude.{◌≡◌, ◌∷◌, [], IfOk, codes};
ghost use Rattle.pif_history_told.specs.Names.{AreNames};

use crate::pages::append_parts;
use pif_history_text::Names;
use pif_text::{append_decimal, append_name, is_word, number_behind, number_of};
use std::alloc::{AllocError, Global};
use std::str::from_utf8;

/// The letters of threads, mutexes and condition variables.
const LETTERS: &[u8; 3] = b"tmc";

/// The digits of a byte that is shown by its number.
const DIGITS: &[u8; 16] = b"0123456789abcdef";

/// Appends a byte of a name, or what stands for it if it is no printable ASCII.
fn push_byte(byte: u8, out: &mut Vec<u8>) -> Result<(), AllocError> {
    match byte {
        b'\r' => out.extend_from_slice(b"\\r"),
        b'\t' => out.extend_from_slice(b"\\t"),
        b' '..=b'~' => out.extend_from_slice(&[byte]),
        _ => {
            let (high, low) = (usize::from(byte / 16), usize::from(byte % 16));
            out.extend_from_slice(&[b'\\', b'x', DIGITS[high], DIGITS[low]])
        }
    }
}

/// Appends bytes, each so that it can be seen.
fn push_bytes(bytes: &[u8], out: &mut Vec<u8>) -> Result<(), AllocError> {
    for byte in bytes {
        push_byte(*byte, out)?;
    }
    Ok(())
}

/// Appends a character, or what stands for its bytes if it is a control.
fn push_character(character: char, out: &mut Vec<u8>) -> Result<(), AllocError> {
    let mut bytes = [0; 4];
    let text = character.encode_utf8(&mut bytes).as_bytes();
    if character as u32 >= 160 {
        out.extend_from_slice(text)
    } else {
        push_bytes(text, out)
    }
}

/// Appends the characters of a name, each so that it can be seen.
fn push_characters(name: &str, out: &mut Vec<u8>) -> Result<(), AllocError> {
    for character in name.chars() {
        push_character(character, out)?;
    }
    Ok(())
}

/// Appends a name as the names of files are shown: as it is, but for control characters and what is no UTF-8, of which
/// each byte is shown as `\x1b`.
fn push_shown(name: &[u8], out: &mut Vec<u8>) -> Result<(), AllocError> {
    match from_utf8(name) {
        Ok(text) => push_characters(text, out),
        Err(_) => push_bytes(name, out),
    }
}

/// Appends a byte of a string of JSON that may stand in a page.
fn push_escaped(byte: u8, out: &mut Vec<u8>) -> Result<(), AllocError> {
    match byte {
        b'"' | b'\\' => out.extend_from_slice(&[b'\\', byte]),
        b'<' => out.extend_from_slice(b"\\u003c"),
        _ => out.extend_from_slice(&[byte]),
    }
}

/// Appends a name, shown likewise, as a string of JSON that may stand in a page.
fn push_string(alloc: Global, name: &[u8], out: &mut Vec<u8>) -> Result<(), AllocError> {
    let mut shown = Vec::new(alloc);
    push_shown(name, &mut shown)?;
    out.push(b'"')?;
    for byte in shown.as_slice() {
        push_escaped(*byte, out)?;
    }
    out.extend_from_slice(b"\"")
}

/// The letter and the number of what a word stands for, as `m1`, if that has a name.
fn named_by(names: &Names, word: &[u8]) -> Option<(u8, u32)> {
    let letter = *word.first()?;
    let number = number_behind(letter, word)?;
    names.name_of(letter, number)?;
    Some((letter, number))
}

/// What a text names by its number and has a name: each once, in the order in which it first stands there.
fn named_in(alloc: Global, names: &Names, text: &[u8]) -> Result<Vec<(u8, u32)>, AllocError> {
    let mut found = Vec::new(alloc);
    for word in text.split(|byte| !byte.is_ascii_alphanumeric()) {
        let Some(named) = named_by(names, word) else {
            continue;
        };
        if !found.as_slice().contains(&named) {
            found.push(named)?;
        }
    }
    Ok(found)
}

/// Appends that something has a name, after a comma if something stands there: `t2 is io_thd_3`.
fn push_name(names: &Names, letter: u8, number: u32, out: &mut Vec<u8>) -> Result<(), AllocError> {
    let Some(name) = names.name_of(letter, number) else {
        return Ok(());
    };
    if !out.is_empty() {
        out.extend_from_slice(b", ")?;
    }
    out.push(letter)?;
    append_decimal(out, u64::from(number))?;
    out.extend_from_slice(b" is ")?;
    push_shown(name, out)
}

/// The names of what stands in a text by its number.
fn names_in(alloc: Global, names: &Names, text: &[u8]) -> Result<Vec<u8>, AllocError> {
    let named = named_in(alloc, names, text)?;
    let mut list = Vec::new(alloc);
    for (letter, number) in named.as_slice() {
        push_name(names, *letter, *number, &mut list)?;
    }
    Ok(list)
}

/// These names between two texts, or nothing if there are none.
fn enclosed(alloc: Global, front: &[u8], names: &[u8], back: &[u8]) -> Result<Vec<u8>, AllocError>
    ensures { IfOk result (λ text. AreNames front.now back.now text.items) }
{
    let mut text = Vec::new(alloc);
    if names.is_empty() {
        return Ok(text);
    }
    append_parts(front, names, back, &mut text)?;
    Ok(text)
}

/// The line that has the names of what stands in these lines by its number, or nothing if there are none.
///
/// # Errors
///
/// Out of memory.
pub fn names_line(alloc: Global, names: &Names, text: &[u8]) -> Result<Vec<u8>, AllocError>
    ensures { IfOk result (λ line. AreNames (codes "names: ") (10 ∷ []) line.items) }
{
    let list = names_in(alloc, names, text)?;
    enclosed(alloc, b"names: ", list.as_slice(), b"\n")
}

/// Appends the member of a name, after a comma if something stands there.
fn append_member(
    alloc: Global,
    names: &Names,
    letter: u8,
    number: u32,
    out: &mut Vec<u8>,
) -> Result<(), AllocError> {
    let Some(name) = names.name_of(letter, number) else {
        return Ok(());
    };
    if !out.is_empty() {
        out.push(b',')?;
    }
    append_name(out, letter, number)?;
    out.push(b':')?;
    push_string(alloc, name, out)
}

/// Appends the members of all names of what has this letter.
fn append_kind(
    alloc: Global,
    names: &Names,
    letter: u8,
    out: &mut Vec<u8>,
) -> Result<(), AllocError> {
    for before in 0..names.count_of(letter) {
        append_member(alloc, names, letter, before.saturating_add(1), out)?;
    }
    Ok(())
}

/// The line of JSON that has all names, or nothing if there are none.
///
/// # Errors
///
/// Out of memory.
pub fn names_object(alloc: Global, names: &Names) -> Result<Vec<u8>, AllocError>
    ensures { IfOk result (λ line. AreNames (codes "{\"names\":{") (codes "}}\n") line.items) }
{
    let mut members = Vec::new(alloc);
    for letter in LETTERS {
        append_kind(alloc, names, *letter, &mut members)?;
    }
    enclosed(alloc, b"{\"names\":{", members.as_slice(), b"}}\n")
}

/// Adds a line, if there is one, unless it was added before.
fn push_new(line: Option<u32>, lines: &mut Vec<u32>) -> Result<(), AllocError> {
    let Some(line) = line else {
        return Ok(());
    };
    if !lines.as_slice().contains(&line) {
        lines.push(line)?;
    }
    Ok(())
}

/// Whether the number of a line of the history stands after this word in what is told.
fn is_before_line(word: &[u8]) -> bool {
    is_word(word, b"at") || is_word(word, b"log") || is_word(word, b"undefined")
}

/// The number that a word is, if a line of this number has a place.
fn line_named(names: &Names, word: &[u8]) -> Option<u32> {
    let line = number_of(word)?;
    names.place_of(line)?;
    Some(line)
}

/// The numbers of lines that stand in a text and have places, each once and in the order in which they stand there
/// first.
fn lines_in(alloc: Global, names: &Names, text: &[u8]) -> Result<Vec<u32>, AllocError> {
    let mut found = Vec::new(alloc);
    let mut is_next = false;
    for word in text.split(|byte| !byte.is_ascii_alphanumeric()) {
        if word.is_empty() {
            continue;
        }
        if is_next {
            push_new(line_named(names, word), &mut found)?;
        }
        is_next = is_before_line(word);
    }
    Ok(found)
}

/// Appends that a call began at a line with a place, after a comma if something stands there:
/// `line 18 at networking.c:3921`.
fn push_place(names: &Names, line: u32, out: &mut Vec<u8>) -> Result<(), AllocError> {
    let Some(place) = names.place_of(line) else {
        return Ok(());
    };
    if !out.is_empty() {
        out.extend_from_slice(b", ")?;
    }
    out.extend_from_slice(b"line ")?;
    append_decimal(out, u64::from(line))?;
    out.extend_from_slice(b" at ")?;
    push_shown(place, out)
}

/// The places of the calls whose lines stand in a text.
fn places_in(alloc: Global, names: &Names, text: &[u8]) -> Result<Vec<u8>, AllocError> {
    let lines = lines_in(alloc, names, text)?;
    let mut list = Vec::new(alloc);
    for line in lines.as_slice() {
        push_place(names, *line, &mut list)?;
    }
    Ok(list)
}

/// The line that has the places of the calls whose lines stand in these lines by their numbers, or nothing if there are
/// none.
///
/// # Errors
///
/// Out of memory.
pub fn places_line(alloc: Global, names: &Names, text: &[u8]) -> Result<Vec<u8>, AllocError>
    ensures { IfOk result (λ line. AreNames (codes "places: ") (10 ∷ []) line.items) }
{
    let list = places_in(alloc, names, text)?;
    enclosed(alloc, b"places: ", list.as_slice(), b"\n")
}

/// Appends the member of the nth place, after a comma if something stands there.
fn append_place(
    alloc: Global,
    names: &Names,
    nth: usize,
    out: &mut Vec<u8>,
) -> Result<(), AllocError> {
    let Some((line, place)) = names.nth_place(nth) else {
        return Ok(());
    };
    if !out.is_empty() {
        out.push(b',')?;
    }
    out.push(b'"')?;
    append_decimal(out, u64::from(line))?;
    out.extend_from_slice(b"\":")?;
    push_string(alloc, place, out)
}

/// The line of JSON that has the places of all calls, or nothing if there are none.
///
/// # Errors
///
/// Out of memory.
pub fn places_object(alloc: Global, names: &Names) -> Result<Vec<u8>, AllocError>
    ensures { IfOk result (λ line. AreNames (codes "{\"places\":{") (codes "}}\n") line.items) }
{
    let mut members = Vec::new(alloc);
    for nth in 0..names.places() {
        append_place(alloc, names, nth, &mut members)?;
    }
    enclosed(alloc, b"{\"places\":{", members.as_slice(), b"}}\n")
}

/// Appends the line of JSON that has the name of a file, if there is one.
fn append_file(alloc: Global, file: Option<&[u8]>, out: &mut Vec<u8>) -> Result<(), AllocError> {
    let Some(name) = file else {
        return Ok(());
    };
    out.extend_from_slice(b"{\"file\":")?;
    push_string(alloc, name, out)?;
    out.extend_from_slice(b"}\n")
}

/// The lines of JSON of a page that stand beside a verdict: the names, the places, and the name of the file.
///
/// # Errors
///
/// Out of memory.
pub fn beside_in_page(
    alloc: Global,
    names: &Names,
    file: Option<&[u8]>,
) -> Result<Vec<u8>, AllocError> {
    let mut lines = names_object(alloc, names)?;
    let places = places_object(alloc, names)?;
    lines.extend_from_slice(places.as_slice())?;
    append_file(alloc, file, &mut lines)?;
    Ok(lines)
}
