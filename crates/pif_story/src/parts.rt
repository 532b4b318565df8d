ghost use Rattle.std.specs.Prelude.{◌≡◌, ◌++◌, OnOk, map, replicate};
ghost use Rattle.pif_story.specs.Parts.{part_text, parts_text};
ghost use Rattle.pif_script_model.specs.Verdicts.{printable, shown, shown_quoted};

use pif_script::MOST_LINE;
use pif_text::append_decimal;
use std::alloc::AllocError;

/// A part of a text that is written for a person.
#[derive(Clone, Copy)]
pub enum Part<'a> {
    /// These bytes.
    Bytes(&'a [u8]),
    /// A number, in decimal digits.
    Number(u64),
    /// So many spaces.
    Spaces(usize),
    /// These bytes, with `?` for each that is no printable ASCII.
    Printable(&'a [u8]),
    /// The same of the first 120 bytes, if there are more.
    Shown(&'a [u8]),
    /// The same between two `'`, if the first value is true.
    Quoted(bool, &'a [u8]),
}

/// The byte, or `?` if it is no printable ASCII.
pub fn printable(byte: u8) -> u8
    ensures { result ≡ printable byte }
{
    match byte {
        b' '..=b'~' => byte,
        _ => b'?',
    }
}

/// Appends a text, with what stands for each byte that is not printable.
fn append_printable(text: &mut Vec<u8>, bytes: &[u8]) -> Result<(), AllocError>
    ensures { OnOk result (text.new.items ≡ text.old.items ++ map printable bytes.now) }
{
    for byte in bytes {
        text.push(printable(*byte))?;
    }
    Ok(())
}

/// Appends a text as it is shown: its first 120 bytes, if it has more, and `?` for each that is no printable ASCII.
fn append_shown(text: &mut Vec<u8>, bytes: &[u8]) -> Result<(), AllocError>
    ensures { OnOk result (text.new.items ≡ text.old.items ++ shown bytes.now) }
{
    append_printable(text, &bytes[..MOST_LINE.min(bytes.len())])
}

/// Appends a text as it is shown, between two `'` if it is to have quotes.
fn append_quoted(text: &mut Vec<u8>, quoted: bool, bytes: &[u8]) -> Result<(), AllocError>
    ensures { OnOk result (text.new.items ≡ text.old.items ++ shown_quoted quoted bytes.now) }
{
    if quoted {
        text.extend_from_slice(b"'")?;
        append_shown(text, bytes)?;
        text.extend_from_slice(b"'")
    } else {
        append_shown(text, bytes)
    }
}

/// Appends so many spaces.
fn append_spaces(text: &mut Vec<u8>, count: usize) -> Result<(), AllocError>
    ensures { OnOk result (text.new.items ≡ text.old.items ++ replicate count 32) }
{
    for _space in 0..count {
        text.push(b' ')?;
    }
    Ok(())
}

/// Appends a part.
fn append_part(text: &mut Vec<u8>, part: Part<'_>) -> Result<(), AllocError>
    ensures { OnOk result (text.new.items ≡ text.old.items ++ part_text part.entry) }
{
    match part {
        Part::Bytes(bytes) => text.extend_from_slice(bytes),
        Part::Number(number) => append_decimal(text, number),
        Part::Spaces(count) => append_spaces(text, count),
        Part::Printable(bytes) => append_printable(text, bytes),
        Part::Shown(bytes) => append_shown(text, bytes),
        Part::Quoted(quoted, bytes) => append_quoted(text, quoted, bytes),
    }
}

/// Appends these parts, one behind the other.
///
/// # Errors
///
/// A growth of memory was refused; some of them may have been appended.
pub fn append_parts(text: &mut Vec<u8>, parts: &[Part<'_>]) -> Result<(), AllocError>
    ensures { OnOk result (text.new.items ≡ text.old.items ++ parts_text parts.now) }
{
    for part in parts {
        append_part(text, *part)?;
    }
    Ok(())
}
