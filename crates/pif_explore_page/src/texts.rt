ghost use Rattle.std.specs.Prelude.{◌≡◌, ◌++◌, OnOk};
ghost use Rattle.pif_explore_page.specs.Texts.{behind_two, escaped, escaped_byte, is_plain, trimmed, without_end};

use pif_explore_told::push_all;
use pif_search::Stop;

/// Appends a text between others.
///
/// # Errors
///
/// Out of memory. A part of them may have been appended.
pub fn push_between(out: &mut Vec<u8>, front: &str, text: &[u8], behind: &str) -> Result<(), Stop>
    ensures { OnOk result (out.new.items ≡ out.old.items ++ (front.now ++ (text.now ++ behind.now))) }
{
    push_all(out, front.as_bytes())?;
    push_all(out, text)?;
    push_all(out, behind.as_bytes())
}

/// Whether a byte is a printable one of ASCII.
fn is_plain(byte: u8) -> bool
    ensures { result ≡ is_plain byte }
{
    32 <= byte && byte <= 126
}

/// Appends a byte of a string.
fn push_escaped_byte(out: &mut Vec<u8>, byte: u8) -> Result<(), Stop>
    ensures { OnOk result (out.new.items ≡ out.old.items ++ escaped_byte byte) }
{
    if byte == b'"' || byte == b'\\' {
        push_all(out, &[b'\\', byte])
    } else if byte == b'<' {
        push_all(out, b"\\u003c")
    } else if byte == b'\n' {
        push_all(out, b"\\n")
    } else if byte == b'\t' {
        push_all(out, b"\\t")
    } else if is_plain(byte) {
        push_all(out, &[byte])
    } else {
        push_all(out, b"?")
    }
}

/// Appends a text, as it stands in a string of JSON in a page. For bytes that aren't printable ones of ASCII stands `?`.
fn push_escaped(out: &mut Vec<u8>, text: &[u8]) -> Result<(), Stop>
    ensures { OnOk result (out.new.items ≡ out.old.items ++ escaped text.now) }
{
    for byte in text {
        push_escaped_byte(out, *byte)?;
    }
    Ok(())
}

/// Appends such a text between others.
///
/// # Errors
///
/// Out of memory. A part of them may have been appended.
pub fn push_escaped_between(
    out: &mut Vec<u8>,
    front: &str,
    text: &[u8],
    behind: &str,
) -> Result<(), Stop>
    ensures { OnOk result (out.new.items ≡ out.old.items ++ (front.now ++ (escaped text.now ++ behind.now))) }
{
    push_all(out, front.as_bytes())?;
    push_escaped(out, text)?;
    push_all(out, behind.as_bytes())
}

/// A line without the end of line behind it.
pub fn without_end(line: &[u8]) -> &[u8]
    ensures { result.now ≡ without_end line.now }
{
    if line.is_empty() {
        return line;
    }
    &line[..line.len() - 1]
}

/// A line behind its first two bytes.
fn behind_two(line: &[u8]) -> &[u8]
    ensures { result.now ≡ behind_two line.now }
{
    match line {
        [] => line,
        [_, line @ ..] => match line {
            [] => line,
            [_, more @ ..] => more,
        },
    }
}

/// A line of a schedule, without the two blanks before it and the end of line behind it.
pub fn trimmed(line: &[u8]) -> &[u8]
    ensures { result.now ≡ trimmed line.now }
{
    behind_two(without_end(line))
}
