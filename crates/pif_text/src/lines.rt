ghost use Rattle.std.specs.Prelude.{◌≡◌, ◌≢◌, ℕ, ◌<◌, ◌≤◌, ◌==◌, ◌||◌, length, slice_index};
ghost use Rattle.std.specs.Str.Lines.{strip_carriage_return};

use memchr::memchr;

/// How many bytes stand before the first LF, or all of them if there is none.
#[inline(always)]
pub fn before_feed(bytes: &[u8]) -> usize
    ensures within { result ≤ length bytes.now }
    ensures before { (k : ℕ) → k < result → slice_index bytes.now k ≢ 10 }
    ensures found { result < length bytes.now → slice_index bytes.now result ≡ 10 }
{
    memchr(b'\n', bytes).unwrap_or(bytes.len())
}

/// A line without the CR at its end, if one stands there.
pub fn without_return(line: &[u8]) -> &[u8]
    ensures { result.now ≡ strip_carriage_return line.now }
{
    let end = line.len();
    if end > 0 && line[end - 1] == b'\r' {
        &line[..end - 1]
    } else {
        line
    }
}

/// Whether a byte is one of the marks `;`, `{`, `}`, `(`, `)`, `:`, `=`, `<` and `>`, each of which is a word of its own
/// in a program and in a history.
pub fn is_mark(byte: u8) -> bool
    ensures { result ≡ (byte == 59 || byte == 123 || byte == 125 || byte == 40 || byte == 41 || byte == 58 || byte == 61 || byte == 60 || byte == 62) }
{
    matches!(
        byte,
        b';' | b'{' | b'}' | b'(' | b')' | b':' | b'=' | b'<' | b'>'
    )
}
