use pif_text::without_return;

/// A text without a byte order mark at its front.
pub fn without_mark(text: &[u8]) -> &[u8] {
    match text {
        [0xef, 0xbb, 0xbf, rest @ ..] => rest,
        _ => text,
    }
}

/// Whether a line of a story has a command: words that don't stand in a comment.
fn has_words(line: &[u8]) -> bool {
    for byte in without_return(line) {
        match *byte {
            b' ' | b'\t' => {}
            first => return first != b'#',
        }
    }
    false
}

/// The line of this number in the text of a story, from 1, without its LF; `None` if there is no such. Behind the last
/// LF stands one more line, which may be empty. A byte order mark at the front of the text is no part of its first
/// line.
pub fn line_of_number(story: &[u8], number: u64) -> Option<&[u8]> {
    let mut line = 0_u64;
    for written in without_mark(story).split(|byte| *byte == b'\n') {
        line = line.saturating_add(1);
        if line == number {
            return Some(written);
        }
    }
    None
}

/// The number of the line in the text of a story that has the command of this number, both from 1, and the line without
/// its LF; `None` if there is no such. A byte order mark at the front of the text is no part of its first line.
pub fn line_of_command(story: &[u8], number: u64) -> Option<(u64, &[u8])> {
    let (mut line, mut commands) = (0_u64, 0_u64);
    for written in without_mark(story).split(|byte| *byte == b'\n') {
        line = line.saturating_add(1);
        if has_words(written) {
            commands = commands.saturating_add(1);
            if commands == number {
                return Some((line, written));
            }
        }
    }
    None
}

/// The column in a line of a story of what stands in this column of its words with one space between them, both from 1.
/// What stands behind a word is directly behind it, and what stands behind all of them is behind the last. Words stand
/// between spaces and tabs, those of a comment as well. Column 0 is taken as 1. In a line with no words, the
/// answer is 1.
pub fn written_column(line: &[u8], column: usize) -> usize {
    let (mut told, mut end) = (0_usize, 0_usize);
    for (place, byte) in line.iter().enumerate() {
        if *byte == b' ' || *byte == b'\t' {
            continue;
        }
        if place > end && told > 0 {
            told = told.saturating_add(1);
            if told >= column {
                break;
            }
        }
        told = told.saturating_add(1);
        if told >= column {
            return place.saturating_add(1);
        }
        end = place.saturating_add(1);
    }
    end.saturating_add(1)
}
