ghost use Rattle.std.specs.Prelude.{◌≡◌, map};
ghost use Rattle.pif_explore_text.specs.Vocabulary.{is_among, is_of_programs};

/// The words of the grammar that are no calls, no errors and no names.
const WORDS: [&[u8]; 60] = [
    // Statements and tests.
    b"if",
    b"else",
    b"while",
    b"break",
    b"set",
    b"add",
    b"choose",
    b"join",
    b"exit",
    b"start",
    b"not",
    b"and",
    b"or",
    // What conditions say of threads.
    b"stuck",
    b"ended",
    b"answered",
    b"runs",
    b"at",
    b"least",
    b"waits",
    b"for",
    b"blocked",
    b"on",
    b"holds",
    b"once",
    b"twice",
    b"times",
    // What they say of mutexes.
    b"free",
    b"inconsistent",
    b"unusable",
    b"held",
    b"by",
    // What they say of faults.
    b"race",
    b"misuse",
    b"deadlock",
    b"lost",
    b"wake-up",
    b"livelock",
    // The first words of lines, and what stands in some of them.
    b"limits",
    b"allow",
    b"thread",
    b"mutex",
    b"cond",
    b"cell",
    b"schedule",
    b"delay",
    b"do",
    b"ends",
    b"of",
    b"ticks",
    b"never",
    b"always",
    b"finally",
    b"sometimes",
    // Kinds of mutexes.
    b"normal",
    b"default",
    b"errorcheck",
    b"recursive",
    b"robust",
    b"none",
];

/// Whether a word is one of these.
fn is_among(words: &[&[u8]], word: &[u8]) -> bool
    ensures { result ≡ is_among (map (λ w. w.now) words.now) word.now }
{
    for own in words {
        if word == *own {
            return true;
        }
    }
    false
}

/// Whether a word is one of the grammar that is no call, no error and no name.
pub(crate) fn is_of_programs(word: &[u8]) -> bool
    ensures { result ≡ is_of_programs word.now }
{
    is_among(&WORDS, word)
}
