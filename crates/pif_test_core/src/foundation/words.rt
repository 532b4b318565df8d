use crate::seen::see;
use pif_word::{release_word, take_word};

#[test]
fn words_are_taken_and_released(rt: HostRuntime) {
    let taken = [take_word(0, 3), take_word(0x4000_0000, 3)];
    see(&rt, taken, [Some(3), None], 0);
    let released = [release_word(3, 3), release_word(0x8000_0003, 3)];
    see(&rt, released, [Some(0), None], 1);
}
