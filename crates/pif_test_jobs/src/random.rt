//! Random scripts: what follows an end.
use pif_job_random::{Shape, write_random_script};
use pif_script_model::Unwatched;
use std::process::Abort;
use std::str::from_utf8;
use std::test::Fail;

const ENDING: Shape = Shape {
    threads: 4,
    mutexes: 3,
    conds: 1,
    robust: true,
    ends: true,
    times: false,
};

/// Counts the mutexes and variables that are added, the ends before the last line, and how many of these another thread
/// follows. More mutexes and variables are added than there are at a time, and another thread follows each end.
fn check_followed(rt: &impl Abort, script: &str) {
    let mut counts: [usize; 4] = [0; 4];
    let mut was_end = false;
    for line in script.lines() {
        let found = [
            line.starts_with("mutex "),
            line.starts_with("cond "),
            was_end,
            was_end && line.starts_with("thread "),
        ];
        for at in 0..4_usize {
            counts[at] = counts[at].saturating_add(usize::from(found[at]));
        }
        was_end = line.starts_with("end ");
    }
    let [mutexes, conds, ends, followed] = counts;
    let is_added = mutexes > 3 && conds > 1 && ends > 0;
    assert!(rt; is_added && followed == ends, "{counts:?}");
}

#[test]
fn what_is_lost_is_followed_by_another(rt: HostRuntime) -> Result<(), Fail> {
    let mut script = Vec::new(rt.alloc());
    write_random_script(rt.alloc(), 2, 1500, ENDING, &mut script, &mut Unwatched)?;
    check_followed(&rt, from_utf8(script.as_slice())?);
    Ok(())
}
