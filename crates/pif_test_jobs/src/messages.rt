//! What is told of faults that no job can be brought to.

use crate::streams::Stream;
use pif_cli_messages::{Given, JobFault};
use pif_cli_words::Job;
use pif_script::{CliFault, Notice};
use pif_text::Cause;
use std::process::Abort;

/// A fault of the standard input is told by these words.
fn check_told(rt: &impl Abort, fault: JobFault, words: &str) {
    let parts = [(words, 1)];
    let mut errors = Stream::new(&parts);
    let given = Given {
        job: Job::Run,
        name: "-",
        kept: None,
        why: None,
    };
    given.message(fault, &Notice::new()).tell(&mut errors);
    assert!(rt; errors.is_met(), "{words}");
}

#[test]
fn faults_that_no_job_meets_are_told_by_their_words(rt: HostRuntime) {
    check_told(
        &rt,
        JobFault::Cli(CliFault::Script(u64::MAX, Cause::Size)),
        "-:18446744073709551615:1: the input has more than 16777216 bytes\n",
    );
    check_told(
        &rt,
        JobFault::Unsettled,
        "pif: the desk does not settle with its clients\n",
    );
}
