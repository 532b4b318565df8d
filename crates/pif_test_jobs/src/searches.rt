ghost use Rattle.std.specs.Prelude.{◌≡◌, false, IfOk, All};
ghost use Rattle.pif_test_jobs.specs.Counting.{is_hidden};

use crate::counters::{Counter, Label, Whole};
use crate::told::Told;
use pif_decide::{judge, possible};
use pif_search::{Stop, Unwatched, Verdict, searches_all_steps};
use std::alloc::Global;

/// How a counter starts.
const START: Counter = (0, false);

/// What is expected of lines.
#[derive(Clone, Copy, PartialEq)]
enum Expected {
    /// Legal, by a run of so many steps.
    Legal(usize),
    Illegal(usize),
    Undecided(usize),
}

/// That the counter says these counts.
fn says(alloc: Global, counts: &[u32]) -> Result<Vec<Label>, Stop>
    ensures { IfOk result (λ v. All (λ l. is_hidden l ≡ false) v.items) }
{
    let mut lines = Vec::new(alloc);
    for count in counts {
        match lines.push(Some(*count)) {
            Ok(()) => {}
            Err(_) => return Err(Stop::NoMemory),
        }
    }
    Ok(lines)
}

/// What is searched: counts that are said, how many states may be made for one, and behind how many lines the search
/// is ended.
type Asked = (&'static [u32], usize, usize);

/// What is found, and the lines and states of which was told last.
type Found = (Expected, usize, usize);

fn search(alloc: Global, asked: &Asked) -> Result<Found, Stop> {
    let (counts, limit, most) = *asked;
    let machine = Whole { top: 5 };
    let lines = says(alloc, counts)?;
    let mut told = Told::new(most);
    searches_all_steps(&machine, &START);
    let expected = match judge(&machine, alloc, START, lines.as_slice(), limit, &mut told)? {
        Verdict::Legal(run) => Expected::Legal(run.len()),
        Verdict::Illegal(n) => Expected::Illegal(n),
        Verdict::Undecided(n) => Expected::Undecided(n),
    };
    Ok((expected, told.lines, told.states))
}

/// How many of the counts 2, 3, 5 and 6 can be said behind these, and 99 if that is undecided.
fn search_next(alloc: Global, counts: &[u32], limit: usize) -> Result<usize, Stop> {
    let lines = says(alloc, counts)?;
    let labels = says(alloc, &[2, 3, 5, 6])?;
    let machine = Whole { top: 5 };
    searches_all_steps(&machine, &START);
    match possible(
        &machine,
        alloc,
        START,
        lines.as_slice(),
        labels.as_slice(),
        limit,
        &mut Unwatched,
    )? {
        Some(next) => Ok(next.len()),
        None => Ok(99),
    }
}

/// All of 12 states are met by 22 steps before the first line. Behind a line that says N there are those with a count
/// from N to 5, each twice.
static ROWS: [(Asked, Found); 11] = [
    ((&[], 1000, 9), (Expected::Legal(0), 0, 0)),
    ((&[1, 3], 1000, 9), (Expected::Legal(5), 2, 6)),
    ((&[1, 3, 3], 1000, 9), (Expected::Legal(6), 3, 6)),
    ((&[3, 1], 1000, 9), (Expected::Illegal(2), 1, 6)),
    ((&[6], 1000, 9), (Expected::Illegal(1), 0, 0)),
    ((&[5, 5, 4, 5], 1000, 9), (Expected::Illegal(3), 2, 2)),
    ((&[5], 22, 9), (Expected::Legal(6), 1, 2)),
    ((&[5], 21, 9), (Expected::Undecided(0), 0, 0)),
    ((&[0, 1], 22, 9), (Expected::Undecided(1), 0, 0)),
    ((&[1, 3, 3], 1000, 0), (Expected::Undecided(1), 0, 0)),
    ((&[1, 3, 3], 1000, 2), (Expected::Undecided(3), 2, 6)),
];

/// It asks a second time if memory was refused at the first. What is asked last is how many counts can be said next.
#[test]
fn searches_find_what_was_worked_out_by_hand(rt: HostRuntime) {
    for (row, (asked, wanted)) in ROWS.iter().enumerate() {
        let found = match search(rt.alloc(), asked) {
            Err(Stop::NoMemory) => search(rt.alloc(), asked),
            answer => answer,
        };
        assert!(rt; found == Ok(*wanted), "row {row}");
    }
    let rows: [(&[u32], usize, usize); 3] = [(&[3], 1000, 2), (&[3, 1], 1000, 0), (&[3], 4, 99)];
    for (counts, limit, wanted) in rows {
        let found = match search_next(rt.alloc(), counts, limit) {
            Err(Stop::NoMemory) => search_next(rt.alloc(), counts, limit),
            answer => answer,
        };
        assert!(rt; found == Ok(wanted), "{counts:?} at {limit}");
    }
}
