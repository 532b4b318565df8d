//! A client that meets a fault ends, or is given up if it is refused memory for that.
use pif_desk::{Desk, DeskFault, NoPause};
use pif_job_drive::{DriveFault, Ending, drive_book, end_of};
use pif_types::{AddFault, Limits, MutexId, Refusal};
use std::sync::Wait;
use std::test::Fail;

/// The most entries by which a journal is filled.
const MOST: u32 = 10_000;

/// Fills the journal, and refuses its growth from then on.
fn refuse_growth(rt: &impl Wait, desk: &Desk<NoPause>) -> Result<(), DeskFault> {
    desk.set_growth(rt, 1);
    for _ in 0..MOST {
        if desk.spare_entries(rt) == 0 {
            break;
        }
        desk.tick(rt, 0)?;
    }
    desk.set_growth(rt, usize::MAX);
    Ok(())
}

/// A fault that a client meets, what is told of it then, and how many events its end makes: none if memory is refused
/// for good.
type LeaveCase = (DeskFault, DriveFault, usize);

/// Whether a client ends so.
fn ends_so(rt: &impl Wait, desk: &Desk<NoPause>, row: &LeaveCase) -> Result<bool, DeskFault> {
    let (fault, told, events) = *row;
    let client = desk.enter(rt, 1)?;
    if events == 0 {
        refuse_growth(rt, desk)?;
    }
    let before = desk.entries(rt);
    let ended = end_of(rt, desk, MutexId::default(), client, Err(fault));
    let is_told = match ended {
        Ending::Fault(fault) => fault == told,
        Ending::Served(_) => false,
    };
    Ok(is_told && desk.entries(rt).wrapping_sub(before) == events)
}

const NO_MEMORY: LeaveCase = (DeskFault::NoMemory, DriveFault::NoMemory, 0);

#[test]
fn a_client_that_cannot_end_is_given_up(rt: HostRuntime) -> Result<(), Fail> {
    let desk = Desk::new(rt.alloc(), Limits::new(1, 0, 0, 1).unwrap(), NoPause)?;
    assert!(&rt; ends_so(&rt, &desk, &NO_MEMORY) == Ok(true));
    Ok(())
}

static REFUSED: [LeaveCase; 2] = [
    (DeskFault::Refused(Refusal::Busy), DriveFault::Unsettled, 1),
    (
        DeskFault::NotAdded(AddFault::TooMany),
        DriveFault::Unsettled,
        1,
    ),
];

#[test]
fn a_refused_client_ends_unsettled(rt: HostRuntime) -> Result<(), Fail> {
    let desk = Desk::new(rt.alloc(), Limits::new(2, 0, 0, 1).unwrap(), NoPause)?;
    for row in &REFUSED {
        assert!(&rt; ends_so(&rt, &desk, row) == Ok(true));
    }
    Ok(())
}

#[test]
fn a_drive_has_1_to_99_clients(rt: HostRuntime) {
    for clients in [0, 100, 1025, u32::MAX] {
        let refused = drive_book(rt.alloc(), &rt, clients, NoPause).err();
        assert!(&rt;
            refused == Some(DriveFault::Unsettled),
            "of {clients} clients"
        );
    }
}
