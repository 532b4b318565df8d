use pif_text_model::Cause;

/// Why a story is not ok.
#[derive(Clone, Copy)]
pub enum Flaw<'a> {
    /// The command in the line of this number is a fault, for this cause.
    Fault(u64, &'a [u8], Cause),
    /// Behind the command in the line of this number this answer is written, and the core gives another, the last one.
    Differs(u64, &'a [u8], &'a [u8], &'a [u8]),
    /// Behind the command in the line of this number no answer is written, and the core refuses it by this one.
    Refused(u64, &'a [u8], &'a [u8]),
}
