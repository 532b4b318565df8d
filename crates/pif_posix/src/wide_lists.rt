ghost use Rattle.std.specs.Prelude.{◌≡◌, ◌++◌, List, IfOk, OnOk};

use pif_search::Stop;

/// Adds items at the end of a list, in their order, if they could be made.
pub(crate) fn append<T: Drop>(all: &mut Vec<T>, items: Result<Vec<T>, Stop>) -> Result<(), Stop>
    ensures { (xs : List T) → IfOk items (λ v. v.items ≡ xs) → OnOk result (all.new.items ≡ all.old.items ++ xs) }
{
    let mut rest = items?;
    match all.append(&mut rest) {
        Ok(()) => Ok(()),
        Err(_) => Err(Stop::NoMemory),
    }
}

/// The items of two lists in a row, if both could be made.
pub(crate) fn joined<T: Drop>(
    first: Result<Vec<T>, Stop>,
    second: Result<Vec<T>, Stop>,
) -> Result<Vec<T>, Stop>
    ensures { (xs ys : List T) → IfOk first (λ v. v.items ≡ xs) → IfOk second (λ v. v.items ≡ ys) → IfOk result (λ v. v.items ≡ xs ++ ys) }
{
    let mut all = first?;
    append(&mut all, second)?;
    Ok(all)
}
