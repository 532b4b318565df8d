ghost use Rattle.std.specs.Prelude.{◌≡◌, ◌++◌, ◌∷◌, decimal, OnOk};
ghost use Rattle.pif_story_states.specs.Graphs.{edge, node};

use pif_text::append_decimal;
use std::alloc::AllocError;

/// A thread, a mutex or a condition variable: its letter and its number.
#[derive(Clone, Copy)]
pub struct Name(pub u8, pub u32);

/// Appends a name.
pub fn append_name(out: &mut Vec<u8>, name: &Name) -> Result<(), AllocError>
    ensures { OnOk result (out.new.items ≡ out.old.items ++ (name.now.0 ∷ decimal name.now.1)) }
{
    out.push(name.0)?;
    append_decimal(out, u64::from(name.1))
}

/// Appends the node of this name, with these attributes.
pub fn append_node(out: &mut Vec<u8>, name: &Name, attributes: &[u8]) -> Result<(), AllocError>
    ensures { OnOk result (out.new.items ≡ out.old.items ++ node (name.now.0 ∷ decimal name.now.1) attributes.now) }
{
    out.extend_from_slice(b"  ")?;
    append_name(out, name)?;
    out.extend_from_slice(b" [")?;
    out.extend_from_slice(attributes)?;
    out.extend_from_slice(b"]\n")
}

/// Appends an edge from the node of one name to that of another, with these attributes.
pub fn append_edge(
    out: &mut Vec<u8>,
    one: &Name,
    other: &Name,
    attributes: &[u8],
) -> Result<(), AllocError>
    ensures { OnOk result (out.new.items
        ≡ out.old.items ++ edge (one.now.0 ∷ decimal one.now.1) (other.now.0 ∷ decimal other.now.1) attributes.now) }
{
    out.extend_from_slice(b"  ")?;
    append_name(out, one)?;
    out.extend_from_slice(b" -> ")?;
    append_name(out, other)?;
    out.extend_from_slice(b" [")?;
    out.extend_from_slice(attributes)?;
    out.extend_from_slice(b"]\n")
}
