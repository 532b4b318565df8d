ghost use Rattle.std.specs.Prelude.{◌≡◌, ◌++◌, ◌≤◌, ℕ, List, flat_map, OnOk};
ghost use Rattle.pif_text.specs.Json.{numbers};

use std::alloc::AllocError;

/// Things with numbers from 1, each of which has a text.
pub trait Numbered {
    ghost text: { Self → ℕ → List ℕ };

    /// Appends the text of the one of this number.
    fn append(&self, number: u32, out: &mut Vec<u8>) -> Result<(), AllocError>
        requires { 1 ≤ number }
        ensures { OnOk result (out.new.items ≡ out.old.items ++ text self.now number) };
}

/// Appends the texts of those that have at most this number.
pub fn append_all<N: Numbered>(things: &N, most: u32, out: &mut Vec<u8>) -> Result<(), AllocError>
    ensures { OnOk result (out.new.items ≡ out.old.items ++ flat_map (N.text things.now) (numbers most)) }
{
    for place in 0..most {
        things.append(place + 1, out)?;
    }
    Ok(())
}
