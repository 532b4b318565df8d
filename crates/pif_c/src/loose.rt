ghost use Rattle.std.specs.Prelude.{◌≡◌, Bool, true, false};
ghost use Rattle.std.specs.Box.Ownership.{box_owns};
ghost use Rattle.pif_model.specs.Table.{Table};
ghost use Rattle.pif_c.specs.Loose.{owned_where, core_coded};

use pif_core::Core;
use std::alloc::{Allocator, Global};
use std::marker::Model;

/// A box that was taken apart: where its value lies, and the handle of the heap that has the block.
pub(crate) struct Opened<T, A: Allocator> {
    pub(crate) at: *mut T,
    pub(crate) alloc: A,
    pub(crate) ghost value: { T },
}

impl<T, A: Allocator> Model for Opened<T, A> {
    ghost also_owns = { λ o. box_owns (A.dealloc_token o.alloc) T.row o.at o.value };
}

impl<T, A: Allocator> Opened<T, A> {
    /// Takes a box apart.
    #[inline(always)]
    pub(crate) fn open(boxed: Box<T, A>) -> Opened<T, A>
    where
        T: Drop,
        ensures { result.value ≡ boxed.value }
    {
        let (at, alloc) = Box::into_raw_with_allocator(boxed);
        Opened { at, alloc }
    }

    /// The box again.
    #[inline(always)]
    pub(crate) fn close(self) -> Box<T, A>
        ensures { result.value ≡ self.value }
    {
        let Opened { at, alloc } = self;
        unsafe { Box::from_raw(alloc, at) }
    }
}

/// A core in its block, or none, behind a pointer whose type C knows: a pointer to a type of Rattle doesn't cross to C.
/// It can't be dropped, so that no core is ever forgotten: `into_opened` gives back the one that it has, and `let_go`
/// is for one that has none.
#[repr(C)]
pub struct Loose {
    at: *mut u8,
    alloc: Global,
    pub ghost holds: { Bool },
    pub ghost table: { Table } by { core_coded },
}

impl Model for Loose {
    ghost also_owns = { λ l. owned_where l.holds l.alloc l.at l.table };
}

impl Loose {
    /// No core: the null pointer.
    #[inline(always)]
    pub(crate) fn none(alloc: Global) -> Loose
        ensures { result.holds ≡ false }
    {
        Loose {
            at: std::ptr::null_mut(),
            alloc,
        }
    }

    /// The core of this box.
    #[inline(always)]
    pub(crate) fn of(core: Opened<Core, Global>) -> Loose
        ensures { (result.holds ≡ true) × (result.table ≡ core.value) }
    {
        let Opened { at, alloc } = core;
        Loose {
            at: at as *mut u8,
            alloc,
        }
    }

    /// The box of the core that there is.
    #[inline(always)]
    pub(crate) fn into_opened(self) -> Opened<Core, Global>
        requires { self.holds ≡ true }
        ensures { result.value ≡ self.table }
    {
        let Loose { at, alloc } = self;
        Opened {
            at: at as *mut Core,
            alloc,
        }
    }

    /// Lets it go. There has to be no core.
    #[inline(always)]
    pub(crate) fn let_go(self)
        requires { self.holds ≡ false }
    {
        let Loose { at: _, alloc: _ } = self;
    }
}

// A box of a core may cross to another thread, and so may what is left of it here.
unsafe impl Send for Loose {}
