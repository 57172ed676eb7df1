//! The handle by which C holds a terminus.

ghost use Rattle.std.specs.Prelude.{◌≡◌, Option, Some, None, IsSome};
ghost use Rattle.needleoat_c.specs.TerminusHandles.{handle_owns, Inside, coded_inside};

use crate::parts::Parts;
use pldm_terminus::Terminus;
use std::alloc::Global;
use std::marker::Model;
use std::{mem, ptr};

/// A terminus's handle, as C holds it. It begins with all bytes 0; C reads and writes no field and
/// uses no copy.
#[repr(C)]
#[derive(Drop)]
pub struct TerminusForC {
    /// The terminus, or none.
    pub(crate) handle: TerminusHandle,
    /// Whether there is one.
    pub(crate) is_live: bool,
}

// As in `include/needleoat.h`.
const _: () = prove!(size_of::<TerminusForC>() == 16);

/// What the pointer points to. C sees nothing of it.
#[repr(C)]
#[derive(Drop)]
pub struct HiddenTerminus {
    hidden: u8,
}

/// A pointer to a terminus on the heap, or none.
#[repr(C)]
#[derive(Drop)]
pub struct TerminusHandle {
    at: *mut HiddenTerminus,
    alloc: Global,
    pub ghost held: { Option Inside } by { coded_inside },
}

impl Model for TerminusHandle {
    ghost also_owns = { λ d. handle_owns d.alloc d.at d.held };
}

impl TerminusHandle {
    /// The handle of a terminus in parts.
    fn of_parts(parts: Parts<Terminus, Global>) -> TerminusHandle
        ensures { result.held ≡ Some parts.value }
    {
        let Parts { ptr, alloc } = parts;
        TerminusHandle {
            at: ptr as *mut HiddenTerminus,
            alloc,
        }
    }

    /// The terminus in parts.
    fn into_parts(self) -> Parts<Terminus, Global>
        requires { IsSome self.held }
        ensures { Some result.value ≡ self.held }
    {
        let TerminusHandle { at, alloc } = self;
        Parts {
            ptr: at as *mut Terminus,
            alloc,
        }
    }

    /// Moves the terminus out of the handle, which is then empty.
    pub(crate) fn take(&mut self, alloc: Global) -> Box<Terminus, Global>
        requires { IsSome self.old.held }
        ensures value { Some result.value ≡ self.old.held }
        ensures empty { self.new.held ≡ None }
    {
        mem::replace(self, TerminusHandle::none(alloc))
            .into_parts()
            .into_box()
    }

    /// Puts a terminus into the handle.
    pub(crate) fn put(&mut self, inside: Box<Terminus, Global>)
        ensures { self.new.held ≡ Some inside.value }
    {
        *self = TerminusHandle::of_parts(Parts::of(inside));
    }

    /// A handle of no terminus.
    fn none(alloc: Global) -> TerminusHandle
        ensures { result.held ≡ None }
    {
        TerminusHandle {
            at: ptr::null_mut(),
            alloc,
        }
    }
}
