//! The handle by which C holds an endpoint.

ghost use Rattle.std.specs.Prelude.{◌≡◌, Option, Some, None, IsSome};
ghost use Rattle.needleoat_c.specs.EndpointHandles.{handle_owns, Inside, coded_inside};

use crate::parts::Parts;
use bus_endpoint::BusEndpoint;
use std::alloc::Global;
use std::marker::Model;
use std::{mem, ptr};

/// An endpoint's handle, as C holds it. It begins with all bytes 0; C reads and writes no field and
/// uses no copy.
#[repr(C)]
#[derive(Drop)]
pub struct EndpointForC {
    /// The endpoint, or none.
    pub(crate) handle: EndpointHandle,
    /// Whether there is one.
    pub(crate) is_live: bool,
}

// As in `include/needleoat.h`.
const _: () = prove!(size_of::<EndpointForC>() == 16);

/// What the pointer points to. C sees nothing of it.
#[repr(C)]
#[derive(Drop)]
pub struct HiddenEndpoint {
    hidden: u8,
}

/// A pointer to an endpoint on the heap, or none.
#[repr(C)]
#[derive(Drop)]
pub struct EndpointHandle {
    at: *mut HiddenEndpoint,
    alloc: Global,
    pub ghost held: { Option Inside } by { coded_inside },
}

impl Model for EndpointHandle {
    ghost also_owns = { λ d. handle_owns d.alloc d.at d.held };
}

impl EndpointHandle {
    /// The handle of an endpoint in parts.
    fn of_parts(parts: Parts<BusEndpoint, Global>) -> EndpointHandle
        ensures { result.held ≡ Some parts.value }
    {
        let Parts { ptr, alloc } = parts;
        EndpointHandle {
            at: ptr as *mut HiddenEndpoint,
            alloc,
        }
    }

    /// The endpoint in parts.
    fn into_parts(self) -> Parts<BusEndpoint, Global>
        requires { IsSome self.held }
        ensures { Some result.value ≡ self.held }
    {
        let EndpointHandle { at, alloc } = self;
        Parts {
            ptr: at as *mut BusEndpoint,
            alloc,
        }
    }

    /// Moves the endpoint out of the handle, which is then empty.
    pub(crate) fn take(&mut self, alloc: Global) -> Box<BusEndpoint, Global>
        requires { IsSome self.old.held }
        ensures value { Some result.value ≡ self.old.held }
        ensures empty { self.new.held ≡ None }
    {
        mem::replace(self, EndpointHandle::none(alloc))
            .into_parts()
            .into_box()
    }

    /// Puts an endpoint into the handle.
    pub(crate) fn put(&mut self, inside: Box<BusEndpoint, Global>)
        ensures { self.new.held ≡ Some inside.value }
    {
        *self = EndpointHandle::of_parts(Parts::of(inside));
    }

    /// A handle of no endpoint.
    fn none(alloc: Global) -> EndpointHandle
        ensures { result.held ≡ None }
    {
        EndpointHandle {
            at: ptr::null_mut(),
            alloc,
        }
    }
}
