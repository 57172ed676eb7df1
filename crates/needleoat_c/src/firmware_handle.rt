//! The handle by which C holds the machine of a firmware device.

ghost use Rattle.std.specs.Prelude.{◌≡◌, Option, Some, None, IsSome};
ghost use Rattle.needleoat_c.specs.FirmwareHandles.{handle_owns, Inside, coded_inside};

use crate::parts::Parts;
use pldm_update::FirmwareDevice;
use std::alloc::Global;
use std::marker::Model;
use std::{mem, ptr};

/// The handle of a firmware device's machine, as C holds it. It begins with all bytes 0; C reads and writes no field
/// and uses no copy.
#[repr(C)]
#[derive(Drop)]
pub struct FirmwareForC {
    /// The machine, or none.
    pub(crate) handle: FirmwareHandle,
    /// Whether there is one.
    pub(crate) is_live: bool,
}

// As in `include/needleoat.h`.
const _: () = prove!(size_of::<FirmwareForC>() == 16);

/// What the pointer points to. C sees nothing of it.
#[repr(C)]
#[derive(Drop)]
pub struct HiddenFirmware {
    hidden: u8,
}

/// A pointer to a machine on the heap, or none.
#[repr(C)]
#[derive(Drop)]
pub struct FirmwareHandle {
    at: *mut HiddenFirmware,
    alloc: Global,
    pub ghost held: { Option Inside } by { coded_inside },
}

impl Model for FirmwareHandle {
    ghost also_owns = { λ d. handle_owns d.alloc d.at d.held };
}

impl FirmwareHandle {
    /// The handle of a machine in parts.
    fn of_parts(parts: Parts<FirmwareDevice, Global>) -> FirmwareHandle
        ensures { result.held ≡ Some parts.value }
    {
        let Parts { ptr, alloc } = parts;
        FirmwareHandle {
            at: ptr as *mut HiddenFirmware,
            alloc,
        }
    }

    /// The machine in parts.
    fn into_parts(self) -> Parts<FirmwareDevice, Global>
        requires { IsSome self.held }
        ensures { Some result.value ≡ self.held }
    {
        let FirmwareHandle { at, alloc } = self;
        Parts {
            ptr: at as *mut FirmwareDevice,
            alloc,
        }
    }

    /// Moves the machine out of the handle, which is then empty.
    pub(crate) fn take(&mut self, alloc: Global) -> Box<FirmwareDevice, Global>
        requires { IsSome self.old.held }
        ensures value { Some result.value ≡ self.old.held }
        ensures empty { self.new.held ≡ None }
    {
        mem::replace(self, FirmwareHandle::none(alloc))
            .into_parts()
            .into_box()
    }

    /// Puts a machine into the handle.
    pub(crate) fn put(&mut self, inside: Box<FirmwareDevice, Global>)
        ensures { self.new.held ≡ Some inside.value }
    {
        *self = FirmwareHandle::of_parts(Parts::of(inside));
    }

    /// A handle of no machine.
    fn none(alloc: Global) -> FirmwareHandle
        ensures { result.held ≡ None }
    {
        FirmwareHandle {
            at: ptr::null_mut(),
            alloc,
        }
    }
}
