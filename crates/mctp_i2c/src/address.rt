//! The 7-bit addresses of devices on SMBus and I2C, and of targets on I3C.

ghost use Rattle.std.specs.Prelude.{◌≡◌, ℕ, ◌*◌, ◌↔◌, IsSome, IfSome};
ghost use Rattle.mctp_i2c.specs.Addresses.{IsSmbusAddress, IsDynamicAddress};

use crate::{MAX_DYNAMIC_ADDRESS, MAX_SMBUS_ADDRESS, MIN_SMBUS_ADDRESS};
use std::marker::Model;

/// The 7-bit address of a device on SMBus or I2C: 0x08 to 0x77.
#[derive(Clone, Copy, Debug, PartialEq, Eq, PartialOrd, Ord)]
pub struct SmbusAddress {
    number: u8,
}

impl Model for SmbusAddress {
    ghost Value = { ℕ };

    ghost view = { λ address. address.number };

    ghost invariant = { λ address. IsSmbusAddress address.number };

    ghost inverse = { λ n. record { number = n } };
}

impl SmbusAddress {
    /// The address of this number, where it is 0x08 to 0x77. It is the number before the bit for a read or a
    /// write is put behind it.
    pub fn new(number: u8) -> Option<SmbusAddress>
        ensures some { IsSome result ↔ IsSmbusAddress number }
        ensures value { IfSome result (λ address. address ≡ number) }
        ensures range { IfSome result IsSmbusAddress }
    {
        if (MIN_SMBUS_ADDRESS..=MAX_SMBUS_ADDRESS).contains(&number) {
            Some(SmbusAddress { number })
        } else {
            None
        }
    }

    /// Its number, 0x08 to 0x77.
    pub fn get(self) -> u8
        ensures value { result ≡ self }
        ensures range { IsSmbusAddress self }
    {
        self.number
    }

    /// The byte that a block write to the device begins with: the address, and a bit that is clear.
    pub fn write_byte(self) -> u8
        ensures { result ≡ self * 2 }
    {
        self.number << 1
    }
}

/// The dynamic address of a target on I3C, seven bits: 0 to 0x7F. Which of them a controller may give out is
/// for the controller to know.
#[derive(Clone, Copy, Debug, PartialEq, Eq, PartialOrd, Ord)]
pub struct DynamicAddress {
    number: u8,
}

impl Model for DynamicAddress {
    ghost Value = { ℕ };

    ghost view = { λ address. address.number };

    ghost invariant = { λ address. IsDynamicAddress address.number };

    ghost inverse = { λ n. record { number = n } };
}

impl DynamicAddress {
    /// The address of this number, where it is 0 to 0x7F.
    pub fn new(number: u8) -> Option<DynamicAddress>
        ensures some { IsSome result ↔ IsDynamicAddress number }
        ensures value { IfSome result (λ address. address ≡ number) }
        ensures range { IfSome result IsDynamicAddress }
    {
        if number <= MAX_DYNAMIC_ADDRESS {
            Some(DynamicAddress { number })
        } else {
            None
        }
    }

    /// Its number, 0 to 0x7F.
    pub fn get(self) -> u8
        ensures value { result ≡ self }
        ensures range { IsDynamicAddress self }
    {
        self.number
    }
}
