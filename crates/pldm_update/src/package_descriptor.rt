//! The descriptors of a device, of a package or of an answer.

ghost use Rattle.std.specs.Prelude.{◌≡◌, ◌∷◌, [], IfNone, IfSome};
ghost use Rattle.std.specs.Iterator.{YieldsFirst, item_count};
ghost use Rattle.pldm_update.specs.Applying.{is_same};
ghost use Rattle.pldm_update.specs.PackageFields.{Gives, many_at};
ghost use Rattle.pldm_update.specs.PackageReading.{descriptor_at};

use crate::PackageFault;
use crate::package_fields::{slice_in, u16_in};
use std::marker::Model;

/// A descriptor of a device, borrowed (DSP0267, "Descriptor definition").
#[derive(Debug, Drop)]
pub struct Descriptor<'a> {
    kind: u16,
    content: &'a [u8],
}

impl<'a> Model for Descriptor<'a> {
    ghost use Rattle.pldm_update.specs.Packages.{Descriptor};

    ghost Value = { Descriptor };

    ghost view = { λ d. record { kind = d.kind; content = d.content.now } };
}

impl<'a> Descriptor<'a> {
    /// Its type: 0 PCI vendor, 1 IANA enterprise, 2 UUID, for example. Any number is read.
    pub fn kind(&self) -> u16
        ensures { result ≡ self.now.kind }
    {
        self.kind
    }

    /// Its bytes.
    pub fn content(&self) -> &'a [u8]
        ensures { result.now ≡ self.now.content }
    {
        self.content
    }

    /// Whether another one has the same type and the same bytes.
    pub(crate) fn is_same(&self, other: &Descriptor<'_>) -> bool
        ensures { result ≡ is_same self.now other.now }
    {
        self.kind == other.kind && self.content == other.content
    }
}

/// Goes over the descriptors of a device, the initial one first.
#[derive(Debug, Drop)]
pub struct Descriptors<'a> {
    count: u8,
    bytes: &'a [u8],
}

impl<'a> Model for Descriptors<'a> {
    ghost use Rattle.std.specs.Prelude.{List, IsOk};
    ghost use Rattle.pldm_update.specs.PackageFields.{items_of, many_at};
    ghost use Rattle.pldm_update.specs.PackageReading.{descriptor_at};
    ghost use Rattle.pldm_update.specs.Packages.{Descriptor};

    ghost Value = { List Descriptor };

    ghost view = { λ d. items_of (many_at descriptor_at d.count d.bytes.now) };

    ghost invariant = { λ d. IsOk (many_at descriptor_at d.count d.bytes.now) };
}

impl<'a> Descriptors<'a> {
    /// The same once more.
    pub(crate) fn again(&self) -> Descriptors<'a>
        ensures { result ≡ self.now }
    {
        Descriptors {
            count: self.count,
            bytes: self.bytes,
        }
    }

    /// The next one, which the others then follow.
    fn take_first(&mut self) -> Option<Descriptor<'a>>
        ensures some { IfSome result (λ d. self.old ≡ d ∷ self.new) }
        ensures none { IfNone result (self.old ≡ []) }
        ensures same { IfNone result (self.new ≡ self.old) }
    {
        if self.count == 0 {
            return None;
        }
        match descriptor_in(self.bytes) {
            Ok((descriptor, rest)) => {
                self.count -= 1;
                self.bytes = rest;
                Some(descriptor)
            }
            Err(_) => None,
        }
    }
}

impl<'a> Iterator for Descriptors<'a> {
    type Item = Descriptor<'a>;

    ghost next_gives = { YieldsFirst (λ descriptors. descriptors) };

    ghost remaining = { item_count (λ descriptors. descriptors) };

    fn next(&mut self) -> Option<Descriptor<'a>> {
        self.take_first()
    }
}

/// A descriptor: its type, its length, and as many bytes.
#[tactic(auto, unfolding(crate::specs::PackageFields::and_then, crate::specs::PackageReading::descriptor_at))]
fn descriptor_in(bytes: &[u8]) -> Result<(Descriptor<'_>, &[u8]), PackageFault>
    ensures { Gives (λ x. (x.0, x.1.now)) result (descriptor_at bytes.now) }
{
    let (kind, rest) = u16_in(bytes)?;
    let (count, rest) = u16_in(rest)?;
    let (content, rest) = slice_in(count.into(), rest)?;
    Ok((Descriptor { kind, content }, rest))
}

/// So many descriptors, one after another.
pub(crate) fn descriptors_in(
    count: u8,
    bytes: &[u8],
) -> Result<(Descriptors<'_>, &[u8]), PackageFault>
    ensures { Gives (λ x. (x.0, x.1.now)) result (many_at descriptor_at count bytes.now) }
{
    let mut rest = bytes;
    for _ in 0..count {
        let (_, after) = descriptor_in(rest)?;
        rest = after;
    }
    Ok((Descriptors { count, bytes }, rest))
}
