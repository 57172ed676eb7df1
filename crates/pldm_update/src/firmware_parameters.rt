//! The firmware that a device has.

ghost use Rattle.std.specs.Prelude.{◌≡◌, ◌+◌, ◌≤◌, ◌++◌, ◌↔◌, length, IsSome, IfSome, IsTrue};
ghost use Rattle.pldm_update.specs.DataParts.{IsPart, parts_bytes};
ghost use Rattle.pldm_update.specs.IdentifiersReading.{or_field_fault};
ghost use Rattle.pldm_update.specs.PackageFields.{Gives};
ghost use Rattle.pldm_update.specs.Packages.{Each};
ghost use Rattle.pldm_update.specs.Parameters.{AreParameters, FitsAfter, component_parts, no_components, parameters_bytes, version_parts, with_component};
ghost use Rattle.pldm_update.specs.ParametersReading.{parameters_at};

use crate::component_parameters::components_in;
use crate::field::{Field, data_of};
use crate::package_fields::{byte_in, slice_in, u16_in, u32_in};
use crate::{
    ComponentParameters, ComponentVersion, FirmwareComponents, MAX_TEXT_BYTES, MAX_UPDATE_DATA,
    PackageFault, PackageText, RELEASE_BYTES, UpdateData, UpdateFault,
};
use byteorder::{ByteOrder, LittleEndian};
use std::marker::Model;

/// The firmware that a device has: its set of components, and as many of these as one answer holds, which is
/// [`MAX_UPDATE_DATA`] bytes: 10 and the two strings of the set, and 39 and the two strings for each component
/// (DSP0267, "GetFirmwareParameters command").
#[derive(Debug, PartialEq, Eq, Drop)]
pub struct FirmwareParameters {
    bytes: UpdateData,
}

impl Model for FirmwareParameters {
    ghost use Rattle.std.proofs.Common.{sym};
    ghost use Rattle.pldm_update.specs.Parameters.{AreKept, FirmwareParameters, parameters_bytes};
    ghost use Rattle.pldm_update.specs.ParametersReading.{parameters_at, parameters_read};

    ghost Value = { FirmwareParameters };

    ghost view = { λ p. parameters_read (parameters_at p.bytes.items) };

    ghost invariant = { λ p. AreKept (parameters_read (parameters_at p.bytes.items)) p.bytes.items };

    ghost inverse = { λ p. record { bytes = record { items = parameters_bytes p } } };

    ghost inverse_ok = { λ p h i. record { bytes = record { items = sym h.0 i } } };
}

impl FirmwareParameters {
    /// What the device can do during an update, a bit each, and the active and the pending version of its set of
    /// components, of which there is none yet. `None` where these don't fit one answer.
    pub fn new(
        capabilities: u32,
        active: &PackageText<'_>,
        pending: &PackageText<'_>,
    ) -> Option<FirmwareParameters>
        ensures some { IsSome result ↔ AreParameters (no_components capabilities active.now pending.now) }
        ensures value { IfSome result (λ made. made ≡ no_components capabilities active.now pending.now) }
    {
        let count = active.text().len().max(pending.text().len());
        let size = active.text().len() + pending.text().len();
        if count > MAX_TEXT_BYTES || size > MAX_UPDATE_DATA - 10 {
            return None;
        }
        Some(FirmwareParameters {
            bytes: first_data(capabilities, active, pending),
        })
    }

    /// These and one more component after them. `None` where they don't fit one answer.
    pub fn with(&self, component: &ComponentParameters<'_>) -> Option<FirmwareParameters>
        ensures some { IsSome result ↔ AreParameters (with_component self.now component.now) }
        ensures value { IfSome result (λ made. made ≡ with_component self.now component.now) }
    {
        let kept = self.bytes.as_slice();
        let (capabilities, rest) = kept.split_at(4);
        let count = LittleEndian::read_u16(rest);
        let (_, others) = rest.split_at(2);
        if count == u16::MAX || !fits(kept.len(), component) {
            return None;
        }
        let head = data_of(&[Field::Bytes(capabilities), Field::U16(count + 1)]);
        let last = component_data(component);
        Some(FirmwareParameters {
            bytes: joined(head.as_slice(), others, last.as_slice()),
        })
    }

    /// The parameters that this data of an answer is, or the first fault: Length for a field that is cut short, for
    /// bytes that are left after the last, and for more than [`MAX_UPDATE_DATA`] (DSP0267, "GetFirmwareParameters
    /// command"; the order is this profile's own).
    pub(crate) fn read(bytes: &[u8]) -> Result<FirmwareParameters, UpdateFault>
        ensures { result ≡ or_field_fault (parameters_at bytes.now) }
    {
        match parameters_in(bytes) {
            Ok(_) => Ok(FirmwareParameters {
                bytes: data_of(&[Field::Bytes(bytes)]),
            }),
            Err(PackageFault::Value) => Err(UpdateFault::Value),
            Err(_) => Err(UpdateFault::Length),
        }
    }

    /// What the device can do during an update, a bit each.
    pub fn capabilities(&self) -> u32
        ensures { result ≡ self.now.capabilities }
    {
        self.fields().capabilities
    }

    /// The active version of the set.
    pub fn active(&self) -> PackageText<'_>
        ensures { result ≡ self.now.active }
    {
        self.fields().active
    }

    /// The pending version of the set.
    pub fn pending(&self) -> PackageText<'_>
        ensures { result ≡ self.now.pending }
    {
        self.fields().pending
    }

    /// The components.
    pub fn components(&self) -> FirmwareComponents<'_>
        ensures { result ≡ self.now.components }
    {
        self.fields().components
    }

    /// All of them.
    fn fields(&self) -> Fields<'_>
        ensures { result ≡ self.now }
    {
        match parameters_in(self.bytes.as_slice()) {
            Ok(fields) => fields,
            Err(_) => unreachable!(),
        }
    }

    /// The same once more.
    pub(crate) fn again(&self) -> FirmwareParameters
        ensures { result ≡ self.now }
    {
        FirmwareParameters {
            bytes: data_of(&[Field::Bytes(self.bytes.as_slice())]),
        }
    }

    /// The data of an answer with them, numbers with their lowest byte first.
    pub fn as_slice(&self) -> &[u8]
        ensures bytes { result.now ≡ parameters_bytes self.now }
        ensures range { AreParameters self.now }
    {
        self.bytes.as_slice()
    }
}

/// The parameters in data, borrowed.
#[derive(Debug, Drop)]
struct Fields<'a> {
    capabilities: u32,
    active: PackageText<'a>,
    pending: PackageText<'a>,
    components: FirmwareComponents<'a>,
}

impl<'a> Model for Fields<'a> {
    ghost use Rattle.pldm_update.specs.Parameters.{FirmwareParameters};

    ghost Value = { FirmwareParameters };

    ghost view = { λ f. record {
      capabilities = f.capabilities;
      active = f.active;
      pending = f.pending;
      components = f.components;
    } };
}

/// The data of parameters with no component.
fn first_data<'a>(
    capabilities: u32,
    active: &PackageText<'a>,
    pending: &PackageText<'a>,
) -> UpdateData
    requires fits { length active.now.text + length pending.now.text + 10 ≤ MAX_UPDATE_DATA }
    requires active { length active.now.text ≤ MAX_TEXT_BYTES }
    requires pending { length pending.now.text ≤ MAX_TEXT_BYTES }
    ensures items { result.items ≡ parameters_bytes (no_components capabilities active.now pending.now) }
    ensures range { AreParameters (no_components capabilities active.now pending.now) }
{
    data_of(&[
        Field::U32(capabilities),
        Field::U16(0),
        Field::U8(active.string_type()),
        Field::U8(active.text().len() as u8),
        Field::U8(pending.string_type()),
        Field::U8(pending.text().len() as u8),
        Field::Bytes(active.text()),
        Field::Bytes(pending.text()),
    ])
}

/// Whether a component fits an answer with so many bytes before it, and each of its fields its place.
fn fits(before: usize, component: &ComponentParameters<'_>) -> bool
    requires { before ≤ MAX_UPDATE_DATA }
    ensures { IsTrue result ↔ FitsAfter before component.now }
{
    let (active, pending) = (component.active(), component.pending());
    let active_count = active.version().text().len();
    let pending_count = pending.version().text().len();
    active.release().len() == RELEASE_BYTES
        && pending.release().len() == RELEASE_BYTES
        && active_count <= MAX_TEXT_BYTES
        && pending_count <= MAX_TEXT_BYTES
        && before + 39 + active_count + pending_count <= MAX_UPDATE_DATA
}

/// A version without its string, as it is written.
fn version_data(version: &ComponentVersion<'_>) -> UpdateData
    requires text { length version.now.version.text ≤ MAX_TEXT_BYTES }
    requires release { length version.now.release ≡ RELEASE_BYTES }
    ensures items { result.items ≡ parts_bytes (version_parts version.now) }
    ensures range { Each IsPart (version_parts version.now) }
{
    data_of(&[
        Field::U32(version.comparison_stamp()),
        Field::U8(version.version().string_type()),
        Field::U8(version.version().text().len() as u8),
        Field::Bytes(version.release()),
    ])
}

/// A component as it is written.
fn component_data(component: &ComponentParameters<'_>) -> UpdateData
    requires { FitsAfter 0 component.now }
    ensures items { result.items ≡ parts_bytes (component_parts component.now) }
    ensures range { Each IsPart (component_parts component.now) }
{
    let what = component.component();
    let active = version_data(component.active());
    let pending = version_data(component.pending());
    let head = data_of(&[
        Field::U16(what.classification),
        Field::U16(what.identifier),
        Field::U8(what.index),
        Field::Bytes(active.as_slice()),
        Field::Bytes(pending.as_slice()),
        Field::U16(component.activation_methods()),
        Field::U32(component.capabilities()),
    ]);
    let active_text = component.active().version().text();
    let pending_text = component.pending().version().text();
    joined(head.as_slice(), active_text, pending_text)
}

/// Three stretches of bytes, one after another.
fn joined<'a>(first: &'a [u8], second: &'a [u8], third: &'a [u8]) -> UpdateData
    requires { length first.now + length second.now + length third.now ≤ MAX_UPDATE_DATA }
    ensures { result.items ≡ first.now ++ (second.now ++ third.now) }
{
    data_of(&[
        Field::Bytes(first),
        Field::Bytes(second),
        Field::Bytes(third),
    ])
}

/// The parameters that this data is, or the first fault.
#[tactic(auto, unfolding(crate::specs::PackageFields::and_then, crate::specs::PackageFields::refused, crate::specs::ParametersReading::parameters_at))]
fn parameters_in(bytes: &[u8]) -> Result<Fields<'_>, PackageFault>
    ensures { Gives (λ fields. fields) result (parameters_at bytes.now) }
{
    if bytes.len() > MAX_UPDATE_DATA {
        return Err(PackageFault::Length);
    }
    let (capabilities, rest) = u32_in(bytes)?;
    let (count, rest) = u16_in(rest)?;
    let (active_type, rest) = byte_in(rest)?;
    let (active_count, rest) = byte_in(rest)?;
    let (pending_type, rest) = byte_in(rest)?;
    let (pending_count, rest) = byte_in(rest)?;
    let (active, rest) = slice_in(active_count.into(), rest)?;
    let (pending, rest) = slice_in(pending_count.into(), rest)?;
    let (components, rest) = components_in(count, rest)?;
    if !rest.is_empty() {
        return Err(PackageFault::Length);
    }
    Ok(Fields {
        capabilities,
        active: PackageText::of(active_type, active),
        pending: PackageText::of(pending_type, pending),
        components,
    })
}
