//! The components of a firmware device, as it says them.

ghost use Rattle.std.specs.Prelude.{◌≡◌, ◌∷◌, [], IfNone, IfSome};
ghost use Rattle.std.specs.Iterator.{YieldsFirst, item_count};
ghost use Rattle.pldm_update.specs.PackageFields.{Gives, many_at};
ghost use Rattle.pldm_update.specs.Parameters.{component_parameters};
ghost use Rattle.pldm_update.specs.ParametersReading.{component_at};

use crate::component_version::version_in;
use crate::package_fields::{byte_in, slice_in, u16_in, u32_in};
use crate::{Component, ComponentVersion, PackageFault};
use std::marker::Model;

/// A component of a device and its two versions, borrowed (DSP0267, "GetFirmwareParameters command").
#[derive(Debug, Drop)]
pub struct ComponentParameters<'a> {
    component: Component,
    active: ComponentVersion<'a>,
    pending: ComponentVersion<'a>,
    activation_methods: u16,
    capabilities: u32,
}

impl<'a> Model for ComponentParameters<'a> {
    ghost use Rattle.pldm_update.specs.Parameters.{ComponentParameters};

    ghost Value = { ComponentParameters };

    ghost view = { λ c. record {
      component = c.component;
      active = c.active;
      pending = c.pending;
      activation_methods = c.activation_methods;
      capabilities = c.capabilities;
    } };
}

impl<'a> ComponentParameters<'a> {
    /// The component with these versions, ways of activation and capabilities, a bit for each of both.
    pub fn new(
        component: Component,
        active: ComponentVersion<'a>,
        pending: ComponentVersion<'a>,
        activation_methods: u16,
        capabilities: u32,
    ) -> ComponentParameters<'a>
        ensures { result ≡ component_parameters component active.entry pending.entry activation_methods capabilities }
    {
        ComponentParameters {
            component,
            active,
            pending,
            activation_methods,
            capabilities,
        }
    }

    /// Which component it is.
    pub fn component(&self) -> Component
        ensures { result ≡ self.now.component }
    {
        self.component
    }

    /// The version that is in use.
    pub fn active(&self) -> &ComponentVersion<'a>
        ensures { result.now ≡ self.now.active }
    {
        &self.active
    }

    /// The version that is used after the next activation.
    pub fn pending(&self) -> &ComponentVersion<'a>
        ensures { result.now ≡ self.now.pending }
    {
        &self.pending
    }

    /// How it can be activated, a bit each.
    pub fn activation_methods(&self) -> u16
        ensures { result ≡ self.now.activation_methods }
    {
        self.activation_methods
    }

    /// What it can do during an update, a bit each.
    pub fn capabilities(&self) -> u32
        ensures { result ≡ self.now.capabilities }
    {
        self.capabilities
    }
}

/// Goes over the components of a device, in their order.
#[derive(Debug, Drop)]
pub struct FirmwareComponents<'a> {
    count: u16,
    bytes: &'a [u8],
}

impl<'a> Model for FirmwareComponents<'a> {
    ghost use Rattle.std.specs.Prelude.{List, IsOk};
    ghost use Rattle.pldm_update.specs.PackageFields.{items_of, many_at};
    ghost use Rattle.pldm_update.specs.Parameters.{ComponentParameters};
    ghost use Rattle.pldm_update.specs.ParametersReading.{component_at};

    ghost Value = { List ComponentParameters };

    ghost view = { λ c. items_of (many_at component_at c.count c.bytes.now) };

    ghost invariant = { λ c. IsOk (many_at component_at c.count c.bytes.now) };
}

impl<'a> FirmwareComponents<'a> {
    /// The next one, which the others then follow.
    fn take_first(&mut self) -> Option<ComponentParameters<'a>>
        ensures some { IfSome result (λ c. self.old ≡ c ∷ self.new) }
        ensures none { IfNone result (self.old ≡ []) }
        ensures same { IfNone result (self.new ≡ self.old) }
    {
        if self.count == 0 {
            return None;
        }
        match component_in(self.bytes) {
            Ok((component, rest)) => {
                self.count -= 1;
                self.bytes = rest;
                Some(component)
            }
            Err(_) => None,
        }
    }
}

impl<'a> Iterator for FirmwareComponents<'a> {
    type Item = ComponentParameters<'a>;

    ghost next_gives = { YieldsFirst (λ components. components) };

    ghost remaining = { item_count (λ components. components) };

    fn next(&mut self) -> Option<ComponentParameters<'a>> {
        self.take_first()
    }
}

/// A component: what it is, its versions without their strings, its bits, and the two strings.
#[tactic(auto, unfolding(crate::specs::PackageFields::and_then, crate::specs::ParametersReading::component_at))]
fn component_in(bytes: &[u8]) -> Result<(ComponentParameters<'_>, &[u8]), PackageFault>
    ensures { Gives (λ x. (x.0, x.1.now)) result (component_at bytes.now) }
{
    let (classification, rest) = u16_in(bytes)?;
    let (identifier, rest) = u16_in(rest)?;
    let (index, rest) = byte_in(rest)?;
    let (active, rest) = version_in(rest)?;
    let (pending, rest) = version_in(rest)?;
    let (activation_methods, rest) = u16_in(rest)?;
    let (capabilities, rest) = u32_in(rest)?;
    let (active_text, rest) = slice_in(active.count(), rest)?;
    let (pending_text, rest) = slice_in(pending.count(), rest)?;
    let component = Component {
        classification,
        identifier,
        index,
    };
    let parameters = ComponentParameters {
        component,
        active: active.with_text(active_text),
        pending: pending.with_text(pending_text),
        activation_methods,
        capabilities,
    };
    Ok((parameters, rest))
}

/// So many components, one after another.
pub(crate) fn components_in(
    count: u16,
    bytes: &[u8],
) -> Result<(FirmwareComponents<'_>, &[u8]), PackageFault>
    ensures { Gives (λ x. (x.0, x.1.now)) result (many_at component_at count bytes.now) }
{
    let mut rest = bytes;
    for _ in 0..count {
        let (_, after) = component_in(rest)?;
        rest = after;
    }
    Ok((FirmwareComponents { count, bytes }, rest))
}
