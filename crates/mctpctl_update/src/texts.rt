//! The lines that are printed of an update.

use pldm_update::{AgentRequest, Component, DeviceIdentifiers, FirmwareParameters};
use std::alloc::{AllocError, Global};

/// Bytes in lower-case hex.
fn hex_of(alloc: Global, bytes: &[u8]) -> Result<String, AllocError> {
    let mut out = String::new(alloc);
    for byte in bytes {
        out.push_str(&format!(in alloc; "{byte:02x}")?)?;
    }
    Ok(out)
}

/// A version: in quotes where it is printable ASCII, else its bytes in hex.
fn version_of(alloc: Global, text: &[u8]) -> Result<String, AllocError> {
    match str::from_utf8(text) {
        Ok(words) if text.iter().all(|byte| is_plain(*byte)) => format!(in alloc; "\"{words}\""),
        _ => hex_of(alloc, text),
    }
}

/// Whether a byte is printed as it is.
fn is_plain(byte: u8) -> bool {
    (0x20..0x7F).contains(&byte) && byte != b'"'
}

/// The name of a component: its classification, identifier and index.
pub(crate) fn component_text(alloc: Global, component: Component) -> Result<String, AllocError> {
    let Component {
        classification,
        identifier,
        index,
    } = component;
    format!(in alloc; "component {classification}:{identifier}:{index}")
}

/// The lines of what a device says of itself.
pub(crate) fn identity_text(
    alloc: Global,
    identifiers: &DeviceIdentifiers,
    parameters: &FirmwareParameters,
) -> Result<String, AllocError> {
    let mut out = String::new(alloc);
    for descriptor in identifiers.descriptors() {
        let kind = descriptor.kind();
        let content = hex_of(alloc, descriptor.content())?;
        out.push_str(&format!(in alloc; "device identifier {kind:04x} {content}\n")?)?;
    }
    for own in parameters.components() {
        let component = component_text(alloc, own.component())?;
        let version = version_of(alloc, own.active().version().text())?;
        out.push_str(&format!(in alloc; "{component} active version {version}\n")?)?;
    }
    Ok(out)
}

/// The standard's name of a request of the agent.
pub(crate) fn request_name(request: AgentRequest) -> &'static str {
    match request {
        AgentRequest::RequestUpdate => "RequestUpdate",
        AgentRequest::PassComponent(_) => "PassComponentTable",
        AgentRequest::UpdateComponent(_) => "UpdateComponent",
        AgentRequest::ActivateFirmware => "ActivateFirmware",
        AgentRequest::CancelUpdate => "CancelUpdate",
    }
}
