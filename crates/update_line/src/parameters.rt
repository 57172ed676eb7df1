//! What a device with one component says of its firmware.

use pldm_update::{
    Component, ComponentParameters, ComponentVersion, FirmwareParameters, PackageText,
    VersionString,
};

/// The date of a release of which nothing is known (DSP0267, "GetFirmwareParameters command").
const NO_RELEASE: [u8; 8] = *b"00000000";

/// A component that activates itself (DSP0267, "GetFirmwareParameters command", ComponentActivationMethods).
const SELF_CONTAINED: u16 = 2;

/// The parameters of a device whose one component has this active version. Where that does not fit an answer, they have
/// no component.
pub(crate) fn parameters_of(component: Component, active: &VersionString) -> FirmwareParameters {
    let none = PackageText::of(0, &[]);
    let parameters = FirmwareParameters::new(0, &none, &none).unwrap();
    let component = ComponentParameters::new(
        component,
        ComponentVersion::new(
            0,
            PackageText::of(active.string_type(), active.text()),
            &NO_RELEASE,
        ),
        ComponentVersion::new(0, PackageText::of(0, &[]), &NO_RELEASE),
        SELF_CONTAINED,
        0,
    );
    match parameters.with(&component) {
        Some(parameters) => parameters,
        None => parameters,
    }
}
