//! What a file offers to a device.

ghost use Rattle.std.specs.Prelude.{◌≡◌, ◌≤◌, ◌++◌, ◌∷◌, [], map, IfOk, IfErr, Ok, Err, OnOk};
ghost use Rattle.mctpctl_update.specs.Brought.{contents};
ghost use Rattle.mctpctl_update.specs.Offers.{AreOffered, IsMemory, component_for, has_component, image_offer, is_applicable, is_of, is_same, items_of, number_after, offered, offers_for, only_of, own_component, package_offer, package_offers, short_version, some_offered, offers_of, version_for};
ghost use Rattle.std.specs.List.{find};
ghost use Rattle.pldm_update.specs.VersionTexts.{version_text};

use crate::brought::Brought;
use mctp_packet::Memory;
use pldm_update::{
    Component, DeviceIdentifiers, DeviceRecord, FirmwareParameters, ImageRecord, Package,
    VersionString,
};
use std::alloc::{AllocError, Global};
use thiserror::Error;
use update_line::Offer;

/// The option that an image is taken whatever the device has now, of a package and of UpdateComponent (DSP0267,
/// "UpdateComponent command").
const FORCE: u16 = 1;

/// A package has no more images (DSP0267, "Component image information").
const MAX_IMAGES: usize = 65_535;

/// What is known of an image that stands in no package.
#[derive(Clone, Copy)]
pub struct ImageOptions<'a> {
    /// The component that it is for; the device's only one, where none is named.
    pub component: Option<Component>,
    /// Its version.
    pub version: &'a str,
}

/// Why a file offers a device nothing.
#[derive(Clone, Copy, Debug, PartialEq, Eq, Error)]
pub enum OfferFault {
    /// No record of the package is for the device.
    #[error("no record of the package is for this device")]
    NoRecord,
    /// No image of the package is for the device.
    #[error("no image of the package is for this device")]
    NoImage,
    /// The device does not have the component.
    #[error("the device has no such component")]
    NoComponent,
    /// The device has several components, and none was named.
    #[error("which component the image is for is not said (--component)")]
    Components,
    /// A version has more than 255 bytes.
    #[error("a version has more than 255 bytes")]
    Version,
    /// No memory was left.
    #[error("out of memory")]
    Memory(Memory),
}

/// What a file offers to a device that says this of itself: the images of a package that its first record for the device
/// names, in their order, each for the device's first component of its classification and identifier; or the one image
/// (DSP0267, "Firmware device identification records", "Component image information").
///
/// # Errors
///
/// `NoRecord` where no record is for the device; of the images in their order the first that has no component
/// (`NoComponent`), too long a version (`Version`) or no bytes in the file (`NoImage`, also where the record names no
/// image). For the one image `NoComponent` or `Components`, then `Version`. `Memory` where a growth was refused.
pub fn offers_for<'f>(
    alloc: Global,
    brought: &Brought<'f>,
    options: &ImageOptions<'_>,
    identifiers: &DeviceIdentifiers,
    parameters: &FirmwareParameters,
) -> Result<Vec<Offer<'f>>, OfferFault>
    ensures { AreOffered (items_of (λ offers. offers.items) result)
        (offers_for (contents brought.now) options.now identifiers.now parameters.now) }
{
    match brought {
        Brought::Image(image) => {
            let mut offers = Vec::new(alloc);
            add(&mut offers, image_offer(image, options, parameters)?)?;
            Ok(offers)
        }
        Brought::Package(package) => match package.record_for(identifiers) {
            Some(record) => package_offers(alloc, package, &record, parameters),
            None => Err(OfferFault::NoRecord),
        },
    }
}

/// The version of all that a file offers to a device: that of a package's record for it, or the image's own. `None` where
/// there is no such record, or the version has more than 255 bytes.
pub(crate) fn version_for(
    brought: &Brought<'_>,
    options: &ImageOptions<'_>,
    identifiers: &DeviceIdentifiers,
) -> Option<VersionString>
    ensures { result ≡ version_for (contents brought.now) options.now identifiers.now }
{
    match brought {
        Brought::Image(_) => short_version(1, options.version.as_bytes()),
        Brought::Package(package) => {
            let record = package.record_for(identifiers)?;
            let version = record.version();
            short_version(version.string_type(), version.text())
        }
    }
}

/// The version of this type with these bytes, where their number fits a byte.
fn short_version(string_type: u8, text: &[u8]) -> Option<VersionString>
    ensures { result ≡ short_version (version_text string_type text.now) }
{
    VersionString::new(string_type, text)
}

/// Adds an offer.
fn add<'f>(offers: &mut Vec<Offer<'f>>, offer: Offer<'f>) -> Result<(), OfferFault>
    ensures added { OnOk result (map offered offers.new.items ≡ map offered offers.old.items ++ offered offer.entry ∷ []) }
    ensures fault { IfErr result (λ fault. IsMemory fault) }
{
    match offers.push(offer) {
        Ok(()) => Ok(()),
        Err(refused) => Err(OfferFault::Memory(AllocError::from(refused).into())),
    }
}

/// What an image offers.
fn image_offer<'f>(
    image: &'f [u8],
    options: &ImageOptions<'_>,
    parameters: &FirmwareParameters,
) -> Result<Offer<'f>, OfferFault>
    ensures value { IfOk result (λ offer. image_offer image.now options.now parameters.now ≡ Ok (offered offer)) }
    ensures fault { IfErr result (λ fault. image_offer image.now options.now parameters.now ≡ Err fault) }
{
    let component = component_for(options.component, parameters)?;
    let Some(version) = short_version(1, options.version.as_bytes()) else {
        return Err(OfferFault::Version);
    };
    Ok(Offer {
        component,
        comparison_stamp: 0,
        option_flags: 0,
        version,
        image,
    })
}

/// The component that an image is for: the one that was named, where the device has it; its only one, where none was.
fn component_for(
    named: Option<Component>,
    parameters: &FirmwareParameters,
) -> Result<Component, OfferFault>
    ensures { result ≡ component_for named parameters.now }
{
    match named {
        Some(component) if has_component(parameters, component) => Ok(component),
        Some(_) => Err(OfferFault::NoComponent),
        None => only_component(parameters),
    }
}

/// Whether the device has this component.
fn has_component(parameters: &FirmwareParameters, component: Component) -> bool
    ensures { result ≡ has_component parameters.now component }
{
    for own in parameters.components() {
        if is_same(own.component(), component) {
            return true;
        }
    }
    false
}

/// Whether both are one component.
fn is_same(own: Component, component: Component) -> bool
    ensures { result ≡ is_same component own }
{
    own.classification == component.classification
        && own.identifier == component.identifier
        && own.index == component.index
}

/// The device's only component.
fn only_component(parameters: &FirmwareParameters) -> Result<Component, OfferFault>
    ensures { result ≡ only_of parameters.now.components }
{
    let mut components = parameters.components();
    let Some(first) = components.next() else {
        return Err(OfferFault::NoComponent);
    };
    match components.next() {
        Some(_) => Err(OfferFault::Components),
        None => Ok(first.component()),
    }
}

/// What the record of a package offers.
#[tactic(auto, using(crate::proofs::OffersInFront::nothing_in_front, crate::proofs::OffersInFront::front_of_front))]
fn package_offers<'f>(
    alloc: Global,
    package: &Package<'f>,
    record: &DeviceRecord<'f>,
    parameters: &FirmwareParameters,
) -> Result<Vec<Offer<'f>>, OfferFault>
    ensures { AreOffered (items_of (λ offers. offers.items) result)
        (some_offered (offers_of «package».now parameters.now record.now 0 «package».now.images)) }
{
    let mut offers = Vec::new(alloc);
    let mut number = 0;
    for image in package.images() {
        if is_applicable(record, number) {
            add(&mut offers, package_offer(package, &image, parameters)?)?;
        }
        number = number_after(number);
    }
    if offers.is_empty() {
        return Err(OfferFault::NoImage);
    }
    Ok(offers)
}

/// The number of the image after the one of this number.
fn number_after(number: usize) -> usize
    requires { number ≤ MAX_IMAGES }
    ensures value { result ≡ number_after number }
    ensures range { result ≤ MAX_IMAGES }
{
    (number + 1).min(MAX_IMAGES)
}

/// Whether the image of this number is for the devices of a record (DSP0267, "Firmware device identification records").
fn is_applicable(record: &DeviceRecord<'_>, number: usize) -> bool
    ensures { result ≡ is_applicable record.now number }
{
    if number >= MAX_IMAGES {
        return false;
    }
    match record.applicable().get(number / 8) {
        Some(bits) => bits >> (number % 8) & 1 == 1,
        None => false,
    }
}

/// What an image of a package offers.
fn package_offer<'f>(
    package: &Package<'f>,
    image: &ImageRecord<'f>,
    parameters: &FirmwareParameters,
) -> Result<Offer<'f>, OfferFault>
    ensures value { IfOk result (λ offer. package_offer «package».now parameters.now image.now ≡ Ok (offered offer)) }
    ensures fault { IfErr result (λ fault. package_offer «package».now parameters.now image.now ≡ Err fault) }
{
    let Some(component) = component_of(parameters, image) else {
        return Err(OfferFault::NoComponent);
    };
    let version = image.version();
    let Some(version) = short_version(version.string_type(), version.text()) else {
        return Err(OfferFault::Version);
    };
    let Some(bytes) = package.image(image) else {
        return Err(OfferFault::NoImage);
    };
    Ok(Offer {
        component,
        comparison_stamp: image.comparison_stamp(),
        option_flags: u32::from(image.options() & FORCE),
        version,
        image: bytes,
    })
}

/// The device's first component of the image's classification and identifier.
fn component_of(parameters: &FirmwareParameters, image: &ImageRecord<'_>) -> Option<Component>
    ensures { result ≡ own_component (find (is_of image.now) parameters.now.components) }
{
    for own in parameters.components() {
        let component = own.component();
        let is_same = component.classification == image.classification()
            && component.identifier == image.identifier();
        if is_same {
            return Some(component);
        }
    }
    None
}
