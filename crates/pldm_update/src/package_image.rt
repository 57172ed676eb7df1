//! The images in a package.

ghost use Rattle.std.specs.Prelude.{◌≡◌, ◌∷◌, [], IfNone, IfSome};
ghost use Rattle.std.specs.Iterator.{YieldsFirst, item_count};
ghost use Rattle.pldm_update.specs.PackageFields.{Gives, many_at};
ghost use Rattle.pldm_update.specs.PackageReading.{all_placed, image_at, is_placed};

use crate::package_fields::{u16_in, u32_in};
use crate::package_text::text_in;
use crate::{PackageFault, PackageText};
use std::marker::Model;

/// What a package says of the image of a component (DSP0267, "Component image information").
#[derive(Debug, Drop)]
pub struct ImageRecord<'a> {
    classification: u16,
    identifier: u16,
    comparison_stamp: u32,
    options: u16,
    activation_methods: u16,
    offset: u32,
    size: u32,
    version: PackageText<'a>,
}

impl<'a> Model for ImageRecord<'a> {
    ghost use Rattle.pldm_update.specs.Packages.{Image};

    ghost Value = { Image };

    ghost view = { λ i. record {
      classification = i.classification;
      identifier = i.identifier;
      comparison_stamp = i.comparison_stamp;
      options = i.options;
      activation_methods = i.activation_methods;
      offset = i.offset;
      size = i.size;
      version = i.version;
    } };
}

impl<'a> ImageRecord<'a> {
    /// The component's classification: firmware, a boot loader or data, for example.
    pub fn classification(&self) -> u16
        ensures { result ≡ self.now.classification }
    {
        self.classification
    }

    /// The component's identifier, which the vendor chooses.
    pub fn identifier(&self) -> u16
        ensures { result ≡ self.now.identifier }
    {
        self.identifier
    }

    /// The stamp by which versions are compared.
    pub fn comparison_stamp(&self) -> u32
        ensures { result ≡ self.now.comparison_stamp }
    {
        self.comparison_stamp
    }

    /// The component options.
    pub fn options(&self) -> u16
        ensures { result ≡ self.now.options }
    {
        self.options
    }

    /// The requested activation method.
    pub fn activation_methods(&self) -> u16
        ensures { result ≡ self.now.activation_methods }
    {
        self.activation_methods
    }

    /// Where in the file the image begins, in bytes.
    pub fn offset(&self) -> u32
        ensures { result ≡ self.now.offset }
    {
        self.offset
    }

    /// How many bytes the image has.
    pub fn size(&self) -> u32
        ensures { result ≡ self.now.size }
    {
        self.size
    }

    /// The image's version.
    pub fn version(&self) -> &PackageText<'a>
        ensures { result.now ≡ self.now.version }
    {
        &self.version
    }

    /// Whether the image stands in a file of so many bytes, behind a header of so many.
    fn is_placed(&self, header: u16, file: usize) -> bool
        ensures { result ≡ is_placed header file self.now }
    {
        let end = u64::from(self.offset) + u64::from(self.size);
        u32::from(header) <= self.offset && end <= file as u64
    }
}

/// Goes over what a package says of its images, in their order.
#[derive(Debug, Drop)]
pub struct ImageRecords<'a> {
    count: u16,
    bytes: &'a [u8],
}

impl<'a> Model for ImageRecords<'a> {
    ghost use Rattle.std.specs.Prelude.{List, IsOk};
    ghost use Rattle.pldm_update.specs.PackageFields.{items_of, many_at};
    ghost use Rattle.pldm_update.specs.PackageReading.{image_at};
    ghost use Rattle.pldm_update.specs.Packages.{Image};

    ghost Value = { List Image };

    ghost view = { λ i. items_of (many_at image_at i.count i.bytes.now) };

    ghost invariant = { λ i. IsOk (many_at image_at i.count i.bytes.now) };
}

impl<'a> ImageRecords<'a> {
    /// The same once more.
    pub(crate) fn again(&self) -> ImageRecords<'a>
        ensures { result ≡ self.now }
    {
        ImageRecords {
            count: self.count,
            bytes: self.bytes,
        }
    }

    /// The next one, which the others then follow.
    fn take_first(&mut self) -> Option<ImageRecord<'a>>
        ensures some { IfSome result (λ i. self.old ≡ i ∷ self.new) }
        ensures none { IfNone result (self.old ≡ []) }
        ensures same { IfNone result (self.new ≡ self.old) }
    {
        if self.count == 0 {
            return None;
        }
        match image_in(self.bytes) {
            Ok((image, rest)) => {
                self.count -= 1;
                self.bytes = rest;
                Some(image)
            }
            Err(_) => None,
        }
    }

    /// Whether each image stands in a file of so many bytes, behind a header of so many.
    pub(crate) fn all_placed(&self, header: u16, file: usize) -> bool
        ensures { result ≡ all_placed header file self.now }
    {
        for image in self.again() {
            if !image.is_placed(header, file) {
                return false;
            }
        }
        true
    }
}

impl<'a> Iterator for ImageRecords<'a> {
    type Item = ImageRecord<'a>;

    ghost next_gives = { YieldsFirst (λ images. images) };

    ghost remaining = { item_count (λ images. images) };

    fn next(&mut self) -> Option<ImageRecord<'a>> {
        self.take_first()
    }
}

/// What a package says of an image.
#[tactic(auto, unfolding(crate::specs::PackageFields::and_then, crate::specs::PackageReading::image_at))]
fn image_in(bytes: &[u8]) -> Result<(ImageRecord<'_>, &[u8]), PackageFault>
    ensures { Gives (λ x. (x.0, x.1.now)) result (image_at bytes.now) }
{
    let (classification, rest) = u16_in(bytes)?;
    let (identifier, rest) = u16_in(rest)?;
    let (comparison_stamp, rest) = u32_in(rest)?;
    let (options, rest) = u16_in(rest)?;
    let (activation_methods, rest) = u16_in(rest)?;
    let (offset, rest) = u32_in(rest)?;
    let (size, rest) = u32_in(rest)?;
    let (version, rest) = text_in(rest)?;
    let image = ImageRecord {
        classification,
        identifier,
        comparison_stamp,
        options,
        activation_methods,
        offset,
        size,
        version,
    };
    Ok((image, rest))
}

/// What a package says of so many images, one after another.
pub(crate) fn images_in(count: u16, bytes: &[u8]) -> Result<(ImageRecords<'_>, &[u8]), PackageFault>
    ensures { Gives (λ x. (x.0, x.1.now)) result (many_at image_at count bytes.now) }
{
    let mut rest = bytes;
    for _ in 0..count {
        let (_, after) = image_in(rest)?;
        rest = after;
    }
    Ok((ImageRecords { count, bytes }, rest))
}
