//! What a file brings: a firmware update package, or the image of a component.

ghost use Rattle.std.specs.Prelude.{◌≡◌};
ghost use Rattle.pldm_update.specs.PackageReading.{package_of};
ghost use Rattle.mctpctl_update.specs.Brought.{contents_of, read_contents};

use pldm_update::{Package, PackageFault};

/// The bytes of a package's identifier, its first field.
const IDENTIFIER_BYTES: usize = 16;

/// What a file brings.
#[derive(Drop)]
pub enum Brought<'f> {
    /// A firmware update package.
    Package(Package<'f>),
    /// An image.
    Image(&'f [u8]),
}

/// What a file brings: a package where it begins with the identifier of one, else an image.
///
/// # Errors
///
/// The first fault of the package; `Length` also for a file without a byte.
pub fn read_brought(file: &[u8]) -> Result<Brought<'_>, PackageFault>
    ensures { read_contents result ≡ contents_of file.now }
{
    match package_in(file) {
        Ok(package) => Ok(Brought::Package(package)),
        Err(PackageFault::Identifier) => Ok(Brought::Image(file)),
        Err(PackageFault::Length) if !file.is_empty() && file.len() < IDENTIFIER_BYTES => {
            Ok(Brought::Image(file))
        }
        Err(fault) => Err(fault),
    }
}

/// The package in a file.
fn package_in(file: &[u8]) -> Result<Package<'_>, PackageFault>
    ensures { result ≡ package_of file.now }
{
    Package::read(file)
}
