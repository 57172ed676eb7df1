//! The file of a device's firmware, with what is coming and what is applied in files beside it.

use pldm_update::Component;
use std::fs::{self, File};
use std::io::{self, ErrorKind, Write};
use update_line::Flash;

/// The firmware of a device in a file. An image that comes is stored in the file `NAME.part`; where it is applied, that
/// becomes `NAME.new`, and `NAME` where it is activated: each by one renaming, so that a process that is killed leaves the
/// old file or the new one.
#[derive(Drop)]
pub struct FirmwareFile<'r> {
    rt: &'r HostRuntime,
    name: &'r str,
    coming: String,
    applied: String,
    /// The image that comes, and how many of its bytes are stored.
    file: Option<File>,
    stored: u64,
    /// How many bytes it has.
    size: u64,
}

impl<'r> FirmwareFile<'r> {
    /// The firmware in the file of this name. What an earlier process left beside it is removed: an update that was not
    /// activated counts for nothing.
    ///
    /// # Errors
    ///
    /// Where there is no memory for the names.
    pub fn new(rt: &'r HostRuntime, name: &'r str) -> io::Result<FirmwareFile<'r>> {
        let coming = format!(in rt.alloc(); "{name}.part")?;
        let applied = format!(in rt.alloc(); "{name}.new")?;
        let _ = fs::remove_file(rt, coming.as_str());
        let _ = fs::remove_file(rt, applied.as_str());
        Ok(FirmwareFile {
            rt,
            name,
            coming,
            applied,
            file: None,
            stored: 0,
            size: 0,
        })
    }

    /// Makes an empty file for an image of so many bytes.
    fn create(&mut self, size: u32) -> io::Result<()> {
        self.file = None;
        self.file = Some(fs::create(self.rt, self.coming.as_str())?);
        self.stored = 0;
        self.size = u64::from(size);
        Ok(())
    }

    /// Writes the bytes of a piece: they follow those that are stored.
    fn append(&mut self, offset: u32, piece: &[u8]) -> io::Result<()> {
        let Some(file) = &mut self.file else {
            return Err(ErrorKind::InvalidInput.into());
        };
        if u64::from(offset) != self.stored {
            return Err(ErrorKind::InvalidInput.into());
        }
        file.write_all(piece)?;
        self.stored = self.stored.saturating_add(piece.len() as u64);
        Ok(())
    }

    /// Sees that the image is whole, and that the file holds it.
    fn sync(&mut self) -> io::Result<()> {
        let Some(file) = &self.file else {
            return Err(ErrorKind::InvalidInput.into());
        };
        file.sync_all()?;
        if self.stored != self.size || file.metadata()?.len() != self.size {
            return Err(ErrorKind::InvalidData.into());
        }
        Ok(())
    }

    /// Removes the file of the image that was begun last.
    fn remove_coming(&mut self) -> io::Result<()> {
        self.file = None;
        removed(fs::remove_file(self.rt, self.coming.as_str()))
    }

    /// Removes both files beside the firmware.
    fn remove_both(&mut self) -> io::Result<()> {
        self.remove_coming()?;
        removed(fs::remove_file(self.rt, self.applied.as_str()))
    }
}

/// A file that is not there is removed.
fn removed(done: io::Result<()>) -> io::Result<()> {
    match done {
        Err(error) if error.kind() == ErrorKind::NotFound => Ok(()),
        done => done,
    }
}

impl Flash for FirmwareFile<'_> {
    ghost use Rattle.std.specs.Prelude.{⊤};

    ghost acted = { λ _ _ _ _. ⊤ };

    fn begin(&mut self, _component: Component, size: u32) -> bool {
        self.create(size).is_ok()
    }

    fn store(&mut self, offset: u32, piece: &[u8]) -> bool {
        self.append(offset, piece).is_ok()
    }

    fn verify(&mut self) -> bool {
        self.sync().is_ok()
    }

    fn apply(&mut self) -> bool {
        self.file = None;
        fs::rename(self.rt, self.coming.as_str(), self.applied.as_str()).is_ok()
    }

    fn activate(&mut self) -> bool {
        fs::rename(self.rt, self.applied.as_str(), self.name).is_ok()
    }

    fn abandon(&mut self) -> bool {
        self.remove_coming().is_ok()
    }

    fn abandon_update(&mut self) -> bool {
        self.remove_both().is_ok()
    }
}
