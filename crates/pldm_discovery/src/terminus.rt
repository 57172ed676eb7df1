//! Which sensors and effecters that records describe are of the asked terminus (DSP0248, "Terminus locator PDR").

ghost use Rattle.std.specs.Prelude.{◌≡◌, filter};
ghost use Rattle.pldm_discovery.specs.Termini.{asked_handle, handle_by, handle_in, is_asked, is_tid};

use crate::discovered::Discovered;
use crate::whole_record::WholeRecord;
use pldm_pdr::{RecordData, read};

/// The terminus handle of the asked terminus: what the first valid locator of its terminus ID gives, if there is one.
pub(crate) fn asked_handle(own: Option<u8>, records: &[WholeRecord]) -> Option<u16>
    ensures { result ≡ asked_handle own records.now }
{
    for pdr in records {
        if let Some(handle) = handle_by(own, pdr.as_slice()) {
            return Some(handle);
        }
    }
    None
}

/// The terminus handle that a record gives to this terminus ID, if it is a valid locator of it.
#[tactic(auto, unfolding(crate::specs::Termini::handle_by))]
fn handle_by(own: Option<u8>, pdr: &[u8]) -> Option<u16>
    ensures { result ≡ handle_by own pdr.now }
{
    match read(pdr) {
        Ok(record) => handle_in(own, record.contents()),
        Err(_) => None,
    }
}

/// The terminus handle that a record with this data gives to this terminus ID, if it is a valid locator of it.
fn handle_in(own: Option<u8>, contents: &RecordData) -> Option<u16>
    ensures { result ≡ handle_in own contents.now }
{
    match contents {
        RecordData::TerminusLocator(locator) => {
            if locator.is_valid && is_tid(own, locator.tid) {
                Some(locator.terminus_handle)
            } else {
                None
            }
        }
        _ => None,
    }
}

/// Whether a terminus ID is the one that the device answered.
fn is_tid(own: Option<u8>, tid: u8) -> bool
    ensures { result ≡ is_tid own tid }
{
    match own {
        Some(own) => own == tid,
        None => false,
    }
}

/// Keeps what is of the asked terminus.
pub(crate) fn keep_asked(found: &mut Vec<Discovered>, handle: Option<u16>)
    ensures { found.new.items ≡ filter (is_asked handle) found.old.items }
{
    found.retain(move |one| is_asked(handle, one));
}

/// Whether something that was found is of the asked terminus: where no locator names that, all is.
fn is_asked(handle: Option<u16>, found: &Discovered) -> bool
    ensures { result ≡ is_asked handle found.now }
{
    match handle {
        Some(handle) => found.terminus == handle,
        None => true,
    }
}
