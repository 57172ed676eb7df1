//! Records that are made from a description.

ghost use Rattle.std.specs.Prelude.{◌≡◌};
ghost use Rattle.pldm_device.specs.FileFaults.{IsOrMemory};
ghost use Rattle.pldm_device.specs.MadeRecords.{largest_handle, made_after, next_handle, record_made, with_made};

use crate::allowed::Allowed;
use crate::description_fault::FileFault;
use crate::path::Path;
use crate::refusal::Refusal;
use pldm_pdr::RecordData;
use pldm_records::{MAX_RECORDS, Record, Repository};
use std::alloc::Global;

/// The records of a description so far, and the handle of the one that was made last; before any is, the largest
/// handle.
#[derive(Debug, Drop)]
pub(crate) struct MadeRecords {
    pub(crate) records: Repository,
    pub(crate) last_handle: u32,
}

impl MadeRecords {
    /// These records, before any is made.
    pub(crate) fn after(records: Repository) -> MadeRecords
        ensures { result ≡ made_after records }
    {
        let last_handle = largest_handle(&records);
        MadeRecords {
            records,
            last_handle,
        }
    }
}

/// The largest handle of the records, 0 where there are none.
fn largest_handle(records: &Repository) -> u32
    ensures { result ≡ largest_handle records.now }
{
    let mut largest = 0;
    let mut position = 0;
    while let Some(record) = records.get(position) {
        largest = record.handle().max(largest);
        position += 1;
    }
    largest
}

/// The records, and one more of this data with the next handle. `OutOfRange` where there is no next handle, where the
/// data does not fit, and where there are [`MAX_RECORDS`] records.
#[tactic(auto, unfolding(crate::specs::MadeRecords::with_made))]
pub(crate) fn with_made(
    alloc: Global,
    made: MadeRecords,
    contents: RecordData,
) -> Result<MadeRecords, Refusal>
    ensures { IsOrMemory result (with_made contents made) }
{
    let MadeRecords {
        mut records,
        last_handle,
    } = made;
    let handle = next_handle(last_handle)?;
    let record = record_made(alloc, handle, contents)?;
    if records.count() as usize >= MAX_RECORDS {
        return Err(too_many());
    }
    if records.position_of(record.handle()).is_some() {
        return Err(FileFault::Duplicate.into());
    }
    records.push(record)?;
    Ok(MadeRecords {
        records,
        last_handle: handle,
    })
}

/// The handle after this one; `OutOfRange` after the greatest.
fn next_handle(last: u32) -> Result<u32, Refusal>
    ensures { result ≡ next_handle last }
{
    if last == u32::MAX {
        Err(too_many())
    } else {
        Ok(last + 1)
    }
}

/// The record of this handle and data; `OutOfRange` where the data does not fit.
fn record_made(alloc: Global, handle: u32, contents: RecordData) -> Result<Record, Refusal>
    ensures { IsOrMemory result (record_made contents handle) }
{
    let Some(pdr) = pldm_pdr::Record::new(handle, 0, contents) else {
        return Err(too_many());
    };
    let bytes = Vec::from_slice(alloc, pldm_pdr::write(&pdr).as_slice())?;
    match Record::new(bytes) {
        Some(record) => Ok(record),
        None => Err(FileFault::BadRecord.into()),
    }
}

/// Refuses the table that more records are made for than fit.
fn too_many() -> Refusal
    ensures { result ≡ FileFault.OutOfRange }
{
    let at = Path::whole().key("records");
    Refusal::new(FileFault::OutOfRange, at, Allowed::FittingRecords)
}
