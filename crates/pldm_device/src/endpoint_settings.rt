//! What a description says of how its endpoint treats requests.

ghost use Rattle.std.specs.Prelude.{◌≡◌};
ghost use Rattle.pldm_device.specs.EndpointSettings.{busy_in, busy_of_name, window_in};
ghost use Rattle.toml.specs.View.{table_view};

use crate::allowed::Allowed;
use crate::description_fault::FileFault;
use crate::keys::{number_in, text_in, value_if_any};
use crate::path::Path;
use crate::refusal::Refusal;
use pldm_wire::{INSTANCE_IDS, PassThrough, RestartPolicy, Window};
use toml::Table;

/// For how many instance IDs of a source answers are kept, from the key `window`; for all of them where it is missing.
pub(crate) fn window_in(table: &Table) -> Result<Window, Refusal>
    ensures { result ≡ window_in (table_view table.now) }
{
    let ids = match value_if_any(table, "window") {
        Some(value) => number_in(value, 1, INSTANCE_IDS.into(), Path::whole().key("window"))?,
        None => INSTANCE_IDS.into(),
    };
    Ok(Window::new(ids as u8).unwrap())
}

/// Which requests are refused in the busy time, from the key `busy`; all of them where it is missing.
pub(crate) fn busy_in(table: &Table) -> Result<RestartPolicy, Refusal>
    ensures { result ≡ busy_in (table_view table.now) }
{
    match value_if_any(table, "busy") {
        Some(value) => {
            let at = Path::whole().key("busy");
            busy_of_name(text_in(value, at, Allowed::RestartPolicy)?, at)
        }
        None => Ok(RestartPolicy::All),
    }
}

/// The busy time of this name; `OutOfRange` where there is none.
fn busy_of_name(name: &str, at: Path<'static>) -> Result<RestartPolicy, Refusal>
    ensures { result ≡ busy_of_name name.now }
{
    if name == "all" {
        Ok(RestartPolicy::All)
    } else if name == "sets" {
        Ok(RestartPolicy::Sets(PassThrough::NONE))
    } else {
        Err(Refusal::new(FileFault::OutOfRange, at, Allowed::RestartPolicy))
    }
}
