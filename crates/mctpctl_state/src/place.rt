//! Where the state of a line is kept where nothing is said: a file for each line and pair of endpoints.

ghost use Rattle.std.specs.List.{flat_map};
ghost use Rattle.std.specs.Prelude.{◌≡◌, ◌<◌, ◌++◌, OnOk};
ghost use Rattle.mctpctl_state.specs.Names.{byte_part, hex_digit, name_part};

use mctp_packet::{Eid, Memory};
use std::io::{self, ErrorKind};
use std::{env, fs};

/// The folder that a user's programs keep their states in, where none is named: below the home folder.
const STATES: &str = ".local/state";

/// Where the states of lines are kept: `mctpctl` in `$XDG_STATE_HOME`, else in `~/.local/state` (XDG Base Directory
/// Specification). `None` where neither is a whole path.
pub fn state_folder(rt: &HostRuntime) -> io::Result<Option<String>> {
    if let Ok(states) = env::var(rt, "XDG_STATE_HOME")
        && states.starts_with('/')
    {
        return Ok(Some(format!(in rt.alloc(); "{states}/mctpctl")?));
    }
    match env::var(rt, "HOME") {
        Ok(home) if home.starts_with('/') => {
            Ok(Some(format!(in rt.alloc(); "{home}/{STATES}/mctpctl")?))
        }
        _ => Ok(None),
    }
}

/// The file of a line in a folder, for requests of `own` for `device`. Two names of one line have one file.
///
/// # Errors
///
/// Where there is no such line, or no memory.
pub fn state_name(
    rt: &HostRuntime,
    folder: &str,
    line: &str,
    own: Eid,
    device: Eid,
) -> io::Result<String> {
    let path = fs::canonicalize(rt, line)?;
    let mut part = Vec::new(rt.alloc());
    if push_name(&mut part, path.as_str().as_bytes()).is_err() {
        return Err(ErrorKind::OutOfMemory.into());
    }
    let Ok(part) = str::from_utf8(&part) else {
        return Err(ErrorKind::InvalidData.into());
    };
    let (own, device) = (own.get(), device.get());
    Ok(format!(in rt.alloc(); "{folder}/{own}-{device}{part}")?)
}

/// Adds a path as a part of a file's name: its letters, digits and points, `-` for a slash, and each other byte as `%`
/// and its two hex digits.
fn push_name(out: &mut Vec<u8>, path: &[u8]) -> Result<(), Memory>
    ensures { OnOk result (out.new.items ≡ out.old.items ++ name_part path.now) }
{
    for place in 0..path.len() {
        push_byte(out, path[place])?;
    }
    Ok(())
}

/// Adds one byte of a path.
fn push_byte(out: &mut Vec<u8>, byte: u8) -> Result<(), Memory>
    ensures { OnOk result (out.new.items ≡ out.old.items ++ byte_part byte) }
{
    match byte {
        b'/' => out.push(b'-')?,
        b'0'..=b'9' | b'A'..=b'Z' | b'a'..=b'z' | b'.' => out.push(byte)?,
        _ => out.extend_from_slice(&[b'%', hex_digit(byte / 16), hex_digit(byte % 16)])?,
    }
    Ok(())
}

/// A number below 16 as a digit in hex.
fn hex_digit(number: u8) -> u8
    requires { number < 16 }
    ensures { result ≡ hex_digit number }
{
    if number < 10 {
        b'0' + number
    } else {
        b'a' + (number - 10)
    }
}
