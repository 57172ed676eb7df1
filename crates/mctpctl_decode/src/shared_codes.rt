//! The names of the completion codes that PLDM and MCTP control messages share.

ghost use Rattle.std.specs.Prelude.{◌≡◌, option_map};
ghost use Rattle.mctpctl_decode.specs.SharedCodes.{shared_code_name};

/// The name of a generic code that DSP0240 and DSP0236 both have (DSP0240, "Generic PLDM completion codes"; DSP0236,
/// "MCTP control message completion codes").
pub(crate) fn shared_code_name(code: u8) -> Option<&'static str>
    ensures { option_map (λ name. name.now) result ≡ shared_code_name code }
{
    match code {
        0 => Some("SUCCESS"),
        1 => Some("ERROR"),
        2 => Some("ERROR_INVALID_DATA"),
        3 => Some("ERROR_INVALID_LENGTH"),
        4 => Some("ERROR_NOT_READY"),
        _ => None,
    }
}
