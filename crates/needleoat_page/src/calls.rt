//! The calls that a page makes.

ghost use Rattle.std.specs.Prelude.{◌≡◌};
ghost use Rattle.mctpctl_decode.specs.TransferTexts.{decoded_text};
ghost use Rattle.mctpctl_engines.specs.AnswerText.{answer_text};
ghost use Rattle.mctpctl_engines.specs.MessageForms.{in_hex};
ghost use Rattle.mctpctl_engines.specs.RunText.{run_text};
ghost use Rattle.mctpctl_engines.specs.ShowText.{show_text};
ghost use Rattle.needleoat_page.specs.Endings.{Reports, binding_of};

use crate::ending::Ending;
use crate::engine::{Answering, Decoding, Running, Showing, call};
use mctpctl_input::Binding;
use std::alloc::Global;

/// What the device answers, as `mctpctl answer` has it.
#[unsafe(no_mangle)]
pub extern "C" fn needleoat_page_answer(alloc: Global, input: &[u8], room: &mut [u8]) -> Ending
    ensures { Reports (answer_text input.now) room.old room.new result }
{
    call(&Answering, alloc, input, room)
}

/// What comes of a schedule, as `mctpctl run` has it.
#[unsafe(no_mangle)]
pub extern "C" fn needleoat_page_run(alloc: Global, input: &[u8], room: &mut [u8]) -> Ending
    ensures { Reports (run_text input.now) room.old room.new result }
{
    call(&Running, alloc, input, room)
}

/// The frames that a number names: 1 of SMBus and I2C, 2 of I3C, 3 of a serial line; of any other, none.
fn binding_of(number: u8) -> Option<Binding>
    ensures { result ≡ binding_of number }
{
    match number {
        1 => Some(Binding::I2c),
        2 => Some(Binding::I3c),
        3 => Some(Binding::Serial),
        _ => None,
    }
}

/// What the packets of a capture say, as `mctpctl show` has it. `binding` is 0 where bare packets stand on the lines,
/// or which frames do.
#[unsafe(no_mangle)]
pub extern "C" fn needleoat_page_show(
    alloc: Global,
    binding: u8,
    input: &[u8],
    room: &mut [u8],
) -> Ending
    ensures { Reports (show_text (binding_of binding) in_hex input.now) room.old room.new result }
{
    let engine = Showing {
        binding: binding_of(binding),
    };
    call(&engine, alloc, input, room)
}

/// As [`needleoat_page_show`], with the fields of each command and answer by name, as `mctpctl show --decode` has it.
#[unsafe(no_mangle)]
pub extern "C" fn needleoat_page_decode(
    alloc: Global,
    binding: u8,
    input: &[u8],
    room: &mut [u8],
) -> Ending
    ensures { Reports (show_text (binding_of binding) decoded_text input.now) room.old room.new result }
{
    let engine = Decoding {
        binding: binding_of(binding),
    };
    call(&engine, alloc, input, room)
}
