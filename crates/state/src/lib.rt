// A controller as 159 bytes, one for each field: put and taken.
#![tactic(auto)]

ghost use Rattle.std.specs.Prelude.{◌≤◌, length, take, drop, ◌++◌, ◌≡◌};
ghost use Rattle.controller.specs.Part.{with};
ghost use Rattle.lent.specs.Buffer.{over};
ghost use Rattle.state.specs.State.{state_bytes};
ghost use Rattle.state.specs.Taken.{Putting, Taking};

mod putting;
mod reading;

use controller::Controller;
use controller::registers::Registers;
use putting::registers_put;
use reading::registers_of;
use refusal::Refusal;

pub const BYTES: usize = 159;

// The bytes of the two memories.
const MEMORIES: usize = 144;

// The three parts one behind the other; the bytes behind them stay. By value: of parts that are lent the whole controller is copied first.
#[tactic(auto, using(crate::proofs::Promise::three_put))]
fn put_parts(display: [u8; 80], character: [u8; 64], registers: [u8; 15], out: &mut [u8])
    requires { state_bytes ≤ length out.old }
    ensures { out.new ≡ over (display ++ (character ++ registers)) out.old }
{
    out[0..80].copy_from_slice(&display);
    out[80..MEMORIES].copy_from_slice(&character);
    out[MEMORIES..BYTES].copy_from_slice(&registers);
}

// The controller, in range or not, in the first 159 bytes; those behind them stay, and a refusal writes none.
pub fn put(controller: Controller, out: &mut [u8]) -> Result<(), Refusal>
    ensures { Putting controller out.old result out.new }
{
    if out.len() < BYTES {
        return Err(Refusal::ShortBuffer);
    }
    let registers = registers_put(controller.registers);
    put_parts(controller.display, controller.character, registers, out);
    Ok(())
}

// The two memories beside registers that were read already.
fn with_memories(bytes: &[u8; BYTES], registers: Registers) -> Controller
    ensures { result ≡ with (take 80 bytes.now) (take 64 (drop 80 bytes.now)) registers }
{
    let mut display = [0u8; 80];
    display.copy_from_slice(&bytes[..80]);
    let mut character = [0u8; 64];
    character.copy_from_slice(&bytes[80..MEMORIES]);
    Controller {
        display,
        character,
        registers,
    }
}

// Only what is put is taken: the registers that were read must be put as the very bytes, and be in range.
pub fn take(bytes: &[u8]) -> Result<Controller, Refusal>
    ensures { Taking bytes.now result }
{
    let Some(bytes) = bytes.as_array::<BYTES>() else {
        return Err(Refusal::NotInRange);
    };
    let registers = registers_of(bytes);
    let put_again = bytes[MEMORIES..] == registers_put(registers)[..];
    if !(put_again & registers.in_range()) {
        return Err(Refusal::NotInRange);
    }
    Ok(with_memories(bytes, registers))
}
