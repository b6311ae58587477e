// A controller put back where it was taken from.
ghost use Rattle.std.specs.Prelude.{length, ◌≡◌};
ghost use Rattle.refusal.specs.Refusals.{number_of};
ghost use Rattle.state.specs.State.{state_bytes, put_of};

use controller::Controller;
use refusal::Refusal;
use state::put;

// Never refused, since bytes that hold a controller have room for one.
pub(crate) fn keep(controller: Controller, state: &mut [u8]) -> Result<(), Refusal>
    requires { length state.old ≡ state_bytes }
    ensures { (number_of result ≡ 0) × (state.new ≡ put_of controller) }
{
    put(controller, state)
}
