// One step of a number that runs from 00 to a last one and wraps.
ghost use Rattle.std.specs.Prelude.{◌≡◌};
ghost use Rattle.counters.specs.Wrap.{wrapped as wrapped_of};

#[tactic(auto, unfolding(crate::specs::Wrap::next, crate::specs::Wrap::previous))]
pub(crate) fn wrapped(up: bool, last: u8, n: u8) -> u8
    ensures { result ≡ wrapped_of up last n }
{
    if up {
        if last <= n { 0x00 } else { n + 1 }
    } else {
        if n == 0x00 { last } else { n - 1 }
    }
}
