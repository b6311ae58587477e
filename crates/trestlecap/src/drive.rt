// The drive voltages.
ghost use Rattle.std.specs.Prelude.{length, ◌≡◌};
ghost use Rattle.refusal.specs.Refusals.{number_of};
ghost use Rattle.voltages.specs.declared.Bias.{Bias};
ghost use Rattle.trestlecap.specs.Called.{Driving};
ghost use Rattle.trestlecap.specs.Promises.{voltage_count};

use refusal::{Refusal, number_of};
use voltages::{Bias, Drive, Steps, voltages};

// Of either bias: as many volts are lent as it has.
#[tactic(auto, using(crate::proofs::Driven::driven, crate::proofs::Driven::not_driven))]
fn driven(vdd: u16, span: u16, bias: Bias, volts: &mut [f32]) -> Result<(), Refusal>
    requires { length volts.old ≡ voltage_count bias }
    ensures { Driving vdd span bias volts.old (number_of result) volts.new }
{
    match voltages(Drive { vdd, span, bias })? {
        Steps::Quarter(steps) => volts.copy_from_slice(&steps),
        Steps::Fifth(steps) => volts.copy_from_slice(&steps),
    }
    Ok(())
}

// From C each bias has a call of its own, by the number of its volts.
pub fn trestlecap_quarter_bias(vdd: u16, span: u16, volts: &mut [f32; 3]) -> u8
    ensures { Driving vdd span Bias.Quarter volts.old result volts.new }
{
    number_of(&driven(vdd, span, Bias::Quarter, volts))
}

pub fn trestlecap_fifth_bias(vdd: u16, span: u16, volts: &mut [f32; 4]) -> u8
    ensures { Driving vdd span Bias.Fifth volts.old result volts.new }
{
    number_of(&driven(vdd, span, Bias::Fifth, volts))
}
