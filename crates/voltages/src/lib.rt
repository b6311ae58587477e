// The bias sheet: the drive voltages of quarter and of fifth bias, in volts, from VDD and the drive span in 64ths.
#![tactic(auto)]

ghost use Rattle.std.specs.Prelude.{◌≡◌};
ghost use Rattle.voltages.specs.Answers.{is_within, answer_of};
ghost use Rattle.voltages.specs.Voltages.{is_bias_of, volts_of, divisor_of, step_for, steps_of};

use refusal::Refusal;

#[derive(Clone, Copy, PartialEq, Eq)]
pub enum Bias {
    Quarter,
    Fifth,
}

// Fifth or not.
impl From<bool> for Bias {
    ghost from_gives = { is_bias_of };

    fn from(fifth: bool) -> Bias {
        if fifth { Bias::Fifth } else { Bias::Quarter }
    }
}

// VDD and the drive span in 64ths of a volt, and which bias.
#[derive(Clone, Copy)]
pub struct Drive {
    pub vdd: u16,
    pub span: u16,
    pub bias: Bias,
}

#[derive(Clone, Copy)]
pub enum Steps {
    // V1, V2 = V3, V4.
    Quarter([f32; 3]),
    // V1, V2, V3, V4.
    Fifth([f32; 4]),
}

fn within(n: u16, least: u16, most: u16) -> bool
    ensures { result ≡ is_within least most n }
{
    (least..=most).contains(&n)
}

fn volts(n: u16) -> f32
    ensures { result ≡ volts_of n }
{
    n as f32 / 64.0
}

impl Drive {
    pub fn divisor(self) -> u16
        ensures { result ≡ divisor_of self.bias }
    {
        match self.bias {
            Bias::Quarter => 4,
            Bias::Fifth => 5,
        }
    }

    // The span is divided by 4 or by 5 only after the product: k times a fifth of it is another number.
    fn step(self, k: u16) -> f32
        ensures { result ≡ step_for self k }
    {
        volts(self.vdd) - k as f32 * volts(self.span) / self.divisor() as f32
    }

    fn steps(self) -> Steps
        ensures { result ≡ steps_of (step_for self) self.bias }
    {
        match self.bias {
            Bias::Quarter => Steps::Quarter([self.step(1), self.step(2), self.step(3)]),
            Bias::Fifth => Steps::Fifth([self.step(1), self.step(2), self.step(3), self.step(4)]),
        }
    }
}

// VDD is tested first. V4 below 0 is right, and no refusal.
pub fn voltages(drive: Drive) -> Result<Steps, Refusal>
    ensures { result ≡ answer_of drive }
{
    if !within(drive.vdd, 288, 352) {
        return Err(Refusal::BadVdd);
    }
    if !within(drive.span, 192, 512) {
        return Err(Refusal::BadSpan);
    }
    Ok(drive.steps())
}
