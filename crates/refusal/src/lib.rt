// The refusals, by this paper's numbers: what a call answers that is not done.
#![tactic(auto)]

ghost use Rattle.std.specs.Prelude.{◌≡◌};
ghost use Rattle.refusal.specs.Refusals.{number_of, is_number_of};

// In the order of their numbers.
#[derive(Clone, Copy, Debug, PartialEq, Eq)]
pub enum Refusal {
    Busy,
    HalvesDisagree,
    NoSuchAddress,
    BadDigits,
    BadImage,
    ShortBuffer,
    BadLength,
    BadVersion,
    BadEvents,
    Full,
    BadNight,
    BadQuarters,
    AlreadyWritten,
    NotInRange,
    // Not in the state that the panel writes in: two lines, direction up, no shift, no half waiting.
    NotReady,
    BadText,
    BadVdd,
    BadSpan,
}

// This paper's number.
impl From<Refusal> for u8 {
    ghost from_gives = { is_number_of };

    fn from(refusal: Refusal) -> u8 {
        match refusal {
            Refusal::Busy => 1,
            Refusal::HalvesDisagree => 2,
            Refusal::NoSuchAddress => 3,
            Refusal::BadDigits => 4,
            Refusal::BadImage => 5,
            Refusal::ShortBuffer => 6,
            Refusal::BadLength => 7,
            Refusal::BadVersion => 8,
            Refusal::BadEvents => 9,
            Refusal::Full => 10,
            Refusal::BadNight => 11,
            Refusal::BadQuarters => 12,
            Refusal::AlreadyWritten => 13,
            Refusal::NotInRange => 16,
            Refusal::NotReady => 17,
            Refusal::BadText => 18,
            Refusal::BadVdd => 21,
            Refusal::BadSpan => 22,
        }
    }
}

// The number of a call's answer: 0 where it is done.
pub fn number_of<T>(answer: &Result<T, Refusal>) -> u8
    ensures { result ≡ number_of answer.now }
{
    match answer {
        Ok(_) => 0,
        Err(refusal) => u8::from(*refusal),
    }
}
