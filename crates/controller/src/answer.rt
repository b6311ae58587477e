// The answers to a transfer or a wait: a reply, or a refusal, which carries no value.
ghost use Rattle.std.specs.Prelude.{◌≡◌};
ghost use Rattle.controller.specs.Answers.{said_of, answered_as};

use refusal::Refusal;

// What was read; 20, for a first half, is no refusal.
#[derive(Clone, Copy, PartialEq, Eq)]
pub enum Reply {
    Done(u8),
    FirstHalf(u8),
}

// What the step answers, with one tag: of a Result of a Reply the loop over events would test two, after each event.
#[derive(Clone, Copy, PartialEq, Eq)]
pub enum Answer {
    Done(u8),
    FirstHalf(u8),
    Busy,
    HalvesDisagree,
    NoSuchAddress,
}

impl Answer {
    // As a call answers it.
    pub fn result(self) -> Result<Reply, Refusal>
        ensures { result ≡ answered_as self }
    {
        match self {
            Answer::Done(read) => Ok(Reply::Done(read)),
            Answer::FirstHalf(read) => Ok(Reply::FirstHalf(read)),
            Answer::Busy => Err(Refusal::Busy),
            Answer::HalvesDisagree => Err(Refusal::HalvesDisagree),
            Answer::NoSuchAddress => Err(Refusal::NoSuchAddress),
        }
    }
}

// This paper's number.
pub fn number_of(answer: Result<Reply, Refusal>) -> u8
    ensures { result ≡ (said_of answer).number }
{
    match answer {
        Ok(Reply::Done(_)) => 0,
        Ok(Reply::FirstHalf(_)) => 20,
        Err(refusal) => u8::from(refusal),
    }
}

// The value read; 0 beside a refusal.
pub fn value_of(answer: Result<Reply, Refusal>) -> u8
    ensures { result ≡ (said_of answer).value }
{
    match answer {
        Ok(Reply::Done(read)) => read,
        Ok(Reply::FirstHalf(read)) => read,
        Err(_) => 0,
    }
}
