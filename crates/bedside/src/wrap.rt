// Whether the counter passed an end, as the answers to a call's events say it.
ghost use Rattle.std.specs.Prelude.{◌≡◌};
ghost use Rattle.bedside.specs.Promises.{any_third};

// Each answer is three bytes, its wrap the third.
pub(crate) fn any_wrap(answers: &[u8]) -> bool
    ensures { result ≡ any_third answers.now }
{
    answers.chunks_exact(3).any(|answer| answer[2] != 0)
}
