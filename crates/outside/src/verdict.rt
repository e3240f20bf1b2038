// What a program tells whoever called it.
ghost use Rattle.std.specs.Prelude.{◌≡◌};
ghost use Rattle.outside.specs.Verdict.{verdict_number};

// What went wrong: a log is bad, or something could not be read or written; or the program was called wrongly.
#[derive(Clone, Copy, Debug, PartialEq, Eq)]
pub enum Verdict {
    Failed = 1,
    Wrong = 2,
}

impl From<Verdict> for u8 {
    ghost use Rattle.outside.specs.Verdict.{verdict_code};

    ghost from_gives = { λ verdict number. number ≡ verdict_code verdict };

    fn from(verdict: Verdict) -> u8 {
        verdict as u8
    }
}

// The number of a verdict, which is 0 where all is good.
pub fn verdict_number(outcome: Result<(), Verdict>) -> u8
    ensures { result ≡ verdict_number outcome }
{
    outcome.map_or_else(u8::from, |()| 0)
}
