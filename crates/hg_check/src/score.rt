ghost use Rattle.std.specs.Prelude.{◌≡◌, ◌+◌, ◌-◌, ◌^◌, true, false, min};
ghost use Rattle.std.specs.Process.{exit_status};
ghost use Rattle.hg_check.specs.Exit.{exit_number};

use std::io;
use std::process::ExitCode;

/// How many things were tried, and how many of them differ.
#[derive(Clone, Copy)]
pub struct Score {
    pub tried: u64,
    pub differ: u64,
}

impl Score {
    /// Nothing tried.
    pub fn new() -> Score
        ensures tried { result.tried ≡ 0 }
        ensures differ { result.differ ≡ 0 }
    {
        Score {
            tried: 0,
            differ: 0,
        }
    }

    /// With one thing more, which is as it must be or differs. A count stays at the last value of its 64 bits.
    pub fn with(self, same: bool) -> Score
        ensures tried { result.tried ≡ min (self.tried + 1) (2 ^ 64 - 1) }
        ensures same { same ≡ true → result.differ ≡ self.differ }
        ensures other { same ≡ false → result.differ ≡ min (self.differ + 1) (2 ^ 64 - 1) }
    {
        Score {
            tried: self.tried.saturating_add(1),
            differ: self.differ.saturating_add(u64::from(!same)),
        }
    }

    /// Prints the last line of the program: how many of these things there are, and how many of them differ.
    pub fn print<R: Print>(self, rt: &R, things: &str) -> io::Result<()> {
        let Score { tried, differ } = self;
        println!(rt; "{tried} {things}, {differ} differ")
    }
}

fn number_of<E: Drop>(played: Result<Score, E>) -> u8
    ensures { result ≡ exit_number played }
{
    match played {
        Ok(score) if score.differ == 0 => 0,
        Ok(_) => 1,
        Err(_) => 2,
    }
}

/// How the program ends: with 0 where nothing differs, 1 where something does, 2 where it came to no end.
pub fn exit<E: Drop>(played: Result<Score, E>) -> ExitCode
    ensures { exit_status result ≡ exit_number played }
{
    ExitCode::from(number_of(played))
}
