ghost use Rattle.std.specs.Prelude.{◌≡◌, ◌↔◌, None};
ghost use Rattle.hg_check.specs.Outcomes.{AreSame};

/// What a run of the program wrote and ended with.
#[derive(Clone, Copy)]
pub struct Outcome<'a> {
    pub status: u8,
    pub stdout: &'a [u8],
    pub stderr: &'a [u8],
}

/// A part of an outcome.
#[derive(Clone, Copy, Debug, PartialEq, Eq)]
pub enum Part {
    Status,
    Stdout,
    Stderr,
}

/// The first part that differs, if one does.
pub fn difference(wanted: &Outcome<'_>, got: &Outcome<'_>) -> Option<Part>
    ensures { (result ≡ None) ↔ AreSame wanted.now got.now }
{
    if wanted.status != got.status {
        Some(Part::Status)
    } else if wanted.stdout != got.stdout {
        Some(Part::Stdout)
    } else if wanted.stderr != got.stderr {
        Some(Part::Stderr)
    } else {
        None
    }
}
