ghost use Rattle.std.specs.Prelude.{◌≡◌, ◌<◌, length};
ghost use Rattle.hg_forks.specs.Lines.{fork_in, line_at, makes_fork, new_forkers, new_forking, next_line};

use hg_model::Member;

/// The rows of one member.
#[derive(Clone, Copy, Debug)]
pub enum Line {
    /// There are none.
    Empty,
    /// They stand in one line, of which this is the last.
    Ends(usize),
    /// These two are a fork.
    Forked(usize, usize),
}

/// Whether one row more, on this self-parent, makes the member's first fork: it stands on another row than the last.
fn makes_fork(line: Line, self_parent: Option<usize>) -> bool
    ensures { result ≡ makes_fork line self_parent }
{
    match line {
        Line::Ends(last) => self_parent != Some(last),
        _ => false,
    }
}

/// The line once row `x` stands on this self-parent.
pub fn next_line(line: Line, self_parent: Option<usize>, x: usize) -> Line
    ensures { result ≡ next_line line self_parent x }
{
    match line {
        Line::Empty => Line::Ends(x),
        Line::Ends(last) => {
            if self_parent == Some(last) {
                Line::Ends(x)
            } else {
                Line::Forked(last, x)
            }
        }
        Line::Forked(..) => line,
    }
}

/// The fork that the line keeps.
pub fn fork_in(line: Line) -> Option<(usize, usize)>
    ensures { result ≡ fork_in line }
{
    match line {
        Line::Forked(a, b) => Some((a, b)),
        _ => None,
    }
}

/// The line of the member.
pub fn line_at(lines: &[Line], m: Member) -> Line
    requires { m < length lines.now }
    ensures { result ≡ line_at lines.now m }
{
    lines[usize::from(m)]
}

/// 1 where a row by the member on this self-parent makes the member's first fork, else 0.
pub fn new_forkers(lines: &[Line], m: Member, self_parent: Option<usize>) -> u32
    requires { m < length lines.now }
    ensures { result ≡ new_forkers lines.now m self_parent }
{
    u32::from(makes_fork(line_at(lines, m), self_parent))
}

/// The member's stake where a row by it on this self-parent makes its first fork, else 0.
pub fn new_forking(lines: &[Line], stakes: &[u32], m: Member, self_parent: Option<usize>) -> u64
    requires line { m < length lines.now }
    requires stake { m < length stakes.now }
    ensures { result ≡ new_forking stakes.now lines.now m self_parent }
{
    if makes_fork(line_at(lines, m), self_parent) {
        u64::from(stakes[usize::from(m)])
    } else {
        0
    }
}
