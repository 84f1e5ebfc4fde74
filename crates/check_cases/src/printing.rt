use hg_check::{Outcome, Part};
use std::io;

/// Prints the first line at which two texts part, numbered from 1.
fn print_line<R: AllocGlobal + Print>(
    rt: &R,
    name: &str,
    part: &str,
    wanted: &[u8],
    got: &[u8],
) -> io::Result<()> {
    let parting = wanted
        .split(|byte| *byte == b'\n')
        .zip(got.split(|byte| *byte == b'\n'))
        .enumerate()
        .find(|(_, (wanted, got))| wanted != got);
    match parting {
        Some((above, (wanted, got))) => {
            let number = above.saturating_add(1);
            let wanted = String::from_utf8_lossy(rt.alloc(), wanted)?;
            let got = String::from_utf8_lossy(rt.alloc(), got)?;
            println!(rt; "{name}: {part} line {number}: wanted '{wanted}', got '{got}'")
        }
        None => println!(rt; "{name}: {part}: one goes on where the other ends"),
    }
}

/// Prints how a case differs in this part.
pub fn print_difference<R: AllocGlobal + Print>(
    rt: &R,
    name: &str,
    part: Part,
    wanted: &Outcome<'_>,
    got: &Outcome<'_>,
) -> io::Result<()> {
    match part {
        Part::Status => {
            let (wanted, got) = (wanted.status, got.status);
            println!(rt; "{name}: status: wanted {wanted}, got {got}")
        }
        Part::Stdout => print_line(rt, name, "stdout", wanted.stdout, got.stdout),
        Part::Stderr => print_line(rt, name, "stderr", wanted.stderr, got.stderr),
    }
}
