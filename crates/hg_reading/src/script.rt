ghost use Rattle.std.specs.Prelude.{◌≡◌, All, IfOk, IfSome, OnOk};
ghost use Rattle.std.specs.Str.{is_utf8};
ghost use Rattle.std.specs.Str.Lines.{lines};
ghost use Rattle.hg_script.specs.Words.{ReadsAs, bytes_in};
ghost use Rattle.hg_script.specs.Lawful.{HasLawful, IsAllowed, IsLine};
ghost use Rattle.hg_life.specs.Results.{Gives};
ghost use Rattle.hg_script.specs.Script as spec;

use crate::table::found_by;
use crate::words::{first_line, words_of};
use hg_life::Members;
use hg_model::{Items, Memory, Stop};
use hg_script::{Above, Found, Line, ScriptFault, Why};
use std::alloc::Global;

fn is_text(line: &[u8]) -> bool
    ensures { result ≡ is_utf8 line.now }
{
    match str::from_utf8(line) {
        Ok(_) => true,
        Err(_) => false,
    }
}

fn line_in<'a>(
    alloc: Global,
    members: &Members,
    workers: u32,
    above: &Above<'_>,
    words: &[&'a [u8]],
) -> Result<Option<Found<'a>>, Stop<Why>>
    ensures value { ReadsAs result (spec.line_in members.now workers above.now (bytes_in words.now)) }
    ensures lawful { IfOk result (λ found. IfSome found (IsAllowed members.now workers above.now)) }
{
    match words {
        [] | [[b'#', ..], ..] => Ok(None),
        [word, arguments @ ..] => {
            let found = found_by(alloc, members, above, word, arguments)?;
            if workers > 0 && found.is_alone() {
                return Err(Stop::Fault(Why::Workers));
            }
            Ok(Some(found))
        }
    }
}

#[tactic(auto, using(crate::proofs::Enough::words_enough))]
fn line_of<'a>(
    alloc: Global,
    members: &Members,
    workers: u32,
    above: &Above<'_>,
    line: &'a [u8],
) -> Result<Option<Found<'a>>, Stop<Why>>
    ensures value { ReadsAs result (spec.line_of members.now workers above.now line.now) }
    ensures lawful { IfOk result (λ found. IfSome found (IsAllowed members.now workers above.now)) }
{
    if !is_text(line) {
        return Err(Stop::Fault(Why::Utf8));
    }
    let words = words_of(alloc, line)?;
    line_in(alloc, members, workers, above, words.as_slice())
}

/// One line more, of this number, if it does anything.
fn push_line<'a>(
    alloc: Global,
    members: &Members,
    workers: u32,
    above: &mut Above<'a>,
    number: u64,
    line: &'a [u8],
) -> Result<(), Stop<ScriptFault>>
    ensures read { Gives (λ _. above.new) result (spec.line_more members.now workers above.old number line.now) }
    ensures lawful { HasLawful members.now workers above.old → OnOk result (HasLawful members.now workers above.new) }
{
    match line_of(alloc, members, workers, above, line) {
        Ok(Some(found)) => above.push(number, found)?,
        Ok(None) => {}
        Err(Stop::Fault(why)) => return Err(Stop::Fault(ScriptFault { line: number, why })),
        Err(Stop::Memory) => return Err(Stop::Memory),
    }
    Ok(())
}

fn all_lines<'a>(
    alloc: Global,
    bytes: &'a [u8],
    members: &Members,
    workers: u32,
) -> Result<Above<'a>, Stop<ScriptFault>>
    ensures read { ReadsAs result (spec.lines_after members.now workers spec.nothing_above 1 (lines bytes.now)) }
    ensures lawful { IfOk result (λ above. All (IsLine members.now workers) above.lines) }
{
    let mut above = Above::new(alloc);
    let mut rest = bytes;
    let mut number = 1;
    'lines: while !rest.is_empty() {
        let (line, after) = first_line(rest);
        push_line(alloc, members, workers, &mut above, number, line)?;
        rest = after;
        number += 1;
    }
    Ok(above)
}

/// The lines that the bytes of a script are in a run with so many workers, or the first line that is refused.
#[tactic(auto, unfolding(hg_script::specs::Script::lines_of))]
pub fn read_script(
    alloc: Global,
    bytes: &[u8],
    members: &Members,
    workers: u32,
) -> Result<Result<Items<Line>, ScriptFault>, Memory>
    ensures lines { IfOk result (λ answer. answer ≡ spec.lines_of bytes.now members.now workers) }
    ensures lawful { IfOk result (λ answer. IfOk answer (λ lines. All (IsLine members.now workers) lines)) }
{
    match all_lines(alloc, bytes, members, workers) {
        Ok(above) => Ok(Ok(above.into_lines())),
        Err(Stop::Fault(fault)) => Ok(Err(fault)),
        Err(Stop::Memory) => Err(Memory),
    }
}
