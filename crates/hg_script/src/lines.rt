ghost use Rattle.std.specs.Prelude.{◌≡◌, ◌<◌, ◌∷◌, IfOk, List, length};
ghost use Rattle.hg_script.specs.declared.line.Line.{Line};

use crate::line::Line;
use hg_model::Memory;
use std::alloc::Global;

/// What gives the lines of a script, one after the other.
pub trait LineSource {
    /// The lines that are still to come.
    ghost rest: { Self → List Line };

    /// How many they are.
    fn left(&self) -> usize
        ensures { result ≡ length (rest self.now) };

    /// The next one.
    fn next_line(&mut self) -> Result<Line, Memory>
        requires { 0 < length (rest self.old) }
        ensures { IfOk result (λ line. rest self.old ≡ line ∷ rest self.new) };
}

/// All lines that are still to come.
pub fn all_lines<L: LineSource>(alloc: Global, lines: &mut L) -> Result<Vec<Line>, Memory>
    ensures { IfOk result (λ all. all.items ≡ L.rest lines.old) }
{
    let mut all = Vec::new(alloc);
    let count = lines.left();
    for _ in 0..count {
        let line = lines.next_line()?;
        all.push(line)?;
    }
    Ok(all)
}
