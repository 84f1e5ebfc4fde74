ghost use Rattle.std.specs.Prelude.{◌≡◌, ◌<◌, ◌^◌, All, length, vec_capacity};
ghost use Rattle.hg_history.specs.Adding.{add_marks};

/// Gives each found witness its mark, if it has none, and tells how many had none.
fn add_marks(marks: &mut [Option<bool>], found: &[(usize, bool)]) -> u32
    requires within { All (λ f. f.0 < length marks.old) found.now }
    requires few { length marks.old < 2 ^ 32 }
    ensures { record { marks = marks.new; count = result } ≡ add_marks marks.old found.now }
{
    let mut count = 0;
    for (place, fame) in found {
        if marks[*place].is_none() {
            marks[*place] = Some(*fame);
            count += 1;
        }
    }
    count
}

/// The same on a list that owns its memory.
pub fn mark_found(marks: &mut Vec<Option<bool>>, found: &[(usize, bool)]) -> u32
    requires within { All (λ f. f.0 < length marks.old.items) found.now }
    requires few { length marks.old.items < 2 ^ 32 }
    ensures added { record { marks = marks.new.items; count = result } ≡ add_marks marks.old.items found.now }
    ensures room { vec_capacity marks.new ≡ vec_capacity marks.old }
{
    add_marks(marks, found)
}
