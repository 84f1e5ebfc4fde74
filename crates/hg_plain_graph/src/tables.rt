ghost use Rattle.std.specs.Prelude.{◌≡◌, ◌<◌, length};
ghost use Rattle.hg_plain_graph.specs.Tables.{cell_at, column_at};

/// What stands for `x` in the column of `y`.
#[tactic(auto, using(crate::proofs::TableLaws::column_read), unfolding(crate::specs::Tables::cell_at))]
pub fn cell(columns: &[Vec<bool>], x: usize, y: usize) -> bool
    requires column { y < length columns.now }
    requires place { x < length (column_at columns.now y) }
    ensures { result ≡ cell_at columns.now x y }
{
    columns[y][x]
}
