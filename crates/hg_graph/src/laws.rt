ghost use Rattle.hg_graph.specs.Added.{RowsAddLinks};

/// A law: a row that fits adds its link, which fits, to the links of the rows before it.
pub fn rows_add_links()
    ensures { RowsAddLinks }
{}
