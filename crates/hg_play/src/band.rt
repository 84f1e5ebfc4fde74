ghost use Rattle.std.specs.Prelude.{◌<◌, ◌≤◌};
ghost use Rattle.hg_life.specs.Workers.{most_workers};

/// Who works beside the lines: so many workers of a crew, on threads of a runtime, and a gate that is told how far a line
/// has come.
#[derive(Drop)]
pub(crate) struct Band<'a, R, C, G> {
    pub(crate) rt: &'a R,
    pub(crate) workers: u32,
    pub(crate) crew: &'a C,
    pub(crate) gate: &'a G,
    ghost some: { 0 < workers },
    ghost few: { workers ≤ most_workers },
}
