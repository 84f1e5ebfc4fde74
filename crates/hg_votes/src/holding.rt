use crate::voters::Voters;
use std::sync::Arc;

/// Voters with their owner alone, or such as several tables may share.
#[derive(Drop)]
pub enum Holding {
    Own(Voters),
    Shared(Arc<Voters>),
}
