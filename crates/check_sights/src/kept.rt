use crate::telling::equal;
use hg_kept::Kept;
use hg_model::Memory;

#[test]
fn has_room_once_it_is_reserved(rt: HostRuntime) -> Result<(), Memory> {
    let mut kept = Kept::new(rt.alloc(), 4);
    kept.reserve()?;
    kept.reserve()?;
    equal(&rt, 0, kept.closed(), 0);
    equal(&rt, 1, kept.order().is_empty(), true);
    Ok(())
}
