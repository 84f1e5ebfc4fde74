ghost use Rattle.std.specs.Prelude.{◌≡◌, ◌≤◌, true, IfOk, Some, length};
ghost use Rattle.hg_model.specs.Links.{has_few_others, most_others};

use hg_model::{Items, Memory, Name};
use std::alloc::Global;

/// The names of a self-parent and of one to four other-parents, as a row has them.
pub fn parents_on(
    alloc: Global,
    own: Name,
    others: &[Name],
) -> Result<Option<(Name, Items<Name>)>, Memory>
    requires some { 1 ≤ length others.now }
    requires few { length others.now ≤ most_others }
    ensures names { IfOk result (λ names. names ≡ Some (own, others.now)) }
    ensures few { IfOk result (λ names. has_few_others names ≡ true) }
{
    let others = Vec::from_slice(alloc, others)?;
    Ok(Some((own, Items::from_vec(others))))
}
