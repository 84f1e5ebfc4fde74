ghost use Rattle.std.specs.Prelude.{◌≡◌, IfOk};
ghost use Rattle.hg_certify.specs.Showing.{IsSafeBeside, ShowsTo, judged_by};

use hg_life::Members;
use hg_model::Memory;
use hg_proof::{Checked, Shown, Why, certificates_are_safe, check, empty_graph};
use hg_sign::MacTable;
use std::alloc::Global;

/// What these bytes show to the members, or the first reason why they show nothing. Who has the members' secrets can forge
/// what is shown.
pub fn read_certificate(
    alloc: Global,
    members: &Members,
    bytes: &[u8],
) -> Result<Result<Shown, Why>, Memory>
    ensures value { IfOk result (λ read. read ≡ judged_by members.now bytes.now) }
    ensures shows { IfOk result (λ read. IfOk read (ShowsTo members.now bytes.now)) }
    ensures safe { IfOk result (λ read. IfOk read (IsSafeBeside members.now)) }
{
    certificates_are_safe();
    let keys = MacTable::new(alloc, members)?;
    let mut graph = empty_graph(alloc, members)?;
    match check(alloc, &keys, &mut graph, bytes)? {
        Checked::Yes(shown) => Ok(Ok(shown)),
        Checked::No(why) => Ok(Err(why)),
    }
}
