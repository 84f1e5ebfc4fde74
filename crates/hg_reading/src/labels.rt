ghost use Rattle.std.specs.Prelude.{◌≡◌, length, IfOk};
ghost use Rattle.hg_life.specs.Results.{Gives};
ghost use Rattle.hg_script.specs.Argument.{AreFewLabels, AreLabels};
ghost use Rattle.hg_script.specs.Argument as spec;
ghost use Rattle.hg_script.specs.Words.{ReadsAs, bytes_in, read_each};

use crate::parts::parts_of;
use hg_model::{Items, Stop};
use hg_script::argument::{is_dash, label_of};
use hg_script::{Above, Why};
use std::alloc::Global;

/// The greatest number of labels of other-parents.
const MOST_LABELS: usize = 4;

/// The numbers of these labels, each of which was made above.
fn labels_each(alloc: Global, above: &Above<'_>, words: &[&[u8]]) -> Result<Vec<usize>, Stop<Why>>
    ensures value { Gives (λ labels. labels.items) result (read_each (spec.label_of above.now.labels) (bytes_in words.now)) }
    ensures many { IfOk result (λ labels. length labels.items ≡ length words.now) }
{
    let mut labels = Vec::with_capacity(alloc, words.len())?;
    for word in words {
        labels.push_reserved(label_of(above, *word)?);
    }
    Ok(labels)
}

/// The numbers of one to four labels between commas, each of which was made above.
pub fn labels_of(alloc: Global, above: &Above<'_>, word: &[u8]) -> Result<Items<usize>, Stop<Why>>
    ensures value { ReadsAs result (spec.labels_of above.now.labels word.now) }
    ensures few { IfOk result AreFewLabels }
{
    let words = parts_of(alloc, word)?;
    if MOST_LABELS < words.len() {
        return Err(Stop::Fault(Why::Label));
    }
    let labels = labels_each(alloc, above, words.as_slice())?;
    Ok(Items::from_vec(labels))
}

/// The number of a label and those of one to four others, of an event's parents, or none for `- -`.
pub fn parents_of(
    alloc: Global,
    above: &Above<'_>,
    s: &[u8],
    o: &[u8],
) -> Result<Option<(usize, Items<usize>)>, Stop<Why>>
    ensures value { ReadsAs result (spec.parents_of above.now.labels s.now o.now) }
    ensures few { IfOk result AreLabels }
{
    if is_dash(s) && is_dash(o) {
        return Ok(None);
    }
    if is_dash(s) || is_dash(o) {
        return Err(Stop::Fault(Why::Label));
    }
    let self_label = label_of(above, s)?;
    let others = labels_of(alloc, above, o)?;
    Ok(Some((self_label, others)))
}
