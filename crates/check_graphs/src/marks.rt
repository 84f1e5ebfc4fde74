ghost use Rattle.std.specs.Prelude.{◌≡◌, ◌<◌, ℕ, Some, IsTrue, is_some, length};
ghost use Rattle.hg_model.specs.Fame.{mark_at};
ghost use Rattle.hg_model.specs.Places.{count_below};
ghost use Rattle.hg_life.specs.NodeView.{node_rows, node_marks};
ghost use Rattle.check_graphs.specs.Moments.{IsMarkedSo};

use hg_node::Node;
use hg_sign::MacTable;

/// How many rows of the node are marked.
#[tactic(auto, using(hg_model::proofs::PlacesLaws::count_steps))]
pub fn count_marked(node: &Node<&MacTable>) -> usize
    ensures { result ≡ count_below (length (node_rows node.now)) (λ x. is_some (mark_at (node_marks node.now) x)) }
{
    let mut count = 0;
    for place in 0..node.rows() {
        if node.fame(place).is_some() {
            count += 1;
        }
    }
    count
}

/// Whether the place has this mark in the node.
fn is_marked(node: &Node<&MacTable>, place: usize, fame: bool) -> bool
    ensures { IsTrue result → mark_at (node_marks node.now) place ≡ Some fame }
{
    place < node.rows() && node.fame(place) == Some(fame)
}

/// Whether the place that is found at `x` has its mark in the node.
fn is_found_marked(node: &Node<&MacTable>, marks: &[(usize, bool)], x: usize) -> bool
    ensures { IsTrue result → IsMarkedSo node.now marks.now x }
{
    match marks.get(x) {
        None => false,
        Some(found) => is_marked(node, found.0, found.1),
    }
}

/// Whether these places have these marks in the node.
pub fn are_marked(node: &Node<&MacTable>, marks: &[(usize, bool)]) -> bool
    ensures { IsTrue result → (x : ℕ) → x < length marks.now → IsMarkedSo node.now marks.now x }
{
    for x in 0..marks.len() {
        if !is_found_marked(node, marks, x) {
            return false;
        }
    }
    true
}
