ghost use Rattle.std.specs.Prelude.{◌≡◌, ◌≤◌, length, IfOk, OnErr, OnOk};
ghost use Rattle.hg_node.specs.ChronicleView.{IsFoundBy, graph_in};
ghost use Rattle.hg_node.specs.Opening.{AreUnmarked, Opens};
ghost use Rattle.hg_life.specs.NodeView.{node_rows, node_marks, with_changes};
ghost use Rattle.hg_life.specs.Calls.{publish_answer, publish_changes, settle_changes, IsSettled};

use crate::node::Node;
use crate::open::Open;
use hg_model::{Found, Memory, Share};
use hg_sign::Signer;

impl<V: Signer> Node<V> {
    /// Publishes what a share has found in the node's first rows: each found witness without a mark gets it, and what
    /// is ordered then is paid. What was found may leave out what has its mark. Answers how many were marked. Takes no
    /// memory.
    pub fn publish(&mut self, found: &Found) -> u32
        requires { IsFoundBy self.old found.now }
        ensures answer { result ≡ publish_answer self.old found.now.len found.now.share }
        ensures grown { self.new ≡ with_changes self.old (publish_changes self.old found.now.len found.now.share) }
    {
        self.chronicle.publish(found)
    }

    /// Publishes what a share decides in the node's first `len` rows, at most all, and answers how many were marked.
    pub fn remark(&mut self, len: usize, share: Share) -> Result<u32, Memory>
        requires { len ≤ length (node_rows self.old) }
        ensures answer { IfOk result (λ count. count ≡ publish_answer self.old len share) }
        ensures ok { OnOk result (self.new ≡ with_changes self.old (publish_changes self.old len share)) }
        ensures err { OnErr result (self.new ≡ self.old) }
    {
        let found = self.found(len, share)?;
        Ok(self.publish(&found))
    }

    /// Publishes all fame that the node's graph decides.
    pub fn settle(&mut self) -> Result<(), Memory>
        ensures ok { OnOk result (self.new ≡ with_changes self.old (settle_changes self.old)) }
        ensures settled { OnOk result (IsSettled self.old self.new) }
        ensures err { OnErr result (self.new ≡ self.old) }
    {
        self.chronicle.settle(self.alloc)?;
        Ok(())
    }

    /// What a share may still decide in the node's graph, to be elected without the node and published; `None` where the
    /// share has all its marks. The votes of rows that came since the last such call are looked for.
    pub fn open(&mut self, share: Share) -> Result<Option<Open>, Memory>
        ensures same { self.new ≡ self.old }
        ensures opens { IfOk result (Opens (graph_in self.old) (node_marks self.old) share) }
    {
        self.chronicle.open(self.alloc, share)
    }

    /// What a share decides in the node's first `len` rows, at most all, but for what has its mark.
    pub fn found(&mut self, len: usize, share: Share) -> Result<Found, Memory>
        requires { len ≤ length (node_rows self.old) }
        ensures same { self.new ≡ self.old }
        ensures found { IfOk result (IsFoundBy self.old) }
        ensures unmarked { IfOk result (AreUnmarked (node_marks self.old)) }
        ensures len { IfOk result (λ found. found.len ≡ len) }
        ensures share { IfOk result (λ found. found.share ≡ share) }
    {
        self.chronicle.found(self.alloc, len, share)
    }
}
