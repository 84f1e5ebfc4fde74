ghost use Rattle.std.specs.Prelude.{ℕ, ◌≡◌, ◌<◌, ◌↔◌, ◌⊎◌, ◌++◌, ◌∷◌, [], false, position, Some, IsBitSet, IsTrue, OnErr, OnOk};
ghost use Rattle.std.specs.List.{list_any};
ghost use Rattle.std.specs.Str.{bytes_eq};
ghost use Rattle.hg_script.specs.Lawful.{IsLow, IsNew};
ghost use Rattle.hg_script.specs.Script.{nothing_above, with_line};
ghost use Rattle.hg_script.specs.Words.{bytes_in};
ghost use Rattle.hg_script.specs.Table as spec;

use crate::found::Found;
use crate::line::{Action, Gossip, Line, Part};
use hg_model::{Items, Member};
use indexmap::IndexSet;
use std::alloc::{AllocError, Global};
use std::marker::Model;

/// What stands above the line that is read: lines, and the names of the labels that they made, which stand in the
/// script's bytes. Which members have a `create` line among them is kept beside them, in a bit for each.
#[derive(Drop)]
pub struct Above<'a> {
    lines: Vec<Line>,
    labels: IndexSet<&'a [u8]>,
    created: u128,
}

impl<'a> Model for Above<'a> {
    ghost use Rattle.std.specs.Prelude.{ℕ, ◌↔◌, IsBitSet, IsTrue};
    ghost use Rattle.hg_script.specs.Words.{bytes_in};
    ghost use Rattle.hg_script.specs.Table.{Above as NodeView, is_created};

    ghost Value = { NodeView };

    ghost view = { λ s. record { lines = s.lines.items; labels = bytes_in s.labels.keys } };

    ghost invariant = { λ s. (x : ℕ) → IsBitSet s.created x ↔ IsTrue (is_created s.lines.items x) };
}

/// The place of a label among names.
fn place_of(labels: &IndexSet<&[u8]>, label: &[u8]) -> Option<usize>
    ensures { result ≡ position (bytes_eq label.now) (bytes_in labels.now.keys) }
{
    labels.get_index_of(label)
}

fn is_label(labels: &IndexSet<&[u8]>, label: &[u8]) -> bool
    ensures { result ≡ list_any (bytes_eq label.now) (bytes_in labels.now.keys) }
{
    labels.contains(label)
}

/// One more name.
fn add_label<'a>(labels: &mut IndexSet<&'a [u8]>, label: &'a [u8]) -> Result<(), AllocError>
    requires { list_any (bytes_eq label.now) (bytes_in labels.old.keys) ≡ false }
    ensures ok { OnOk result (bytes_in labels.new.keys ≡ bytes_in labels.old.keys ++ label.now ∷ []) }
    ensures err { OnErr result (labels.new.keys ≡ labels.old.keys) }
{
    labels.insert(label)?;
    Ok(())
}

/// These members, and the one whose node makes its first event, if one does.
fn with_creator(created: u128, action: &Action) -> u128
    requires { IsLow action.now }
    ensures { (x : ℕ) → IsBitSet result x ↔ IsBitSet created x ⊎ IsTrue (spec.creates x action.now) }
{
    match action {
        Action::Part(Part::Gossip(Gossip::Create { member, .. })) => created | 1 << *member,
        _ => created,
    }
}

impl<'a> Above<'a> {
    /// No lines. Takes no memory.
    pub fn new(alloc: Global) -> Above<'a>
        ensures { result ≡ nothing_above }
    {
        Above {
            lines: Vec::new(alloc),
            labels: IndexSet::new(alloc),
            created: 0,
        }
    }

    /// Whether a `create` line of the member is among the lines.
    pub fn is_created(&self, member: Member) -> bool
        requires { member < 128 }
        ensures { result ≡ spec.is_created self.now.lines member }
    {
        self.created & (1 << member) != 0
    }

    /// The number of the label of this name.
    pub fn place_of(&self, label: &[u8]) -> Option<usize>
        ensures { result ≡ position (bytes_eq label.now) self.now.labels }
    {
        place_of(&self.labels, label)
    }

    /// Whether there is a label of this name.
    pub fn is_label(&self, label: &[u8]) -> bool
        ensures { result ≡ list_any (bytes_eq label.now) self.now.labels }
    {
        is_label(&self.labels, label)
    }

    /// What was found on one more line, of this number.
    pub fn push(&mut self, number: u64, found: Found<'a>) -> Result<(), AllocError>
        requires low { IsLow found.action }
        requires new { IsNew self.old.labels found.label }
        ensures ok { OnOk result (self.new ≡ with_line self.old number (Some found.entry)) }
        ensures err { OnErr result (self.new ≡ self.old) }
    {
        let (action, label) = found.into_parts();
        self.lines.reserve(1)?;
        if let Some(name) = label {
            add_label(&mut self.labels, name)?;
        }
        self.created = with_creator(self.created, &action);
        self.lines.push_reserved(Line { number, action });
        Ok(())
    }

    /// The lines, in order.
    pub fn into_lines(self) -> Items<Line>
        ensures { result ≡ self.entry.lines }
    {
        Items::from_vec(self.lines)
    }
}
