ghost use Rattle.std.specs.Prelude.{◌≡◌};
ghost use Rattle.std.specs.Option.{option_copied};
ghost use Rattle.hg_script.specs.Script.{is_alone};
ghost use Rattle.hg_script.specs.Table as spec;

use crate::line::{Action, Part, Source};
use std::marker::Model;

/// What a line does, and the name of the label that it makes, if it makes one. The name stands in the script's bytes.
#[derive(Drop)]
pub struct Found<'a> {
    action: Action,
    label: Option<&'a [u8]>,
}

impl<'a> Model for Found<'a> {
    ghost use Rattle.std.specs.Option.{option_copied};
    ghost use Rattle.hg_script.specs.Table.{Found as Line};

    ghost Value = { Line };

    ghost view = { λ s. record { action = s.action; label = option_copied s.label } };
}

impl<'a> Found<'a> {
    /// A line that makes no label.
    pub fn does(action: Action) -> Found<'a>
        ensures { result ≡ spec.does action }
    {
        Found {
            action,
            label: None,
        }
    }

    /// A line that makes the label of this name, which stands for these bytes.
    pub fn makes(source: Source, label: &'a [u8]) -> Found<'a>
        ensures { result ≡ spec.makes source label.now }
    {
        Found {
            action: Action::Part(Part::Label(source)),
            label: Some(label),
        }
    }

    /// Whether the line is for a run without workers.
    pub fn is_alone(&self) -> bool
        ensures { result ≡ is_alone self.now.action }
    {
        matches!(
            self.action,
            Action::Freeze { .. } | Action::Publish { .. } | Action::Kept { .. }
        )
    }

    /// What the line does, and the label's name.
    pub fn into_parts(self) -> (Action, Option<&'a [u8]>)
        ensures action { result.0 ≡ self.entry.action }
        ensures label { option_copied result.1 ≡ self.entry.label }
    {
        (self.action, self.label)
    }
}
