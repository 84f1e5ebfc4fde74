ghost use Rattle.std.specs.Prelude.{◌≡◌};
ghost use Rattle.hg_script.specs.Table.{verb_of};

/// The first words of lines.
#[derive(Clone, Copy, Debug, PartialEq, Eq)]
pub enum Verb {
    Create,
    Sync,
    Pull,
    Join,
    Name,
    Forge,
    Raw,
    Alter,
    Cut,
    Give,
    Freeze,
    Publish,
    Kept,
    Show,
    Names,
}

impl Verb {
    /// The verb that is spelled so.
    pub fn of(word: &[u8]) -> Option<Verb>
        ensures { result ≡ verb_of word.now }
    {
        match word {
            b"create" => Some(Verb::Create),
            b"sync" => Some(Verb::Sync),
            b"pull" => Some(Verb::Pull),
            b"join" => Some(Verb::Join),
            b"name" => Some(Verb::Name),
            b"forge" => Some(Verb::Forge),
            b"raw" => Some(Verb::Raw),
            b"alter" => Some(Verb::Alter),
            b"cut" => Some(Verb::Cut),
            b"give" => Some(Verb::Give),
            b"freeze" => Some(Verb::Freeze),
            b"publish" => Some(Verb::Publish),
            b"kept" => Some(Verb::Kept),
            b"show" => Some(Verb::Show),
            b"names" => Some(Verb::Names),
            _ => None,
        }
    }
}
