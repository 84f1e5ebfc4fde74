/// A witness's vote on the fame of another one, and whether it decides that.
#[derive(Clone, Copy, Debug, PartialEq, Eq)]
pub struct Ballot {
    pub vote: bool,
    pub decides: bool,
}
