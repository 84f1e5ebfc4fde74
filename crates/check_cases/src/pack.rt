ghost use Rattle.std.specs.Prelude.{◌≡◌, ◌↔◌, ◌≤◌, ◌++◌, ◌∷◌, Contains, IfOk, IfSome, IsOk, IsSome, drop, length, take};

use hg_check::Trouble;

/// The packed cases that are still to be read.
#[derive(Clone, Copy)]
pub struct Pack<'a> {
    rest: &'a [u8],
}

impl<'a> Pack<'a> {
    pub fn new(bytes: &'a [u8]) -> Pack<'a>
        ensures { result.rest.now ≡ bytes.now }
    {
        Pack { rest: bytes }
    }

    /// The next bytes, so many, where there are as many.
    pub fn part(&mut self, len: usize) -> Option<&'a [u8]>
        ensures there { IsSome result ↔ (len ≤ length self.old.rest.now) }
        ensures part { IfSome result (λ part. part.now ≡ take len self.old.rest.now) }
        ensures rest { IfSome result (λ part. self.new.rest.now ≡ drop len self.old.rest.now) }
    {
        let (part, rest) = self.rest.split_at_checked(len)?;
        self.rest = rest;
        Some(part)
    }

    /// The next line, without its line feed, where there is one.
    pub fn line(&mut self) -> Option<&'a [u8]>
        ensures cut { IfSome result (λ line. self.old.rest.now ≡ line.now ++ 10 ∷ self.new.rest.now) }
        ensures first { IfSome result (λ line. Contains line.now 10 → ⊥) }
    {
        let end = self.rest.iter().position(|byte| *byte == b'\n')?;
        let line = &self.rest[..end];
        self.rest = &self.rest[end + 1..];
        Some(line)
    }

    /// The next line as text.
    pub fn text(&mut self) -> Result<&'a str, Trouble>
        ensures cut { IfOk result (λ text. self.old.rest.now ≡ text.now ++ 10 ∷ self.new.rest.now) }
        ensures first { IfOk result (λ text. Contains text.now 10 → ⊥) }
    {
        let line = self.line().ok_or(Trouble::Broken)?;
        str::from_utf8(line).ok().ok_or(Trouble::Broken)
    }

    /// A line that is a number.
    pub fn count(&mut self) -> Result<usize, Trouble> {
        self.text()?.parse().ok().ok_or(Trouble::Broken)
    }

    /// Nothing is left.
    pub fn end(&self) -> Result<(), Trouble>
        ensures { IsOk result ↔ (length self.now.rest.now ≡ 0) }
    {
        if self.rest.is_empty() {
            Ok(())
        } else {
            Err(Trouble::Broken)
        }
    }
}
