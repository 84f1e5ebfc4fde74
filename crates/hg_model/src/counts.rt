ghost use Rattle.std.specs.Prelude.{◌≡◌, ◌<◌, length, slice_index};
ghost use Rattle.hg_model.specs.Counts.{numbers_of};

use crate::row::Member;

/// A number for each member, in 16 bits where all fit.
#[derive(Clone, Copy, Debug)]
pub enum Counts<'a> {
    Narrow(&'a [u16]),
    Wide(&'a [u32]),
}

impl<'a> Counts<'a> {
    /// How many numbers there are.
    pub fn len(&self) -> usize
        ensures { result ≡ length (numbers_of self.now) }
    {
        match self {
            Counts::Narrow(numbers) => numbers.len(),
            Counts::Wide(numbers) => numbers.len(),
        }
    }

    /// The number of a member.
    pub fn at(&self, member: Member) -> usize
        requires { member < length (numbers_of self.now) }
        ensures { result ≡ slice_index (numbers_of self.now) member }
    {
        match self {
            Counts::Narrow(numbers) => numbers[member as usize] as usize,
            Counts::Wide(numbers) => numbers[member as usize] as usize,
        }
    }
}
