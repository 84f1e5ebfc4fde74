ghost use Rattle.std.specs.Prelude.{◌≤◌};

use hg_check::Dice;

/// What a world is made by.
#[derive(Clone, Copy)]
pub struct WorldPlan {
    /// 4 to 7, by the number of the world: as many worlds of each.
    pub members: u32,
    /// 3 to 6 rounds.
    pub coin: u32,
    /// The members who fork, fewer than a third, all of one stake: one, or of 7 two.
    pub forkers: Option<(u32, u32)>,
    pub ghost some: { 4 ≤ members },
    pub ghost few: { members ≤ 7 },
    pub ghost coin_low: { 3 ≤ coin },
    pub ghost coin_high: { coin ≤ 6 },
}

/// The plan of the world of this number: in two of three there is a member who forks.
pub fn world_plan(number: u32, dice: &mut Dice) -> WorldPlan {
    let members = 4 + number % 4;
    let one = dice.below(members);
    let other = if members == 7 {
        dice.below(members)
    } else {
        one
    };
    WorldPlan {
        members,
        coin: 3 + dice.below(4),
        forkers: if number % 3 == 0 {
            None
        } else {
            Some((one, other))
        },
    }
}
