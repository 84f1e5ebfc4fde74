ghost use Rattle.hg_forks.specs.SelfLinks.{SelfLinksHaveForks};

/// A law: a graph whose rows' other-parents are left out has the same forks.
pub fn self_links_have_forks()
    ensures { SelfLinksHaveForks }
{}
