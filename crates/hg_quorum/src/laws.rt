ghost use Rattle.hg_quorum.specs.Members.{QuorumsMeet, QuorumsShareAMember};
ghost use Rattle.hg_quorum.specs.Report.{ReportImplies, ReportIsSame};
ghost use Rattle.hg_quorum.specs.Sight.{ForksAreSeenOnce, SightGrows};

/// A law: of the two rows of a fork at most one is strongly seen, by whatever rows of the graph.
pub fn fork_is_seen_once()
    ensures once { ForksAreSeenOnce }
{}

/// A law: two sets of members, each with more than two thirds of the stake, share a member that does not fork.
pub fn quorums_share_a_member_without_fork()
    ensures weighed { QuorumsMeet }
    ensures without_fork { QuorumsShareAMember }
{}

/// A law: what a row strongly sees, each row above it strongly sees.
pub fn sight_grows()
    ensures grows { SightGrows }
{}

/// A law: the report's wording of strongly seeing, weighed by stake, implies this one, and without forks is the same.
pub fn report_is_kept()
    ensures implies { ReportImplies }
    ensures same { ReportIsSame }
{}
