ghost use Rattle.std.specs.Prelude.{◌≡◌, ◌≢◌, ◌<◌, ◌≤◌, ◌+◌, ◌-◌, ℕ, cond, nat_lt, not, true, length, slice_index, IfOk, OnErr, OnOk};
ghost use Rattle.hg_model.specs.Stakes.{total};
ghost use Rattle.hg_model.specs.Seeing.{is_supermajority};
ghost use Rattle.hg_branches.specs.Landmarks.{landmark_at, noted_once, AreFreshBy, AreFreshOn, AreNotedBy, AreNotedOn, HoldsChains, HoldsNewest, HoldsTops, IsLastOn, IsNeverStrong, IsWeighed, LeavesBelow, LeavesFrom, LeavesOthers, NotesAll, NotesBy, NotesOn, AllWide, IsWidened, Widens};
ghost use Rattle.hg_model.specs.Counts.{numbers_of};
ghost use Rattle.hg_branches.specs.Firsts.{none_by};
ghost use Rattle.hg_branches.specs.Lines.{is_strong_by_own};
ghost use Rattle.hg_branches.specs.Table.{own_counts};

use crate::counts::{RowCounts, number_at};
use crate::firsts::{Firsts, weigh_counts};
use crate::table::CountTable;
use crate::tops::Tops;
use hg_bits::StakeTable;
use hg_model::{Counts, Memory};
use std::alloc::Global;
use std::marker::Model;

/// Where the next row stands, which is its branch and one more than its place, and what its creator weighs.
#[derive(Clone, Copy, Debug)]
pub struct NextRow {
    pub branch: usize,
    pub end: u32,
    pub stake: u32,
}

/// What is noted of a row for strongly seeing it: its first descendants, one on each member's own branch. The number of a
/// landmark is one more than its index.
#[derive(Drop)]
pub struct Landmark {
    /// One more than the place of the row.
    end: u32,
    /// The row's branch.
    branch: usize,
    /// The number of the landmark before it on its branch, or 0.
    before: u32,
    /// For each member's own branch one more than the place of the first descendant there.
    firsts: Firsts,
    /// What the members together weigh, at most, on whose own branches there is one.
    reached: u64,
}

impl Model for Landmark {
    ghost use Rattle.hg_branches.specs.Firsts.{firsts_of, none_of};
    ghost use Rattle.hg_branches.specs.Landmarks.{LandmarkView};

    ghost Value = { LandmarkView };

    ghost view = { λ s. record {
      end = s.end;
      branch = s.branch;
      before = s.before;
      none = none_of s.firsts;
      firsts = firsts_of s.firsts;
      reached = s.reached;
    } };
}

impl Landmark {
    /// The memory of a landmark, for a graph of so many members, of the width of its ends.
    pub fn new(alloc: Global, members: usize, wide: bool) -> Result<Landmark, Memory>
        ensures long { IfOk result (λ k. length k.firsts ≡ members) }
        ensures none { IfOk result (λ k. k.none ≡ none_by wide) }
    {
        let firsts = Firsts::new(alloc, members, wide)?;
        Ok(Landmark {
            end: 0,
            branch: 0,
            before: 0,
            firsts,
            reached: 0,
        })
    }

    /// Takes the last row of the graph, on this branch, behind the landmark of this number. Its maker has this stake.
    pub fn begin(&mut self, branch: usize, end: u32, before: u32, stake: u32)
        requires { end < self.old.none }
        ensures end { self.new.end ≡ end }
        ensures branch { self.new.branch ≡ branch }
        ensures before { self.new.before ≡ before }
        ensures long { length self.new.firsts ≡ length self.old.firsts }
        ensures itself { branch < length self.old.firsts → slice_index self.new.firsts branch ≡ end }
        ensures others { (b : ℕ) → b < length self.old.firsts → b ≢ branch →
            slice_index self.new.firsts b ≡ self.old.none }
        ensures none { self.new.none ≡ self.old.none }
        ensures reached { self.new.reached ≡ cond (nat_lt branch (length self.old.firsts)) stake 0 }
    {
        self.end = end;
        self.branch = branch;
        self.before = before;
        self.firsts.begin(branch, end);
        let own = branch < self.firsts.counts().len();
        self.reached = if own { u64::from(stake) } else { 0 };
    }

    /// Notes that the next row has come, which counts so much of this row's branch.
    pub fn note(&mut self, count: u32, next: NextRow)
        requires low { next.end < self.old.none }
        requires fresh { next.branch < length self.old.firsts → next.end < slice_index self.old.firsts next.branch }
        ensures { self.new ≡ noted_once count next self.old }
    {
        if self.end <= count && self.firsts.lower(next.branch, next.end) {
            self.reached = self.reached.saturating_add(u64::from(next.stake));
        }
    }

    /// Whether the members on whose own branches there are first descendants weigh so little that no row sees it strongly by
    /// these branches, whatever it counts.
    pub fn is_young(&self, stakes: &StakeTable) -> bool
        requires { IsWeighed stakes.now self.now }
        ensures value { result ≡ not (is_supermajority (total stakes.now) self.now.reached) }
        ensures never { result ≡ true → IsNeverStrong stakes.now self.now }
    {
        !stakes.is_over(self.reached)
    }

    /// Whether the counts of row `x` tell of first descendants on the own branches of members with more than two thirds of the
    /// stake. A call of its own, so that the way to the answer of `is_young` is short.
    #[inline(never)]
    pub fn is_strong_by(&self, stakes: &StakeTable, counts: &CountTable, x: usize) -> bool
        requires place { x < length counts.now.rows }
        requires wide { length stakes.now ≡ length self.now.firsts }
        requires same { counts.now.members ≡ length self.now.firsts }
        ensures { result ≡ is_strong_by_own stakes.now self.now.firsts (own_counts counts.now x) }
    {
        stakes.is_over(weigh_counts(stakes, counts.own(x), self.firsts.counts()))
    }

    /// One more than the place of the row.
    pub fn end(&self) -> u32
        ensures { result ≡ self.now.end }
    {
        self.end
    }

    /// The number of the landmark before it on its branch, or 0.
    pub fn before(&self) -> u32
        ensures { result ≡ self.now.before }
    {
        self.before
    }

    /// For each member's own branch one more than the place of the first descendant there.
    pub fn firsts(&self) -> Counts<'_>
        ensures { numbers_of result ≡ self.now.firsts }
    {
        self.firsts.counts()
    }

    /// Keeps the first descendants in 32 bits from now on.
    pub fn widen(&mut self, alloc: Global) -> Result<(), Memory>
        ensures ok { OnOk result (Widens self.old self.new) }
        ensures err { OnErr result (self.new ≡ self.old) }
    {
        self.firsts = self.firsts.widened(alloc)?;
        Ok(())
    }
}

/// Notes in all landmarks that the next row has come, with these counts. A branch is looked at only where the
/// row counts more than its self-parent, which counts what is `known`.
pub fn note_all(
    landmarks: &mut [Landmark],
    newest: &[u32],
    tops: &Tops,
    known: &RowCounts,
    counts: &RowCounts,
    next: NextRow,
)
    requires same { known.now.members ≡ counts.now.members }
    requires few { counts.now.members ≤ 128 }
    requires newest_all { counts.now.members ≤ length newest.now }
    requires tops_all { counts.now.members ≤ length tops.now.ends }
    requires chains { HoldsChains landmarks.old }
    requires newest { HoldsNewest landmarks.old newest.now }
    requires tops { HoldsTops landmarks.old tops.now.ends }
    requires noted { (c : ℕ) → AreNotedBy known.now.row counts.now.row next landmarks.old c }
    requires fresh { (c : ℕ) → AreFreshBy known.now.row next landmarks.old c }
    ensures len { length landmarks.new ≡ length landmarks.old }
    ensures each { NotesAll counts.now.row next landmarks.old landmarks.new }
{
    note_own(landmarks, newest, tops, known.own(), counts.own(), next);
    note_others(landmarks, newest, known, counts, next);
}

/// Notes it in the landmarks of the members' own branches, of which these are the counts.
fn note_own(
    landmarks: &mut [Landmark],
    newest: &[u32],
    tops: &Tops,
    known: Counts<'_>,
    counts: Counts<'_>,
    next: NextRow,
)
    requires same { length (numbers_of known) ≡ length (numbers_of counts) }
    requires few { length (numbers_of counts) ≤ 128 }
    requires newest_all { length (numbers_of counts) ≤ length newest.now }
    requires tops_all { length (numbers_of counts) ≤ length tops.now.ends }
    requires chains { HoldsChains landmarks.old }
    requires newest { HoldsNewest landmarks.old newest.now }
    requires tops { HoldsTops landmarks.old tops.now.ends }
    requires noted { (c : ℕ) → c < length (numbers_of counts) →
        AreNotedBy (numbers_of known) (numbers_of counts) next landmarks.old c }
    requires fresh { (c : ℕ) → c < length (numbers_of counts) → AreFreshBy (numbers_of known) next landmarks.old c }
    ensures len { length landmarks.new ≡ length landmarks.old }
    ensures done { (c : ℕ) → c < length (numbers_of counts.entry) →
        NotesBy (numbers_of counts.entry) next landmarks.old landmarks.new c }
    ensures left { LeavesFrom (length (numbers_of counts.entry)) landmarks.old landmarks.new }
{
    let mut news = [0; 128];
    tops.mark_news(known, counts, &mut news);
    let members = counts.len();
    let mut from = 0;
    while from < members {
        let end = members.min(from + 8);
        if !are_eight_old(&news, from) {
            for c in from..end {
                if news[c] > 0 {
                    let least = number_at(known, c);
                    let count = number_at(counts, c);
                    note_branch(landmarks, newest, c, least, count, next);
                }
            }
        }
        from = end;
    }
}

/// Whether the eight lanes from this one on have no news. It may answer no where they have none.
fn are_eight_old(news: &[u8; 128], c: usize) -> bool
    requires { c < 128 }
    ensures { result ≡ true → (d : ℕ) → c ≤ d → d < c + 8 → slice_index news.now d ≡ 0 }
{
    match news[c..].first_chunk::<8>() {
        None => false,
        Some(eight) => u64::from_le_bytes(*eight) == 0,
    }
}

/// Notes it in the landmarks of the other branches that are counted.
fn note_others(
    landmarks: &mut [Landmark],
    newest: &[u32],
    known: &RowCounts,
    counts: &RowCounts,
    next: NextRow,
)
    requires chains { HoldsChains landmarks.old }
    requires newest { HoldsNewest landmarks.old newest.now }
    requires noted { (c : ℕ) → counts.now.members ≤ c → AreNotedBy known.now.row counts.now.row next landmarks.old c }
    requires fresh { (c : ℕ) → counts.now.members ≤ c → AreFreshBy known.now.row next landmarks.old c }
    ensures len { length landmarks.new ≡ length landmarks.old }
    ensures done { (c : ℕ) → counts.now.members ≤ c → NotesBy counts.now.row next landmarks.old landmarks.new c }
    ensures left { LeavesBelow counts.now.members landmarks.old landmarks.new }
{
    let mut c = counts.own().len();
    while c < newest.len() {
        note_more(landmarks, newest, c, known.at(c), counts.at(c), next);
        c = counts.next_after(c, newest.len());
    }
}

/// Notes it in the landmarks of branch `c`, of which the next row counts so much: there are some to note only where that is
/// more than what its self-parent counts.
fn note_more(
    landmarks: &mut [Landmark],
    newest: &[u32],
    c: usize,
    least: u32,
    count: u32,
    next: NextRow,
)
    requires there { c < length newest.now }
    requires chains { HoldsChains landmarks.old }
    requires newest { IsLastOn landmarks.old (length landmarks.old) c (slice_index newest.now c) }
    requires noted { AreNotedOn c least count next landmarks.old }
    requires fresh { AreFreshOn c least next landmarks.old }
    ensures len { length landmarks.new ≡ length landmarks.old }
    ensures on { NotesOn c count next landmarks.old landmarks.new }
    ensures off { LeavesOthers c landmarks.old landmarks.new }
{
    if least < count {
        note_branch(landmarks, newest, c, least, count, next);
    }
}

/// Notes it in the landmarks of branch `c`, of which the next row counts so much, from the last down to the first that the
/// self-parent has as ancestor, which ends at `least` or before.
fn note_branch(
    landmarks: &mut [Landmark],
    newest: &[u32],
    c: usize,
    least: u32,
    count: u32,
    next: NextRow,
)
    requires there { c < length newest.now }
    requires chains { HoldsChains landmarks.old }
    requires newest { IsLastOn landmarks.old (length landmarks.old) c (slice_index newest.now c) }
    requires noted { AreNotedOn c least count next landmarks.old }
    requires fresh { AreFreshOn c least next landmarks.old }
    ensures len { length landmarks.new ≡ length landmarks.old }
    ensures on { NotesOn c count next landmarks.old landmarks.new }
    ensures off { LeavesOthers c landmarks.old landmarks.new }
{
    let mut number = newest[c] as usize;
    'chain: while number > 0 {
        let landmark = &mut landmarks[number - 1];
        if landmark.end() <= least {
            return;
        }
        landmark.note(count, next);
        number = landmark.before() as usize;
    }
}

/// Keeps the first descendants of all landmarks in 32 bits. After want of memory it does so of some.
pub fn widen_all(landmarks: &mut [Landmark], alloc: Global) -> Result<(), Memory>
    ensures len { length landmarks.new ≡ length landmarks.old }
    ensures each { (i : ℕ) → i < length landmarks.old →
        IsWidened (landmark_at landmarks.old i) (landmark_at landmarks.new i) }
    ensures ok { OnOk result (AllWide landmarks.new) }
{
    for i in 0..landmarks.len() {
        landmarks[i].widen(alloc)?;
    }
    Ok(())
}

/// The landmark with this index.
pub fn landmark_of(landmarks: &[Landmark], index: usize) -> &Landmark
    requires { index < length landmarks.now }
    ensures { result.now ≡ landmark_at landmarks.now index }
{
    &landmarks[index]
}

/// The first descendants of the landmark with this index.
pub fn firsts_at(landmarks: &[Landmark], index: usize) -> Counts<'_>
    requires { index < length landmarks.now }
    ensures { numbers_of result ≡ (landmark_at landmarks.now index).firsts }
{
    landmarks[index].firsts()
}

/// One more than the place of the last landmark, or 0 where there is none.
pub fn last_end(landmarks: &[Landmark]) -> u32
    ensures none { length landmarks.now ≡ 0 → result ≡ 0 }
    ensures last { 0 < length landmarks.now → result ≡ (landmark_at landmarks.now (length landmarks.now - 1)).end }
{
    if landmarks.is_empty() {
        0
    } else {
        landmarks[landmarks.len() - 1].end()
    }
}
