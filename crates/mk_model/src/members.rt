// The members of the sites of a query: how many there are, which, and of which group.
ghost use Rattle.std.specs.Prelude.{◌≡◌, ◌≤◌, ◌<◌, ◌==◌, ℕ, AllPairs, Contains, IsTrue, count_by, length, nat_lt, slice_index, true};
ghost use Rattle.mk_model.specs.JointMembers.{members_below};
ghost use Rattle.mk_model.specs.Labels.{bears_label, holds_member_of, is_member_of, is_member_of_one, joint_members, site_labels, member, members_at};
ghost use Rattle.mk_model.specs.Queries.{members_of};
ghost use Rattle.mk_model.specs.QueryFits.{AreRisingLabels, QueryFits};

use crate::query::Query;
use crate::template::Slot;

impl Query {
    /// Gives the members of group g, rising.
    pub fn members_of(&self, g: u32) -> &[u32]
        ensures list { result.now ≡ members_of self.now g }
        ensures kept { QueryFits self.now }
    {
        match self.groups().get((g as usize).saturating_sub(1)) {
            Some(group) => group.members.as_slice(),
            None => &[],
        }
    }

    /// How many members a site has. A link has none. For a site of one label this is a look-up.
    pub fn member_count(&self, slot: &Slot) -> u32
        requires { AreRisingLabels (site_labels slot.now) }
        ensures count { result ≡ length (members_at self.now slot.now) }
        ensures few { result ≤ 4096 }
        ensures kept { QueryFits self.now }
    {
        match slot.labels() {
            [g] => self.members_of(*g).len() as u32,
            labels => self.members_below(labels, self.templates().len()) as u32,
        }
    }

    /// Gives the template that is the k-th member of a site. For a site of one label this is a
    /// look-up.
    pub fn member_at(&self, slot: &Slot, k: u32) -> usize
        requires labels { AreRisingLabels (site_labels slot.now) }
        requires least { 1 ≤ k }
        requires most { k ≤ length (members_at self.now slot.now) }
        ensures member { result ≡ member self.now slot.now k }
        ensures within { result < length self.now.templates }
    {
        match slot.labels() {
            [g] => self.members_of(*g)[k as usize - 1] as usize,
            labels => self.joint_member(labels, k as usize - 1),
        }
    }

    /// Gives the group of which a site holds a member with the number k, and 0 where it holds none.
    pub fn group_held(&self, slot: &Slot, k: u32) -> u32
        requires labels { AreRisingLabels (site_labels slot.now) }
        requires least { 1 ≤ k }
        ensures held { (g : ℕ) → 1 ≤ g → holds_member_of self.now slot.now k g ≡ (g == result) }
        ensures label { 1 ≤ result → IsTrue (bears_label slot.now result) }
        ensures within { result ≤ 32 }
    {
        if k > self.member_count(slot) {
            return 0;
        }
        match slot.labels() {
            [g] => *g,
            labels => self.group_among(labels, self.member_at(slot, k)),
        }
    }

    // The template below which j members of some groups stand, and which is a member itself.
    fn joint_member(&self, labels: &[u32], j: usize) -> usize
        requires labels { AreRisingLabels labels.now }
        requires within { j < length (joint_members self.now labels.now) }
        ensures { result ≡ slice_index (joint_members self.now labels.now) j }
    {
        let mut low = 0;
        let mut high = self.templates().len();
        while high - low > 1 {
            let middle = low + (high - low) / 2;
            if self.members_below(labels, middle) <= j {
                low = middle;
            } else {
                high = middle;
            }
        }
        low
    }

    // How many members of some groups are below template u.
    fn members_below(&self, labels: &[u32], u: usize) -> usize
        requires { AreRisingLabels labels.now }
        ensures { result ≡ members_below self.now labels.now u }
    {
        let mut count = 0;
        for g in labels {
            count += numbers_below(self.members_of(*g), u);
        }
        count
    }

    // That of some groups of which template u is a member, where it is of one of them.
    fn group_among(&self, labels: &[u32], u: usize) -> u32
        requires labels { AreRisingLabels labels.now }
        requires one { is_member_of_one self.now labels.now u ≡ true }
        ensures member { is_member_of self.now result u ≡ true }
        ensures among { Contains labels.now result }
    {
        for g in labels {
            if self.is_member_of(*g, u) {
                return *g;
            }
        }
        0
    }

    // Template u is a member of group g.
    fn is_member_of(&self, g: u32, u: usize) -> bool
        ensures { result ≡ is_member_of self.now g u }
    {
        let members = self.members_of(g);
        let place = numbers_below(members, u);
        place < members.len() && members[place] as usize == u
    }
}

// How many of some rising numbers are below u.
fn numbers_below(numbers: &[u32], u: usize) -> usize
    requires { AllPairs (λ v later. v < later) numbers.now }
    ensures { result ≡ count_by (λ v. nat_lt v u) numbers.now }
{
    numbers.partition_point(|v| (*v as usize) < u)
}
