// The templates and groups of a raw query, before they are checked across.
ghost use Rattle.std.specs.Prelude.{◌≡◌, ◌<◌, ◌+◌, All, Some, length, slice_get};

use mk_model::{Group, Query, Slot, Template};
use std::marker::Model;

/// How many groups there are.
pub const GROUPS: u32 = 32;

/// The templates, of which number 0 is the root, and the groups.
#[derive(Drop)]
pub struct Draft {
    templates: Vec<Template>,
    groups: Vec<Group>,
}

impl Model for Draft {
    ghost use Rattle.mk_model.specs.Queries.{QueryView};
    ghost use Rattle.mk_query.specs.Draft.{IsDraft};

    ghost Value = { QueryView };

    ghost view = { λ d. record { templates = d.templates.items; groups = d.groups.items } };

    ghost invariant = { λ d. IsDraft (record { templates = d.templates.items; groups = d.groups.items }) };
}

impl Draft {
    ghost use Rattle.mk_model.specs.Queries.{members_of, slots_of};
    ghost use Rattle.mk_model.specs.QueryFits.{QueryFits};
    ghost use Rattle.mk_query.specs.Draft.{IsDraft, IsDrafted};
    ghost use Rattle.mk_query.specs.Recursion.{NamesGroups};

    pub fn of(templates: Vec<Template>, groups: Vec<Group>) -> Draft
        requires { IsDraft (record { templates = templates.items; groups = groups.items }) }
        ensures { result ≡ record { templates = templates.items; groups = groups.items } }
    {
        Draft { templates, groups }
    }

    /// How many templates there are.
    pub fn count(&self) -> u32
        ensures count { result ≡ length self.now.templates }
        ensures kept { IsDraft self.now }
    {
        self.templates.len() as u32
    }

    pub fn template(&self, t: u32) -> &Template
        requires { t < length self.now.templates }
        ensures at { slice_get self.now.templates t ≡ Some result.now }
        ensures kept { IsDrafted result.now }
    {
        &self.templates[t as usize]
    }

    pub fn slots(&self, t: u32) -> &[Slot]
        requires { t < length self.now.templates }
        ensures list { result.now ≡ slots_of self.now t }
        ensures labels { All NamesGroups result.now }
    {
        self.templates[t as usize].slots()
    }

    /// The members of group g + 1.
    pub fn members(&self, g: u32) -> &[u32]
        requires { g < 32 }
        ensures list { result.now ≡ members_of self.now (g + 1) }
        ensures within { All (λ u. u < length self.now.templates) result.now }
    {
        self.groups[g as usize].members.as_slice()
    }

    /// The query, where it passes every check.
    pub fn into_query(self) -> Query
        requires { QueryFits self }
        ensures { result ≡ self }
    {
        Query::of(self.templates, self.groups)
    }
}
