// Queries that keep their conditions in their type.
ghost use Rattle.std.specs.Prelude.{◌≡◌};

use crate::group::Group;
use crate::template::Template;
use std::marker::Model;

/// A query: its templates, of which number 0 is the root, and the groups 1 to 32.
#[derive(Debug, Drop)]
pub struct Query {
    templates: Vec<Template>,
    groups: Vec<Group>,
}

impl Model for Query {
    ghost use Rattle.mk_model.specs.Queries.{QueryView};
    ghost use Rattle.mk_model.specs.QueryFits.{QueryFits};

    ghost Value = { QueryView };

    ghost view = { λ q. record { templates = q.templates.items; groups = q.groups.items } };

    ghost invariant = { λ q. QueryFits (record { templates = q.templates.items; groups = q.groups.items }) };
}

impl Query {
    ghost use Rattle.mk_model.specs.Queries.{QueryView};
    ghost use Rattle.mk_model.specs.QueryFits.{QueryFits};

    /// Takes the lists over. It takes no memory.
    pub fn of(templates: Vec<Template>, groups: Vec<Group>) -> Query
        requires { QueryFits (record { templates = templates.items; groups = groups.items }) }
        ensures { result ≡ record { templates = templates.items; groups = groups.items } }
    {
        Query { templates, groups }
    }

    pub fn templates(&self) -> &[Template]
        ensures list { result.now ≡ self.now.templates }
        ensures kept { QueryFits self.now }
    {
        self.templates.as_slice()
    }

    /// Gives the groups 1 to 32, in order.
    pub fn groups(&self) -> &[Group]
        ensures list { result.now ≡ self.now.groups }
        ensures kept { QueryFits self.now }
    {
        self.groups.as_slice()
    }
}

/// How many sites of a group stand in the templates that a code chooses, and how many of them are
/// filled.
#[derive(Clone, Copy, Debug)]
pub struct Count {
    pub sites: u32,
    pub filled: u32,
}
