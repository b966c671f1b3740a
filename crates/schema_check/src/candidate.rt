//! A schema with its dictionaries, while its rules are tried.

use schema_facts::{Dictionaries, TableFacts};
use schema_model::Schema;
use schema_plan::CitedNames;
use std::marker::Model;

/// A schema with its dictionaries, and what is worked out before the rules are tried. A contract sees the schema and the dictionaries.
#[derive(Drop)]
pub(crate) struct Candidate<'a> {
    schema: &'a Schema,
    dictionaries: &'a Dictionaries,
    names: &'a CitedNames<'a>,
    facts: &'a [TableFacts],
}

impl<'a> Model for Candidate<'a> {
    ghost use Rattle.std.specs.Prelude.{◌≡◌};
    ghost use Rattle.schema_facts.specs.Capped.{first_facts};
    ghost use Rattle.schema_plan.specs.Citations.{cited_names};
    ghost use Rattle.schema_facts.specs.Dictionaries.{Project, project_of};

    ghost Value = { Project };

    ghost view = { λ c. project_of c.schema.now c.dictionaries.now };

    ghost invariant = { λ c. (c.names.now ≡ cited_names c.schema.now.tables) × (c.facts.now ≡ first_facts (project_of c.schema.now c.dictionaries.now)) };
}

impl<'a> Candidate<'a> {
    ghost use Rattle.std.specs.Prelude.{◌≡◌};
    ghost use Rattle.schema_facts.specs.Capped.{first_facts};
    ghost use Rattle.schema_plan.specs.Citations.{cited_names};
    ghost use Rattle.schema_facts.specs.Dictionaries.{project_of};

    /// Joins a schema with its dictionaries, the names that it cites, and the facts of its first tables.
    pub(crate) fn new(
        schema: &'a Schema,
        dictionaries: &'a Dictionaries,
        names: &'a CitedNames<'a>,
        facts: &'a [TableFacts],
    ) -> Candidate<'a>
        requires names { names.now ≡ cited_names schema.now.tables }
        requires facts { facts.now ≡ first_facts (project_of schema.now dictionaries.now) }
        ensures { result ≡ project_of schema.now dictionaries.now }
    {
        Candidate {
            schema,
            dictionaries,
            names,
            facts,
        }
    }

    /// Returns the schema.
    pub(crate) fn schema(&self) -> &'a Schema
        ensures { result.now ≡ self.now.schema }
    {
        self.schema
    }

    /// Returns the dictionaries.
    pub(crate) fn dictionaries(&self) -> &'a Dictionaries
        ensures { result.now ≡ self.now.dictionaries }
    {
        self.dictionaries
    }

    /// Returns the names of the dictionaries that the schema cites.
    pub(crate) fn names(&self) -> &'a CitedNames<'a>
        ensures { result.now ≡ cited_names self.now.schema.tables }
    {
        self.names
    }

    /// Returns the facts of the first tables.
    pub(crate) fn facts(&self) -> &'a [TableFacts]
        ensures { result.now ≡ first_facts self.now }
    {
        self.facts
    }
}
