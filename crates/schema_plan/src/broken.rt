//! A broken rule.

use crate::rules::Rule;
use crate::site::Site;

/// A rule that a schema breaks, with the first site at which the schema breaks it.
#[derive(Clone, Copy, Debug, PartialEq, Eq)]
pub struct Broken {
    /// The rule.
    pub rule: Rule,
    /// The first site at which the schema breaks the rule.
    pub site: Site,
}
