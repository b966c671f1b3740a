//! The names of the rules of a schema.

ghost use Rattle.std.specs.Prelude.{◌≡◌};
ghost use Rattle.schema_plan.specs.Rules.{rule_number};

/// A rule of a schema, with its number in messages.
#[derive(Clone, Copy, Debug, PartialEq, Eq)]
pub enum Rule {
    /// V13
    Dictionaries,
    /// The part of V13 that a schema without its dictionaries tells.
    CitedNames,
    /// V1
    SeedAndUnits,
    /// V2
    TableCount,
    /// V3
    TableNames,
    /// V4
    Columns,
    /// V5
    KeyColumn,
    /// V6
    RowCount,
    /// V7
    LifeRange,
    /// V8
    UpdatePeriod,
    /// V9
    NumberRange,
    /// V10
    DateRange,
    /// V11
    PickEntries,
    /// V12
    SkewRange,
    /// V14
    LengthRange,
    /// V15
    TemplateParts,
    /// V16
    CaseBranches,
    /// V17
    StillCitations,
    /// V18
    ReferenceTargets,
    /// V19
    ReferenceWindows,
    /// V20
    ParentRows,
    /// V21
    SpreadWeights,
    /// V22
    LookupColumns,
    /// V23
    RowCost,
    /// V24
    LineSize,
    /// V25
    ChangesAndNulls,
    /// V26
    UnitDates,
    /// V27
    LaterDates,
    /// V28
    Totals,
    /// V29
    PaddedParts,
}

impl Rule {
    /// Returns the rule's number in messages: 1 for V1.
    pub fn number(self) -> u32
        ensures { result ≡ rule_number self }
    {
        match self {
            Rule::Dictionaries | Rule::CitedNames => 13,
            Rule::SeedAndUnits => 1,
            Rule::TableCount => 2,
            Rule::TableNames => 3,
            Rule::Columns => 4,
            Rule::KeyColumn => 5,
            Rule::RowCount => 6,
            Rule::LifeRange => 7,
            Rule::UpdatePeriod => 8,
            Rule::NumberRange => 9,
            Rule::DateRange => 10,
            Rule::PickEntries => 11,
            Rule::SkewRange => 12,
            Rule::LengthRange => 14,
            Rule::TemplateParts => 15,
            Rule::CaseBranches => 16,
            Rule::StillCitations => 17,
            Rule::ReferenceTargets => 18,
            Rule::ReferenceWindows => 19,
            Rule::ParentRows => 20,
            Rule::SpreadWeights => 21,
            Rule::LookupColumns => 22,
            Rule::RowCost => 23,
            Rule::LineSize => 24,
            Rule::ChangesAndNulls => 25,
            Rule::UnitDates => 26,
            Rule::LaterDates => 27,
            Rule::Totals => 28,
            Rule::PaddedParts => 29,
        }
    }
}
