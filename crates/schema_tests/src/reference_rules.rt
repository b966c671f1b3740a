//! The rules of references and of lookups, each at its first bound and one past it. The expected places follow from the wording of the
//! rules.

use crate::cases::{Told, numbered, try_rule, try_text, try_texts, weights};
use std::alloc::Global;
use std::process::Abort;

/// Parents who live for ever, one born at each unit, and a child whose second column is a reference.
const CHILD: &str =
    "seed=1\nunits=2\ntable=[{name='p',rows=1,insert=1,column=[{name='id',kind='key',base=1}]},{name='c',rows=1,insert=1,column=[{name='id',kind='key',base=1},{name='ref',kind='ref',";

const TARGETS: [(&str, bool); 5] = [
    ("table='p'", true),
    ("table='c'", false),
    ("table='d'", false),
    ("table='x'", false),
    ("table=''", false),
];

/// A third table.
const THIRD: &str =
    ",window='all'}]},{name='d',rows=1,insert=1,column=[{name='id',kind='key',base=1}]}]";

/// The number of references of a child to its parents. The ninth is the tenth column.
const NUMBERS: [(usize, Told); 3] = [(8, None), (9, Some((18, 2, 10))), (12, Some((18, 2, 10)))];

/// A parent, and the beginning of a child with further columns.
const PARENT_AND_CHILD: &str =
    "seed=1\nunits=2\ntable=[{name='p',rows=1,insert=1,column=[{name='id',kind='key',base=1}]},{name='c',rows=1,insert=1,column=[{name='id',kind='key',base=1},";

fn try_number(rt: &impl Abort, alloc: Global, count: usize, told: Told) {
    let end = "',kind='ref',table='p',window='all'},";
    let references = numbered(rt, alloc, "{name='r", count, end);
    try_text(
        rt,
        alloc,
        &[PARENT_AND_CHILD, references.as_str(), "]}]"],
        told,
    );
}

fn try_numbers(rt: &impl Abort, alloc: Global, cases: &[(usize, Told)]) {
    for (count, told) in cases {
        try_number(rt, alloc, *count, *told);
    }
}

#[test]
fn targets(rt: HostRuntime) {
    try_rule(&rt, rt.alloc(), (18, 2, 2), CHILD, &TARGETS, THIRD);
    try_numbers(&rt, rt.alloc(), &NUMBERS);
}

/// The life of parents, if they have one, the window of their children, and whether the rule is kept.
const WINDOWS: [(&str, &str, bool); 11] = [
    (",life=[3,3]", "0", true),
    (",life=[3,3]", "2", true),
    (",life=[3,3]", "3", false),
    (",life=[3,9]", "3", false),
    (",life=[3,3]", "-1", false),
    (",life=[3,3]", "9223372036854775807", false),
    (",life=[20000,20000]", "'all'", false),
    ("", "'all'", true),
    ("", "0", true),
    ("", "9223372036854775807", true),
    ("", "-1", false),
];

/// The children of those parents, up to their window.
const CHILDREN: &str =
    ",column=[{name='id',kind='key',base=1}]},{name='c',rows=1,insert=1,column=[{name='id',kind='key',base=1},{name='ref',kind='ref',table='p',window=";

fn try_windows(rt: &impl Abort, alloc: Global, cases: &[(&str, &str, bool)]) {
    let front = "seed=1\nunits=2\ntable=[{name='p',rows=1,insert=1";
    for (life, window, is_kept) in cases {
        let told = if *is_kept { None } else { Some((19, 2, 2)) };
        try_text(rt, alloc, &[front, life, CHILDREN, window, "}]}]"], told);
    }
}

/// The last unit, the rows of parents, the rows of their children, the window, and whether the rule is kept.
type Rows = (&'static str, &'static str, &'static str, &'static str, bool);

const ROWS: [Rows; 14] = [
    ("2", "0,insert=1", "1,insert=0", "1", false),
    ("2", "0,insert=1", "1,insert=0", "'all'", false),
    ("2", "0,insert=1", "0,insert=1", "1", true),
    ("2", "0,insert=1", "0,insert=1", "0", true),
    ("4", "5,insert=0", "0,insert=1", "4", true),
    ("4", "5,insert=0", "0,insert=1", "3", false),
    ("4", "5,insert=0", "0,insert=1", "'all'", true),
    ("4", "5,insert=0", "1,insert=0", "0", true),
    ("10000", "1,insert=0", "1,insert=1", "1000000000", true),
    ("10000", "1,insert=0", "1,insert=1", "10000", true),
    ("10000", "1,insert=0", "1,insert=1", "9999", false),
    ("2", "0,insert=0", "0,insert=0", "'all'", true),
    ("2", "0,insert=0", "0,insert=1", "'all'", false),
    ("0", "0,insert=0", "0,insert=1", "'all'", true),
];

fn try_counts(rt: &impl Abort, alloc: Global, cases: &[Rows]) {
    let parents = "\ntable=[{name='p',column=[{name='id',kind='key',base=1}],rows=";
    let children =
        "},{name='c',column=[{name='id',kind='key',base=1},{name='ref',kind='ref',table='p',window=";
    for (units, parent, child, window, is_kept) in cases {
        let pieces = [
            "seed=1\nunits=",
            units,
            parents,
            parent,
            children,
            window,
            "}],rows=",
            child,
            "}]",
        ];
        let told = if *is_kept { None } else { Some((20, 2, 2)) };
        try_text(rt, alloc, &pieces, told);
    }
}

#[test]
fn rows_of_parents(rt: HostRuntime) {
    try_counts(&rt, rt.alloc(), &ROWS);
}

/// Grandparents who live 3 units. Their children, the parents, have no life of their own and are at most 1 unit younger.
const MORTAL: &str =
    "seed=1\nunits=2\ntable=[{name='g',rows=1,insert=1,life=[3,3],column=[{name='id',kind='key',base=1}]},{name='p',rows=1,insert=1,column=[{name='id',kind='key',base=1},{name='ref',kind='ref',table='g',window=1}]},{name='c',rows=1,insert=1,column=[{name='id',kind='key',base=1},{name='ref',kind='ref',table='p',window=";

/// The window of children of those parents. Each parent lives at least 3 - 1 units.
const MORTAL_WINDOWS: [(&str, bool); 3] = [("1", true), ("2", false), ("'all'", false)];

#[test]
fn windows(rt: HostRuntime) {
    try_windows(&rt, rt.alloc(), &WINDOWS);
    try_rule(&rt, rt.alloc(), (19, 3, 2), MORTAL, &MORTAL_WINDOWS, "}]}]");
}

/// Two runs of weights, and whether the rule is kept. A run is a number of weights, and the weight.
type Spread = ((usize, i64), (usize, i64), bool);

const SPREADS: [Spread; 10] = [
    ((0, 1), (0, 1), false),
    ((1, 1), (0, 1), true),
    ((64, 1_000), (0, 1), true),
    ((65, 1), (0, 1), false),
    ((1, 0), (0, 1), false),
    ((1, -1), (0, 1), false),
    ((1, 1_001), (0, 1), false),
    ((63, 1), (1, 1_000), true),
    ((63, 1), (1, 1_001), false),
    ((63, 1), (1, 0), false),
];

fn try_spreads(rt: &impl Abort, alloc: Global, cases: &[Spread]) {
    for (first, second, is_kept) in cases {
        let spread = weights(rt, alloc, *first, *second);
        let told = if *is_kept { None } else { Some((21, 2, 2)) };
        let pieces = [
            CHILD,
            "table='p',window='all',spread=[",
            spread.as_str(),
            "]}]}]",
        ];
        try_text(rt, alloc, &pieces, told);
    }
}

#[test]
fn spreads(rt: HostRuntime) {
    try_spreads(&rt, rt.alloc(), &SPREADS);
}

/// References that can break several rules. In the second case a third table refers to itself.
const SEVERAL: [(&str, Told); 5] = [
    ("table='p',window=-1,spread=[0]", Some((19, 2, 2))),
    (
        "table='p',window=-1}]},{name='d',rows=1,insert=1,column=[{name='id',kind='key',base=1},{name='ref',kind='ref',table='d',window='all'",
        Some((18, 3, 2)),
    ),
    ("table='p',window='all',changes=false,null=0", None),
    (
        "table='p',window='all',changes=true,null=0",
        Some((25, 2, 2)),
    ),
    (
        "table='p',window='all',changes=false,null=1",
        Some((25, 2, 2)),
    ),
];

// An earlier rule is told before a later one, even if it is broken at a later table. References neither change nor are null.
#[test]
fn rules_of_references_in_order(rt: HostRuntime) {
    try_texts(&rt, rt.alloc(), CHILD, &SEVERAL, "}]}]");
}

/// Countries with a name. Cities with columns of several kinds, one column that moves, and their country with its name. Houses, each in
/// a city.
const LAND: &str = "seed=1
units=2
table=[
    {name='country',rows=1,insert=1,column=[
        {name='id',kind='key',base=1},
        {name='name',kind='int',lo=7,hi=7},
    ]},
    {name='city',rows=1,insert=1,update=1,column=[
        {name='id',kind='key',base=1},
        {name='born',kind='born'},
        {name='changed',kind='changed'},
        {name='label',kind='template',parts=[{column='id'}]},
        {name='country',kind='ref',table='country',window='all'},
        {name='shown',kind='lookup',via='country',column='name'},
        {name='size',kind='int',lo=7,hi=7},
        {name='moving',kind='int',lo=7,hi=7,changes=true},
        {name='born_date',kind='born_date',start='2024-02-28'},
        {name='changed_date',kind='changed_date',start='2024-02-28'},
    ]},
    {name='house',rows=1,insert=1,column=[
        {name='id',kind='key',base=1},
        {name=";

/// The lookup of a house after its reference to a city: the reference, the shown column and further keys, and what is told.
const LOOKUPS: [(&str, Told); 19] = [
    ("via='city',column='id'", None),
    ("via='city',column='born'", None),
    ("via='city',column='label'", None),
    ("via='city',column='country'", None),
    ("via='city',column='size'", None),
    ("via='city',column='changed'", Some((22, 3, 3))),
    ("via='city',column='moving'", Some((22, 3, 3))),
    ("via='city',column='born_date'", None),
    ("via='city',column='changed_date'", Some((22, 3, 3))),
    ("via='city',column='shown'", Some((22, 3, 3))),
    ("via='city',column='none'", Some((22, 3, 3))),
    ("via='city',column='city'", Some((22, 3, 3))),
    ("via='id',column='size'", Some((22, 3, 3))),
    ("via='shown',column='size'", Some((22, 3, 3))),
    ("via='none',column='size'", Some((22, 3, 3))),
    ("via='country',column='name'", Some((22, 3, 3))),
    ("via='city',column='size',null=999,changes=false", None),
    (
        "via='city',column='size',null=1000,changes=false",
        Some((25, 3, 3)),
    ),
    (
        "via='city',column='size',null=0,changes=true",
        Some((25, 3, 3)),
    ),
];

/// A lookup before its reference.
const LATER: &str =
    "'shown',kind='lookup',via='city',column='size'},{name='city',kind='ref',table='city',window='all'";

fn try_lookups(rt: &impl Abort, alloc: Global, cases: &[(&str, Told)]) {
    let city = "'city',kind='ref',table='city',window='all'},{name='shown',kind='lookup',";
    for (lookup, told) in cases {
        try_text(rt, alloc, &[LAND, city, lookup, "}]}]"], *told);
    }
}

#[test]
fn lookups(rt: HostRuntime) {
    try_lookups(&rt, rt.alloc(), &LOOKUPS);
    try_text(&rt, rt.alloc(), &[LAND, LATER, "}]}]"], Some((22, 3, 2)));
}
