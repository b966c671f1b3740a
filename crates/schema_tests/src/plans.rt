//! What a plan tells of the tables of a schema, worked out by hand.

use crate::cases::{Told, numbered, plan_of, try_text};
use schema_facts::{Dictionaries, Keys, Lineage, NO_FACTS, TableFacts, fill_facts};
use schema_plan::Plan;
use schema_read::read_schema;
use std::alloc::Global;
use std::process::Abort;
use std::thread;

/// A table's place, the cost of a row, the greatest length of a line, and the fewest and the most units that its rows live.
pub(crate) type Bounds = (u32, u64, u64, Option<u64>, Option<u64>);

/// Asserts that the tables have these bounds.
pub(crate) fn assert_bounds(rt: &impl Abort, plan: &Plan, tables: &[Bounds]) {
    for (table, cost, max_line, sure, longest) in tables {
        assert!(rt; *table < plan.tables());
        assert!(rt; plan.cost(*table) == *cost && plan.max_line(*table) == *max_line);
        assert!(rt; plan.sure_life(*table) == *sure && plan.longest_life(*table) == *longest);
    }
}

/// Three tables of one, two and three columns. The keys of the last table are scrambled.
const THREE: &str = "seed=1
units=2
table=[
    {name='one',rows=1,insert=1,column=[
        {name='id',kind='key',base=7},
    ]},
    {name='two',rows=0,insert=3,column=[
        {name='id',kind='key',base=1},
        {name='born',kind='born'},
    ]},
    {name='three',rows=5,insert=0,column=[
        {name='id',kind='key',base=1,scramble=true},
        {name='born',kind='born'},
        {name='again',kind='born'},
    ]},
]";

// A line of only a key has 20 bytes and its line feed. A unit of birth adds 5 bytes and a tab. A scrambled key takes a
// permutation.
const BOUNDS_OF_THREE: [Bounds; 3] = [
    (0, 1, 21, None, None),
    (1, 1, 27, None, None),
    (2, 2, 33, None, None),
];

/// Asserts that there are three tables whose rows live for ever and never change.
fn assert_three(rt: &impl Abort, plan: &Plan) {
    assert!(rt; plan.schema().tables.len() == 3);
    assert!(rt; plan.units() == 2 && plan.tables() == 3 && plan.reach() == 33);
    assert_bounds(rt, plan, &BOUNDS_OF_THREE);
    for table in 0..plan.tables() {
        assert!(rt; plan.life(table).is_none() && plan.update(table).is_none());
    }
}

#[test]
fn tables_of_a_plan(rt: HostRuntime) {
    let plan = plan_of(&rt, rt.alloc(), THREE, Dictionaries::new(rt.alloc()));
    assert_three(&rt, &plan);
}

// Two threads share the plan.
#[test]
fn threads_share_a_plan(rt: HostRuntime) {
    let plan = plan_of(&rt, rt.alloc(), THREE, Dictionaries::new(rt.alloc()));
    let names = thread::join(&rt, || plan.table_named("two"), || plan.table_named("four"));
    assert!(rt; names == (Some(1), None));
}

/// Cities with a scrambled key and a name, which live three to five units. The other table has a column of each kind, and changes every
/// two units.
const EACH_KIND: &str = r#"seed=1
units=2
table=[
    {name='city',rows=7,insert=2,life=[3,5],column=[
        {name='id',kind='key',base=5,scramble=true},
        {name='name',kind='pick',entries=["Oslo","Li\tma"],weights=[1,1]},
    ]},
    {name='all',rows=7,insert=2,update=2,column=[
        {name='id',kind='key',base=5},
        {name='born',kind='born'},
        {name='changed',kind='changed'},
        {name='c0',kind='int',lo=1,hi=2,step=1},
        {name='c1',kind='fixed',lo=1,hi=2,decimals=1},
        {name='c2',kind='date',lo='1970-01-02',hi='1970-01-03'},
        {name='c3',kind='pick',entries=["Oslo","Li\tma"],weights=[1,1]},
        {name='c4',kind='skew',lo=1,size=2,power=1},
        {name='c5',kind='dict',file='words'},
        {name='c6',kind='words',file='words',lo=1,hi=9},
        {name='c7',kind='chars',alphabet='a\b',lo=0,hi=3},
        {name='c8',kind='uuid'},
        {name='case',kind='case',on='c3',branches=[
            {kind='int',lo=1,hi=2,step=1},
            {kind='date',lo='1970-01-02',hi='1970-01-03'},
        ]},
        {name='city',kind='ref',table='city',window=2,spread=[1]},
        {name='where',kind='lookup',via='city',column='name'},
        {name='label',kind='template',parts=['in ',{column='city'},{column='city'}]},
    ]},
]"#;

/// The keys of a table, its lineage, the cost of a row, and the greatest length of a line.
type Facts = (Keys, Lineage, u64, u64);

const CITY: Facts = (
    Keys {
        base: 5,
        scramble: true,
    },
    Lineage {
        sure_life: Some(3),
        longest_life: Some(5),
        death_cost: 1,
        loss_cost: 0,
        null_cost: 0,
    },
    3,
    28,
);

const ALL: Facts = (
    Keys {
        base: 5,
        scramble: false,
    },
    Lineage {
        sure_life: Some(1),
        longest_life: Some(5),
        death_cost: 2,
        loss_cost: 0,
        null_cost: 0,
    },
    11,
    264,
);

/// The costs of the columns of `all` from the case on.
const LAST_COSTS: [u64; 4] = [0, 2, 1, 4];

fn assert_facts(rt: &impl Abort, facts: &TableFacts, known: Facts) {
    assert!(rt; (facts.keys, facts.lineage, facts.cost, facts.max_line) == known);
}

// A city's line has 20 + 6 bytes. A city costs a permutation each for its row, its key and its life. The fields of `all` have 20, 5, 5,
// 20, 21, 10, 6, 20, 2, 8, 6, 36, 20, 20, 6 and 43 bytes. The reference asks 2 permutations, the template that cites it twice 4, and the lookup 1.
#[test]
fn facts_of_each_kind(rt: HostRuntime) {
    let schema = read_schema(rt.alloc(), EACH_KIND.as_bytes()).expect(&rt, "no schema");
    assert!(rt; schema.tables.len() == 2);
    let mut facts = [NO_FACTS; 2];
    fill_facts(&schema, &Dictionaries::new(rt.alloc()), &mut facts);
    assert_facts(&rt, &facts[0], CITY);
    assert_facts(&rt, &facts[1], ALL);
    assert!(rt; facts[0].column(0).cost == 1);
    for (place, cost) in LAST_COSTS.iter().enumerate() {
        assert!(rt; facts[1].column(12 + place).cost == *cost);
    }
}

/// Customers who live three units, and orders whose customers are drawn. Lines with an order and a customer, both drawn: a line goes with
/// its order and outlives its customer.
const DRAWN: &str = "seed=7
units=5
table=[
    {name='customer',rows=1,insert=1,life=[3,3],update=2,column=[
        {name='id',kind='key',base=1},
        {name='born',kind='born'},
        {name='changed',kind='changed'},
    ]},
    {name='orders',rows=1,insert=1,life=[9,9],column=[
        {name='id',kind='key',base=1},
        {name='customer',kind='ref',table='customer',window=2,deal='drawn'},
    ]},
    {name='lines',rows=1,insert=1,column=[
        {name='id',kind='key',base=1},
        {name='order',kind='ref',table='orders',window=0,deal='drawn'},
        {name='seller',kind='ref',table='customer',window=2,on_delete='null',deal='drawn'},
        {name='buyer',kind='lookup',via='order',column='customer'},
    ]},
]";

// Two permutations choose a parent that is drawn. The death of a customer asks 1, that of an order 1 + 2 + 1, and that of a line 2 + 4. A
// line's change asks for its seller 2 + 1. Its fields ask 2, 2 + 1 and 2 + 2.
const BOUNDS_OF_DRAWN: [Bounds; 3] = [
    (0, 3, 33, Some(3), Some(3)),
    (1, 7, 42, Some(1), Some(3)),
    (2, 19, 84, Some(1), Some(3)),
];

#[test]
fn costs_of_drawn_references(rt: HostRuntime) {
    let plan = plan_of(&rt, rt.alloc(), DRAWN, Dictionaries::new(rt.alloc()));
    assert_bounds(&rt, &plan, &BOUNDS_OF_DRAWN);
}

/// A chain of tables: how many references each table has to the one before it, the place of the table with scrambled keys, what each
/// table says beside, and what is told.
type Chain = (&'static [usize], usize, &'static str, Told);

// With 8 references deaths cost 0, 8, 72, 584 and 4,680, and from the 23rd table on the cost doesn't fit in 64 bits. In the last two
// chains they cost 0, 2, 5 * 3 = 15, 6 * 16 = 96, 6 * 97 = 582 and 7 * 583 = 4,081. The row adds 1, and each of its 7 references to
// scrambled keys adds 2: 4,096. A change takes one more.
const CHAINS: [Chain; 4] = [
    (&[8; 4], 64, "", None),
    (&[8; 64], 64, "", Some((23, 5, 0))),
    (&[0, 2, 5, 6, 6, 7], 4, "", None),
    (&[0, 2, 5, 6, 6, 7], 4, "update=1,", Some((23, 6, 0))),
];

/// Makes a table of a chain, with its number and `count` references to the table before it.
fn link(
    rt: &impl Abort,
    alloc: Global,
    number: usize,
    count: usize,
    scramble: bool,
    beside: &str,
) -> String {
    let before = number.wrapping_sub(1);
    let end = format!(in alloc; "',kind='ref',table='t{before}',window='all'}},").expect(
        rt, "memory",
    );
    let references = numbered(rt, alloc, "{name='r", count, end.as_str());
    let table = format!(in alloc;
        "{{name='t{number}',rows=7,insert=2,{beside}column=[{{name='id',kind='key',base=5,scramble={scramble}}},{references}]}},"
    );
    table.expect(rt, "memory")
}

/// Makes the tables of a chain. The first has no table before it.
fn chain(
    rt: &impl Abort,
    alloc: Global,
    counts: &[usize],
    scrambled: usize,
    beside: &str,
) -> String {
    let mut text = String::new(alloc);
    for (number, count) in counts.iter().enumerate() {
        let count = if number == 0 { 0 } else { *count };
        let link = link(rt, alloc, number, count, number == scrambled, beside);
        text.push_str(link.as_str()).expect(rt, "memory");
    }
    text
}

fn try_chains(rt: &impl Abort, alloc: Global, cases: &[Chain]) {
    for (counts, scrambled, beside, told) in cases {
        let tables = chain(rt, alloc, counts, *scrambled, beside);
        let pieces = ["seed=1\nunits=2\ntable=[", tables.as_str(), "]"];
        try_text(rt, alloc, &pieces, *told);
    }
}

#[test]
fn costs_of_chains(rt: HostRuntime) {
    try_chains(&rt, rt.alloc(), &CHAINS);
}
