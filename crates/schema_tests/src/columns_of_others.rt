//! Dates after dates, sums and products: their rules at their bounds and one past them, what they cost, and what a plan keeps of them. The
//! expected results were worked out by hand.

use crate::cases::{Told, plan_of, try_text};
use crate::plans::{Bounds, assert_bounds};
use schema_facts::{Dictionaries, Numbers};
use schema_plan::{Plan, ReadyColumn, ReadyKind};
use std::alloc::Global;
use std::process::Abort;

/// The beginning of a table of a key, a unit of birth, and the columns that follow.
const ONE: &str =
    "seed=1\nunits=2\ntable=[{name='t',rows=1,insert=1,column=[{name='id',kind='key',base=1},{name='born',kind='born'},";

/// The end of the table.
const END: &str = "]}]";

/// The third column: the day 2024-02-28 alone.
const DAY: &str = "{name='d',kind='date',lo='2024-02-28',hi='2024-02-28'},";

fn try_columns(rt: &impl Abort, alloc: Global, third: &str, cases: &[(&str, Told)]) {
    for (columns, told) in cases {
        try_text(rt, alloc, &[ONE, third, columns, END], *told);
    }
}

// A date follows a dated column that stands before it. A case is never dated, whatever its branches.
const FOLLOWED: [(&str, Told); 14] = [
    ("{name='due',kind='after',of='d',lo=1,hi=30}", None),
    (
        "{name='due',kind='after',of='d',lo=2,hi=2},{name='back',kind='after',of='due',lo=-2,hi=-2}",
        None,
    ),
    (
        "{name='due',kind='after',of='born',lo=1,hi=30}",
        Some((27, 1, 4)),
    ),
    (
        "{name='due',kind='after',of='due',lo=1,hi=30}",
        Some((27, 1, 4)),
    ),
    (
        "{name='due',kind='after',of='none',lo=1,hi=30}",
        Some((27, 1, 4)),
    ),
    (
        "{name='due',kind='after',of='e',lo=1,hi=30},{name='e',kind='date',lo='2024-02-28',hi='2024-02-28'}",
        Some((27, 1, 4)),
    ),
    (
        "{name='e',kind='born_date',start='2024-02-28'},{name='due',kind='after',of='e',lo=1,hi=30}",
        None,
    ),
    (
        "{name='p',kind='pick',entries=['x']},{name='e',kind='case',on='p',branches=[{kind='date',lo='2024-02-28',hi='2024-02-28'}]},{name='due',kind='after',of='e',lo=1,hi=30}",
        Some((27, 1, 6)),
    ),
    // From lo to hi, at most 36,525 days.
    ("{name='due',kind='after',of='d',lo=-36525,hi=36525}", None),
    (
        "{name='due',kind='after',of='d',lo=0,hi=36526}",
        Some((27, 1, 4)),
    ),
    (
        "{name='due',kind='after',of='d',lo=-36526,hi=0}",
        Some((27, 1, 4)),
    ),
    (
        "{name='due',kind='after',of='d',lo=2,hi=1}",
        Some((27, 1, 4)),
    ),
    (
        "{name='due',kind='after',of='d',lo=-9223372036854775808,hi=9223372036854775807}",
        Some((27, 1, 4)),
    ),
    // A part of a template can cite the date.
    (
        "{name='due',kind='after',of='d',lo=1,hi=30},{name='text',kind='template',parts=['by ',{column='due'}]}",
        None,
    ),
];

// The days stay in the calendar, from its first to its last.
const ENDS: [(&str, Told); 6] = [
    (
        "{name='d',kind='date',lo='0001-01-02',hi='9999-12-30'},{name='e',kind='after',of='d',lo=-1,hi=1}",
        None,
    ),
    (
        "{name='d',kind='date',lo='0001-01-01',hi='0001-01-01'},{name='e',kind='after',of='d',lo=-1,hi=1}",
        Some((27, 1, 4)),
    ),
    (
        "{name='d',kind='date',lo='9999-12-31',hi='9999-12-31'},{name='e',kind='after',of='d',lo=0,hi=1}",
        Some((27, 1, 4)),
    ),
    (
        "{name='d',kind='born_date',start='9999-12-28'},{name='e',kind='after',of='d',lo=0,hi=1}",
        None,
    ),
    (
        "{name='d',kind='born_date',start='9999-12-28'},{name='e',kind='after',of='d',lo=0,hi=2}",
        Some((27, 1, 4)),
    ),
    (
        "{name='d',kind='changed_date',start='9999-12-28',step=0},{name='e',kind='after',of='d',lo=0,hi=3,changes=true}",
        None,
    ),
];

// A date after one that moves changes too.
const MOVING: [(&str, Told); 4] = [
    (
        "{name='d',kind='date',lo='2024-02-28',hi='2024-02-28',changes=true},{name='e',kind='after',of='d',lo=1,hi=30}",
        Some((27, 1, 4)),
    ),
    (
        "{name='d',kind='date',lo='2024-02-28',hi='2024-02-28',changes=true},{name='e',kind='after',of='d',lo=1,hi=30,changes=true}",
        None,
    ),
    (
        "{name='d',kind='changed_date',start='2024-02-28'},{name='e',kind='after',of='d',lo=1,hi=30}",
        Some((27, 1, 4)),
    ),
    (
        "{name='d',kind='date',lo='2024-02-28',hi='2024-02-28'},{name='e',kind='after',of='d',lo=1,hi=30,changes=true},{name='f',kind='template',parts=[{column='e'}]}",
        Some((17, 1, 5)),
    ),
];

#[test]
fn dates_after_dates(rt: HostRuntime) {
    let alloc = rt.alloc();
    try_columns(&rt, alloc, DAY, &FOLLOWED);
    try_columns(&rt, alloc, "", &ENDS);
    try_columns(&rt, alloc, "", &MOVING);
}

/// The third column: the number 0 alone.
const ZERO: &str = "{name='z',kind='int',lo=0,hi=0},";

const OPERANDS: [(&str, Told); 14] = [
    ("{name='a',kind='sum',of=[]}", Some((28, 1, 4))),
    ("{name='a',kind='sum',of=['z']}", None),
    (
        "{name='a',kind='sum',of=['z','z','z','z','z','z','z','z']}",
        None,
    ),
    (
        "{name='a',kind='sum',of=['z','z','z','z','z','z','z','z','z']}",
        Some((28, 1, 4)),
    ),
    ("{name='a',kind='product',of=['z']}", Some((28, 1, 4))),
    ("{name='a',kind='product',of=['z','z','z','z']}", None),
    (
        "{name='a',kind='product',of=['z','z','z','z','z']}",
        Some((28, 1, 4)),
    ),
    ("{name='a',kind='sum',of=['z','born']}", Some((28, 1, 4))),
    ("{name='a',kind='sum',of=['z','id']}", Some((28, 1, 4))),
    ("{name='a',kind='sum',of=['z','a']}", Some((28, 1, 4))),
    ("{name='a',kind='sum',of=['z','none']}", Some((28, 1, 4))),
    (
        "{name='a',kind='sum',of=['z','b']},{name='b',kind='int',lo=0,hi=0}",
        Some((28, 1, 4)),
    ),
    (
        "{name='p',kind='pick',entries=['x']},{name='c',kind='case',on='p',branches=[{kind='int',lo=7,hi=7}]},{name='a',kind='sum',of=['c']}",
        Some((28, 1, 6)),
    ),
    (
        "{name='s',kind='skew',lo=1,size=2,power=1},{name='a',kind='product',of=['s','z']},{name='text',kind='template',parts=[{column='a'}]}",
        None,
    ),
];

// No partial sum and no product leaves the 64 bits, and no operand is their least number. With the digits of the sum, an operand can leave
// them too.
const RANGES: [(&str, Told); 12] = [
    (
        "{name='g',kind='int',lo=0,hi=3037000499},{name='a',kind='product',of=['g','g']}",
        None,
    ),
    (
        "{name='g',kind='int',lo=0,hi=3037000500},{name='a',kind='product',of=['g','g']}",
        Some((28, 1, 4)),
    ),
    (
        "{name='g',kind='int',lo=-3037000500,hi=0},{name='h',kind='int',lo=0,hi=3037000500},{name='a',kind='product',of=['g','h']}",
        Some((28, 1, 5)),
    ),
    (
        "{name='g',kind='int',lo=0,hi=9223372037},{name='f',kind='fixed',lo=0,hi=0,decimals=9},{name='a',kind='sum',of=['g','f']}",
        Some((28, 1, 5)),
    ),
    (
        "{name='g',kind='int',lo=0,hi=9223372036},{name='f',kind='fixed',lo=0,hi=0,decimals=9},{name='a',kind='sum',of=['g','f']}",
        None,
    ),
    (
        "{name='x',kind='int',lo=4611686018427387904,hi=4611686018427387904},{name='y',kind='int',lo=4611686018427387904,hi=4611686018427387904},{name='z',kind='int',lo=-4611686018427387904,hi=-4611686018427387904},{name='a',kind='sum',of=['x','y','z']}",
        Some((28, 1, 6)),
    ),
    (
        "{name='g',kind='int',lo=-9223372036854775808,hi=-9223372036854775808},{name='a',kind='sum',of=['g']}",
        Some((28, 1, 4)),
    ),
    (
        "{name='g',kind='int',lo=-9223372036854775807,hi=-9223372036854775807},{name='a',kind='sum',of=['g']}",
        None,
    ),
    (
        "{name='g',kind='int',lo=0,hi=0},{name='h',kind='int',lo=-9223372036854775808,hi=-9223372036854775808},{name='a',kind='product',of=['g','h']}",
        Some((28, 1, 5)),
    ),
    (
        "{name='f',kind='fixed',lo=0,hi=1,decimals=5},{name='a',kind='product',of=['f','f']}",
        Some((28, 1, 4)),
    ),
    (
        "{name='f',kind='fixed',lo=0,hi=1,decimals=5},{name='e',kind='fixed',lo=0,hi=1,decimals=4},{name='a',kind='product',of=['f','e']}",
        None,
    ),
    (
        "{name='s',kind='skew',lo=9223372036854775807,size=1,power=1},{name='a',kind='sum',of=['s']},{name='b',kind='sum',of=['s','s']}",
        Some((28, 1, 5)),
    ),
];

// 64 drawn values are read for b, and one more for c.
const READS: [(&str, Told); 2] = [
    (
        "{name='a',kind='sum',of=['z','z','z','z','z','z','z','z']},{name='b',kind='sum',of=['a','a','a','a','a','a','a','a']}",
        None,
    ),
    (
        "{name='a',kind='sum',of=['z','z','z','z','z','z','z','z']},{name='b',kind='sum',of=['a','a','a','a','a','a','a','a']},{name='c',kind='sum',of=['b','z']}",
        Some((28, 1, 6)),
    ),
];

const CHANGING: [(&str, Told); 4] = [
    (
        "{name='z',kind='int',lo=0,hi=0,changes=true},{name='a',kind='sum',of=['z']}",
        Some((28, 1, 4)),
    ),
    (
        "{name='z',kind='int',lo=0,hi=0,changes=true},{name='a',kind='sum',of=['z'],changes=true}",
        None,
    ),
    (
        "{name='y',kind='int',lo=0,hi=0},{name='z',kind='int',lo=0,hi=0,changes=true},{name='a',kind='product',of=['y','z']}",
        Some((28, 1, 5)),
    ),
    (
        "{name='y',kind='int',lo=0,hi=0},{name='a',kind='product',of=['y','y'],changes=true,null=999}",
        None,
    ),
];

#[test]
fn sums_and_products(rt: HostRuntime) {
    let alloc = rt.alloc();
    try_columns(&rt, alloc, ZERO, &OPERANDS);
    try_columns(&rt, alloc, "", &RANGES);
    try_columns(&rt, alloc, ZERO, &READS);
    try_columns(&rt, alloc, "", &CHANGING);
}

/// Customers, before their further columns.
const CUSTOMERS: &str =
    "seed=7\nunits=5\ntable=[{name='customer',rows=1,insert=1,life=[3,3],update=2,column=[{name='id',kind='key',base=1},{name='born',kind='born'},{name='changed',kind='changed'},";

/// Their orders, before their further columns.
const ORDERS: &str =
    "]},{name='orders',rows=1,insert=1,life=[9,9],column=[{name='id',kind='key',base=1},{name='customer',kind='ref',table='customer',window=2},";

/// A number of a customer.
const NUMBER: &str = "{name='n',kind='int',lo=3,hi=3}";

/// Each sum has the eight times the cost of the one before it. The cost of the last is past 64 bits.
const EIGHTFOLD: usize = 24;

// 8 * 8 * 8 * 8 permutations are too many, and no number of permutations is taken for a smaller one.
#[test]
fn costs_of_sums_of_sums(rt: HostRuntime) {
    let alloc = rt.alloc();
    let front = [CUSTOMERS, NUMBER, ORDERS];
    let mut text = front.concat(alloc).expect(&rt, "memory");
    text.push_str("{name='s0',kind='lookup',via='customer',column='n'}")
        .expect(&rt, "memory");
    for number in 1..EIGHTFOLD {
        let before = number - 1;
        let name = format!(in alloc; "'s{before}'").expect(&rt, "memory");
        let name = name.as_str();
        let column = format!(in alloc;
            ",{{name='s{number}',kind='sum',of=[{name},{name},{name},{name},{name},{name},{name},{name}]}}"
        );
        text.push_str(column.expect(&rt, "memory").as_str())
            .expect(&rt, "memory");
    }
    try_text(&rt, alloc, &[text.as_str(), END], Some((23, 2, 0)));
}

/// The further columns of customers and of orders, and the bounds of both tables.
type Sales = (&'static str, &'static str, [Bounds; 2]);

/// A day and a number of customers. Orders look up both. They have a date after the day, and a sum and a product in which the number stands
/// twice.
const BOTH: Sales = (
    "{name='d',kind='date',lo='2024-02-28',hi='2024-02-28'},{name='n',kind='int',lo=3,hi=3}",
    "{name='day',kind='lookup',via='customer',column='d'},{name='due',kind='after',of='day',lo=0,hi=9},{name='n',kind='lookup',via='customer',column='n'},{name='twice',kind='sum',of=['n','n']},{name='square',kind='product',of=['n','n']}",
    [(0, 3, 65, Some(3), Some(3)), (1, 12, 129, Some(1), Some(3))],
);

// Without further columns a customer's line has 33 bytes and an order's 42, and an order costs 5. A day has 10 bytes, a number 20, and a sum
// or a product 21. What is looked up asks 1 permutation, and so does each time that it is named.
const SALES: [Sales; 3] = [
    (
        "{name='d',kind='date',lo='2024-02-28',hi='2024-02-28'}",
        "{name='look',kind='lookup',via='customer',column='d'},{name='due',kind='after',of='look',lo=0,hi=9}",
        [(0, 3, 44, Some(3), Some(3)), (1, 7, 64, Some(1), Some(3))],
    ),
    (
        NUMBER,
        "{name='look',kind='lookup',via='customer',column='n'},{name='twice',kind='sum',of=['look','look']}",
        [(0, 3, 54, Some(3), Some(3)), (1, 8, 85, Some(1), Some(3))],
    ),
    BOTH,
];

fn plan_of_sales(rt: &impl Abort, alloc: Global, sales: &Sales) -> Plan {
    let (customers, orders, _) = *sales;
    let pieces = [CUSTOMERS, customers, ORDERS, orders, END];
    let text = pieces.concat(alloc).expect(rt, "memory");
    plan_of(rt, alloc, text.as_str(), Dictionaries::new(alloc))
}

/// The numbers of twice 3 and of 3 times 3.
const TWICE: Numbers = Numbers {
    decimals: 0,
    least: 6,
    greatest: 6,
    reads: 2,
};

const SQUARE: Numbers = Numbers {
    decimals: 0,
    least: 9,
    greatest: 9,
    reads: 2,
};

/// Asserts what is kept of the last columns.
fn assert_ready(rt: &impl Abort, columns: &[ReadyColumn]) {
    match columns {
        [_, _, _, due, _, twice, square] => {
            match (&due.kind, &twice.kind, &square.kind) {
                (
                    ReadyKind::After(after),
                    ReadyKind::Sum { of: summands },
                    ReadyKind::Product { of: factors },
                ) => {
                    assert!(rt;
                        (after.of, after.lo, after.hi) == (2, 0, 9) && after.choices.number() == 10
                    );
                    assert!(rt; summands.as_slice() == [4, 4].as_slice());
                    assert!(rt; factors.as_slice() == [4, 4].as_slice());
                }
                _ => panic!(rt; "other kinds"),
            }
        }
        _ => panic!(rt; "other columns"),
    }
}

fn assert_numbers(rt: &impl Abort, plan: &Plan) {
    assert!(rt; plan.tables() == 2);
    assert!(rt; plan.numbers(1, 3).is_none());
    assert!(rt; plan.numbers(1, 5) == Some(TWICE) && plan.numbers(1, 6) == Some(SQUARE));
}

#[test]
fn columns_of_others_in_a_plan(rt: HostRuntime) {
    let plan = plan_of_sales(&rt, rt.alloc(), &BOTH);
    assert_numbers(&rt, &plan);
    assert!(rt; 1 < plan.tables());
    assert_ready(&rt, plan.columns(1));
}

#[test]
fn figures_of_what_is_looked_up(rt: HostRuntime) {
    for sales in &SALES {
        let (_, _, bounds) = sales;
        let plan = plan_of_sales(&rt, rt.alloc(), sales);
        assert_bounds(&rt, &plan, bounds);
    }
}

/// The worked figures of four accepted schemas: the further columns of the one table, and the length of a line.
const FIGURES: [(&str, u64); 4] = [
    (
        "{name='g',kind='int',lo=0,hi=3037000499},{name='a',kind='product',of=['g','g']}",
        70,
    ),
    (
        "{name='z',kind='int',lo=0,hi=0},{name='a',kind='sum',of=['z','z','z','z','z','z','z','z']},{name='b',kind='sum',of=['a','a','a','a','a','a','a','a']}",
        92,
    ),
    (
        "{name='x',kind='int',lo=4611686018427387904,hi=4611686018427387904},{name='y',kind='int',lo=4611686018427387904,hi=4611686018427387904},{name='z',kind='int',lo=-4611686018427387904,hi=-4611686018427387904},{name='a',kind='sum',of=['x','z','y']}",
        112,
    ),
    (
        "{name='d',kind='date',lo='2024-02-28',hi='2024-02-28'},{name='due',kind='after',of='d',lo=2,hi=2}",
        49,
    ),
];

fn assert_figure(rt: &impl Abort, alloc: Global, columns: &str, line: u64) {
    let text = [ONE, columns, END].concat(alloc).expect(rt, "memory");
    let plan = plan_of(rt, alloc, text.as_str(), Dictionaries::new(alloc));
    assert_bounds(rt, &plan, &[(0, 1, line, None, None)]);
}

#[test]
fn worked_figures(rt: HostRuntime) {
    for (columns, line) in &FIGURES {
        assert_figure(&rt, rt.alloc(), columns, *line);
    }
}
