//! The columns of a schema as a plan keeps them, worked out by hand.

use crate::cases::plan_of;
use crate::plans::{Bounds, assert_bounds};
use crate::word_list_rules::word_lists;
use fixed_divisors::FixedDivisor;
use row_text::WrittenTexts;
use schema_plan::{
    Plan, ReadyColumn, ReadyKind, ReadyLeaf, ReadyLookup, ReadyReference, ReadyWords,
};
use std::process::Abort;
use weight_tables::Weights;

/// A table with two numbers, a date, a pick, a skew and a UUID. Characters that are sometimes null, and a case: a number for the first entry of a
/// pick and a date for the second. Customers who live 3 units and change every 2. Orders that live at most 9 units, each of a customer who
/// is at most 2 units older. Lines, each as old as its order, which is drawn. Parents who live for ever, and children of any of them, who show when their
/// parents were born. An entry of a word list, and up to three of them.
const KEPT: &str = r#"seed=1
units=4
delimiter='bar'
table=[
    {name='drawn',rows=1,insert=0,column=[
        {name='id',kind='key',base=1},
        {name='born',kind='born'},
        {name='count',kind='int',lo=-5,hi=20,step=4},
        {name='price',kind='fixed',lo=50,hi=1049,decimals=2},
        {name='day',kind='date',lo='1969-12-31',hi='1970-01-31'},
        {name='word',kind='pick',entries=['plain','a|b\c'],weights=[3,4]},
        {name='rank',kind='skew',lo=10,size=4,power=2},
        {name='token',kind='uuid'},
    ]},
    {name='composed',rows=1,insert=0,column=[
        {name='id',kind='key',base=1},
        {name='code',kind='chars',alphabet='a|é',lo=2,hi=5,null=250},
        {name='word',kind='pick',entries=['x','y'],weights=[1,3]},
        {name='choice',kind='case',on='word',null=999,branches=[
            {kind='int',lo=0,hi=9,step=3},
            {kind='date',lo='1970-01-06',hi='1970-01-10'},
        ]},
    ]},
    {name='customers',rows=9,insert=2,life=[3,3],update=2,column=[
        {name='id',kind='key',base=1},
    ]},
    {name='orders',rows=9,insert=2,life=[9,9],column=[
        {name='id',kind='key',base=1},
        {name='ref',kind='ref',table='customers',window=2,spread=[3,3]},
    ]},
    {name='lines',rows=9,insert=2,column=[
        {name='id',kind='key',base=1},
        {name='ref',kind='ref',table='orders',window=0,spread=[3,3],deal='drawn'},
    ]},
    {name='parents',rows=1,insert=0,column=[
        {name='id',kind='key',base=1},
        {name='born',kind='born'},
    ]},
    {name='children',rows=9,insert=2,column=[
        {name='id',kind='key',base=1},
        {name='ref',kind='ref',table='parents',window='all',spread=[3,3]},
        {name='shown',kind='lookup',via='ref',column='born'},
    ]},
    {name='words',rows=1,insert=0,column=[
        {name='id',kind='key',base=1},
        {name='one',kind='dict',file='n'},
        {name='some',kind='words',file='n',lo=1,hi=3},
    ]},
]"#;

/// The least and the greatest number of a range, its step or its unit, its choices and its decimals.
type Range = (i64, i64, u64, u64, u32);

/// Returns the numbers of a value that is drawn from a range.
fn range_of(leaf: &ReadyLeaf) -> Option<Range> {
    match leaf {
        ReadyLeaf::Int {
            lo,
            hi,
            step,
            choices,
        } => Some((*lo, *hi, *step, choices.number(), 0)),
        ReadyLeaf::Fixed {
            lo,
            hi,
            choices,
            decimals,
            unit,
        } => Some((*lo, *hi, unit.number(), choices.number(), *decimals)),
        ReadyLeaf::Date { lo, hi, choices } => {
            Some((i64::from(*lo), i64::from(*hi), 1, choices.number(), 0))
        }
        _ => None,
    }
}

fn assert_range(rt: &impl Abort, column: &ReadyColumn, range: Range) {
    match &column.kind {
        ReadyKind::Drawn(leaf) => assert!(rt; range_of(leaf) == Some(range)),
        _ => panic!(rt; "not drawn"),
    }
}

/// Asserts the sum of some weights. `last` is the last number of the first weight, and `first` the first number of the second.
fn assert_weights(
    rt: &impl Abort,
    weights: &Weights,
    divisor: &FixedDivisor,
    last: u64,
    first: u64,
    total: u64,
) {
    assert!(rt; weights.total() == total && divisor.number() == total);
    assert!(rt; last < weights.total() && weights.select(last) == 0);
    assert!(rt; first < weights.total() && weights.select(first) == 1);
}

fn assert_texts(rt: &impl Abort, texts: &WrittenTexts, written: &[&[u8]]) {
    assert!(rt; texts.len() == written.len());
    for (place, text) in written.iter().enumerate() {
        assert!(rt; place < texts.len() && texts.get(place) == *text);
    }
}

/// Asserts the entries with the escapes of bars.
fn assert_word(rt: &impl Abort, word: &ReadyColumn) {
    match &word.kind {
        ReadyKind::Drawn(
            ReadyLeaf::Pick {
                entries,
                weights,
                total,
            },
        ) => {
            assert_texts(rt, entries, &[b"plain", b"a\\|b\\\\c"]);
            assert_weights(rt, weights, total, 2, 3, 7);
        }
        _ => panic!(rt; "word"),
    }
}

/// Asserts the harmonic weights. Their total is 10^9 + 10^9 / 4 + 10^9 / 9 + 10^9 / 16.
fn assert_rank(rt: &impl Abort, rank: &ReadyColumn) {
    match &rank.kind {
        ReadyKind::Drawn(ReadyLeaf::Skew { lo, weights, total }) => {
            assert!(rt; *lo == 10);
            assert_weights(
                rt,
                weights,
                total,
                999_999_999,
                1_000_000_000,
                1_423_611_111,
            );
        }
        _ => panic!(rt; "rank"),
    }
}

/// Asserts a key that is never null, a unit of birth, 25 / 4 + 1 numbers in steps of 4, 1,000 hundredths and 32 days.
fn assert_drawn(rt: &impl Abort, columns: &[ReadyColumn]) {
    match columns {
        [key, born, count, price, day, word, rank, token] => {
            assert!(rt; matches!(key.kind, ReadyKind::Key) && key.null == 0);
            assert!(rt; matches!(born.kind, ReadyKind::Born));
            assert_range(rt, count, (-5, 20, 4, 7, 0));
            assert_range(rt, price, (50, 1_049, 100, 1_000, 2));
            assert_range(rt, day, (-1, 30, 1, 32, 0));
            assert_word(rt, word);
            assert_rank(rt, rank);
            assert!(rt; matches!(token.kind, ReadyKind::Drawn(ReadyLeaf::Uuid)));
        }
        _ => panic!(rt; "drawn"),
    }
}

/// Asserts 2 to 5 characters, with the escape of the bar.
fn assert_code(rt: &impl Abort, code: &ReadyColumn) {
    assert!(rt; code.null == 250);
    match &code.kind {
        ReadyKind::Drawn(
            ReadyLeaf::Chars {
                lo,
                lengths,
                characters,
                count,
            },
        ) => {
            assert!(rt; *lo == 2 && lengths.number() == 4 && count.number() == 3);
            assert_texts(rt, characters, &[b"a", b"\\|", b"\xc3\xa9"]);
        }
        _ => panic!(rt; "code"),
    }
}

/// Asserts branches by the entry of the column at place 2: 4 numbers in steps of 3, and 5 days.
fn assert_choice(rt: &impl Abort, choice: &ReadyColumn) {
    assert!(rt; choice.null == 999);
    match &choice.kind {
        ReadyKind::Case { on, branches } => {
            assert!(rt; *on == 2 && branches.len() == 2);
            assert!(rt; range_of(branches.get(0)) == Some((0, 9, 3, 4, 0)));
            assert!(rt; range_of(branches.get(1)) == Some((5, 9, 1, 5, 0)));
        }
        _ => panic!(rt; "choice"),
    }
}

fn assert_composed(rt: &impl Abort, columns: &[ReadyColumn]) {
    match columns {
        [_, code, _, choice] => {
            assert_code(rt, code);
            assert_choice(rt, choice);
        }
        _ => panic!(rt; "composed"),
    }
}

/// The place of the parents' table, the window, and whether the parents are drawn.
type Referring = (u32, Option<u64>, bool);

/// Asserts a reference with two weights of 3.
fn assert_made(rt: &impl Abort, made: &ReadyReference, wanted: Referring) {
    assert!(rt; (made.parent, made.window, made.drawn) == wanted && made.groups == 2);
    assert_weights(rt, &made.spread, &made.total, 2, 3, 6);
}

/// Asserts a table of a key and a reference with two weights of 3.
fn assert_referring(rt: &impl Abort, columns: &[ReadyColumn], wanted: Referring) {
    match columns {
        [_, reference] => match &reference.kind {
            ReadyKind::Reference(made) => assert_made(rt, made, wanted),
            _ => panic!(rt; "no reference"),
        },
        _ => panic!(rt; "referring"),
    }
}

/// Asserts a table of a key, a reference without a window to the table at place 5, and a lookup of that table's second column.
fn assert_looking_up(rt: &impl Abort, columns: &[ReadyColumn]) {
    let (via, parent, column) = (1, 5, 1);
    let wanted = ReadyLookup {
        via,
        parent,
        column,
    };
    match columns {
        [_, reference, lookup] => match (&reference.kind, &lookup.kind) {
            (ReadyKind::Reference(made), ReadyKind::Lookup(found)) => {
                assert_made(rt, made, (5, None, false));
                assert!(rt; *found == wanted);
            }
            _ => panic!(rt; "no lookup"),
        },
        _ => panic!(rt; "looking up"),
    }
}

/// Asserts the entries as they are written between bars. The first has 3 of 4 draws.
fn assert_words(rt: &impl Abort, words: &ReadyWords) {
    assert!(rt; words.len() == 2);
    assert!(rt; words.entry(0) == b"A\\|n".as_slice());
    assert!(rt; words.entry(1) == b"Bo".as_slice());
    assert!(rt; words.choose(0) == 0 && words.choose(2) == 0 && words.choose(3) == 1);
    assert!(rt; words.choose(4) == 0 && words.choose(7) == 1);
}

/// Asserts that two columns draw these words.
fn assert_drawing(rt: &impl Abort, columns: &[ReadyColumn]) {
    match columns {
        [_, one, some] => match (&one.kind, &some.kind) {
            (
                ReadyKind::Drawn(ReadyLeaf::Dict(one)),
                ReadyKind::Drawn(ReadyLeaf::Words { words, .. }),
            ) => {
                assert_words(rt, one);
                assert_words(rt, words);
            }
            _ => panic!(rt; "no words"),
        },
        _ => panic!(rt; "words"),
    }
}

fn assert_columns(rt: &impl Abort, plan: &Plan) {
    assert!(rt; plan.tables() == 8);
    assert_drawn(rt, plan.columns(0));
    assert_composed(rt, plan.columns(1));
    assert_referring(rt, plan.columns(3), (2, Some(2), false));
    assert_referring(rt, plan.columns(4), (3, Some(0), true));
    assert_looking_up(rt, plan.columns(6));
    assert_drawing(rt, plan.columns(7));
}

// An order lives at least 3 - 2 units, and no row lives longer than its customer. A row takes 1 permutation, an order's reference 1 and a
// line's, which is drawn, 2. The death of a customer takes 1 and a change 1, the death of an order 1 + 1 + 1, and that of a line 2 + 3. A line has at most 20 bytes for
// a key, 20 for a reference and 4 for an entry. Up to three words take three entries and two spaces. Each field has a byte after it.
const BOUNDS: [Bounds; 4] = [
    (2, 3, 21, Some(3), Some(3)),
    (3, 5, 42, Some(1), Some(3)),
    (4, 8, 42, Some(1), Some(3)),
    (7, 1, 20 + 4 + 14 + 3, None, None),
];

fn assert_dictionaries(rt: &impl Abort, plan: &Plan) {
    assert!(rt; plan.dictionary("o").is_none());
    match plan.dictionary("n") {
        Some(words) => assert!(rt; words.len() == 2),
        None => panic!(rt; "no dictionary"),
    }
}

#[test]
fn columns_are_kept_ready_for_rows(rt: HostRuntime) {
    let given = word_lists(&rt, rt.alloc(), "m", "n", b"A|n\t3\nBo\n");
    let plan = plan_of(&rt, rt.alloc(), KEPT, given);
    assert_columns(&rt, &plan);
    assert_bounds(&rt, &plan, &BOUNDS);
    assert_dictionaries(&rt, &plan);
}
