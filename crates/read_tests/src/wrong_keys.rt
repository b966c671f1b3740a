//! Texts with a wrong key. Each stands after the key that is wrong first. The expected results follow from the table of keys: a key of
//! another type, a missing required key, and a further key, each once at each place and kind.

use schema_read::{ReadSchemaFault, read_schema};
use std::alloc::Global;
use std::process::Abort;

// Whole texts with one wrong key at the top.
const TOP_FAULTS: [&str; 8] = [
    "Seed Whole: seed=1.0\nunits=1\ndelimiter='bar'\ntable=[]",
    "Seed Whole: units=1\ndelimiter='bar'\ntable=[]",
    "Units Whole: seed=1\nunits=1.0\ndelimiter='bar'\ntable=[]",
    "Units Whole: seed=1\ndelimiter='bar'\ntable=[]",
    "Delimiter DelimiterName: seed=1\nunits=1\ndelimiter='comma'\ntable=[]",
    "Table TableList: seed=1\nunits=1\ndelimiter='bar'\ntable=[1]",
    "Table TableList: seed=1\nunits=1\ndelimiter='bar'",
    "Other NoSuchKey: seed=1\nunits=1\ndelimiter='bar'\ntable=[]\nzz=1",
];

// The keys of the first table, with one wrong key.
const TABLE_FAULTS: [&str; 10] = [
    "Name TextValue: name=1,rows=1,insert=1,life=[1,2],update=1,column=[]",
    "Name TextValue: rows=1,insert=1,life=[1,2],update=1,column=[]",
    "Rows Whole: name='a',rows=1.0,insert=1,life=[1,2],update=1,column=[]",
    "Rows Whole: name='a',insert=1,life=[1,2],update=1,column=[]",
    "Insert InsertValue: name='a',rows=1,insert=1.0,life=[1,2],update=1,column=[]",
    "Life TwoWholes: name='a',rows=1,insert=1,life=[1,2,3],update=1,column=[]",
    "Update Whole: name='a',rows=1,insert=1,life=[1,2],update=1.0,column=[]",
    "Column TableList: name='a',rows=1,insert=1,life=[1,2],update=1,column=[1]",
    "Column TableList: name='a',rows=1,insert=1,life=[1,2],update=1",
    "Other NoSuchKey: name='a',rows=1,insert=1,life=[1,2],update=1,column=[],zz=1",
];

// The keys of the first column of the first table, with one wrong key.
const COLUMN_FAULTS: [&str; 105] = [
    "Name TextValue: name=1,kind='born',changes=true,null=1",
    "Name TextValue: kind='born',changes=true,null=1",
    "Kind KindName: name='c',kind='nope',changes=true,null=1",
    "Kind KindName: name='c',changes=true,null=1",
    "Changes Flag: name='c',kind='born',changes=1,null=1",
    "Null Whole: name='c',kind='born',changes=true,null=1.0",
    "Base Whole: name='c',kind='key',base=1.0,scramble=true",
    "Base Whole: name='c',kind='key',scramble=true",
    "Scramble Flag: name='c',kind='key',base=1,scramble=1",
    "Other NoSuchKey: name='c',kind='key',base=1,scramble=true,zz=1",
    "Other NoSuchKey: name='c',kind='born',zz=1",
    "Other NoSuchKey: name='c',kind='changed',zz=1",
    "File TextValue: name='c',kind='list',file=1",
    "File TextValue: name='c',kind='list'",
    "Other NoSuchKey: name='c',kind='list',file='f',lo=1",
    "Start DateText: name='c',kind='born_date',start='2023-02-29',step=1",
    "Start DateText: name='c',kind='born_date',step=1",
    "Step Whole: name='c',kind='born_date',start='2024-02-29',step=1.0",
    "Other NoSuchKey: name='c',kind='born_date',start='2024-02-29',zz=1",
    "Start DateText: name='c',kind='changed_date',start=1",
    "Step Whole: name='c',kind='changed_date',start='2024-02-29',step='1'",
    "Other NoSuchKey: name='c',kind='changed_date',start='2024-02-29',lo=1",
    "Of TextValue: name='c',kind='after',of=['d'],lo=1,hi=1",
    "Of TextValue: name='c',kind='after',lo=1,hi=1",
    "Lo Whole: name='c',kind='after',of='d',lo='2024-02-28',hi=1",
    "Lo Whole: name='c',kind='after',of='d',hi=1",
    "Hi Whole: name='c',kind='after',of='d',lo=1,hi=1.0",
    "Hi Whole: name='c',kind='after',of='d',lo=1",
    "Other NoSuchKey: name='c',kind='after',of='d',lo=1,hi=1,step=1",
    "Of TextList: name='c',kind='sum',of='d'",
    "Of TextList: name='c',kind='sum',of=['d',1]",
    "Of TextList: name='c',kind='sum'",
    "Other NoSuchKey: name='c',kind='sum',of=['d'],decimals=1",
    "Of TextList: name='c',kind='product',of=1",
    "Other NoSuchKey: name='c',kind='product',of=['d'],lo=1",
    "Lo Whole: name='c',kind='int',lo=1.0,hi=1,step=1",
    "Lo Whole: name='c',kind='int',hi=1,step=1",
    "Hi Whole: name='c',kind='int',lo=1,hi=1.0,step=1",
    "Hi Whole: name='c',kind='int',lo=1,step=1",
    "Step Whole: name='c',kind='int',lo=1,hi=1,step=1.0",
    "Other NoSuchKey: name='c',kind='int',lo=1,hi=1,step=1,zz=1",
    "Lo Whole: name='c',kind='fixed',lo=1.0,hi=1,decimals=1",
    "Lo Whole: name='c',kind='fixed',hi=1,decimals=1",
    "Hi Whole: name='c',kind='fixed',lo=1,hi=1.0,decimals=1",
    "Hi Whole: name='c',kind='fixed',lo=1,decimals=1",
    "Decimals Whole: name='c',kind='fixed',lo=1,hi=1,decimals=1.0",
    "Decimals Whole: name='c',kind='fixed',lo=1,hi=1",
    "Other NoSuchKey: name='c',kind='fixed',lo=1,hi=1,decimals=1,zz=1",
    "Lo DateText: name='c',kind='date',lo='2023-02-29',hi='2024-02-29'",
    "Lo DateText: name='c',kind='date',hi='2024-02-29'",
    "Hi DateText: name='c',kind='date',lo='2024-02-29',hi='2023-02-29'",
    "Hi DateText: name='c',kind='date',lo='2024-02-29'",
    "Other NoSuchKey: name='c',kind='date',lo='2024-02-29',hi='2024-02-29',zz=1",
    "Entries TextList: name='c',kind='pick',entries=['a',1],weights=[1]",
    "Entries TextList: name='c',kind='pick',weights=[1]",
    "Weights Wholes: name='c',kind='pick',entries=['a'],weights=[1,true]",
    "Other NoSuchKey: name='c',kind='pick',entries=['a'],weights=[1],zz=1",
    "Lo Whole: name='c',kind='skew',lo=1.0,size=1,power=1",
    "Lo Whole: name='c',kind='skew',size=1,power=1",
    "Size Whole: name='c',kind='skew',lo=1,size=1.0,power=1",
    "Size Whole: name='c',kind='skew',lo=1,power=1",
    "Power Whole: name='c',kind='skew',lo=1,size=1,power=1.0",
    "Power Whole: name='c',kind='skew',lo=1,size=1",
    "Other NoSuchKey: name='c',kind='skew',lo=1,size=1,power=1,zz=1",
    "File TextValue: name='c',kind='dict',file=1",
    "File TextValue: name='c',kind='dict'",
    "Other NoSuchKey: name='c',kind='dict',file='a',zz=1",
    "File TextValue: name='c',kind='words',file=1,lo=1,hi=1",
    "File TextValue: name='c',kind='words',lo=1,hi=1",
    "Lo Whole: name='c',kind='words',file='a',lo=1.0,hi=1",
    "Lo Whole: name='c',kind='words',file='a',hi=1",
    "Hi Whole: name='c',kind='words',file='a',lo=1,hi=1.0",
    "Hi Whole: name='c',kind='words',file='a',lo=1",
    "Other NoSuchKey: name='c',kind='words',file='a',lo=1,hi=1,zz=1",
    "Alphabet TextValue: name='c',kind='chars',alphabet=1,lo=1,hi=1",
    "Alphabet TextValue: name='c',kind='chars',lo=1,hi=1",
    "Lo Whole: name='c',kind='chars',alphabet='a',lo=1.0,hi=1",
    "Lo Whole: name='c',kind='chars',alphabet='a',hi=1",
    "Hi Whole: name='c',kind='chars',alphabet='a',lo=1,hi=1.0",
    "Hi Whole: name='c',kind='chars',alphabet='a',lo=1",
    "Other NoSuchKey: name='c',kind='chars',alphabet='a',lo=1,hi=1,zz=1",
    "Other NoSuchKey: name='c',kind='uuid',lo=1",
    "Parts PartList: name='c',kind='template',parts=[{column='a',x=1}]",
    "Parts PartList: name='c',kind='template'",
    "Other NoSuchKey: name='c',kind='template',parts=['a',{column='b'}],zz=1",
    "On TextValue: name='c',kind='case',on=1,branches=[]",
    "On TextValue: name='c',kind='case',branches=[]",
    "Branches TableList: name='c',kind='case',on='a',branches=[1]",
    "Branches TableList: name='c',kind='case',on='a'",
    "Other NoSuchKey: name='c',kind='case',on='a',branches=[],zz=1",
    "Table TextValue: name='c',kind='ref',table=1,window='all',spread=[1]",
    "Table TextValue: name='c',kind='ref',window='all',spread=[1]",
    "Window WindowValue: name='c',kind='ref',table='a',window='two',spread=[1]",
    "Window WindowValue: name='c',kind='ref',table='a',spread=[1]",
    "Spread Wholes: name='c',kind='ref',table='a',window='all',spread=[1,true]",
    "OnDelete DeleteName: name='c',kind='ref',table='a',window='all',spread=[1],on_delete=1,deal=1",
    "Deal DealName: name='c',kind='ref',table='a',window='all',spread=[1],on_delete='null',deal='x'",
    "Other NoSuchKey: name='c',kind='ref',table='a',window='all',spread=[1],on_delete='null',deal='drawn',zz=1",
    "Via TextValue: name='c',kind='lookup',via=1,column='a'",
    "Via TextValue: name='c',kind='lookup',column='a'",
    "Column TextValue: name='c',kind='lookup',via='a',column=1",
    "Column TextValue: name='c',kind='lookup',via='a'",
    "Other NoSuchKey: name='c',kind='lookup',via='a',column='a',zz=1",
    "Other NoSuchKey: name='c',kind='lookup',via='a',column='a',on_delete='null'",
    "Other NoSuchKey: name='c',kind='lookup',via='a',column='a',deal='turn'",
];

// The keys of the first branch of a case, with one wrong key.
const BRANCH_FAULTS: [&str; 21] = [
    "Kind LeafName: lo=1,hi=2",
    "Kind LeafName: kind='key',base=1",
    "Kind LeafName: kind='case'",
    "Kind LeafName: ",
    "Other NoSuchKey: kind='int',lo=1,hi=1,step=1,changes=true",
    "Step Whole: kind='int',lo=1,hi=1,step=1.0",
    "Other NoSuchKey: kind='fixed',lo=1,hi=1,decimals=1,changes=true",
    "Decimals Whole: kind='fixed',lo=1,hi=1,decimals=1.0",
    "Other NoSuchKey: kind='date',lo='2024-02-29',hi='2024-02-29',changes=true",
    "Hi DateText: kind='date',lo='2024-02-29',hi='2023-02-29'",
    "Other NoSuchKey: kind='pick',entries=['a'],weights=[1],changes=true",
    "Weights Wholes: kind='pick',entries=['a'],weights=[1,true]",
    "Other NoSuchKey: kind='skew',lo=1,size=1,power=1,changes=true",
    "Power Whole: kind='skew',lo=1,size=1,power=1.0",
    "Other NoSuchKey: kind='dict',file='a',changes=true",
    "File TextValue: kind='dict',file=1",
    "Other NoSuchKey: kind='words',file='a',lo=1,hi=1,changes=true",
    "Hi Whole: kind='words',file='a',lo=1,hi=1.0",
    "Other NoSuchKey: kind='chars',alphabet='a',lo=1,hi=1,changes=true",
    "Hi Whole: kind='chars',alphabet='a',lo=1,hi=1.0",
    "Other NoSuchKey: kind='uuid',changes=true",
];

// Whole texts with the place of the first wrong key. Places go depth first, each with its further keys.
const ORDER: [((u64, u64, u64), &str); 12] = [
    ((0, 0, 0), "Units Whole: seed=1"),
    (
        (0, 0, 0),
        "Other NoSuchKey: seed=1\nunits=1\nzz=1\ntable=[{}]",
    ),
    (
        (1, 0, 0),
        "Other NoSuchKey: seed=1\nunits=1\ntable=[{name='t',rows=1,column=[{}],zz=1}]",
    ),
    (
        (1, 2, 0),
        "Name TextValue: seed=1\nunits=1\ntable=[{name='t',rows=1,column=[{name='a',kind='born'},{kind='born'}]},{}]",
    ),
    (
        (2, 0, 0),
        "Rows Whole: seed=1\nunits=1\ntable=[{name='t',rows=1,column=[]},{name='u',rows='1'}]",
    ),
    (
        (1, 1, 0),
        "Other NoSuchKey: seed=1\nunits=1\ntable=[{name='t',rows=1,column=[{name='c',kind='case',on='x',branches=[{}],zz=1}]}]",
    ),
    (
        (1, 1, 2),
        "File TextValue: seed=1\nunits=1\ntable=[{name='t',rows=1,column=[{name='c',kind='case',on='x',branches=[{kind='dict',file='f'},{kind='dict'}]},{}]}]",
    ),
    (
        (1, 0, 0),
        "Insert InsertValue: seed=1\nunits=1\ntable=[{name='t',rows=1,insert=[[1,2],[3]],life=[],column=[]}]",
    ),
    (
        (1, 1, 0),
        "Spread Wholes: seed=1\nunits=1\ntable=[{name='t',rows=1,column=[{name='c',kind='ref',table='a',window=1,spread=1,on_delete='none'}]}]",
    ),
    (
        (1, 0, 0),
        "Life TwoWholes: seed=1\nunits=1\ntable=[{name='t',rows=1,life=[],column=[]}]",
    ),
    (
        (1, 0, 0),
        "Life TwoWholes: seed=1\nunits=1\ntable=[{name='t',rows=1,life=[1],column=[]}]",
    ),
    (
        (1, 0, 0),
        "Life TwoWholes: seed=1\nunits=1\ntable=[{name='t',rows=1,life=[1,2.0],column=[]}]",
    ),
];

// Values that are no date: the day isn't in the calendar, or the text isn't ten bytes YYYY-MM-DD.
const NO_DATES: [&str; 12] = [
    "Lo DateText: '0000-01-01'",
    "Lo DateText: '2023-00-10'",
    "Lo DateText: '2023-13-01'",
    "Lo DateText: '2023-04-31'",
    "Lo DateText: '2023-01-00'",
    "Lo DateText: '1900-02-29'",
    "Lo DateText: '2023-1-001'",
    "Lo DateText: '2023-01-1'",
    "Lo DateText: '12023-01-1'",
    "Lo DateText: '2023/01/01'",
    "Lo DateText: '+023-01-01'",
    "Lo DateText: 2023-01-01",
];

// Values that are no number of births and no list of pairs, no name of a deletion, no name of a deal, no window, and no list of parts.
const NO_INSERTS: [&str; 8] = [
    "Insert InsertValue: true",
    "Insert InsertValue: '20'",
    "Insert InsertValue: [1,20]",
    "Insert InsertValue: [[1]]",
    "Insert InsertValue: [[1,20,3]]",
    "Insert InsertValue: [[1,20],[6,2.5]]",
    "Insert InsertValue: [[1,20],6]",
    "Insert InsertValue: {from=1,rate=20}",
];

const NO_DELETIONS: [&str; 4] = [
    "OnDelete DeleteName: true",
    "OnDelete DeleteName: 'NULL'",
    "OnDelete DeleteName: ''",
    "OnDelete DeleteName: ['cascade']",
];

const NO_DEALS: [&str; 5] = [
    "Deal DealName: true",
    "Deal DealName: 'Drawn'",
    "Deal DealName: 'turns'",
    "Deal DealName: ''",
    "Deal DealName: ['turn']",
];

const NO_WINDOWS: [&str; 4] = [
    "Window WindowValue: true",
    "Window WindowValue: 1.5",
    "Window WindowValue: 'ALL'",
    "Window WindowValue: [1]",
];

const NO_PARTS: [&str; 10] = [
    "Parts PartList: [1]",
    "Parts PartList: [{}]",
    "Parts PartList: [{column=1}]",
    "Parts PartList: [{width=9}]",
    "Parts PartList: [{column=1,width=9}]",
    "Parts PartList: [{column='a',width='9'}]",
    "Parts PartList: [{column='a',width=9.0}]",
    "Parts PartList: [{column='a',width=9,x=1}]",
    "Parts PartList: [{column='a',size=9}]",
    "Parts PartList: 'a'",
];

/// Asserts where the first wrong key of a row's text is, by table, column and branch. The text stands between a front and an end. Before
/// the colon of the row are the key and what it wants.
fn try_row(
    rt: &impl Abort,
    alloc: Global,
    place: (u64, u64, u64),
    front: &str,
    row: &str,
    end: &str,
) {
    let (wrong, inner) = row.split_once(": ").expect(rt, "no colon");
    let text = [front, inner, end].concat(alloc).expect(rt, "memory");
    match read_schema(alloc, text.as_str().as_bytes()).err() {
        Some(
            ReadSchemaFault::Shape {
                place: told,
                key,
                expected,
            },
        ) => {
            assert!(rt; (told.table, told.column, told.branch) == place, "{row}");
            let told = format!(in alloc; "{key:?} {expected:?}").expect(rt, "memory");
            assert!(rt; told.as_str() == wrong, "{row}");
        }
        _ => panic!(rt; "no wrong key: {row}"),
    }
}

/// Asserts of each row where the first wrong key of its text is.
fn try_rows(
    rt: &impl Abort,
    alloc: Global,
    place: (u64, u64, u64),
    front: &str,
    rows: &[&str],
    end: &str,
) {
    for row in rows {
        try_row(rt, alloc, place, front, row, end);
    }
}

const TABLE_FRONT: &str = "seed=1\nunits=1\ntable=[{";

const COLUMN_FRONT: &str = "seed=1\nunits=1\ntable=[{name='t',rows=1,column=[{";

const DATE_FRONT: &str =
    "seed=1\nunits=1\ntable=[{name='t',rows=1,column=[{name='c',kind='date',hi='2024-01-01',lo=";

const INSERT_FRONT: &str = "seed=1\nunits=1\ntable=[{name='t',rows=1,column=[],insert=";

const DELETION_FRONT: &str =
    "seed=1\nunits=1\ntable=[{name='t',rows=1,column=[{name='c',kind='ref',table='p',window=1,on_delete=";

const DEAL_FRONT: &str =
    "seed=1\nunits=1\ntable=[{name='t',rows=1,column=[{name='c',kind='ref',table='p',window=1,deal=";

const WINDOW_FRONT: &str =
    "seed=1\nunits=1\ntable=[{name='t',rows=1,column=[{name='c',kind='ref',table='p',window=";

const PARTS_FRONT: &str =
    "seed=1\nunits=1\ntable=[{name='t',rows=1,column=[{name='c',kind='template',parts=";

const BRANCH_FRONT: &str =
    "seed=1\nunits=1\ntable=[{name='t',rows=1,column=[{name='c',kind='case',on='x',branches=[{";

#[test]
fn each_wrong_key_is_told(rt: HostRuntime) {
    let alloc = rt.alloc();
    try_rows(&rt, alloc, (0, 0, 0), "", &TOP_FAULTS, "");
    try_rows(&rt, alloc, (1, 0, 0), TABLE_FRONT, &TABLE_FAULTS, "}]");
    try_rows(&rt, alloc, (1, 1, 0), COLUMN_FRONT, &COLUMN_FAULTS, "}]}]");
    try_rows(
        &rt,
        alloc,
        (1, 1, 1),
        BRANCH_FRONT,
        &BRANCH_FAULTS,
        "}]}]}]",
    );
}

fn try_order(rt: &impl Abort, alloc: Global, rows: &[((u64, u64, u64), &str)]) {
    for (place, row) in rows {
        try_row(rt, alloc, *place, "", row, "");
    }
}

const NO_DOCUMENTS: [&[u8]; 3] = [b"seed = \"ab", b"seed = 9223372036854775808\n", b"# \xff\n"];

fn try_documents(rt: &impl Abort, alloc: Global, texts: &[&[u8]]) {
    for text in texts {
        assert!(rt; read_schema(alloc, text).err() == Some(ReadSchemaFault::Syntax));
    }
}

#[test]
fn the_first_wrong_key_is_told(rt: HostRuntime) {
    let alloc = rt.alloc();
    try_order(&rt, alloc, &ORDER);
    try_rows(&rt, alloc, (1, 1, 0), DATE_FRONT, &NO_DATES, "}]}]");
    try_rows(&rt, alloc, (1, 0, 0), INSERT_FRONT, &NO_INSERTS, "}]");
    try_rows(&rt, alloc, (1, 1, 0), DELETION_FRONT, &NO_DELETIONS, "}]}]");
    try_rows(&rt, alloc, (1, 1, 0), DEAL_FRONT, &NO_DEALS, "}]}]");
    try_rows(&rt, alloc, (1, 1, 0), WINDOW_FRONT, &NO_WINDOWS, "}]}]");
    try_rows(&rt, alloc, (1, 1, 0), PARTS_FRONT, &NO_PARTS, "}]}]");
    try_documents(&rt, alloc, &NO_DOCUMENTS);
}
