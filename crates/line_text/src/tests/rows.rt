//! Lines, fields, names and numbers, and what they are.

/// A text, and its lines that aren't passed over, each as its number, a colon, its bytes and a bar.
pub struct LineRow {
    pub text: &'static str,
    pub lines: &'static str,
    pub count: u64,
}

/// A line and its parts, each with a bar behind it.
pub struct FieldRow {
    pub line: &'static str,
    pub fields: &'static str,
}

/// A field, and the number that it says with any number of digits and with up to 20.
pub struct NumberRow {
    pub field: &'static str,
    pub decimal: Option<u64>,
    pub number: Option<u64>,
}

static LINES: [LineRow; 15] = [
    LineRow {
        text: "",
        lines: "",
        count: 0,
    },
    LineRow {
        text: "a",
        lines: "1:a|",
        count: 1,
    },
    LineRow {
        text: "a\n",
        lines: "1:a|",
        count: 1,
    },
    LineRow {
        text: "a\nb",
        lines: "1:a|2:b|",
        count: 2,
    },
    LineRow {
        text: "\n\na\n\nb\n\n",
        lines: "3:a|5:b|",
        count: 6,
    },
    LineRow {
        text: "a\r\nb\r\n",
        lines: "1:a|2:b|",
        count: 2,
    },
    LineRow {
        text: "a\r\r\nb\r",
        lines: "1:a\r|2:b\r|",
        count: 2,
    },
    LineRow {
        text: "a\rb\n",
        lines: "1:a\rb|",
        count: 1,
    },
    LineRow {
        text: "\r\na\n",
        lines: "2:a|",
        count: 2,
    },
    LineRow {
        text: "\r",
        lines: "1:\r|",
        count: 1,
    },
    LineRow {
        text: " \t \n\t\na",
        lines: "3:a|",
        count: 3,
    },
    LineRow {
        text: "//a\n b\n \t// c\n/ d\n/",
        lines: "2: b|4:/ d|5:/|",
        count: 5,
    },
    LineRow {
        text: "a // b\n",
        lines: "1:a // b|",
        count: 1,
    },
    LineRow {
        text: "//",
        lines: "",
        count: 1,
    },
    LineRow {
        text: " a \t\n",
        lines: "1: a \t|",
        count: 1,
    },
];

static FIELDS: [FieldRow; 10] = [
    FieldRow {
        line: "",
        fields: "",
    },
    FieldRow {
        line: " \t ",
        fields: "",
    },
    FieldRow {
        line: "a",
        fields: "a|",
    },
    FieldRow {
        line: " a",
        fields: "a|",
    },
    FieldRow {
        line: "a ",
        fields: "a|",
    },
    FieldRow {
        line: "a b",
        fields: "a|b|",
    },
    FieldRow {
        line: "a  \t b\t\tc",
        fields: "a|b|c|",
    },
    FieldRow {
        line: "a\rb c",
        fields: "a\rb|c|",
    },
    FieldRow {
        line: "a.b\\c d",
        fields: "a.b\\c|d|",
    },
    FieldRow {
        line: "0 0_1 ",
        fields: "0|0_1|",
    },
];

static NAMES: [FieldRow; 43] = [
    FieldRow {
        line: "",
        fields: "",
    },
    FieldRow {
        line: " \t ",
        fields: "",
    },
    FieldRow {
        line: "a",
        fields: "a|",
    },
    FieldRow {
        line: " a \t bc ",
        fields: "a|bc|",
    },
    FieldRow {
        line: "u1.a[3] u2",
        fields: "u1.a[3]|u2|",
    },
    FieldRow {
        line: "\\a+b",
        fields: "\\a+b |",
    },
    FieldRow {
        line: "\\a+b c",
        fields: "\\a+b |c|",
    },
    FieldRow {
        line: "\\a+b\tc",
        fields: "\\a+b |c|",
    },
    FieldRow {
        line: "\\a+b  c",
        fields: "\\a+b |c|",
    },
    FieldRow {
        line: "\\a \\b",
        fields: "\\a |\\b |",
    },
    FieldRow {
        line: "\\a+b ",
        fields: "\\a+b |",
    },
    FieldRow {
        line: "\\a \t",
        fields: "\\a |",
    },
    FieldRow {
        line: "\\a .b c",
        fields: "\\a .b|c|",
    },
    FieldRow {
        line: "\\a\t.b",
        fields: "\\a .b|",
    },
    FieldRow {
        line: "\\a [3] c",
        fields: "\\a [3]|c|",
    },
    FieldRow {
        line: "\\a\t[3]",
        fields: "\\a [3]|",
    },
    FieldRow {
        line: "\\a  .b",
        fields: "\\a |.b|",
    },
    FieldRow {
        line: "\\a \t[3]",
        fields: "\\a |[3]|",
    },
    FieldRow {
        line: "\\a (b",
        fields: "\\a |(b|",
    },
    FieldRow {
        line: "\\a.b c",
        fields: "\\a.b |c|",
    },
    FieldRow {
        line: "\\a[3] c",
        fields: "\\a[3] |c|",
    },
    FieldRow {
        line: "\\a\\b c",
        fields: "\\a\\b |c|",
    },
    FieldRow {
        line: "\\a.\\b .c",
        fields: "\\a.\\b .c|",
    },
    FieldRow {
        line: "u.\\a b",
        fields: "u.\\a |b|",
    },
    FieldRow {
        line: "u.\\a .v b",
        fields: "u.\\a .v|b|",
    },
    FieldRow {
        line: "u.\\a .\\b c",
        fields: "u.\\a .\\b |c|",
    },
    FieldRow {
        line: "\\a .\\b [1] c",
        fields: "\\a .\\b [1]|c|",
    },
    FieldRow {
        line: "..\\a b",
        fields: "..\\a |b|",
    },
    FieldRow {
        line: ".\\a b",
        fields: ".\\a |b|",
    },
    FieldRow {
        line: "u. \\a b",
        fields: "u.|\\a |b|",
    },
    FieldRow {
        line: "a\\b c",
        fields: "a\\b|c|",
    },
    FieldRow {
        line: "a\\ b",
        fields: "a\\|b|",
    },
    FieldRow {
        line: "a[\\b c",
        fields: "a[\\b|c|",
    },
    FieldRow {
        line: "\\a [\\b c",
        fields: "\\a [\\b|c|",
    },
    FieldRow {
        line: "u.a\\b c",
        fields: "u.a\\b|c|",
    },
    FieldRow {
        line: "\\",
        fields: "\\ |",
    },
    FieldRow {
        line: "\\ a",
        fields: "\\ |a|",
    },
    FieldRow {
        line: "\\ .a",
        fields: "\\ .a|",
    },
    FieldRow {
        line: "u.\\ [0] a",
        fields: "u.\\ [0]|a|",
    },
    FieldRow {
        line: "\\a [0].\\b c",
        fields: "\\a [0].\\b |c|",
    },
    FieldRow {
        line: "\\a ..\\b c",
        fields: "\\a ..\\b |c|",
    },
    FieldRow {
        line: "\\a .",
        fields: "\\a .|",
    },
    FieldRow {
        line: "\\a . b",
        fields: "\\a .|b|",
    },
];

static NUMBERS: [NumberRow; 24] = [
    NumberRow {
        field: "",
        decimal: None,
        number: None,
    },
    NumberRow {
        field: "0",
        decimal: Some(0),
        number: Some(0),
    },
    NumberRow {
        field: "7",
        decimal: Some(7),
        number: Some(7),
    },
    NumberRow {
        field: "0010",
        decimal: Some(10),
        number: Some(10),
    },
    NumberRow {
        field: "1099511627776",
        decimal: Some(1_099_511_627_776),
        number: Some(1_099_511_627_776),
    },
    NumberRow {
        field: "18446744073709551615",
        decimal: Some(u64::MAX),
        number: Some(u64::MAX),
    },
    NumberRow {
        field: "18446744073709551616",
        decimal: Some(u64::MAX),
        number: Some(u64::MAX),
    },
    NumberRow {
        field: "99999999999999999999",
        decimal: Some(u64::MAX),
        number: Some(u64::MAX),
    },
    NumberRow {
        field: "00000000000000000001",
        decimal: Some(1),
        number: Some(1),
    },
    NumberRow {
        field: "a",
        decimal: None,
        number: None,
    },
    NumberRow {
        field: "1a",
        decimal: None,
        number: None,
    },
    NumberRow {
        field: "a1",
        decimal: None,
        number: None,
    },
    NumberRow {
        field: "1_0",
        decimal: None,
        number: None,
    },
    NumberRow {
        field: "-1",
        decimal: None,
        number: None,
    },
    NumberRow {
        field: "+1",
        decimal: None,
        number: None,
    },
    NumberRow {
        field: " 1",
        decimal: None,
        number: None,
    },
    NumberRow {
        field: "1.0",
        decimal: None,
        number: None,
    },
    NumberRow {
        field: "/",
        decimal: None,
        number: None,
    },
    NumberRow {
        field: ":",
        decimal: None,
        number: None,
    },
    NumberRow {
        field: "0x1",
        decimal: None,
        number: None,
    },
    NumberRow {
        field: "000000000000000000001",
        decimal: Some(1),
        number: None,
    },
    NumberRow {
        field: "100000000000000000000",
        decimal: Some(u64::MAX),
        number: None,
    },
    NumberRow {
        field: "00000000000000000000000000000000000000000009",
        decimal: Some(9),
        number: None,
    },
    NumberRow {
        field: "9999999999999999999999999999999999999999999",
        decimal: Some(u64::MAX),
        number: None,
    },
];

pub fn line_rows() -> &'static [LineRow] {
    &LINES
}

pub fn field_rows() -> &'static [FieldRow] {
    &FIELDS
}

pub fn name_rows() -> &'static [FieldRow] {
    &NAMES
}

pub fn number_rows() -> &'static [NumberRow] {
    &NUMBERS
}
