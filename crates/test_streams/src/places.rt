//! The places of values in the text of a document, for all TOML notations.
use diagnostics::Step::{self, Index, Key};
use diagnostics::{Places, TextPlace};

/// Returns the place of the value that a path of keys leads to, and the first place at or inside
/// this value.
fn find_place_and_first_within(
    rt: &HostRuntime,
    text: &str,
    way: &[Step<'_>],
) -> Option<(Option<TextPlace>, Option<TextPlace>)> {
    let alloc = rt.alloc();
    let bytes = text.as_bytes();
    let document = toml::table_from_slice(alloc, bytes).ok()?;
    let places = Places::new(alloc, bytes, &document).ok()?;
    Some((
        places.scalar_place(way),
        places.first_scalar_place(alloc, way).ok()?,
    ))
}

/// Returns the line of the value that a path of keys leads to, or 0.
fn line_or_zero(rt: &HostRuntime, text: &str, way: &[Step<'_>]) -> usize {
    let (place, _) = find_place_and_first_within(rt, text, way).unwrap_or((None, None));
    place.map_or(0, |it| it.line)
}

/// Returns the line of the value that a path of keys leads to, or of the first value inside it, or
/// 0.
fn first_line_within_or_zero(rt: &HostRuntime, text: &str, way: &[Step<'_>]) -> usize {
    let (_, within) = find_place_and_first_within(rt, text, way).unwrap_or((None, None));
    within.map_or(0, |it| it.line)
}

/// Returns whether the place of a value contains exactly this text.
fn is_written_as(rt: &HostRuntime, text: &str, way: &[Step<'_>], written: &str) -> bool {
    let (place, _) = find_place_and_first_within(rt, text, way).unwrap_or((None, None));
    let found = place.and_then(|it| text.as_bytes().get(it.start..it.end));
    found == Some(written.as_bytes())
}

/// A document with comments, a byte order mark, carriage returns and all kinds of quotes.
const QUOTES: &str = "\u{feff}# \u{e9}\r
\"a=b\" = { x = [ [1, 2], [ ], [\"\u{e9}\", '#]'] ], y.z = 5, 'q\"q'.r = true }\r
a.b . c = true\r
s = \"\"\"\r
  \"\" \\\"\"\" # no comment\r
\"\"\"\"\"\r
k = '''\r
[[not]]\r
v = 1\r
'''\r
";

#[test]
fn quotes_of_every_kind(rt: HostRuntime) {
    let at = |way: &[Step<'_>]| line_or_zero(&rt, QUOTES, way);
    assert_eq!(rt; at(&[Key("a=b"), Key("x"), Index(0), Index(1)]), 2);
    assert_eq!(rt; at(&[Key("a=b"), Key("x"), Index(2), Index(1)]), 2);
    assert_eq!(rt; at(&[Key("a=b"), Key("q\"q"), Key("r")]), 2);
    assert_eq!(rt; at(&[Key("a"), Key("b"), Key("c")]), 3);
    assert_eq!(rt; at(&[Key("s")]), 4);
    assert_eq!(rt; at(&[Key("k")]), 7);
    assert_eq!(rt; at(&[]), 0);
    assert_eq!(rt; at(&[Key("a")]), 0);
}

/// A document with comments, a multi-line string, and a number after a string with the syntax of
/// other notations.
const BOARD: &str = r#"# faults of every writing
[host]
mem = [0xc0000000, 0xdfffffff]   # a # in a comment "

[[endpoint]]
at = "a # = [ \" 3.0"
vendor = 0x1ffff

[[endpoint]]
at = """
two
lines"""
"#;

#[test]
fn places_span_values_as_written(rt: HostRuntime) {
    let vendor = [Key("endpoint"), Index(0), Key("vendor")];
    assert!(rt; is_written_as(&rt, BOARD, &vendor, "0x1ffff"));
    let at = [Key("endpoint"), Index(1), Key("at")];
    assert!(rt; is_written_as(&rt, BOARD, &at, "\"\"\"\ntwo\nlines\"\"\""));
    let mem = [Key("host"), Key("mem"), Index(1)];
    assert!(rt; is_written_as(&rt, BOARD, &mem, "0xdfffffff"));
    assert!(rt; is_written_as(&rt, QUOTES, &[Key("a=b"), Key("q\"q"), Key("r")], "true"));
}

/// A float, dates, a string that equals the mark of its place, and a table header, which has no
/// place.
#[test]
fn scalars_of_every_kind(rt: HostRuntime) {
    assert_eq!(rt; line_or_zero(&rt, "\na = 0\nb = 1.5e3", &[Key("a")]), 2);
    assert_eq!(rt; line_or_zero(&rt, "\na = 0\nb = 1.5e3", &[Key("b")]), 3);
    let dates = "a = 1979-05-27 07:32:00\nb = 07:32:00 # none\nc = inf";
    assert_eq!(rt; line_or_zero(&rt, dates, &[Key("a")]), 1);
    assert_eq!(rt; line_or_zero(&rt, dates, &[Key("b")]), 2);
    assert_eq!(rt; line_or_zero(&rt, dates, &[Key("c")]), 3);
    assert_eq!(rt; line_or_zero(&rt, "a = \"@4\"\nb = \"@4\"", &[Key("a")]), 0);
    assert_eq!(rt; line_or_zero(&rt, "a = \"@4\"\nb = \"@4\"", &[Key("b")]), 2);
    assert_eq!(rt; line_or_zero(&rt, "[t]\n\"@\" = 0", &[Key("t")]), 0);
    assert_eq!(rt;
        line_or_zero(&rt, "[t]\n\"@\" = 0", &[Key("t"), Key("@")]),
        2
    );
}

/// A document with all kinds of tables and arrays, whose first keys aren't first in the alphabet.
const PARTS: &str = r#"[host]
mem = [
  0xc0000000, 0xdfffffff]

[[endpoint]]
vendor = 0x1234
bar = [
  # none before
  { kind = "io",
    index = 0 },
]
at = "1.0"
config = []
none = {}

[[endpoint]]
sub.b.device = 7
sub.b.at = 8

[[endpoint.bar]]
# a comment
size = 16
index = 0

[lists]
deep = [[], [1]]
deeper = [[[
  2]]]

[[guest]]
slots = [ ]
name = "none"
"#;

#[test]
fn first_line_in_tables(rt: HostRuntime) {
    let within = |way: &[Step<'_>]| first_line_within_or_zero(&rt, PARTS, way);
    assert_eq!(rt; within(&[Key("endpoint"), Index(0)]), 6);
    assert_eq!(rt;
        within(&[Key("endpoint"), Index(0), Key("bar"), Index(0)]),
        9
    );
    assert_eq!(rt; within(&[Key("endpoint"), Index(1)]), 17);
    assert_eq!(rt; within(&[Key("endpoint"), Index(1), Key("sub")]), 17);
    assert_eq!(rt; within(&[Key("endpoint"), Index(0), Key("none")]), 0);
    assert_eq!(rt; within(&[Key("guest"), Index(0)]), 32);
    assert_eq!(rt; within(&[]), 0);
}

#[test]
fn first_line_in_arrays(rt: HostRuntime) {
    let within = |way: &[Step<'_>]| first_line_within_or_zero(&rt, PARTS, way);
    assert_eq!(rt; within(&[Key("host"), Key("mem")]), 3);
    assert_eq!(rt; within(&[Key("endpoint")]), 6);
    assert_eq!(rt; within(&[Key("endpoint"), Index(0), Key("bar")]), 9);
    assert_eq!(rt; within(&[Key("endpoint"), Index(1), Key("bar")]), 22);
    assert_eq!(rt; within(&[Key("endpoint"), Index(0), Key("config")]), 0);
    assert_eq!(rt; within(&[Key("lists"), Key("deep")]), 26);
    assert_eq!(rt; within(&[Key("lists"), Key("deeper")]), 28);
}
