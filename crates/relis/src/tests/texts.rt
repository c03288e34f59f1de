//! Network texts: which are accepted, and which are refused with which number and place.
use super::*;

/// Refusals from 2 to 15, each with a text that is refused so.
const REFUSALS: &str = r#"each command <- empty | format = 1 => ~
refused 3 format

each command <- straight | format = 1 => format = 2
refused 3 format

each command <- straight | format = 1 => format = ~
refused 2 none

each command <- straight | ["A", "B"] => "A"
refused 3 segments

each command <- straight | kind = "joint" => kind = "joint"~length = 3
refused 3 box[1]

each command <- straight | ["A", "B"] => ["A B", "B"]
refused 4 segments[0]

each command <- straight | name = "J1" => name = "W"
refused 6 box[1].name

each command <- straight | kind = "joint" => kind = "point"
refused 7 box[1].arms

each command <- straight | arms = ["A", "B"] => arms = ["A", "C"]
refused 8 box[1].arms[1]

each command <- straight | arms = ["A", "B"] => arms = ["A", "A"]
refused 9 box[1].arms[1]

each command <- straight | [[box]]~name = "E"~kind = "buffer"~arms = ["B"]~ => ~
refused 10 segments[1]

each command <- straight | [[train]] => [[box]]~name = "F"~kind = "buffer"~arms = ["B"]~[[train]]
refused 10 segments[1]

each command <- straight | kind = "joint" => kind = "joint"~at = "left"
refused 11 box[1].at

each command <- fork | at = "left" => ~
refused 11 box[1].at

each command <- straight | ["A", "J1", "B"] => ["A", "J1"]
refused 12 train[0].route

each command <- straight | ["A", "J1", "B"] => ["A", "J2", "B"]
refused 13 train[0].route[1]

each command <- fork | ["S", "P", "R"] => ["L", "P", "R"]
refused 14 train[0].route[1]

each command <- straight | [[train]] => [[train]]~name = "T0"~route = ["A"]~[[train]]
refused 15 train[1].route[0]
"#;

#[test]
fn refuses_texts(rt: HostRuntime) -> Result<(), Fail> {
    assert_rows(&rt, rt.alloc(), REFUSALS)
}

/// How many segments, boxes, trains and nodes networks have,
/// and texts at the limits and beyond them: 64 steps,
/// 32 trains and 65,536 bytes. Then tables.
const ACCEPTED: &str = r#"check NET <- empty
accepted segments 0 boxes 0 trains 0 nodes 0

check NET <- empty | format = 1 => format = 1~segments = []~box = []~train = []
accepted segments 0 boxes 0 trains 0 nodes 0

check NET <- track
accepted segments 2 boxes 3 trains 0 nodes 6

check NET <- straight
accepted segments 2 boxes 3 trains 1 nodes 8

check NET <- straight | name = "E" => name = "A"
accepted segments 2 boxes 3 trains 1 nodes 8

check NET <- fork
accepted segments 3 boxes 4 trains 1 nodes 10

check NET <- crossing
accepted segments 4 boxes 5 trains 2 nodes 14

check NET <- terminus
accepted segments 9 boxes 9 trains 4 nodes 26

check NET <- made steps 64
accepted segments 2 boxes 3 trains 1 nodes 8

check NET <- made steps 65
refused 5 train[0].route

check NET <- made crowd 32
refused 15 train[1].route[0]

check NET <- made crowd 33
refused 5 train

check NET <- made padded 65536
accepted segments 2 boxes 3 trains 1 nodes 8

check NET <- made padded 65537
refused 1 none

tables NET <- straight
relis tables 1
box 0 W buffer left
arm 0 A T1
box 1 J1 joint left
arm 0 A T1
arm 1 B *
box 2 E buffer left
arm 0 B *
train 0 T1 1
step 0 J1 0 1 E 0 W 0
end

tables NET <- = format = 1
relis tables 1
end
"#;

#[test]
fn accepts_texts(rt: HostRuntime) -> Result<(), Fail> {
    assert_rows(&rt, rt.alloc(), ACCEPTED)
}

/// NULs, keys that stand twice, deep nesting, and other spellings of the same document.
const HOSTILE: &str = "\
check NET <- = \0
refused 2 none

check NET <- = format = 1 # \0
refused 2 none

check NET <- = format = 1~segments = [\"A\0\"]
refused 2 none

check NET <- = format = 1~segments = [\"A\\u0000\"]
refused 4 segments[0]

check NET <- = format = 1~\"format\" = 1
refused 2 none

check NET <- = format = 1~box.name = 1~[box]
refused 2 none

check NET <- = format = 9223372036854775808
refused 2 none

check NET <- = format = 1~segments = [[[[[[[[[[[[[[[[]]]]]]]]]]]]]]]]
refused 3 segments[0]

check NET <- = format.a.b.c.d.e.f = 1
refused 3 format

check NET <- = format = 1~box.name = \"W\"
refused 3 box

check NET <- = \"\\u0066ormat\" = 0x1
accepted segments 0 boxes 0 trains 0 nodes 0

check NET <- = format = 1~box = [{ name = \"W\", kind = \"buffer\", arms = [\"A\"] }, \
{ arms = [\"A\"], kind = 'buffer', name = \"\"\"E\"\"\" }]~segments = [~  \"A\",~]
accepted segments 1 boxes 2 trains 0 nodes 4
";

#[test]
fn bears_hostile_texts(rt: HostRuntime) -> Result<(), Fail> {
    assert_rows(&rt, rt.alloc(), HOSTILE)
}

/// Bytes that are no text.
#[test]
fn refuses_what_is_no_text(rt: HostRuntime) -> Result<(), Fail> {
    let alloc = rt.alloc();
    let (line, text) = ("check NET", "refused 2 none\n");
    assert_answer(&rt, alloc, line, b"format = 1 # \xff", b"", text)?;
    assert_answer(&rt, alloc, line, b"format = 1 # \xed\xa0\x80", b"", text)
}

/// Places, each with a text in which a value stands there, for `@`.
const VALUES: &str = r#"format <- format = @
segments <- format = 1~segments = @
segments[1] <- format = 1~segments = ["A", @]
box <- format = 1~box = @
box[0] <- format = 1~box = [@]
box[0].name <- format = 1~[[box]]~name = @
box[0].kind <- format = 1~[[box]]~name = ""~kind = @
box[0].arms <- format = 1~[[box]]~name = ""~kind = "joint"~arms = @
box[0].arms[0] <- format = 1~[[box]]~name = ""~kind = "joint"~arms = [@]
box[0].at <- format = 1~[[box]]~name = ""~kind = "joint"~arms = []~at = @
train <- format = 1~train = @
train[0] <- format = 1~train = [@]
train[0].name <- format = 1~[[train]]~name = @
train[0].route <- format = 1~[[train]]~name = ""~route = @
train[0].route[1] <- format = 1~[[train]]~name = ""~route = ["", @]
"#;

/// Values of no type that a key may have.
const OTHER_TYPES: &str = "9223372036854775807 -0 1.0 nan true 1979-05-27 07:32:00";

fn assert_other_type(
    rt: &impl Abort,
    alloc: Global,
    whole: &str,
    value: &str,
    text: &str,
) -> Result<(), Fail> {
    let net = changed(alloc, whole, "@", value)?;
    assert_answer(rt, alloc, "check NET", net.as_bytes(), b"", text)
}

/// Asserts that the text is refused at the place, with each of the values in it.
fn assert_other_types(
    rt: &impl Abort,
    alloc: Global,
    short: &str,
    place: &str,
) -> Result<(), Fail> {
    let whole = text_of(alloc, short)?;
    let text = format!(in alloc; "refused 3 {place}\n")?;
    for value in OTHER_TYPES.split(' ') {
        assert_other_type(rt, alloc, whole.as_str(), value, text.as_str())?;
    }
    Ok(())
}

/// A value of no type that a key may have, at each key.
#[test]
fn refuses_other_types(rt: HostRuntime) -> Result<(), Fail> {
    for case in VALUES.lines() {
        let (place, short) = case.split_once(" <- ").ok_or("no text")?;
        assert_other_types(&rt, rt.alloc(), short, place)?;
    }
    Ok(())
}
