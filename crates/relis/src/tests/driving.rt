//! Driving: reports worked out by hand, and schedules that are refused.
use super::*;

/// A schedule of the crossing: T1 is across when T2 asks for it.
pub(super) const BARRED: &str = "turn train:T1
turn box:X 5
turn train:T1 2
turn box:EB 5
turn train:T1 2
turn box:X 5
turn train:T1 2
turn track:T1
turn train:T2
turn box:X 5
turn train:T2 2
turn box:ED 5
turn train:T2 2
turn box:X 5
";

/// A schedule of two trains head on: each has reserved the middle at its own end when it asks at the other.
pub(super) const BOTH_REFUSED: &str = "turn train:T1
turn box:J1 5
turn train:T2
turn box:J2 5
turn train:T1 2
turn box:J2 5
turn train:T2 2
turn box:J1 5
turn train:T1 2
turn box:J1 5
turn train:T2 2
turn box:J2 5
turn train:T1 2
turn box:J1 5
turn train:T1 2
turn box:J2 5
turn train:T2 2
turn box:J2 5
turn train:T2
round 100
";

/// A schedule of two wishes: the point reserves an arm for T2 while its points are asked for T1.
pub(super) const RESERVED_MEANWHILE: &str = "turn train:T1
turn box:P 5
turn train:T1 2
turn box:ER 5
turn train:T1 2
turn box:P 5
turn train:T2
turn box:JL 5
turn train:T2 2
turn box:P 5
turn machine:P 2
turn box:P 3
";

/// Drives, worked out by hand. Options stand in any order, and the line of one train has eight nodes.
const DRIVES: &str = r#"drive NET 200 <- straight
relis report 1
tries 100
reserve T1 B J1
reserve T1 B E
lock T1 J1 A B
enter T1 J1 A B
leave T1 A
unlock T1 J1
release T1 A J1
release T1 A W
train T1 arrived 1 0
end

drive NET 2 <- straight
relis report 1
tries 100
reserve T1 B J1
train T1 underway 0 0
end

drive NET 0 <- straight
relis report 1
tries 100
train T1 underway 0 0
end

drive NET 5 <- empty
relis report 1
tries 100
end

drive NET 5 <- straight | ["A", "J1", "B"] => ["A"]
relis report 1
tries 100
train T1 arrived 0 0
end

drive NET 300 <- fork
relis report 1
tries 100
reserve T1 R P
reserve T1 R ER
lock T1 P S R
throw P
settle P right
enter T1 P S R
leave T1 S
unlock T1 P
release T1 S P
release T1 S W
train T1 arrived 1 0
end

drive NET 300 <- fork | at = "left" => at = "right"
relis report 1
tries 100
reserve T1 R P
reserve T1 R ER
lock T1 P S R
enter T1 P S R
leave T1 S
unlock T1 P
release T1 S P
release T1 S W
train T1 arrived 1 0
end

drive NET 400 <- straight | ["A", "J1", "B"] => ["A", "J1", "B", "J1", "A"]
relis report 1
tries 100
reserve T1 B J1
reserve T1 B E
lock T1 J1 A B
enter T1 J1 A B
leave T1 A
unlock T1 J1
release T1 A J1
release T1 A W
reserve T1 A J1
reserve T1 A W
lock T1 J1 B A
enter T1 J1 B A
leave T1 B
unlock T1 J1
release T1 B J1
release T1 B E
train T1 arrived 2 0
end

drive NET 400 --tries 1 <- straight | ["A", "J1", "B"] => ["A", "J1", "B", "J1", "A"]
relis report 1
tries 1
reserve T1 B J1
reserve T1 B E
lock T1 J1 A B
enter T1 J1 A B
leave T1 A
unlock T1 J1
release T1 A J1
release T1 A W
train T1 spent 1 0
end

drive NET 200 <- three
relis report 1
tries 100
reserve T1 B J1
reserve T1 B J2
reserve T1 C J2
reserve T1 C E
lock T1 J1 A B
enter T1 J1 A B
leave T1 A
unlock T1 J1
release T1 A J1
release T1 A W
lock T1 J2 B C
enter T1 J2 B C
leave T1 B
unlock T1 J2
release T1 B J2
release T1 B J1
train T1 arrived 2 0
end

drive NET 200 --tries 1 <- three
relis report 1
tries 1
reserve T1 B J1
reserve T1 B J2
reserve T1 C J2
reserve T1 C E
lock T1 J1 A B
enter T1 J1 A B
leave T1 A
unlock T1 J1
release T1 A J1
release T1 A W
release T1 C E
release T1 C J2
train T1 spent 1 0
end

drive NET 200 --tries 2 <- three | "C"] }] => "C"] }, { name = "T2", route = ["C"] }]
relis report 1
tries 2
reserve T1 B J1
reserve T1 B J2
refuse T1 C J2 T2
release T1 B J2
release T1 B J1
reserve T1 B J1
reserve T1 B J2
refuse T1 C J2 T2
release T1 B J2
release T1 B J1
train T1 spent 0 2
train T2 arrived 0 0
end

drive NET 200 <- ring
relis report 1
tries 100
reserve T1 B J2
reserve T1 B J1
lock T1 J2 A B
enter T1 J2 A B
leave T1 A
unlock T1 J2
release T1 A J2
release T1 A J1
train T1 arrived 1 0
end

drive NET 200 --tries 2 <- occupied
relis report 1
tries 2
refuse T1 B J1 T2
refuse T1 B J1 T2
train T1 spent 0 2
train T2 arrived 0 0
end

drive NET 125001 <- straight
refused 18 schedule:1

drive NET -s OTHER <- straight
relis report 1
tries 100
train T1 underway 0 0
end

drive NET -s OTHER <- straight <- = round 2~
relis report 1
tries 100
reserve T1 B J1
train T1 underway 0 0
end

drive NET -s OTHER <- straight <- = round 125000~
relis report 1
tries 100
reserve T1 B J1
reserve T1 B E
lock T1 J1 A B
enter T1 J1 A B
leave T1 A
unlock T1 J1
release T1 A J1
release T1 A W
train T1 arrived 1 0
end

drive NET -s OTHER <- crossing <- barred
relis report 1
tries 100
reserve T1 B X
reserve T1 B EB
lock T1 X A B
enter T1 X A B
reserve T2 D X
reserve T2 D ED
bar T2 X T1
train T1 underway 0 0
train T2 underway 0 1
end

drive NET -s OTHER <- two-wishes <- reserved meanwhile
relis report 1
tries 100
reserve T1 R P
reserve T1 R ER
lock T1 P S R
reserve T2 L JL
reserve T2 L P
throw P
settle P right
train T1 underway 0 0
train T2 underway 0 0
end

drive NET --tries 2 -s OTHER <- head-on <- both refused
relis report 1
tries 2
reserve T1 B J1
reserve T2 B J2
refuse T1 B J2 T2
refuse T2 B J1 T1
release T1 B J1
release T2 B J2
reserve T1 B J1
reserve T1 B J2
refuse T2 B J2 T1
lock T1 J1 A B
enter T1 J1 A B
leave T1 A
unlock T1 J1
release T1 A J1
release T1 A W
train T1 arrived 1 1
train T2 spent 0 2
end

drive NET -s OTHER <- straight <- = turn train:T1~turn train:T9~
refused 17 schedule:2

drive NET -s OTHER <- straight <- = turn T1~
refused 16 schedule:1

drive NET -s OTHER <- straight <- = turn train:T1
refused 16 schedule:1

drive NET -s OTHER <- straight <- = round 125001~
refused 18 schedule:1

drive NET -s OTHER <- straight <- = turn box:E~round 125000~
refused 18 schedule:2
"#;

#[test]
fn drives(rt: HostRuntime) -> Result<(), Fail> {
    assert_rows(&rt, rt.alloc(), DRIVES)
}

/// A schedule of one byte more than it may have.
#[test]
fn refuses_a_long_schedule(rt: HostRuntime) -> Result<(), Fail> {
    let alloc = rt.alloc();
    let long = vec![in alloc; b' '; 33_554_433]?;
    let (line, text) = ("drive NET -s OTHER", "refused 18 schedule:0\n");
    assert_answer(&rt, alloc, line, STRAIGHT.as_bytes(), long.as_slice(), text)
}
