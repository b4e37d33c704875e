//! Rows of declared types, parted by ` / `: `s` a struct, `e` an enum, `p` a protocol, `a` an actor, `d` a distributed actor; behind
//! it `c` for `Codable` and `x` for `Error`, and behind `:` the protocol to which it conforms; then the types of its parts, where `|`
//! parts cases. Wanted are, by a digit for each, those that hold themselves; the levels; those above 64; and those that may cross.

pub const ROWS: &str = r#"-- one type
s Int => 0 1 0 0
sc Int => 0 1 0 1
sc => 0 1 0 1
ec |Int ?Str|[Id => 0 1 0 1
sc System => 0 1 0 0
sc AnyError => 0 1 0 0
ex Int => 0 1 0 0
p => 0 0 0 0
-- a type that holds itself
s Struct:0 => 1 0 0 0
s [Struct:0 => 1 0 0 0
s ?[?Struct:0 => 1 0 0 0
e |Int Enum:0 => 1 0 0 0
s Struct:1 / s Struct:0 => 11 0,0 00 00
s Struct:1 / s Struct:2 / s Struct:1 => 011 0,0,0 000 000
s Int / e Struct:2 / s Enum:1 => 011 1,0,0 000 000
p / s:0 Any:0 => 01 0,0 00 00
p / s Any:0 / s:0 Struct:1 => 011 0,0,0 000 000
-- several that hold themselves
s Struct:0 Struct:1 / s Int => 10 0,1 00 00
s Struct:0 Struct:1 / s Struct:2 / s Struct:2 => 101 0,0,0 000 000
s Struct:1 / s Struct:0 / e Enum:2 / s Int => 1110 0,0,0,1 0000 0000
-- levels
s ?Struct:1 / s Int => 00 2,1 00 00
s Struct:1 Struct:2 / s Struct:2 / s Int => 000 3,2,1 000 000
p / s:0 Int / s Any:0 => 000 1,1,2 000 000
p / s:0 Struct:2 / s Int / s [Any:0 => 0000 2,2,1,3 0000 0000
a Struct:1 / s Plain:0 => 00 0,1 00 00
s AnyError / ex Int => 00 1,1 00 00
-- what may cross
d / sc Distributed:0 => 00 0,1 00 01
a / sc Plain:0 => 00 0,1 00 00
p / sc Any:0 => 00 0,1 00 00
sc Struct:1 / s Int => 00 2,1 00 00
sc Struct:1 / sc Int => 00 2,1 00 11
s Struct:1 / sc Int => 00 2,1 00 01
sc Struct:1 / sc Struct:2 / s Int => 000 3,2,1 000 000
sc Struct:1 / sc Struct:0 => 11 0,0 00 00
sc Struct:1 / sc Struct:2 / sc Struct:1 => 011 0,0,0 000 000
"#;
