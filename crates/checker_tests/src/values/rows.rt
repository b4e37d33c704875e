//! Values, operators and types, with what becomes of them.
//!
//! A row lists words, each of which puts a value on a stack or makes one of those that are there: an integer, `true`,
//! `false`, `nil`, `void`, `str:TEXT`, `no-text` (a string that is no UTF-8), `string:COUNT` and `array:COUNT` (so many
//! bytes or zeros), `some`, `list:COUNT`, `made:KIND:COUNT`, `case:KIND:NUMBER:COUNT`, `plain:KIND:NUMBER`,
//! `remote:KIND:NODE`, `named:NODE`, `numbered:NODE`, `system:NODE`.

/// An operator stands behind its two values. The answer is the value, or the trap.
pub const OPERATORS: &str = r##"
-- Integers
1 2 + => Int(3)
9223372036854775807 1 + => Overflow
-9223372036854775808 -1 + => Overflow
-9223372036854775808 9223372036854775807 + => Int(-1)
0 9223372036854775807 - => Int(-9223372036854775807)
0 -9223372036854775808 - => Overflow
-9223372036854775808 1 - => Overflow
-3 7 * => Int(-21)
3037000500 3037000500 * => Overflow
-9223372036854775808 -1 * => Overflow
7 2 / => Int(3)
-7 2 / => Int(-3)
7 -2 / => Int(-3)
1 0 / => DivideByZero
-9223372036854775808 0 / => DivideByZero
-9223372036854775808 -1 / => Overflow
-9223372036854775808 1 / => Int(-9223372036854775808)
7 2 % => Int(1)
-7 2 % => Int(-1)
7 -2 % => Int(1)
5 -1 % => Int(0)
5 0 % => DivideByZero
-9223372036854775808 -1 % => Overflow
-9223372036854775808 10 % => Int(-8)
-1 0 < => Bool(true)
0 0 < => Bool(false)
0 0 <= => Bool(true)
1 0 > => Bool(true)
0 1 >= => Bool(false)
-- Strings
str:a str:b + => [97, 98]
str: str: + => []
str:a str:b < => Bool(true)
str:Z str:a < => Bool(true)
str:a str:ab < => Bool(true)
str:ab str:a <= => Bool(false)
str: str: < => Bool(false)
str:b str:b >= => Bool(true)
no-text str:zzz > => Bool(true)
str:b str:b - => no meaning
str:b str:b * => no meaning
-- At most a million
string:999999 string:1 + => 1000000 bytes
string:1000000 string:0 + => 1000000 bytes
string:1000000 string:1 + => TooLong
string:1 string:1000000 + => TooLong
string:600000 string:400001 + => TooLong
array:999999 array:1 + => 1000000 items
array:0 array:1000000 + => 1000000 items
array:1000000 array:1 + => TooLong
array:2 array:1 + => 3 items
array:2 array:1 < => no meaning
-- Equality
4 4 == => Bool(true)
4 5 == => Bool(false)
4 4 != => Bool(false)
str:ab str:ab == => Bool(true)
str:ab str:aB == => Bool(false)
true false == => Bool(false)
true 1 == => Bool(false)
nil nil == => Bool(true)
1 some nil == => Bool(false)
1 some 1 some == => Bool(true)
1 some 2 some != => Bool(true)
1 some some 1 some == => Bool(false)
nil some nil == => Bool(false)
void void == => Bool(true)
1 2 list:2 1 2 list:2 == => Bool(true)
1 2 list:2 1 3 list:2 == => Bool(false)
1 2 list:2 1 list:1 == => Bool(false)
list:0 list:0 == => Bool(true)
1 made:1:1 1 made:1:1 == => Bool(true)
1 made:1:1 1 made:4:1 == => Bool(false)
case:2:0:0 case:2:0:0 == => Bool(true)
case:2:0:0 case:2:1:0 == => Bool(false)
case:2:0:0 case:0:0:0 == => Bool(false)
case:2:0:0 1 case:2:0:1 == => Bool(false)
plain:6:1 plain:6:1 == => Bool(true)
plain:6:1 plain:6:2 == => Bool(false)
remote:7:1 remote:7:1 == => Bool(true)
remote:7:1 remote:7:2 == => Bool(false)
named:1 numbered:1 == => Bool(false)
named:1 named:1 == => Bool(true)
system:1 system:1 == => Bool(true)
system:1 system:2 == => Bool(false)
array:1000000 array:1000000 == => Bool(true)
array:1000000 array:999999 == => Bool(false)
nil nil + => no meaning
true false < => no meaning
1 str:a + => no meaning
"##;

/// A type stands behind a value: `[` and `?` for its marks, the outermost first, and its base, with the number of what is
/// declared. The answer is whether the value fits it.
///
/// The table: `enum DistributedCallError` (0), `struct Point: Codable { Int, [String?] }` (1),
/// `enum Failure: Error { case a, b(Int, Point) }` (2), `protocol Shape` (3), `struct Circle: Shape { Int }` (4),
/// `struct Holder { any Shape }` (5), a plain actor (6), a distributed one (7), `struct List: Codable { Int }` (8).
pub const FITTING: &str = r##"
-- Plain values
1 Int => true
1 Bool => false
1 ?Int => false
1 [Int => false
9223372036854775807 Int => true
true Bool => true
void Void => true
void ?Void => false
str:ab Str => true
str: Str => true
no-text Str => false
string:1000000 Str => true
string:1000001 Str => false
named:15 Id => true
named:16 Id => false
numbered:0 Id => true
numbered:16 Id => false
system:15 System => true
system:16 System => false
system:0 Id => false
remote:7:3 Distributed:7 => true
remote:7:16 Distributed:7 => false
remote:7:3 Distributed:6 => false
remote:7:3 Plain:7 => false
plain:6:0 Plain:6 => true
plain:6:0 Plain:7 => false
plain:6:0 Distributed:6 => false
-- Arrays and optionals
list:0 [Int => true
list:0 [[Int => true
list:0 Int => false
1 2 list:2 [Int => true
1 true list:2 [Int => false
true 1 list:2 [Int => false
1 2 list:2 ?[Int => false
1 2 list:2 some ?[Int => true
nil ?Int => true
nil Int => false
nil [Int => false
1 some ?Int => true
1 some Int => false
1 some ??Int => false
1 some some ??Int => true
nil some ??Int => true
nil 2 some list:2 [?Int => true
nil 2 list:2 [?Int => false
array:1000000 [Int => true
array:1000001 [Int => false
-- Structs and enums
1 str:s some nil list:2 made:1:2 Struct:1 => true
1 str:s nil list:2 made:1:2 Struct:1 => false
1 list:0 made:1:2 Struct:1 => true
1 made:1:1 Struct:1 => false
1 list:0 2 made:1:3 Struct:1 => false
1 list:0 made:1:2 Struct:4 => false
1 list:0 made:1:2 Enum:1 => false
1 made:9:1 Struct:9 => false
case:0:0:0 Enum:0 => true
case:0:3:0 Enum:0 => true
case:0:4:0 Enum:0 => false
case:2:0:0 Enum:2 => true
1 case:2:0:1 Enum:2 => false
1 1 list:0 made:1:2 case:2:1:2 Enum:2 => true
1 1 true made:1:2 case:2:1:2 Enum:2 => false
case:2:1:0 Enum:2 => false
case:2:0:0 Enum:0 => false
case:1:0:0 Enum:1 => false
made:2:0 Struct:2 => false
-- Any of a protocol and of errors
1 made:4:1 Struct:4 => true
1 made:4:1 Any:3 => true
true made:4:1 Any:3 => false
1 list:0 made:1:2 Any:3 => false
1 made:4:1 AnyError => false
case:2:0:0 AnyError => true
case:0:1:0 AnyError => true
case:2:0:0 Any:3 => false
1 made:4:1 made:5:1 Struct:5 => true
1 made:5:1 Struct:5 => false
remote:7:3 Any:3 => false
"##;

/// A type of the same table, and whether its values may cross between nodes.
pub const CROSSING: &str = r##"
Int => true
Bool => true
Str => true
Id => true
Void => false
System => false
[?Int => true
?[System => false
Enum:0 => true
Struct:1 => true
[Struct:1 => true
Enum:2 => false
Any:3 => false
AnyError => false
Struct:4 => false
Struct:5 => false
Plain:6 => false
Distributed:7 => true
?Distributed:7 => true
Struct:8 => true
Struct:9 => false
Struct:3 => false
Struct:7 => false
Plain:1 => false
"##;

/// The base that `List` of the same table holds, and the levels of all. The answer is whether there is such a table.
pub const SETTLED: &str = r##"
Int 1 1 2 1 1 2 0 0 1 => true
-- Any levels that fall serve
Int 9 1 2 1 1 200 7 7 0 => true
-- `Failure` holds a `Point` of its own level
Int 1 2 2 1 1 2 0 0 1 => false
-- `Shape` has a level below that of `Circle`
Int 1 1 2 1 2 2 0 0 1 => false
-- `Holder` has the level of `Shape`
Int 1 1 2 1 1 1 0 0 1 => false
-- `List` holds itself
Struct:8 1 1 2 1 1 2 0 0 9 => false
-- What `List` holds may cross, or may not
Struct:1 1 1 2 1 1 2 0 0 2 => true
Distributed:7 1 1 2 1 1 2 0 0 0 => true
Plain:6 1 1 2 1 1 2 0 0 2 => false
Struct:4 1 1 2 1 1 2 0 0 2 => false
Enum:2 1 1 2 1 1 2 0 0 3 => false
Enum:0 1 1 2 1 1 2 0 0 2 => true
System 1 1 2 1 1 2 0 0 2 => false
AnyError 1 1 2 1 1 2 0 0 2 => false
-- A level that is not listed is 0
Int 1 1 2 1 1 2 => true
Struct:1 1 1 2 1 1 2 => false
"##;
