//! Tokens of sources with the expression that they begin with.

/// Each row is `SOURCE => ANSWER`. The answer is a refusal, with the rule, the line and the column, or the tree and,
/// after `@`, how many tokens it takes. A row that begins with `-- ` says what follows.
pub const ROWS: &str = r##"
-- Each mark
a * b => (Multiply a b) @3
a / b => (Divide a b) @3
a % b => (Remainder a b) @3
a + b => (Add a b) @3
a - b => (Subtract a b) @3
a ?? b => (Coalesce a b) @3
a == b => (Equal a b) @3
a != b => (NotEqual a b) @3
a < b => (Less a b) @3
a <= b => (LessEqual a b) @3
a > b => (Greater a b) @3
a >= b => (GreaterEqual a b) @3
a && b => (And a b) @3
a || b => (Or a b) @3
-- Each two marks, on both sides
a * b * c => (Multiply (Multiply a b) c) @5
a * b % c => (Remainder (Multiply a b) c) @5
a * b + c => (Add (Multiply a b) c) @5
a * b - c => (Subtract (Multiply a b) c) @5
a * b ?? c => (Coalesce (Multiply a b) c) @5
a * b == c => (Equal (Multiply a b) c) @5
a * b < c => (Less (Multiply a b) c) @5
a * b && c => (And (Multiply a b) c) @5
a * b || c => (Or (Multiply a b) c) @5
a % b * c => (Multiply (Remainder a b) c) @5
a % b % c => (Remainder (Remainder a b) c) @5
a % b + c => (Add (Remainder a b) c) @5
a % b - c => (Subtract (Remainder a b) c) @5
a % b ?? c => (Coalesce (Remainder a b) c) @5
a % b == c => (Equal (Remainder a b) c) @5
a % b < c => (Less (Remainder a b) c) @5
a % b && c => (And (Remainder a b) c) @5
a % b || c => (Or (Remainder a b) c) @5
a + b * c => (Add a (Multiply b c)) @5
a + b % c => (Add a (Remainder b c)) @5
a + b + c => (Add (Add a b) c) @5
a + b - c => (Subtract (Add a b) c) @5
a + b ?? c => (Coalesce (Add a b) c) @5
a + b == c => (Equal (Add a b) c) @5
a + b < c => (Less (Add a b) c) @5
a + b && c => (And (Add a b) c) @5
a + b || c => (Or (Add a b) c) @5
a - b * c => (Subtract a (Multiply b c)) @5
a - b % c => (Subtract a (Remainder b c)) @5
a - b + c => (Add (Subtract a b) c) @5
a - b - c => (Subtract (Subtract a b) c) @5
a - b ?? c => (Coalesce (Subtract a b) c) @5
a - b == c => (Equal (Subtract a b) c) @5
a - b < c => (Less (Subtract a b) c) @5
a - b && c => (And (Subtract a b) c) @5
a - b || c => (Or (Subtract a b) c) @5
a ?? b * c => (Coalesce a (Multiply b c)) @5
a ?? b % c => (Coalesce a (Remainder b c)) @5
a ?? b + c => (Coalesce a (Add b c)) @5
a ?? b - c => (Coalesce a (Subtract b c)) @5
a ?? b ?? c => (Coalesce a (Coalesce b c)) @5
a ?? b == c => (Equal (Coalesce a b) c) @5
a ?? b < c => (Less (Coalesce a b) c) @5
a ?? b && c => (And (Coalesce a b) c) @5
a ?? b || c => (Or (Coalesce a b) c) @5
a == b * c => (Equal a (Multiply b c)) @5
a == b % c => (Equal a (Remainder b c)) @5
a == b + c => (Equal a (Add b c)) @5
a == b - c => (Equal a (Subtract b c)) @5
a == b ?? c => (Equal a (Coalesce b c)) @5
a == b == c => refused P5 1:8
a == b < c => refused P5 1:8
a == b && c => (And (Equal a b) c) @5
a == b || c => (Or (Equal a b) c) @5
a < b * c => (Less a (Multiply b c)) @5
a < b % c => (Less a (Remainder b c)) @5
a < b + c => (Less a (Add b c)) @5
a < b - c => (Less a (Subtract b c)) @5
a < b ?? c => (Less a (Coalesce b c)) @5
a < b == c => refused P5 1:7
a < b < c => refused P5 1:7
a < b && c => (And (Less a b) c) @5
a < b || c => (Or (Less a b) c) @5
a && b * c => (And a (Multiply b c)) @5
a && b % c => (And a (Remainder b c)) @5
a && b + c => (And a (Add b c)) @5
a && b - c => (And a (Subtract b c)) @5
a && b ?? c => (And a (Coalesce b c)) @5
a && b == c => (And a (Equal b c)) @5
a && b < c => (And a (Less b c)) @5
a && b && c => (And (And a b) c) @5
a && b || c => (Or (And a b) c) @5
a || b * c => (Or a (Multiply b c)) @5
a || b % c => (Or a (Remainder b c)) @5
a || b + c => (Or a (Add b c)) @5
a || b - c => (Or a (Subtract b c)) @5
a || b ?? c => (Or a (Coalesce b c)) @5
a || b == c => (Or a (Equal b c)) @5
a || b < c => (Or a (Less b c)) @5
a || b && c => (Or a (And b c)) @5
a || b || c => (Or (Or a b) c) @5
-- Chains
a ?? b ?? c ?? d => (Coalesce a (Coalesce b (Coalesce c d))) @7
a ?? b + c ?? d => (Coalesce a (Coalesce (Add b c) d)) @7
a - b - c - d => (Subtract (Subtract (Subtract a b) c) d) @7
a < b < c => refused P5 1:7
a < b == c => refused P5 1:7
a < b + c < d => refused P5 1:11
(a < b) < c => (Less (paren (Less a b)) c) @7
a < (b < c) => (Less a (paren (Less b c))) @7
a == b && c == d => (And (Equal a b) (Equal c d)) @7
a < b && c < d < e => refused P5 1:16
f(a < b < c) => refused P5 1:9
a < b < try c => refused P5 1:7
-- Ternaries
a ? b : c => (? a b c) @5
a ? b : c ? d : e => (? a b (? c d e)) @9
a ? b ? c : d : e => (? a (? b c d) e) @9
a || b ? c : d => (? (Or a b) c d) @7
a ? b : c + d => (? a b (Add c d)) @7
a ? try b : await c => (? a (try b) (await c)) @7
x ? -a : !b => (? x (Minus a) (Not b)) @7
a ?b : c => (? a b c) @5
a?b:c => a @1
(a?b:c) => refused P2 1:3
a /**/? b : c => a @1
(a/**/? b : c) => refused P2 1:7
a\n? b : c => (? a b c) @5
a ? b => refused P1 1:6
a ? b : => refused P1 1:8
a ? b, c => refused P1 1:6
-- `try` and `await`
try a + b => (try (Add a b)) @4
try? a => (try? a) @3
try ?a => refused P1 1:5
try await f() => (try (await (call f))) @5
try? await a.b() => (try? (await (call (. a b)))) @8
await f(try g()) => (await (call f (try (call g)))) @8
f(x: try a, await b) => (call f x: (try a) (await b)) @10
(try a) + b => (Add (paren (try a)) b) @6
a[try b] => (index a (try b)) @5
a + try f() => refused P6 1:5
a + await f() => refused P6 1:5
a ?? try b => refused P6 1:6
a && try b => refused P6 1:6
a == try b => refused P6 1:6
a < try b < c => refused P6 1:5
await a + await b => refused P6 1:11
a + await try b => refused P6 1:5
a + -try f() => refused P1 1:6
!try a => refused P1 1:2
-await a => refused P1 1:2
await try f() => refused P4 1:1
(await try a) => refused P4 1:2
await\ntry a => refused P4 1:1
try await try a => refused P4 1:5
f(a, await try b) => refused P4 1:6
try try a => refused P1 1:5
await await a => refused P1 1:7
try => refused P1 1:4
try\na => (try a) @2
-- Prefixes and forms
-a => (Minus a) @2
- a => (Minus a) @2
!!a => (Not (Not a)) @3
-a.b => (Minus (. a b)) @4
-a * b => (Multiply (Minus a) b) @4
a - -b => (Subtract a (Minus b)) @4
a--b => (Subtract a (Minus b)) @4
a -b => (Subtract a b) @3
-\na => (Minus a) @2
a! => (! a) @2
a !b => a @1
(a !b) => refused P1 1:4
!a.b(c)! => (Not (! (call (. a b) c))) @8
f(a)(b)[c].d! => (! (. (index (call (call f a) b) c) d)) @13
f (a) => (call f a) @4
a [b] => (index a b) @4
a.b.c => (. (. a b) c) @5
1.a => (. 1 a) @3
a?.b => a @1
a.init => refused P1 1:3
.init => refused P1 1:2
a.self => refused P1 1:3
a.1 => refused P1 1:3
a[] => refused P1 1:3
a[b, c] => refused P1 1:4
-- Operands
.a => .a @2
.a.b => (. .a b) @4
.a(1) => (call .a 1) @5
self => self @1
self.a => (. self a) @3
nil => nil @1
true == false => (Equal true false) @3
9223372036854775807 => 9223372036854775807 @1
1_000 => 1000 @1
((a)) => (paren (paren a)) @5
() => refused P1 1:2
(a, b) => refused P1 1:3
(a b) => refused P1 1:4
(a => refused P1 1:3
[] => [] @2
[a] => [a] @3
[1, 2] => [1 2] @5
[1, 2, ] => [1 2] @6
[[a], []] => [[a] []] @8
[,] => refused P1 1:2
[a,, b] => refused P1 1:4
[a: b] => refused P1 1:3
[1, 2 => refused P1 1:6
_ => refused P1 1:1
if => refused P1 1:1
init => refused P1 1:1
 => refused P1 1:1
) => refused P1 1:1
+a => refused P1 1:1
a + => refused P1 1:4
a + * b => refused P1 1:5
a + + b => refused P1 1:5
-- Arguments
f() => (call f) @3
f(a, b) => (call f a b) @6
f(x: 1, y) => (call f x: 1 y) @8
f(in: 1, for: 2) => (call f in: 1 for: 2) @10
f(try: 1) => (call f try: 1) @6
f(self: 1) => (call f self: 1) @6
f(self) => (call f self) @4
a.b(init: 1) => (call (. a b) init: 1) @8
actor.get(final: distributed) => (call (. actor get) final: distributed) @8
f(a, ) => refused P1 1:6
f(_: 1) => refused P1 1:3
f(a: => refused P1 1:5
f(a:) => refused P1 1:5
f(in) => refused P1 1:5
f(a b) => refused P1 1:5
-- Strings
"ab" => "ab" @1
"a" + "b" => (Add "a" "b") @3
"a\\(x)b" => "a{x}b" @3
"\\(x)" => "{x}" @3
"a\\(x + 1)b\\(y)c" => "a{(Add x 1)}b{y}c" @7
"\\("\\(x)")" => "{"{x}"}" @5
"\\(f("a"))" => "{(call f "a")}" @6
"\\()" => refused P1 1:4
"\\(a b)" => refused P1 1:6
"\\(await try x)" => refused P4 1:4
"\\(a < b < c)" => refused P5 1:10
-- Lines
a\n+b => (Add a b) @3
a\n* b => (Multiply a b) @3
a\n?? b => (Coalesce a b) @3
a\n== b => (Equal a b) @3
a\n&& b => (And a b) @3
a\n|| b => (Or a b) @3
a\n- b => (Subtract a b) @3
a\n-/**/b => (Subtract a b) @3
a\n-b => a @1
a\n.b => (. a b) @3
a.\nb => (. a b) @3
a +\nb => (Add a b) @3
a\n(b) => a @1
a\n[b] => a @1
a\n!b => a @1
(a\n-b) => refused P1 2:1
(a\n(b)) => refused P1 2:1
f(\na,\nb\n) => (call f a b) @6
-- What goes on with no expression
a) => a @1
a b => a @1
a, b => a @1
a = b => a @1
a += b => a @1
a : b => a @1
a; b => a @1
a ..< b => a @1
a as b => a @1
a { b } => a @1
"##;
