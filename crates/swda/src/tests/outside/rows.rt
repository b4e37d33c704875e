//! Sources, each with the rule that it breaks first and its place, or `none` where it breaks none: `SOURCE => ANSWER`.
//! `\n`, `\r`, `\t` and `\xHH` stand for bytes, and `\\` for a backslash.

/// Bodies, each of which stands in `func f() { }` on its first line, after one space.
pub const BODIES: &str = r##"
"a""b" => P2 1:15
"\\u{}" => L2 1:12
"\\u{000000041}" => L2 1:12
"\\u{ 41}" => L2 1:12
"\\x" => L2 1:12
'a' => L2 1:12
"\\u{100000000}" => L2 1:12
"\\u{0}" => none
"\\u{E000}" => none
"\t" => none
"\xef\xbb\xbf" => none
"" => none
"{ ( [" => none
#if => L2 1:12
`a` => L2 1:12
a &&& b => L2 1:16
a \\ b => L2 1:14
"\\("\\("\\q")")" => L2 1:12
9223372036854775808 => L4 1:12
18446744073709551616 => L4 1:12
"\\(9223372036854775808)" => L4 1:15
9223372036854775807 => none
0_ => none
0x1F => P2 1:13
1_a => P2 1:14
1.5 => P1 1:14
a === b => P1 1:16
a \x3d> b => P1 1:15
a++b => P1 1:14
a &&= b => P1 1:16
a ... b => P1 1:14
: a => P1 1:12
= a => P1 1:12
] => P1 1:12
() => P1 1:13
a <- b => none
a +- b => none
!!a => none
a!.b => none
x??y => none
a ? b : c ? d : e => none
x = a ? b : c => none
a-=1 => none
-\na => none
a * -b => none
a /* */ ? b : c => none
(a ? b : c) => none
-a\n.b => none
x?y => P2 1:13
a/**/? b : c => P2 1:17
a ![0] => P2 1:14
a/**/! => P2 1:17
a ? b = c : d => P1 1:18
a ? : b => P1 1:16
(x?y) => P2 1:14
let x: Int ? = 1 => P1 1:23
let x: any A.B = 1 => P1 1:24
let x: [Int = 1 => P1 1:24
let x: self = 1 => P1 1:19
let x: Int?? = 1 => P1 1:22
let x: A B = 1 => P1 1:21
let x: A.self = 1 => P1 1:21
let x: [A][B] = 1 => P1 1:22
let x: [Int]? = nil => none
let x: ()? = 1 => none
let x: any\nP = 1 => none
let x: [[[A.B?]?]?]? = 1 => none
let class = 1 => none
let distributed = 1 => none
let Any = 1 => none
let _1 = 1 => none
.get => none
f(async: 1) => none
f(true: true) => none
f(await: 1) => none
f(where: -1) => none
f(nil) => none
f(self.a) => none
f(true ? a : b) => none
let self = 1 => P1 1:16
let default = 1 => P1 1:16
a.self => P1 1:14
init() => P1 1:12
extension A { } => P1 1:12
inout => P1 1:12
any P => P1 1:12
f(a: b: c) => P1 1:18
f(a b) => P1 1:16
f(is.a) => P1 1:16
f((a): 1) => P1 1:17
f(a!: 1) => P1 1:16
func g() { } => P1 1:12
static let x = 1 => P1 1:12
catch { } => P1 1:12
._ => P1 1:13
final let x = 1 => P2 1:18
get a => P2 1:16
actor { } => P1 1:18
f()() => none
a[\n0\n] => none
a\n+= 1 => none
[] => none
f(\na\n,\nb\n) => none
true[0] => none
.a() => none
a /*\n*/ (c) => none
a [0] => none
f(a\n:b) => none
f\n() => P1 2:2
a[] => P1 1:14
[a b] => P1 1:15
f(a\n[b]) => P1 2:1
a[b\n[c]] => P1 2:1
if a\n(b) { } => P1 2:1
if a\n!b { } => P1 2:1
switch a\n(b) { } => P1 2:1
if a { } => none
if let x = y { } => none
if a { } else if b { } else { } => none
if a { if b { } else { } } else { } => none
if a { }\n-b => none
if a { }\n(b) => none
break\n-b => none
a;\n- b => none
\n.b => none
return\n(b) => none
return .b => none
return ! b => none
return; a => none
return // c\na => none
return a\n(b) => none
throw\n.a => none
do { }\n.b => none
for x in a { }\n- b => none
guard a else { } => none
while let x = y { } => none
for i in a...b { } => none
for i in a < b ..< c { } => none
for i in a ..<\nb { } => none
for i in (a) { } => none
for i in -a ... -b { } => none
switch x { case : case : } => none
switch x { case .a(_): } => none
switch x { case T.a(let x): y } => none
switch x { case nil: } => none
switch x { case .a: b; case .c: } => none
switch x { case .a:\n.b\n.c\n- d } => none
switch x\n{ case\n.a\n:\n} => none
switch try x { } => none
switch x { case .a, _, 1, "b": } => none
do { } catch let e as E { } => none
do { } catch E.a { } catch let e as E { } catch { } => none
_\n= a => none
let\nx = 1 => none
let x = a\n-b => none
a[0].b += 1 => none
[a][0] = 1 => none
nil.x = 1 => none
(a).b = 1 => none
a\n=\nb => none
a += await b => none
a; b; c => none
a\n; => none
if { } => P1 1:15
if case .a = x { } => P1 1:15
if a { }; else { } => P1 1:22
if if a { } => P1 1:15
if a ; b { } => P1 1:17
if let x , { } => P1 1:23
guard else { } => P1 1:18
for (i) in a { } => P1 1:16
for in in a { } => P1 1:16
for i: Int in a { } => P1 1:17
for i in (a ..< b) { } => P1 1:24
switch x { case .a(let ) : } => P1 1:35
switch x { case T.a.b: } => P1 1:31
switch x { case .a where b: } => P1 1:31
switch { } => P1 1:19
switch x { case , .a: } => P1 1:28
switch x { case self: } => P1 1:28
switch x { case .a()(): } => P1 1:32
switch x { case nil.a: } => P1 1:31
do { } catch let e { } => P1 1:31
do { } catch var e as E { } => P1 1:25
do a => P1 1:15
try ? f() => P1 1:16
try await await a => P1 1:22
try x = 1 => P1 1:18
a.try => P1 1:14
return * a => P1 1:19
_ = _ => P1 1:16
let var x = 1 => P1 1:16
a = b += c => P1 1:18
a.b() = 1 => P1 1:18
nil = 1 => P1 1:16
!a = 1 => P1 1:15
; a => P1 1:12
throw ; => P1 1:18
a return => P2 1:14
let x = 1 let y = 2 => P2 1:22
if a { } (b) => P2 1:21
if a { } b => P2 1:21
break !a => P2 1:18
continue (a) => P2 1:21
return if a { } => P2 1:19
while a { } while b { } => P2 1:24
switch x { } a => P2 1:25
switch x { case .a: break case .c: } => P2 1:38
throw a throw b => P2 1:20
a try b => P2 1:14
a() b => P2 1:16
[a] b => P2 1:16
return break => P2 1:19
a true => P2 1:14
return switch a { } => P2 1:19
a if b { } => P2 1:14
await try a => P4 1:12
let x = await try b => P4 1:20
if await try a { } => P4 1:15
a ? await try b : c => P4 1:16
f(await try: a) => P4 1:14
await try => P4 1:12
await a + await b => P6 1:22
a && await b => P6 1:17
a < try c => P6 1:16
a + await try b => P6 1:16
a ? b + try c : d => P6 1:20
a-await b => P6 1:14
a + -try b => P1 1:17
a\n-try b => P1 2:2
break\n- try a => P1 2:3
f(try a, await b) => none
(try a) + 1 => none
try? a => none
try\nawait\na => none
a + [try b] => none
try -a => none
await .a => none
f(try: await a) => none
try (try a) => none
a < b > c => P5 1:18
a == b != c => P5 1:19
a < b && c < d < e => P5 1:27
a < b <= c => P5 1:18
"\\(a < b < c)" => P5 1:21
x[a == b == c] => P5 1:21
a < b[c] < d => P5 1:21
for i in a < b < c ..< d { } => P5 1:27
a < [b] < c => P5 1:20
a < b && c < d => none
a < (b < c) => none
a < b ? c < d : e < f => none
a < b && c < d || e < f => none
a < b\nc < d => none
a < (b == c) && d => none
"##;

/// Whole sources.
pub const SOURCES: &str = r##"
func f() { """" } => L2 1:12
func f() { "\\u{41 => L2 1:12
func f() { "\\\n" } => L2 1:12
func f() { " => L3 1:12
func f() { "\n" => L3 1:12
func f() { "\\(a // b)" } => L3 1:12
func f() { "\\(()" } => L3 1:12
/* => L3 1:1
 /* \x01\n\n => L3 1:2
/**/ => none
// a => none
/* /* */ */ func f() { } => none
  => none
/* " */ => none
func f() { a "9223372036854775808\n} => L3 1:14
func f() { a ? b } => P1 1:18
func f() { a ? b : } => P1 1:20
import Swift => none
import\nSwift => none
typealias A = [B]? => none
typealias A = any B => none
struct A: B, C, D { } => none
struct A { var x } => none
struct A { var x: Int { 1 } } => none
struct A { var x: Int { get\n{ a } } } => none
struct A { var x: Int { get.a } } => none
struct A { var x: Int { return 1 } } => none
struct A { var x: A\n.B { c } } => none
struct A { init\n(\n)\n{\n}\n} => none
struct A { final var final: Int } => none
struct A { public\nprivate\nlet\nx\n} => none
actor distributed { } => none
nonisolated enum E { } => none
final distributed\nactor A { } => none
actor A: B { init() { } } => none
enum E { case a; case b } => none
enum E { case a(any P) } => none
enum E { case a; let x = 1 } => none
enum E { case\na } => none
enum E { case a(get) } => none
enum E: Error, Codable { case low } => none
protocol P { func f() } => none
protocol P { func f()\nfunc g() } => none
protocol P { func f() -> A\nfunc g() } => none
protocol P { var get: get { get } } => none
func f(_ x: Int) { } => none
func f(x: inout [Int]...) { } => none
func get() { } => none
func f() { }; => none
func f() -> Int? { } => none
func f(self x: Int, init y: Int, nil z: Int) { } => none
func f(x: ()) { } => none
func class() { } => none
import Swift.X => P1 1:13
import 1 => P1 1:8
typealias A  => P1 1:13
typealias self = B => P1 1:11
public typealias A = B => P1 1:8
x => P1 1:1
; => P1 1:1
} => P1 1:1
struct A: B C { } => P1 1:13
struct  => P1 1:8
struct A<T> { } => P1 1:9
struct A { case a } => P1 1:12
struct A { var x: Int { get { 1 }; } } => P1 1:34
struct A { var x { 1 } } => P1 1:18
struct A { init() -> A { } } => P1 1:19
struct A { a } => P1 1:12
struct A { ; } => P1 1:12
struct A { var x = a\n[b] } => P1 2:1
struct A { var x: = 1 } => P1 1:19
struct A { weak var x: Int } => P1 1:12
actor  => P1 1:7
final => P1 1:6
distributed  => P1 1:13
actor A { case a } => P1 1:11
mutating init() { } => P1 1:10
enum E { case a(x Int) } => P1 1:19
enum E { case a(_: Int) } => P1 1:17
enum E { static case a } => P1 1:17
enum E { case a(x:) } => P1 1:19
enum E { case a: Int } => P1 1:16
enum E { case a(any: any) } => P1 1:25
enum E { case .a } => P1 1:15
protocol P { var x: Int } => P1 1:25
protocol P { init() } => P1 1:14
protocol P { var x: Int { set } } => P1 1:27
protocol P { var x: Int { get; } } => P1 1:30
protocol P { static var x: Int { get } } => P1 1:21
func f(x: Int, ) { } => P1 1:16
func f(_ _: Int) { } => P1 1:10
func for() { } => P1 1:6
func f() -> Int -> Int { } => P1 1:17
func f(); => P1 1:9
func  => P1 1:6
func f { } => P1 1:8
func f(x: Int y: Int) { } => P1 1:15
func f(: Int) { } => P1 1:8
func f(x: Int) -> { } => P1 1:19
func f(1: Int) { } => P1 1:8
import Swift import Swift => P2 1:14
typealias A = B struct C { } => P2 1:17
struct A { } final => P2 1:14
struct A { var a: Int var b: Int } => P2 1:23
struct A { func f() { } init() { } } => P2 1:25
enum E { case a case b } => P2 1:17
enum E { case a mutating } => P2 1:17
protocol P { func f() -> Int func g() } => P2 1:30
protocol P { func f() -> A final func g() } => P2 1:28
import A distributed => P2 1:10
func f(await try: Int) { } => P4 1:8
let x = 1 # => L2 1:11
// \xff => L1 1:4
// \xc3\n => L1 1:4
/* \xc3*/ => L1 1:4
/* \xc3\xa9\xa9 */ => L1 1:6
/* \xff => L3 1:1
\xff => L1 1:1
\x80 => L1 1:1
\xc3 => L1 1:1
\xc0\x80 => L1 1:1
\xf4\x90\x80\x80 => L1 1:1
\xf5\x80\x80\x80 => L1 1:1
\xe0\x80\x80 => L1 1:1
\xf0\x80\x80\x80 => L1 1:1
\xed\xa0\x80 => L1 1:1
\xf0\x9f\x98 => L1 1:1
\xf0\x9f\x98\x80 => L2 1:1
\xf4\x8f\xbf\xbf => L2 1:1
\xef\xbb\xbffunc f() { } => L2 1:1
func f() {\xc2\xa0} => L2 1:11
func f() {\x0c} => L2 1:11
func f() {\x0b} => L2 1:11
func f() {\x00} => L2 1:11
func f() {\x7f} => L2 1:11
func f\xc3\xa9() { } => L2 1:7
func f() { 1\xc3\xa9 } => L2 1:13
func f() { "\xff" } => L2 1:12
func f() { "\xc3 => L2 1:12
func f() { "a\xc3" } => L2 1:12
func f() { "\xed\xa0\x80" } => L2 1:12
func f() { "\\(/* \xff */a + 99999999999999999999)" } => L1 1:18
func f() { "\\(99999999999999999999 /* \xff */)" } => L4 1:15
func f() { "\\(a /* \xff */ #)" } => L2 1:12
func f() { "\\(a /* \xff */ => L3 1:12
func f() { "\\(a \xff)" } => L2 1:12
func f() { "\\(a // \n \xff => L3 1:12
func f() { "\xc3\xa9" x } => P2 1:17
/* \xc3\xa9 */ x => P1 1:10
// \xc3\xa9\nx => P1 2:1
\t\tx => P1 1:3
\rx => P1 1:2
\r\nx => P1 2:1
func f() { a\rb } => P2 1:14
func f() { a\r\nb } => none
func f() { a // c\r => P1 1:19
func f() { a // c\rb\n} => none
func f() {\r\n => P1 1:13
func f() { a # b => L2 1:14
func f() { let x } => P1 1:18
func f() { let x: Int } => P1 1:23
func f() { throw } => P1 1:18
func f() { try } => P1 1:16
func f() { await } => P1 1:18
func f() { _ } => P1 1:14
func f() { if a { } else } => P1 1:26
func f() { switch x } => P1 1:21
func f() { for i in } => P1 1:21
func f() { - } => P1 1:14
func f() { ! } => P1 1:14
func f() { do } => P1 1:15
func f() { do { } catch } => P1 1:25
func f() { while a } => P1 1:20
func f() { guard a } => P1 1:20
func f() { return (} => P1 1:20
func f() { [} => P1 1:13
func f() { (a} => P1 1:14
func f() { switch x { case .a } => P1 1:31
func f() { switch x { case .a:  => P1 1:32
func f() { switch x { default: }  => P1 1:34
func f() { if a { }  => P1 1:21
func f() { a\n => P1 1:14
func f() { a\n- => P1 2:2
func f() { (a\n- => P1 2:1
func f() { (a\n-  => P1 2:3
func f() { return  => P1 1:19
func f() { break\n\n => P1 2:2
func f() { } } => P1 1:14
func f() { { => P1 1:12
func => P1 1:5
func\n => P1 1:6
func \n\n => P1 2:2
func // c => P1 1:10
func /* c */\n => P1 1:14
func f() {\n\n\n => P1 3:2
struct A {\n  var x: Int\n => P1 2:14
func f() { a => P1 1:13
func f() { (\n => P1 1:14
func f() { "a" => P1 1:15
import\t => P1 1:8
import\r\n => P1 1:9
"##;
