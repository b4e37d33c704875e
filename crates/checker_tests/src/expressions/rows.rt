//! Rows of expressions: a text and, behind ` -> `, the type that is needed; then the type that it has, or the first rule that
//! it breaks with its place.

/// In a func of the file.
pub const ROWS: &str = r#"-- literals and variables
1 => Int
true => Bool
"a\\(i)b" => Str
s => Str
lost => -
-- E1, at the first token of the whole expression; each branch and each argument is a place of its own
1 -> Str => E1 1:1
(1) -> Str => E1 1:1
i + 1 -> Str => E1 1:1
t ? 1 : "a" -> Str => E1 1:5
t ? 1 : "a" => E1 1:9
f(a: "a") => E1 1:6
xs[s] => E1 1:4
[1, "a"] => E1 1:5
i ? 1 : 2 => E1 1:1
o ? 1 : 2 -> Str => E1 1:1
xs[o] => E1 1:4
h(o: "a", sh: p) => E1 1:6
h(o: 1, sh: e) => E1 1:13
f(a: o) => E1 1:6
f(a: t ? 1 : s) => E1 1:14
try? f(a: 1) -> Int => E1 1:1
lost -> Str => -
-- conversions
1 -> ?Int => ?Int
o -> ??Int => ??Int
p -> Any:5 => Any:5
p -> ?Any:5 => ?Any:5
Failure.bad -> AnyError => AnyError
e -> AnyError => E1 1:1
[p] -> [Any:5 => [Any:5
xs -> [?Int => E1 1:1
t ? p : p -> Any:5 => Any:5
h(o: 1, sh: p) => Void
h(o: nil, sh: P.make()) => Void
[1, nil, o] -> [?Int => [?Int
[p, P.make()] -> ?[Any:5 => ?[Any:5
(p) -> Any:5 => Any:5
-- E2, at the name
p.z => E2 1:3
P.x => E2 1:3
p.make() => E2 1:3
e.a => E2 1:3
o.count => E2 1:3
xs.size => E2 1:4
Shape.m => E2 1:7
Int.mean => E2 1:5
lost.x => -
xs.count => Int
Int.max => Int
box.name => Str
sys.named("a") => System
Int.min => Int
"a".isEmpty => Bool
xs.isEmpty => Bool
sys.node => Int
sys.resignID(ActorID(node: 0, name: "a")) => Void
sys.resignID("a") => E1 1:14
DistributedCallError.unreachable => Enum:0
DistributedCallError.lost => E2 1:22
DistributedCallError.resigned == .wrongType => Bool
print(DistributedCallError.peerRestarted) => Void
Failure.bad == .bad => Bool
Box() => Plain:6
Box().items => [Int
Box.items => E2 1:5
Remote(actorSystem: sys) => Distributed:7
Remote() => E3 1:1
Remote(actorSystem: 1) => E1 1:21
Remote.resolve(id: ActorID(node: 0, name: "a"), using: sys) => Distributed:7
Remote.resolve(id: 1, using: sys) => E1 1:20
Remote.resolve(using: sys) => E3 1:8
Remote(actorSystem: sys).id => Id
Remote(actorSystem: sys).actorSystem => System
Remote(actorSystem: sys).ping(a: 1) => Int
Remote(actorSystem: sys).n => -
Remote.id => E2 1:8
sh.inc() => E2 1:4
P.make().m(a: 1) => Int
-- E3, at the name, wherever the labels are
f(b: 1) => E3 1:1
f() => E3 1:1
p.m(1) => E3 1:3
E.c(1) => E3 1:3
P(y: "a", x: 1) => E3 1:1
E() => E3 1:1
P(x: 1, y: "a") => Struct:1
E.c(1, name: "a") => Enum:2
ActorID(node: 0, name: "a") => Id
sh.m(a: 1) => Int
f(b: nil) => E3 1:1
-- E4 and E9, at the operator
1 + "a" => E4 1:3
o == 1 => E4 1:3
-s => E4 1:1
!i => E4 1:1
t + t => E4 1:3
[1] + ["a"] => E4 1:5
s < 1 => E4 1:3
i && t => E4 1:3
xs + 1 => E4 1:4
o + 1 => E4 1:3
i ?? 1 => E4 1:3
p.x + s => E4 1:5
p == p => E9 1:3
e != e => E9 1:3
xs != ys => E9 1:4
sh == sh => E9 1:4
box == box => E9 1:5
oe == oe => E9 1:4
oe == nil => E9 1:4
nil != oe => E9 1:5
oe == .a => E9 1:4
(p) != q => E9 1:5
sys == sys => E9 1:5
k == k => Bool
xs + ys => [Int
i < 2 && s == "a" => Bool
lost + 1 => -
-- E5, at `(`, at `[`, or at a name
i(1) => E5 1:2
p.x() => E5 1:4
f(a: 1)() => E5 1:8
i[0] => E5 1:2
f => E5 1:1
P => E5 1:1
print => E5 1:1
p.m => E5 1:3
E.c => E5 1:3
lost() => -
-- E6, at the first token
nil => E6 1:1
[] => E6 1:1
.a => E6 1:1
print(nil) => E6 1:7
nil -> Int => E6 1:1
[] -> Int => E6 1:1
.a -> [Enum:2 => E6 1:1
nil == nil => E6 1:1
nil ?? 1 => E6 1:1
i ?? [] => E6 1:6
nil -> ?Int => ?Int
[] -> ?[Int => ?[Int
.a -> ?Enum:2 => ?Enum:2
.z -> Enum:2 => E2 1:2
.c(1, name: "a") -> Enum:2 => Enum:2
-- operands that take the other's type
o == nil => Bool
nil != o => Bool
k == .on => Bool
(.on) == k => Bool
true && .a => E2 1:10
o ?? 1 => Int
o ?? o => ?Int
o ?? nil => ?Int
oe ?? .a => Enum:2
xs == [] => E9 1:4
-- E8, at the name of the func
p.inc() => E8 1:3
xs.append(1) => E8 1:4
box.name.inc() => E2 1:10
P.make().inc() => E8 1:10
(q).inc() => E8 1:5
[1].append(2) => E8 1:5
(t ? q : q).inc() => E8 1:13
xs.append(nil) => E8 1:4
q.inc() => Void
ys.append(1) => Void
ys.append("a") => E1 1:11
box.items.append(1) => Void
P(x: 1, y: "a").inc() => E8 1:17
-- E10, at what is printed
print(p) => E10 1:7
print(o) => E10 1:7
"\\(e)" => E10 1:4
print(xs) => E10 1:7
print(box) => E10 1:7
print(sys) => E10 1:7
print(g()) => E10 1:7
print(sh) => E10 1:7
"\\(o)" => E10 1:4
print("\\(p)") => E10 1:10
print((p)) => E10 1:7
print(k) => Void
print("\\(t)") => Void
-- E11, at `!`
i! => E11 1:2
s! => E11 1:2
xs! => E11 1:3
(i)! => E11 1:4
f(a: 1)! => E11 1:8
true! => E11 1:5
xs[0]! => E11 1:6
o!! => E11 1:3
p.x! => E11 1:4
o! => Int
-- within `try?` no type is needed
try? .a -> ?Enum:2 => E6 1:6
try? opt() => ??Int
-- deep and long ones
1 + 1 + 1 + 1 + 1 + 1 + 1 + 1 + 1 + 1 + 1 + 1 + 1 + 1 + 1 + 1 + 1 + 1 + 1 + 1 + 1 + 1 + 1 + 1 + 1 + 1 + 1 + 1 + 1 + 1 + 1 + 1 + 1 + 1 + 1 + 1 + 1 + 1 + 1 + 1 + 1 + 1 + 1 + 1 + 1 + 1 + 1 + 1 + 1 + 1 + 1 + 1 + 1 + 1 + 1 + 1 + 1 + 1 + 1 + 1 + 1 + 1 + 1 + 1 + 1 + 1 + 1 + 1 + 1 + 1 + 1 + 1 + 1 + 1 + 1 + 1 + 1 + 1 + 1 + 1 + 1 + 1 + 1 + 1 + 1 + 1 + 1 + 1 + 1 + 1 + 1 + 1 + 1 + 1 + 1 + 1 + 1 + 1 + 1 + 1 + 1 => Int
t ? nil : t ? nil : t ? nil : t ? nil : t ? nil : t ? nil : t ? nil : t ? nil : t ? nil : t ? nil : t ? nil : t ? nil : t ? nil : t ? nil : t ? nil : t ? nil : t ? nil : t ? nil : t ? nil : t ? nil : t ? nil : t ? nil : t ? nil : t ? nil : t ? nil : t ? nil : t ? nil : t ? nil : t ? nil : t ? nil : t ? nil : t ? nil : t ? nil : t ? nil : t ? nil : t ? nil : t ? nil : t ? nil : t ? nil : t ? nil : t ? nil : t ? nil : t ? nil : t ? nil : t ? nil : t ? nil : t ? nil : t ? nil : t ? nil : t ? nil : t ? nil : t ? nil : t ? nil : t ? nil : t ? nil : t ? nil : t ? nil : t ? nil : t ? nil : t ? nil : t ? nil : t ? nil : t ? nil : t ? nil : 1 -> ?Int => ?Int
t ? nil : t ? nil : t ? nil : t ? nil : t ? nil : t ? nil : t ? nil : t ? nil : t ? nil : t ? nil : t ? nil : t ? nil : t ? nil : t ? nil : t ? nil : t ? nil : t ? nil : t ? nil : t ? nil : t ? nil : t ? nil : t ? nil : t ? nil : t ? nil : t ? nil : t ? nil : t ? nil : t ? nil : t ? nil : t ? nil : t ? nil : t ? nil : t ? nil : t ? nil : t ? nil : t ? nil : t ? nil : t ? nil : t ? nil : t ? nil : t ? nil : t ? nil : t ? nil : t ? nil : t ? nil : t ? nil : t ? nil : t ? nil : t ? nil : t ? nil : t ? nil : t ? nil : t ? nil : t ? nil : t ? nil : t ? nil : t ? nil : t ? nil : t ? nil : t ? nil : t ? nil : t ? nil : t ? nil : t ? nil : 1 => E6 1:5
[[[]]] => E6 1:3
[[[]]] -> [[[Int => [[[Int
t ? nil : 1 => E6 1:5
t ? 1 : nil => E6 1:9
-- two rules: the first by place
f(b: 1) + z.y => E3 1:1
[nil, 1] => E6 1:2
"#;

/// In a func of `P` that is not mutating.
pub const IN_P: &str = r#"x => Int
self.y => Str
y + self.y => Str
m(a: 1) => Int
self => Struct:1
make() => Struct:1
inc() => E8 1:1
self.inc() => E8 1:6
m => E5 1:1
x(1) => E5 1:2
m(b: 1) => E3 1:1
f(a: x) => Int
"#;
