//! Sources, each with the rule of names that it breaks first and its place, or `named` where it breaks none: `SOURCE => ANSWER`.
//! `\\` stands for a backslash. `bench/names_rows.txt` has these rows and more.

/// At each rule what it still takes, what it refuses, and sources that break two.
pub const NAMED: &str = r##"
-- N1: types, funcs, aliases of a file
struct A { }; enum A { } => N1 1:20
actor A { }; distributed actor A { } => N1 1:32
func a() { }; func a(x: Int) { } => named
func a(x: Int) { }; func a(_ x: Int) { } => named
func a(x y: Int) { }; func a(x: Bool) { } => N1 1:28
func a(x: Int, y: Int) { }; func a(y: Int, x: Int) { }; func a(x: Int, y: Int) { } => N1 1:62
struct A { }; func A() { } => N1 1:20
struct A { }; func A(x: Int) { } => named
typealias DefaultDistributedActorSystem = NodeSystem; struct DefaultDistributedActorSystem { } => N1 1:62
import Distributed; import Distributed => named
struct Int { }; func print() { } => named
-- N1: members
struct A { var a = 1; func a() { } } => N1 1:28
struct A { var a = 1; func a(x: Int) { } } => named
struct A { func a() { }; static func a() { } } => N1 1:38
struct A { init() { }; init(x: Int) { }; init() { } } => N1 1:42
struct A { init() { }; init(x: Int) { }; init(_ x: Int) { } } => named
enum A { case a, b, a } => N1 1:21
enum A { case a; case a() } => N1 1:23
enum A { case a; case a(Int) } => named
enum A { case a(x: Int); func a(x: Int) { } } => N1 1:31
protocol A { func a(); var a: Int { get } } => N1 1:28
actor A { var id = 1; var actorSystem = 2 } => named
distributed actor A { var id = 1 } => N1 1:27
distributed actor A { func actorSystem() { } } => N1 1:28
distributed actor A { func id(x: Int) { } } => named
distributed actor A { static func resolve(id: Int, using: Int) { } } => N1 1:35
distributed actor A { func resolve(id: Int) { } } => named
-- N1: parameters and locals
func f(x a: Int, y a: Int) { } => N1 1:20
func f(a b: Int, b a: Int) { } => named
func f(a: Int) { let a = 1 } => named
func f() { let a = 1; if true { let a = 2 }; print(a) } => named
func f() { if true { let a = 1; let a = 2 } } => N1 1:37
func f(x: Int?) { let a = 1; guard let a = x else { return } } => N1 1:40
func f(x: Int?) { guard let a = x else { return }; let a = 1 } => N1 1:56
func f(x: Int?) { guard let a = x else { let a = 1; return } } => named
func f(x: Int?) { if let a = x, let a = x { } } => N1 1:37
func f() { for i in 0 ..< 3 { let i = 1 } } => named
enum A { case a(Int, Int) }; func f(x: A) { switch x { case .a(let p, let p): print(1) } } => N1 1:75
enum A { case a(Int); case b(Int) }; func f(x: A) { switch x { case .a(let p), .b(let p): print(1) } } => N1 1:87
enum A { case a(Int); case b(Int) }; func f(x: A) { switch x { case .a(let p): print(p); case .b(let p): print(p) } } => named
enum A { case a(Int) }; func f(x: A) { switch x { case .a(let p): let p = 1; print(p) } } => named
func f() { do { } catch { let error = 1 } } => named
-- N2: types
func f() -> A { } => N2 1:13
func f(x: [[any A?]]) { } => N2 1:17
func f(x: inout A) { } => N2 1:17
func f(x: A...) { } => N2 1:11
enum A { case a, b(Int, x: [B?]) } => N2 1:29
struct A { }; func f(x: A, y: B) { }; enum B { case a } => named
func f(x: Int, y: Bool, z: String, w: Void, a: ActorID, s: NodeSystem, d: DistributedCallError) { } => named
func f(x: any Codable, y: any Error, z: Sendable, w: Equatable, h: Hashable) { } => named
struct A { var a = 1; func f(x: a) { } } => N2 1:33
func f(x: Distributed) { } => N2 1:11
-- N2: after a colon
enum A: Codable, P { case a } => N2 1:18
struct A: P { }; protocol P { } => named
struct A: Int { } => named
-- N2: a type of a type
distributed actor A { }; func f(x: A.ID) { } => named
actor A { }; func f(x: A.ID) { } => N2 1:26
func f(x: A.ID) { } => N2 1:11
distributed actor A { }; func f(x: A.ActorID) { } => N2 1:38
func f(x: NodeSystem.ActorID) { } => named
func f(x: NodeSystem.ID) { } => N2 1:22
typealias DefaultDistributedActorSystem = NodeSystem; func f(x: DefaultDistributedActorSystem.ActorID) { } => named
distributed actor A { typealias ActorSystem = NodeSystem; func f(x: ActorSystem, y: ActorSystem.ActorID) { } } => named
distributed actor A { typealias ActorSystem = NodeSystem }; distributed actor B { func f(x: ActorSystem) { } } => N2 1:93
distributed actor A { typealias ActorSystem = NodeSystem }; func f(x: A.ActorSystem) { } => N2 1:73
struct NodeSystem { }; func f(x: NodeSystem.ActorID) { } => N2 1:45
-- N2: patterns and catches
enum A { case a }; func f(x: A) { switch x { case B.a: print(1) } } => N2 1:51
enum A { case a }; func f(x: A) { switch x { case .b: print(1) } } => named
func f() { do { } catch let e as A { } } => N2 1:34
-- N3: names
func f() { a = 1 } => N3 1:12
func f() { let a = a } => N3 1:20
func f() { print(a); let a = 1 } => N3 1:18
func f(a b: Int) { print(a) } => N3 1:26
func f() { g() }; func g() { f() } => named
import Distributed; func f() { print(Distributed) } => N3 1:38
func f() { print("a\\("b\\(c)")") } => N3 1:26
func f() { let x = .a } => named
func f() { let x = .a(b) } => N3 1:23
func f() { for i in 0 ..< i { } } => N3 1:27
func f() { if let a = a { } } => N3 1:23
func f(a: Int?) { if let a { print(a) } } => named
func f(x: Int?) { if let a = x { }; print(a) } => N3 1:43
func f(x: Int?) { if let a = x { } else { print(a) } } => N3 1:49
func f(x: Int?) { if a, let a = x { } } => N3 1:22
func f(x: Int?) { guard let a = x else { print(a); return }; print(a) } => N3 1:48
func f(x: Int?) { while let a = x { print(a) }; print(a) } => N3 1:55
func f() { do { print(error) } catch { print(error) } } => N3 1:23
func f() { do { } catch { print(error) } } => named
enum A { case a(Int); case b }; func f(x: A) { switch x { case .a(let p): print(p); case .b: print(p) } } => N3 1:100
enum A { case a(Int); case b }; func f(x: A) { switch x { case .a(let p), .b: print(p) } } => N3 1:85
enum A { case a(Int); case b }; func f(x: A) { let p = 1; switch x { case .a(let p), .b: print(p) } } => named
enum A { case a }; func f(x: A) { switch x { case .a: let p = 1; default: print(p) } } => N3 1:81
struct A { var a = 1 }; func f() { print(a) } => N3 1:42
-- N3: names of the own type
struct A { var a = 1; var b: Int { a } } => named
struct A { var a = 1; var b: Int { c } } => N3 1:36
enum A { case a; func f() { print(a) } } => named
protocol P { func f() }; struct A { func g() { f() } } => N3 1:48
actor A { func f() { print(id) } } => N3 1:28
distributed actor A { func f() { print(id); actorSystem.resignID(id) } } => named
-- N4: self
func f() { print(self) } => N4 1:18
struct A { init() { self.a = 1 }; var a: Int } => named
struct A { static var a: Int { self } } => N4 1:32
struct A { var a = self } => named
struct A { static var a = self } => N4 1:27
-- N4: self that is not written
struct A { var a = 1; static func f() { print(a) } } => N4 1:47
struct A { func g() { }; static func g(x: Int) { }; static func f() { g(x: 1) } } => named
struct A { func g() { }; static func g(x: Int) { }; static func f() { g() } } => N4 1:71
struct A { func g() { }; static func g(x: Int) { }; static func f() { g(y: 1) } } => named
struct A { func g() { }; func g(x: Int) { }; static func f() { g(y: 1) } } => N4 1:64
struct A { func g() { }; static func f() { let g = 1; print(g) } } => named
func g() { }; struct A { static func f() { g() } } => named
func g(x: Int) { }; struct A { func g() { }; static func f() { g(x: 1) } } => N4 1:64
enum A { case a; static func f() { print(a) } } => named
distributed actor A { static func f() { print(id) } } => N4 1:47
distributed actor A { static func f() { print(resolve) } } => named
-- N5: aliases
typealias DefaultDistributedActorSystem = [NodeSystem] => N5 1:1
typealias ActorSystem = NodeSystem => N5 1:1
typealias DefaultDistributedActorSystem = NodeSystem => named
distributed actor A { typealias ActorSystem = NodeSystem } => named
distributed actor A { typealias ActorSystem = Int } => N5 1:23
actor A { typealias ActorSystem = NodeSystem } => N5 1:11
enum A { case a; typealias ActorSystem = NodeSystem } => N5 1:18
func f(x: DefaultDistributedActorSystem) { }; typealias DefaultDistributedActorSystem = NodeSystem => named
-- a broken alias names a type all the same
typealias A = Int; func f(x: A) { } => N5 1:1
-- N6: imports
import Foundation => N6 1:1
import Distributed; import Swift; import _Concurrency => named
import Swift; import swift => N6 1:15
-- two rules at once: the earlier place, and at one place the earlier rule
typealias A = B => N5 1:1
func f(x: A) { print(a) } => N2 1:11
func f() { print(a); let x: B = 1 } => N3 1:18
func f() { let b = c; let b = 1 } => N3 1:20
struct A: P { }; struct A { } => N2 1:11
struct A { var b = 1; static func f() { c.d(b) } } => N3 1:41
struct A { var b = 1; static func f() { b.d(c) } } => N4 1:41
func f() { guard let a = b else { print(a); return } } => N3 1:26
"##;
