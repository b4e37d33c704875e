//! Rows of declarations: a source, in which `\n` is a line break, and the first of T1, T6 by the form, T7 and T9 that it breaks, with
//! its place.

pub const ROWS: &str = r#"-- T1, at the name
struct S: Int { } => T1 1:11
struct S: DistributedCallError { } => T1 1:11
struct S: Codable, Sendable, Equatable, Hashable { } => accepted
protocol P { }\nstruct S: P { } => accepted
protocol P { }\nenum E: P { case a } => accepted
protocol P { }\nactor A: P { } => T1 2:10
protocol P { }\ndistributed actor D: P {\n  typealias ActorSystem = NodeSystem\n} => T1 2:22
actor A: Sendable, Codable, Equatable, Hashable { } => accepted
enum E: Error { case a } => accepted
struct T { }\nstruct S: T { } => T1 2:11
enum E { case a }\nenum F: E { case a } => T1 2:9
protocol P { }\nprotocol Q: P, Codable { } => accepted
actor A { }\nprotocol Q: A { } => T1 2:13
protocol Codable { }\nactor A: Codable { } => T1 2:10
protocol Codable { }\nstruct S: Codable { } => accepted
struct Hashable { }\nstruct S: Hashable { } => T1 2:11
typealias DefaultDistributedActorSystem = NodeSystem\nstruct S: DefaultDistributedActorSystem { } => T1 2:11
distributed actor D: ActorSystem {\n  typealias ActorSystem = NodeSystem\n} => T1 1:22
struct S: Codable, Int, Bool { } => T1 1:20
struct S: Int { }\nstruct T: Bool { } => T1 1:11
-- T6 by the form, at the type's name
struct S: Error { } => T6 1:8
protocol P: Error { } => T6 1:10
actor A: Error { } => T6 1:7
distributed actor D: Error {\n  typealias ActorSystem = NodeSystem\n} => T6 1:19
enum E: Error { case a } => accepted
enum E: Codable, Error { case a, b } => accepted
struct S: Codable, Error { } => T6 1:8
public struct S: Error { } => T6 1:15
protocol Error { }\nstruct S: Error { } => accepted
protocol Error { }\nactor A: Error { } => T1 2:10
struct Error { }\nstruct S: Error { } => T1 2:11
struct S: Error, Int { } => T6 1:8
-- T7, at the name or at `any`
protocol P { }\nstruct S { var x: P } => T7 2:19
protocol P { }\nstruct S { var x: any P } => accepted
struct S { var x: any Int } => T7 1:19
struct S { }\nstruct T { var x: any S } => T7 2:19
func f(x: Codable) { } => T7 1:11
func f(x: any Codable) { } => T7 1:11
func f(x: Sendable) { } => T7 1:11
func f(x: any Hashable) { } => T7 1:11
func f(x: any Error) { } => accepted
func f(x: Error) { } => T7 1:11
func f(x: DistributedCallError) { } => accepted
protocol P { }\nfunc f(x: [P]) { } => T7 2:12
protocol P { }\nfunc f(x: [any P]) { } => accepted
func f(x: [any Int?]) { } => T7 1:12
protocol P { }\nfunc f() -> P? { return nil } => T7 2:13
protocol Error { }\nfunc f(x: any Error) { } => accepted
struct Error { }\nfunc f(x: any Error) { } => T7 2:11
struct Error { }\nfunc f(x: Error) { } => accepted
enum Codable { case a }\nfunc f(x: Codable) { } => accepted
protocol Codable { }\nfunc f(x: any Codable) { } => accepted
protocol Codable { }\nfunc f(x: Codable) { } => T7 2:11
typealias DefaultDistributedActorSystem = NodeSystem\nfunc f(x: DefaultDistributedActorSystem) { } => accepted
typealias DefaultDistributedActorSystem = NodeSystem\nfunc f(x: any DefaultDistributedActorSystem) { } => T7 2:11
enum E { case a(x: Sendable) } => T7 1:20
enum E { case a, b(Int, [Error]) } => T7 1:26
protocol P {\n  var x: Hashable { get }\n} => T7 2:10
protocol P {\n  func f(x: Int) -> P\n} => T7 2:21
struct S { init(x: Error) { } } => T7 1:20
struct S { var x: Int { let y: Error? = nil\n    return 1\n  }\n} => T7 1:32
struct S { var x: Int { get { let y: Error? = nil\n    return 1\n  } }\n} => T7 1:38
func f() {\n  let x: any Int = 1\n} => T7 2:10
func f(b: Bool) {\n  if b {\n    while b {\n      let x: Equatable = 1\n    }\n  }\n} => T7 4:14
func f(b: Bool) {\n  if b {\n  } else if b {\n    let x: Error? = nil\n  }\n} => T7 4:12
func f(b: Bool) {\n  if b {\n  } else {\n    let x: Error? = nil\n  }\n} => T7 4:12
func f(b: Bool) {\n  guard b else {\n    let x: Error? = nil\n    return\n  }\n} => T7 3:12
func f() {\n  for i in [1] {\n    let x: Error? = nil\n  }\n} => T7 3:12
func f() {\n  switch 1 {\n  case 1: let x: Int = 1\n  default: let x: Error? = nil\n  }\n} => T7 4:19
func g() throws { }\nfunc f() {\n  do {\n    try g()\n  } catch let e as Error {\n  } catch {\n  }\n} => T7 5:20
func g() throws { }\nfunc f() {\n  do {\n    try g()\n  } catch {\n    let x: Error? = nil\n  }\n} => T7 6:12
func g() throws { }\nfunc f() {\n  do {\n    let x: Error? = nil\n    try g()\n  } catch {\n  }\n} => T7 4:12
enum E: Error { case a }\nfunc g() throws { }\nfunc f() {\n  do {\n    try g()\n  } catch E.a {\n  } catch let e as E {\n  } catch {\n  }\n} => accepted
protocol P { }\nfunc g() throws { }\nfunc f() {\n  do {\n    try g()\n  } catch P.a {\n  } catch {\n  }\n} => accepted
protocol P { }\nfunc f() {\n  _ = P.a\n} => accepted
distributed actor D {\n  typealias ActorSystem = NodeSystem\n  nonisolated func f(x: D.ID) { }\n} => accepted
distributed actor D {\n  typealias ActorSystem = NodeSystem\n  nonisolated func f(x: any ActorSystem) { }\n} => T7 3:25
func f(x: (), y: Int?) -> () { } => accepted
func f(x: Error, y: Codable) { } => T7 1:11
-- T9, at the name
func f(x: inout Int) { } => T9 1:8
func f(a x: Int...) { } => T9 1:10
func f(_ x: Int, y: inout Int) { } => T9 1:18
distributed actor D {\n  typealias ActorSystem = NodeSystem\n  distributed func f(x: Int...) { }\n} => accepted
distributed actor D {\n  typealias ActorSystem = NodeSystem\n  func f(x: Int...) { }\n} => T9 3:10
distributed func f(x: inout Int) { } => accepted
struct S { distributed func f(x: inout Int) { } } => accepted
struct S { nonisolated func f() async { } } => T9 1:29
distributed actor D {\n  typealias ActorSystem = NodeSystem\n  distributed init(x: inout Int) { }\n} => T9 3:20
protocol P {\n  func f(x: inout Int)\n} => T9 2:10
protocol P {\n  distributed func f(x: inout Int)\n} => T9 2:22
struct S { init(x: Int...) { } } => T9 1:17
struct S { func f() async { } } => T9 1:17
struct S { static func f() async { } } => T9 1:24
struct S { func f() throws { } } => accepted
enum E { case a\n  func f() async { }\n} => T9 2:8
actor A { func f() async { } } => accepted
actor A { nonisolated func f() async { } } => T9 1:28
actor A { static func f() async { } } => T9 1:23
actor A { nonisolated func f() { } } => accepted
protocol P { static func f() async } => accepted
static func f() async { } => accepted
nonisolated func f() async { } => accepted
struct S { static var x = 1 } => T9 1:23
actor A { nonisolated let x = 1 } => T9 1:27
struct S { static var x: Int { return 1 } } => accepted
actor A { nonisolated var x: Int { return 1 } } => accepted
struct S { var x } => T9 1:16
actor A { let x } => T9 1:15
struct S { var x: Int } => accepted
struct S { var x = 1 } => accepted
enum E { case a\n  var x: Int\n} => T9 2:7
enum E { case a\n  static var x = 1\n} => T9 2:14
enum E { case a\n  var x: Int { return 1 }\n} => accepted
enum E { case a\n  init() { }\n} => T9 2:3
enum E { case a\n  init(x: inout Int) { }\n} => T9 2:3
public static func f() { } => accepted
final mutating func f(x: Int) { } => accepted
-- two rules: the first by place
struct S: Int { func f(x: Error) async { } } => T1 1:11
struct S { func f(x: Error) async { } } => T9 1:17
struct S { func f(x: inout Error) { } } => T9 1:19
struct S { var x: Error\n  static var y = 1\n} => T7 1:19
protocol P { }\nactor A: P { var x: P } => T1 2:10
"#;
