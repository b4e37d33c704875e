//! Rows of what protocols require: a source, in which `\n` is a line break, and T2 with the place at which it is broken, where it is.
//! What else the sources break is left aside, and a property without a written type has none here.

pub const ROWS: &str = r#"-- a func: its name
protocol P { func f() }\nstruct S: P { func f() { } } => accepted
protocol P { func f() }\nstruct S: P { func g() { } } => T2 2:8
protocol P { func f() }\nstruct S: P { func F() { } } => T2 2:8
protocol P { func f() }\nstruct S: P { } => T2 2:8
protocol P { func f() }\npublic struct Long: P { } => T2 2:15
protocol P { func f() }\nstruct S: P { func g() { }\n  var x: Int\n  func f() { }\n} => accepted
protocol P { func f() }\nfunc f() { }\nstruct S: P { } => T2 3:8
-- labels
protocol P { func f(a: Int) }\nstruct S: P { func f(a: Int) { } } => accepted
protocol P { func f(a: Int) }\nstruct S: P { func f(b: Int) { } } => T2 2:8
protocol P { func f(a: Int) }\nstruct S: P { func f(_ a: Int) { } } => T2 2:8
protocol P { func f(_ a: Int) }\nstruct S: P { func f(a: Int) { } } => T2 2:8
protocol P { func f(_ a: Int) }\nstruct S: P { func f(_ b: Int) { } } => accepted
protocol P { func f(a b: Int) }\nstruct S: P { func f(a c: Int) { } } => accepted
protocol P { func f(a: Int) }\nstruct S: P { func f(a b: Int) { } } => accepted
protocol P { func f(a b: Int) }\nstruct S: P { func f(b: Int) { } } => T2 2:8
protocol P { func f(a: Int, b: Int) }\nstruct S: P { func f(a: Int, b: Int) { } } => accepted
protocol P { func f(a: Int, b: Int) }\nstruct S: P { func f(b: Int, a: Int) { } } => T2 2:8
protocol P { func f(a: Int, b: Int) }\nstruct S: P { func f(a: Int, c: Int) { } } => T2 2:8
protocol P { func f(a: Int, b: Int) }\nstruct S: P { func f(a: Int) { } } => T2 2:8
protocol P { func f(a: Int) }\nstruct S: P { func f(a: Int, b: Int) { } } => T2 2:8
protocol P { func f() }\nstruct S: P { func f(a: Int) { } } => T2 2:8
protocol P { func f(a: Int) }\nstruct S: P { func f(b: Int) { }\n  func f(a: Int) { }\n} => accepted
-- types of parameters
protocol P { func f(a: Int) }\nstruct S: P { func f(a: String) { } } => T2 2:8
protocol P { func f(a: Int?) }\nstruct S: P { func f(a: Int?) { } } => accepted
protocol P { func f(a: Int?) }\nstruct S: P { func f(a: Int) { } } => T2 2:8
protocol P { func f(a: Int) }\nstruct S: P { func f(a: Int?) { } } => T2 2:8
protocol P { func f(a: [Int?]) }\nstruct S: P { func f(a: [Int?]) { } } => accepted
protocol P { func f(a: [Int?]) }\nstruct S: P { func f(a: [Int]?) { } } => T2 2:8
protocol P { func f(a: Int, b: String) }\nstruct S: P { func f(a: Int, b: String) { } } => accepted
protocol P { func f(a: Int, b: String) }\nstruct S: P { func f(a: Int, b: Bool) { } } => T2 2:8
protocol P { func f(_ a: Int, _ b: String) }\nstruct S: P { func f(_ a: String, _ b: Int) { } } => T2 2:8
struct A { }\nprotocol P { func f(a: A) }\nstruct S: P { func f(a: A) { } } => accepted
struct A { }\nstruct B { }\nprotocol P { func f(a: A) }\nstruct S: P { func f(a: B) { } } => T2 4:8
protocol P { func f(a: any P) }\nstruct S: P { func f(a: any P) { } } => accepted
protocol P { func f(a: any P) }\nstruct S: P { func f(a: S) { } } => T2 2:8
-- result
protocol P { func f() -> Int }\nstruct S: P { func f() -> Int { return 1 } } => accepted
protocol P { func f() -> Int }\nstruct S: P { func f() -> String { return "" } } => T2 2:8
protocol P { func f() -> Int? }\nstruct S: P { func f() -> Int { return 1 } } => T2 2:8
protocol P { func f() -> Int }\nstruct S: P { func f() { } } => T2 2:8
protocol P { func f() }\nstruct S: P { func f() -> Int { return 1 } } => T2 2:8
protocol P { func f() -> Void }\nstruct S: P { func f() { } } => accepted
protocol P { func f() }\nstruct S: P { func f() -> Void { } } => accepted
protocol P { func f() -> () }\nstruct S: P { func f() -> Void { } } => accepted
-- static
protocol P { static func f() }\nstruct S: P { static func f() { } } => accepted
protocol P { static func f() }\nstruct S: P { func f() { } } => T2 2:8
protocol P { func f() }\nstruct S: P { static func f() { } } => T2 2:8
-- throws
protocol P { func f() throws }\nstruct S: P { func f() throws { } } => accepted
protocol P { func f() throws }\nstruct S: P { func f() { } } => accepted
protocol P { func f() }\nstruct S: P { func f() throws { } } => T2 2:8
-- async
protocol P { func f() async }\nstruct S: P { func f() async { } } => accepted
protocol P { func f() async }\nstruct S: P { func f() { } } => accepted
protocol P { func f() }\nstruct S: P { func f() async { } } => T2 2:8
protocol P { func f() throws }\nstruct S: P { func f() async { } } => T2 2:8
protocol P { func f() async }\nstruct S: P { func f() throws { } } => T2 2:8
protocol P { func f() async throws }\nstruct S: P { func f() throws { } } => accepted
-- mutating
protocol P { mutating func f() }\nstruct S: P { mutating func f() { } } => accepted
protocol P { mutating func f() }\nstruct S: P { func f() { } } => accepted
protocol P { func f() }\nstruct S: P { mutating func f() { } } => T2 2:8
protocol P { mutating func f() throws }\nstruct S: P { func f() { } } => accepted
-- a property
protocol P { var x: Int { get } }\nstruct S: P { var x: Int } => accepted
protocol P { var x: Int { get } }\nstruct S: P { let x: Int } => accepted
protocol P { var x: Int { get } }\nstruct S: P { let x: Int = 1 } => accepted
protocol P { var x: Int { get } }\nstruct S: P { var x: Int { return 1 } } => accepted
protocol P { var x: Int { get } }\nstruct S: P { var x: Int { get { return 1 } } } => accepted
protocol P { var x: Int { get } }\nstruct S: P { var y: Int } => T2 2:8
protocol P { var x: Int { get } }\nstruct S: P { var x: String } => T2 2:8
protocol P { var x: Int { get } }\nstruct S: P { let x: String } => T2 2:8
protocol P { var x: Int { get } }\nstruct S: P { var x: String { return "" } } => T2 2:8
protocol P { var x: Int { get } }\nstruct S: P { var x: Int? } => T2 2:8
protocol P { var x: Int? { get } }\nstruct S: P { var x: Int } => T2 2:8
protocol P { var x: [Int]? { get } }\nstruct S: P { var x: [Int]? } => accepted
protocol P { var x: Int { get } }\nstruct S: P { var y: Int\n  var x: Int\n} => accepted
-- nothing else meets it
protocol P { var x: Int { get } }\nstruct S: P { } => T2 2:8
protocol P { var x: Int { get } }\nstruct S: P { static var x: Int { return 1 } } => T2 2:8
protocol P { var x: Int { get } }\nstruct S: P { static var x: Int = 1 } => T2 2:8
protocol P { var x: Int { get } }\nstruct S: P { static let x = 1 } => T2 2:8
protocol P { var x: Int { get } }\nstruct S: P { func x() -> Int { return 1 } } => T2 2:8
protocol P { var x: Int { get } }\nstruct S: P { init(x: Int) { } } => T2 2:8
protocol P { func f() -> Int }\nstruct S: P { var f: Int { return 1 } } => T2 2:8
protocol P { func f() }\nstruct S: P { init() { } } => T2 2:8
-- a property without a written type
protocol P { var x: Int { get } }\nstruct S: P { var x = 1 } => accepted
protocol P { var x: Int { get } }\nstruct S: P { var x = "" } => accepted
protocol P { var x: Int { get } }\nstruct S: P { let x } => accepted
protocol P { var x: Int { get } }\nstruct S: P { var y = 1 } => T2 2:8
-- an enum
protocol P { func f() }\nenum E: P { case a\n  func f() { }\n} => accepted
protocol P { func f() }\nenum E: P { case a } => T2 2:6
protocol P { func f() }\nenum E: P { case a\n  func f() throws { }\n} => T2 2:6
protocol P { func f() }\nenum E: P { case f } => T2 2:6
protocol P { func f(a: Int) }\nenum E: P { case f(a: Int) } => T2 2:6
protocol P { static func f(a: Int) -> E }\nenum E: P { case f(a: Int) } => T2 2:6
protocol P { var x: E { get } }\nenum E: P { case x } => T2 2:6
protocol P { var x: Int { get } }\nenum E: P { case a\n  var x: Int { return 1 }\n} => accepted
protocol P { var x: Int { get } }\nenum E: P { case a\n  var x: Int\n} => accepted
protocol P { var x: Int { get } }\nenum E: P { case a\n  static var x: Int { return 1 }\n} => T2 2:6
protocol P { func f() }\nenum E: P, Error { case a } => T2 2:6
-- more requirements, and more protocols
protocol P {\n  func f()\n  func g()\n}\nstruct S: P { func f() { } } => T2 5:8
protocol P {\n  func f()\n  func g()\n}\nstruct S: P { func g() { } } => T2 5:8
protocol P {\n  func f()\n  func g()\n}\nstruct S: P { func g() { }\n  func f() { }\n} => accepted
protocol P {\n  func f()\n  var x: Int { get }\n}\nstruct S: P { func f() { } } => T2 5:8
protocol P {\n  func f()\n  var x: Int { get }\n}\nstruct S: P { var x: Int } => T2 5:8
protocol P { func f() }\nprotocol Q { func g() }\nstruct S: P, Q { } => T2 3:8
protocol P { func f() }\nprotocol Q { func g() }\nstruct S: P, Q { func f() { } } => T2 3:8
protocol P { func f() }\nprotocol Q { func g() }\nstruct S: P, Q { func g() { } } => T2 3:8
protocol P { func f() }\nprotocol Q { func g() }\nstruct S: P, Q { func f() { }\n  func g() { }\n} => accepted
protocol P { func f() }\nprotocol Q { func g() }\nstruct S: Q { func g() { } } => accepted
protocol P { func f() }\nprotocol Q { func f() throws }\nstruct S: P, Q { func f() { } } => accepted
protocol P { func f() }\nstruct S: P, P { } => T2 2:8
protocol P { func f() }\nstruct S: P, P { func f() { } } => accepted
protocol P { func f() }\nprotocol Q { func g() }\nstruct S: P, Q, P, Q { func f() { } } => T2 3:8
protocol P { func f() }\nprotocol Q { func g() }\nstruct S: P, Q, P, Q { func f() { }\n  func g() { }\n} => accepted
protocol P { func f() }\nprotocol Q { func g() }\nstruct S: P, P, Q { func f() { } } => T2 3:8
protocol P { func f() }\nstruct S { }\nstruct T: P { }\nstruct U: P { } => T2 3:8
protocol P { func f() }\nstruct S: P { func f() { } }\nenum E: P { case a } => T2 3:6
-- where protocols stand
struct S: P { }\nprotocol P { func f() } => T2 1:8
struct S: P { func f() { } }\nprotocol P { func f() } => accepted
func g() { }\nimport Distributed\nstruct A { }\nprotocol P { func f() }\nactor B { }\nenum E: P { case a }\nstruct C { } => T2 6:6
struct A { }\nfunc g() { }\nprotocol P { func f() }\nstruct S: P { func f() { } }\nprotocol Q { var x: Int { get } } => accepted
protocol P { func f() }\nprotocol Q: P { }\nstruct S: Q { } => accepted
protocol P { func f() }\nprotocol Q: P { func g() } => accepted
-- what is no type counts as the same as any
protocol P { func f(a: P) }\nstruct S: P { func f(a: Int) { } } => accepted
protocol P { func f(a: [P]?) }\nstruct S: P { func f(a: Int) { } } => accepted
protocol P { func f(a: Int) }\nstruct S: P { func f(a: Error) { } } => accepted
protocol P { func f() -> Error }\nstruct S: P { func f() -> Int { return 1 } } => accepted
protocol P { func f() -> Int }\nstruct S: P { func f() -> Codable { return 1 } } => accepted
protocol P { func f() -> Error }\nstruct S: P { func f() { } } => accepted
protocol P { var x: Error { get } }\nstruct S: P { var x: Int } => accepted
protocol P { var x: Int { get } }\nstruct S: P { var x: Error } => accepted
protocol P { var x: Int { get } }\nstruct S: P { var x: Error { return 1 } } => accepted
protocol P { func f(a: P, b: Int) }\nstruct S: P { func f(a: Int, b: String) { } } => T2 2:8
protocol P { func f(a: P) }\nstruct S: P { func f(b: Int) { } } => T2 2:8
protocol P { func f(a: P) }\nstruct S: P { func f() { } } => T2 2:8
-- on an actor another rule is broken
protocol P { func f() }\nactor A: P { } => accepted
protocol P { func f() }\ndistributed actor D: P {\n  typealias ActorSystem = NodeSystem\n} => accepted
-- nothing is required
protocol P { }\nstruct S: P { } => accepted
protocol P { }\nenum E: P { case a } => accepted
struct S: Codable, Sendable, Equatable, Hashable { } => accepted
enum E: Error { case a } => accepted
struct S { } => accepted
protocol Codable { func f() }\nstruct S: Codable { } => T2 2:8
protocol Error { func f() }\nenum E: Error { case a } => T2 2:6
struct P { func f() { } }\nstruct S: P { } => accepted
"#;
