//! Sources with the trees of their files.

/// Each row is `SOURCE => ANSWER`. The answer is the tree; or the index of the refused token, the first being 0,
/// after `over budget` where it is refused for the budget alone. A row that begins with `-- ` says what follows.
pub const ROWS: &str = r##"
-- What separates declarations
 => file
import Swift => file (import Swift)
import Swift; => file (import Swift)
import Swift\nimport Distributed => file (import Swift) (import Distributed)
import Swift; import Distributed => file (import Swift) (import Distributed)
import Swift;\nimport Distributed\n => file (import Swift) (import Distributed)
import Swift import Distributed => refused @2
import Swift;; import Distributed => refused @3
; => refused @0
import => refused @1
import actor => file (import actor)
import self => refused @1
-- Names for types
typealias A = [Int?] => file (typealias A [Int?])
typealias A = any P? => file (typealias A any P?)
typealias A = B.C? => file (typealias A B.C?)
typealias A = B?? => refused @4
typealias A = () => file (typealias A ())
typealias A: Int => refused @2
typealias Any = Int => file (typealias Any Int)
-- Types and their headings
struct S {} => file (struct S:)
actor A { } => file (actor A:)
public final distributed actor A: P, Q {} => file (actor Public Final Distributed A: P Q)
public nonisolated mutating internal private fileprivate static struct S: P {} => file (struct Public Nonisolated Mutating Internal Private Fileprivate Static S: P)
struct S: {} => refused @3
struct S: P, {} => refused @5
struct struct {} => refused @1
public import Swift => refused @1
-- Properties
struct S { let x: Int; static var y = 1\n var z: [Int] = q\n var w } => file (struct S: (Let x Int) (Var Static y = 1) (Var z [Int] = q) (Var w))
struct S { let x let y } => refused @5
struct S { typealias A = Int; } => file (struct S: (typealias A Int))
struct S { case a } => refused @3
-- Enums
enum E { case a, b(), c(Int, in: [E]?, x: B.C)\n case d; let x: Int } => file (enum E: (case a b() c( Int in:[E]? x:B.C)) (case d) (Let x Int))
enum E: Error { case a(in Int) } => refused @9
enum E { case } => refused @4
enum E { case a( } => refused @6
-- Protocols
protocol P { var x: Int { get }\n func f() } => file (protocol P: (get x Int) (func f))
protocol P { distributed func f() async throws -> Int?; func g() throws\n func h() async } => file (protocol P: (func Distributed f async throws -> Int?) (func g throws) (func h async))
protocol P { func f() throws async } => refused @8
protocol P { var x: Int } => refused @7
protocol P { var x: Int { get set } } => refused @9
protocol P { let x: Int } => refused @3
-- Parameters
protocol P { func f(a: Int, b c: Int, _ d: Int, in e: Int) } => file (protocol P: (func f (own a Int) (other b c Int) (nothing d Int) (other in e Int)))
protocol P { func f(a: inout [Int], b: Int...) } => file (protocol P: (func f (own a inout@24 [Int]) (own b Int ...@43)))
protocol P { func f(in: Int) } => refused @7
protocol P { func f(a b c: Int) } => refused @8
protocol P { func f(a: Int,) } => refused @10
protocol P { func f(Int) } => refused @7
"##;
