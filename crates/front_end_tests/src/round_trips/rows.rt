//! Sources, and the texts that are printed of their trees, written by hand.

/// A source, and the text of its tree.
pub struct Row {
    pub source: &'static str,
    pub text: &'static str,
}

/// Sources, each with the text that is printed of its tree.
pub const ROWS: [Row; 20] = [
    Row {
        source: "",
        text: "",
    },
    Row {
        source: "import Distributed\ntypealias DefaultDistributedActorSystem = NodeSystem\ndistributed actor Greeter {\n  var count = 0\n  distributed func greet(name: String) -> String {\n    count += 1\n    return \"Hello, \\(name)! (\\(count))\"\n  }\n}\nfunc serve(system: NodeSystem) async throws {\n  _ = Greeter(actorSystem: system.named(\"greeter\"))\n}\nfunc ask(system: NodeSystem) async throws {\n  let g = try Greeter.resolve(id: ActorID(node: 1, name: \"greeter\"), using: system)\n  print(try await g.greet(name: \"Ada\"))\n}\n",
        text: "import Distributed\ntypealias DefaultDistributedActorSystem = NodeSystem\ndistributed actor Greeter {\nvar count = 0\ndistributed func greet ( name : String ) -> String {\ncount += 1\nreturn \"Hello, \\(name)! (\\(count))\"\n}\n}\nfunc serve ( system : NodeSystem ) async throws {\n_ = Greeter( actorSystem : system.named( \"greeter\" ) )\n}\nfunc ask ( system : NodeSystem ) async throws {\nlet g = try Greeter.resolve( id : ActorID( node : 1 , name : \"greeter\" ) , using : system )\nprint( try await g.greet( name : \"Ada\" ) )\n}\n",
    },
    Row {
        source: "func main(system: NodeSystem) async throws { print(\"hi\") }",
        text: "func main ( system : NodeSystem ) async throws {\nprint( \"hi\" )\n}\n",
    },
    Row {
        source: "func f() { a(); .b }",
        text: "func f ( ) {\na( ) ;.b\n}\n",
    },
    Row {
        source: "func f() { .b; .c }",
        text: "func f ( ) {\n.b ;.c\n}\n",
    },
    Row {
        source: "func f() { if a { }; .b; c }",
        text: "func f ( ) {\nif a {\n} ;.b\nc\n}\n",
    },
    Row {
        source: "func f() { return a ? -b : !c! }",
        text: "func f ( ) {\nreturn a ? -b : ! c!\n}\n",
    },
    Row {
        source: "func f() { _ = [1_000, 007,] }",
        text: "func f ( ) {\n_ = [ 1000 , 7 ]\n}\n",
    },
    Row {
        source: "func f() { _ = \"a\\\"\\\\\\n\\t\\0\\u{e9}é\\(x + \"\\(y)\")z\" }",
        text: "func f ( ) {\n_ = \"a\\\"\\\\\\n\\t\\0éé\\(x + \"\\(y)\")z\"\n}\n",
    },
    Row {
        source: "func f(a: [Int?], b: any P, c: A.B, d: ()) { }",
        text: "func f ( a : [ Int? ] , b : any P , c : A.B , d : ( ) ) {\n}\n",
    },
    Row {
        source: "func f() { let x = try? f(in: (1), .b) }",
        text: "func f ( ) {\nlet x = try? f( in : ( 1 ) ,.b )\n}\n",
    },
    Row {
        source: "enum E: Error { case a, b(x: Int, String); case c\n let d = 1 }",
        text: "enum E : Error {\ncase a , b ( x : Int , String )\ncase c\nlet d = 1\n}\n",
    },
    Row {
        source: "protocol P { var n: Int { get }; func g(_ x: Int) async throws }",
        text: "protocol P {\nvar n : Int { get\n}\nfunc g ( _ x : Int ) async throws\n}\n",
    },
    Row {
        source: "public struct S { private let a: Int = 1; var b: Int { get { return a } }\n var c: Int { return a }; init(x y: inout Int...) throws { } }",
        text: "public struct S {\nprivate let a : Int = 1\nvar b : Int { get {\nreturn a\n}\n}\nvar c : Int {\nreturn a\n}\ninit ( x y : inout Int ... ) throws {\n}\n}\n",
    },
    Row {
        source: "func f() { if let a = b, c { x } else if d { } else { y }; guard a else { return }; while true { break } }",
        text: "func f ( ) {\nif let a = b , c {\nx\n} else if d {\n} else {\ny\n}\nguard a else {\nreturn\n}\nwhile true {\nbreak\n}\n}\n",
    },
    Row {
        source: "func f() { for i in 0..<9 { continue }; for _ in xs { } }",
        text: "func f ( ) {\nfor i in 0 ..< 9 {\ncontinue\n}\nfor _ in xs {\n}\n}\n",
    },
    Row {
        source: "func f() { switch x { case .a(let n, _), T.b: y; default: z } }",
        text: "func f ( ) {\nswitch x {\ncase.a ( let n , _ ) , T.b :\ny\ndefault :\nz\n}\n}\n",
    },
    Row {
        source: "func f() { do { try g() } catch let e as E { throw e } catch E.a(let x) { } catch { } }",
        text: "func f ( ) {\ndo {\ntry g( )\n} catch let e as E {\nthrow e\n} catch E.a ( let x ) {\n} catch {\n}\n}\n",
    },
    Row {
        source: "func f() { a.b[0] += 1; x = y; var z: Int? = nil; -b; a - -b }",
        text: "func f ( ) {\na.b[ 0 ] += 1\nx = y\nvar z : Int? = nil\n-b\na - -b\n}\n",
    },
    Row {
        source: "final distributed actor A: P, Q { nonisolated static mutating func get(get: Int) { get } }",
        text: "final distributed actor A : P , Q {\nnonisolated static mutating func get ( get : Int ) {\nget\n}\n}\n",
    },
];
