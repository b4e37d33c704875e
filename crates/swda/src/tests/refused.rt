//! The sources of `examples/refused`, each of which breaks one rule, with the line that is answered.

/// A source, and its answer.
pub const REFUSED: &[(&[u8], &[u8])] = &[
    (
        b"// caf\xe9\nfunc main(system: NodeSystem) async throws {\n}\n",
        b"refused L1 1:7\n",
    ),
    (
        b"func main(system: NodeSystem) async throws {\n  let a = 5 # 3\n}\n",
        b"refused L2 2:13\n",
    ),
    (
        b"func main(system: NodeSystem) async throws {\n  print(\"hello)\n}\n",
        b"refused L3 2:9\n",
    ),
    (
        b"func main(system: NodeSystem) async throws {\n  let big = 9_223_372_036_854_775_808\n}\n",
        b"refused L4 2:13\n",
    ),
    (b"let x = 1\n", b"refused P1 1:1\n"),
    (
        b"func main(system: NodeSystem) async throws {\n  print(1) print(2)\n}\n",
        b"refused P2 2:12\n",
    ),
    (
        b"func main(system: NodeSystem) async throws {\n  let deep = [[[[[[[[[[[[[[[[[[[[[[[[[[[[[[[[[[[[[[[[[[[[[[[[[[[[[[[[[[[[[[[[]]]]]]]]]]]]]]]]]]]]]]]]]]]]]]]]]]]]]]]]]]]]]]]]]]]]]]]]]]]]]]]]\n}\n",
        b"refused P3 2:77\n",
    ),
    (
        b"func main(system: NodeSystem) async throws {\n  await try f()\n}\n",
        b"refused P4 2:3\n",
    ),
    (
        b"func main(system: NodeSystem) async throws {\n  print(1 < 2 < 3)\n}\n",
        b"refused P5 2:15\n",
    ),
    (
        b"func main(system: NodeSystem) async throws {\n  print(1 + try f())\n}\n",
        b"refused P6 2:13\n",
    ),
    (
        b"struct Point {\n  var x = 0\n  func move(by: Int) {\n  }\n  func move(by amount: Int) {\n  }\n}\n",
        b"refused N1 5:8\n",
    ),
    (
        b"func main(system: NodeSystem) async throws {\n  let total = 1\n  let total = 2\n  print(total)\n}\n",
        b"refused N1 3:7\n",
    ),
    (
        b"func main(system: NodeSystem) async throws {\n  let ratio: Double = 1\n  print(ratio)\n}\n",
        b"refused N2 2:14\n",
    ),
    (
        b"actor Cart {\n}\nfunc pay(cart: Cart.ID) {\n}\n",
        b"refused N2 3:21\n",
    ),
    (
        b"func main(system: NodeSystem) async throws {\n  if true {\n    let a = 1\n    print(a)\n  }\n  print(a)\n}\n",
        b"refused N3 6:9\n",
    ),
    (
        b"func twice(x: Int?) -> Int {\n  guard let n = x else {\n    return n\n  }\n  return n + n\n}\n",
        b"refused N3 3:12\n",
    ),
    (
        b"func main(system: NodeSystem) async throws {\n  print(self)\n}\n",
        b"refused N4 2:9\n",
    ),
    (
        b"struct Counter {\n  var count = 0\n  static func next() -> Int {\n    return count + 1\n  }\n}\n",
        b"refused N4 4:12\n",
    ),
    (b"typealias Number = Int\n", b"refused N5 1:1\n"),
    (
        b"actor Cart {\n  typealias ActorSystem = NodeSystem\n}\n",
        b"refused N5 2:3\n",
    ),
    (
        b"import Distributed\nimport Foundation\n",
        b"refused N6 2:1\n",
    ),
];
