//! A small source of declarations, and variables made by hand, among which the rows of expressions stand.

use crate::tables::ty_of;
use std::alloc::Global;
use std::test::Fail;
use sw_base::{NoMemory, Text};
use sw_declared::Names;
use sw_facts::known;
use sw_lex::lex;
use sw_locals::{Local, Locals};
use sw_parse_decl::parse;
use sw_tree::Tree;
use sw_type_table::type_table;
use sw_typed::Variable;
use sw_typing::Facts;

/// What the file declares: `P`, `E`, `Plain`, `Failure`, `Shape`, `Box` and `Remote` have the numbers from 1 on.
const SOURCE: &str =
    "struct P: Shape { let x: Int\nvar y: String\nfunc m(a: Int) -> Int { 1 }\nmutating func inc() { }\nstatic func make() -> P { P(x: 1, y: \"\") } }\nenum E { case a, b, c(Int, name: String) }\nenum Plain { case on, off }\nenum Failure: Error { case bad }\nprotocol Shape { func m(a: Int) -> Int }\nactor Box { var items: [Int] = []\nlet name: String = \"\" }\nfunc f(a: Int) -> Int { a }\nfunc g() { }\nfunc opt() -> Int? { nil }\nfunc h(o: Int?, sh: any Shape) { }\ndistributed actor Remote { typealias ActorSystem = NodeSystem\nvar n = 0\ndistributed func ping(a: Int) -> Int { a } }";

/// The tree of the source.
pub fn tree(alloc: Global) -> Result<Tree, Fail> {
    let tokens = lex(alloc, SOURCE.as_bytes())?;
    Ok(parse(alloc, &tokens)?)
}

/// What is known of the types and funcs of the tree of the source.
pub fn facts(alloc: Global, names: &Names, tree: &Tree) -> Result<Facts, NoMemory> {
    let table = type_table(alloc, names, tree)?;
    known(alloc, names, table.as_slice(), tree)
}

/// The variables in sight: `i`, `s`, `t` and so on, of which `v`, `ys`, `q` may be assigned.
const VARIABLES: &str =
    "i Int|v Int|s Str|t Bool|o ?Int|xs [Int|ys [Int|p Struct:1|q Struct:1|e Enum:2|oe ?Enum:2|k Enum:3|box Plain:6|sys System|sh Any:5|lost -";

fn bind_all(locals: &mut Locals, alloc: Global) -> Result<(), NoMemory> {
    locals.open()?;
    let mut number: u32 = 0;
    for words in VARIABLES.split('|') {
        let (name, word) = words.split_once(' ').unwrap_or((words, "-"));
        let ty = if word == "-" {
            None
        } else {
            Some(ty_of(alloc, word)?)
        };
        let is_var = name == "v" || name == "ys" || name == "q";
        let name = Text::from_bytes(alloc, name.as_bytes())?;
        let variable = Variable { number, is_var };
        locals.bind(Local { name, variable, ty })?;
        number = number.saturating_add(1);
    }
    Ok(())
}

/// The variables of the world.
pub fn locals(alloc: Global) -> Result<Locals, NoMemory> {
    let mut locals = Locals::new(alloc);
    bind_all(&mut locals, alloc)?;
    Ok(locals)
}
