//! What protocols require, with the first type that does not meet it.

mod rows;

use crate::tables::ty_of;
use rows::ROWS;
use std::alloc::Global;
use std::test::Fail;
use sw_base::{Items, NoMemory, Text, TypeNo};
use sw_declared::{Names, declare, members_in};
use sw_facts::known;
use sw_findings::Findings;
use sw_lex::lex;
use sw_members::{Declaration, Declarations};
use sw_parse_decl::parse;
use sw_requirements::report_unmet;
use sw_rules::Refusal;
use sw_tree::{Binding, Decl, Tree};
use sw_type_table::{TypeEntry, type_table};
use sw_typed::Entity;
use sw_typing::{Facts, TypeFacts};
use sw_value::Ty;
use test_rows::check_rows;

/// What is known of the types of a source.
#[derive(Drop)]
struct Source<'a> {
    names: &'a Names,
    table: &'a [TypeEntry],
    facts: &'a Facts,
}

fn report(
    alloc: Global,
    found: &mut Findings,
    source: &Source<'_>,
    before: usize,
    decl: &Decl,
) -> Result<(), NoMemory> {
    let Source {
        names,
        table,
        facts,
    } = source;
    match members_in(alloc, decl) {
        Ok(own) => report_unmet(alloc, found, names, &own, table, facts, before, decl),
        Err(error) => Err(error),
    }
}

fn first_unmet(
    alloc: Global,
    source: &Source<'_>,
    tree: &Tree,
) -> Result<Option<Refusal>, NoMemory> {
    let mut found = Findings::new();
    let mut before: usize = 0;
    for decl in tree.decls.as_slice() {
        report(alloc, &mut found, source, before, decl)?;
        if let Decl::Struct(_, _)
        | Decl::Enum(_, _)
        | Decl::Protocol(_, _)
        | Decl::Actor(_, _) = decl
        {
            before = before.saturating_add(1);
        }
    }
    Ok(found.first())
}

fn with_names(alloc: Global, names: &Names, tree: &Tree) -> Result<Option<Refusal>, NoMemory> {
    let table = type_table(alloc, names, tree)?;
    let table = table.as_slice();
    match known(alloc, names, table, tree) {
        Ok(facts) => {
            let source = Source {
                names,
                table,
                facts: &facts,
            };
            first_unmet(alloc, &source, tree)
        }
        Err(error) => Err(error),
    }
}

fn first_broken(alloc: Global, tree: &Tree) -> Result<Option<Refusal>, NoMemory> {
    match declare(alloc, tree) {
        Ok(names) => with_names(alloc, &names, tree),
        Err(error) => Err(error),
    }
}

fn answer(alloc: Global, found: Option<Refusal>) -> Result<Text, Fail> {
    match found {
        Some(Refusal { rule, span }) => {
            let text = format!(in alloc; "{rule:?} {}:{}", span.line, span.column)?;
            Ok(Text::from_bytes(alloc, text.as_bytes())?)
        }
        None => Ok(Text::from_bytes(alloc, b"accepted")?),
    }
}

fn told(alloc: Global, source: &[u8]) -> Result<Text, Fail> {
    let tokens = lex(alloc, source)?;
    let tree = parse(alloc, &tokens)?;
    answer(alloc, first_broken(alloc, &tree)?)
}

#[test]
fn each_source_is_told(rt: HostRuntime) -> Result<(), Fail> {
    let (right, wrong) = check_rows(rt.alloc(), ROWS, told)?;
    assert_eq!(rt; wrong, None);
    assert_eq!(rt; right, 141);
    Ok(())
}

/// What is known where the type with the number 2 has one property `x`, of this type.
fn with_property(alloc: Global, mut facts: Facts, gives: Option<Ty>) -> Result<Facts, NoMemory> {
    let property = Declaration {
        name: Text::from_bytes(alloc, b"x")?,
        labels: None,
        is_static: false,
        entity: Entity::Stored(TypeNo(2), 0, Binding::Var),
        takes: Items::new(alloc),
        gives,
        is_mutating: false,
        is_var: true,
    };
    let mut members = Declarations::new(alloc);
    match members.push(property) {
        Ok(()) => {}
        Err(error) => return Err(error),
    }
    let of_type = TypeFacts {
        members,
        protocols: Items::new(alloc),
        is_error: false,
        is_equatable: false,
        is_printable: false,
    };
    if facts.types.len() > 2 {
        facts.types.replace(2, of_type);
    }
    Ok(facts)
}

/// The first that is not met where the property of the type with the number 2 is found to be of this type.
fn inferred(
    alloc: Global,
    names: &Names,
    tree: &Tree,
    gives: Option<Ty>,
) -> Result<Option<Refusal>, NoMemory> {
    let table = type_table(alloc, names, tree)?;
    let table = table.as_slice();
    let facts = match known(alloc, names, table, tree) {
        Ok(facts) => with_property(alloc, facts, gives),
        Err(error) => Err(error),
    };
    match facts {
        Ok(facts) => {
            let source = Source {
                names,
                table,
                facts: &facts,
            };
            first_unmet(alloc, &source, tree)
        }
        Err(error) => Err(error),
    }
}

fn told_inferred(alloc: Global, gives: Option<Ty>) -> Result<Text, Fail> {
    let source = "protocol P { var x: [Int] { get } }\nstruct S: P { var x = [1] }";
    let tokens = lex(alloc, source.as_bytes())?;
    let tree = parse(alloc, &tokens)?;
    let found = match declare(alloc, &tree) {
        Ok(names) => inferred(alloc, &names, &tree, gives),
        Err(error) => Err(error),
    };
    answer(alloc, found?)
}

/// The type of a property that writes none is the one that is known.
#[test]
fn an_inferred_type_counts(rt: HostRuntime) -> Result<(), Fail> {
    let alloc = rt.alloc();
    let accepted = Text::from_bytes(alloc, b"accepted")?;
    let unmet = Text::from_bytes(alloc, b"T2 2:8")?;
    assert_eq!(rt;
        told_inferred(alloc, Some(ty_of(alloc, "[Int")?))?,
        accepted
    );
    assert_eq!(rt; told_inferred(alloc, None)?, accepted);
    assert_eq!(rt; told_inferred(alloc, Some(ty_of(alloc, "[Str")?))?, unmet);
    assert_eq!(rt; told_inferred(alloc, Some(ty_of(alloc, "Int")?))?, unmet);
    assert_eq!(rt; told_inferred(alloc, Some(ty_of(alloc, "?[Int")?))?, unmet);
    Ok(())
}
