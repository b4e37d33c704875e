//! Trees of declarations, as the rows write them.

use std::alloc::Global;
use std::test::Fail;
use sw_base::{Span, Text};
use sw_tree::{
    Case, Decl, EnumItem, Expr, Heading, Literal, Member, Modifier, Name, Parameter,
    ParameterLabel, Payload, Requirement, Signature, StoredProperty, Tree, Type, Typealias,
};

fn put(text: &mut Text, bytes: &[u8]) -> Result<(), Fail> {
    Ok(text.push_all(bytes)?)
}

fn put_name(text: &mut Text, name: &Name) -> Result<(), Fail> {
    put(text, b" ")?;
    put(text, name.text.as_bytes())
}

/// A mark and its column, if it stands there.
fn put_mark(alloc: Global, text: &mut Text, word: &str, mark: &Option<Span>) -> Result<(), Fail> {
    match mark {
        Some(span) => {
            let mark = format!(in alloc; " {word}@{}", span.column)?;
            put(text, mark.as_bytes())
        }
        None => Ok(()),
    }
}

fn put_type(text: &mut Text, tree: &Type) -> Result<(), Fail> {
    match tree {
        Type::Name(name) => put(text, name.text.as_bytes()),
        Type::Member(outer, inner) => {
            put(text, outer.text.as_bytes())?;
            put(text, b".")?;
            put(text, inner.text.as_bytes())
        }
        Type::Array(_, element) => {
            put(text, b"[")?;
            put_type(text, element.get())?;
            put(text, b"]")
        }
        Type::Any(_, name) => {
            put(text, b"any")?;
            put_name(text, name)
        }
        Type::Void(_) => put(text, b"()"),
        Type::Optional(wrapped) => {
            put_type(text, wrapped.get())?;
            put(text, b"?")
        }
    }
}

/// An integer, the one literal that the rows have.
fn put_literal(alloc: Global, text: &mut Text, literal: &Literal) -> Result<(), Fail> {
    match literal {
        Literal::Integer(value) => {
            let digits = format!(in alloc; "{value}")?;
            put(text, digits.as_bytes())
        }
        _ => put(text, b"other"),
    }
}

/// An expression of one token.
fn put_expr(alloc: Global, text: &mut Text, tree: &Expr) -> Result<(), Fail> {
    match tree {
        Expr::Name(name) => put(text, name.get().text.as_bytes()),
        Expr::Literal(_, literal) => put_literal(alloc, text, literal.get()),
        _ => put(text, b"other"),
    }
}

fn put_modifiers(alloc: Global, text: &mut Text, modifiers: &[Modifier]) -> Result<(), Fail> {
    for modifier in modifiers {
        let word = format!(in alloc; " {:?}", modifier.kind)?;
        put(text, word.as_bytes())?;
    }
    Ok(())
}

fn put_heading(alloc: Global, text: &mut Text, heading: &Heading) -> Result<(), Fail> {
    put_modifiers(alloc, text, heading.modifiers.as_slice())?;
    put_name(text, &heading.name)?;
    put(text, b":")?;
    for name in heading.conformances.as_slice() {
        put_name(text, name)?;
    }
    Ok(())
}

fn put_typealias(text: &mut Text, typealias: &Typealias) -> Result<(), Fail> {
    put(text, b"(typealias")?;
    put_name(text, &typealias.name)?;
    put(text, b" ")?;
    put_type(text, &typealias.target)?;
    put(text, b")")
}

fn put_stored(alloc: Global, text: &mut Text, property: &StoredProperty) -> Result<(), Fail> {
    let binding = format!(in alloc; "({:?}", property.binding)?;
    put(text, binding.as_bytes())?;
    put_modifiers(alloc, text, property.modifiers.as_slice())?;
    put_name(text, &property.name)?;
    if let Some(declared) = &property.declared {
        put(text, b" ")?;
        put_type(text, declared)?;
    }
    if let Some(initial) = &property.initial {
        put(text, b" = ")?;
        put_expr(alloc, text, initial)?;
    }
    put(text, b")")
}

fn put_member(alloc: Global, text: &mut Text, member: &Member) -> Result<(), Fail> {
    match member {
        Member::Stored(property) => put_stored(alloc, text, property),
        Member::Typealias(typealias) => put_typealias(text, typealias),
        _ => put(text, b"other"),
    }
}

fn put_payload(text: &mut Text, payload: &Payload) -> Result<(), Fail> {
    put(text, b" ")?;
    if let Some(label) = &payload.label {
        put(text, label.text.as_bytes())?;
        put(text, b":")?;
    }
    put_type(text, &payload.declared)
}

fn put_case(text: &mut Text, case: &Case) -> Result<(), Fail> {
    put_name(text, &case.name)?;
    if let Some(payload) = &case.payload {
        put(text, b"(")?;
        for part in payload.as_slice() {
            put_payload(text, part)?;
        }
        put(text, b")")?;
    }
    Ok(())
}

fn put_enum_item(alloc: Global, text: &mut Text, item: &EnumItem) -> Result<(), Fail> {
    match item {
        EnumItem::Cases(cases) => {
            put(text, b"(case")?;
            for case in cases.as_slice() {
                put_case(text, case)?;
            }
            put(text, b")")
        }
        EnumItem::Member(member) => put_member(alloc, text, member),
    }
}

fn put_parameter(alloc: Global, text: &mut Text, parameter: &Parameter) -> Result<(), Fail> {
    put(text, b"(")?;
    match &parameter.label {
        ParameterLabel::Own => put(text, b"own")?,
        ParameterLabel::Nothing => put(text, b"nothing")?,
        ParameterLabel::Other(name) => {
            put(text, b"other")?;
            put_name(text, name)?;
        }
    }
    put_name(text, &parameter.name)?;
    put_mark(alloc, text, "inout", &parameter.inout)?;
    put(text, b" ")?;
    put_type(text, &parameter.declared)?;
    put_mark(alloc, text, "...", &parameter.variadic)?;
    put(text, b")")
}

fn put_signature(alloc: Global, text: &mut Text, signature: &Signature) -> Result<(), Fail> {
    put(text, b"(func")?;
    put_modifiers(alloc, text, signature.modifiers.as_slice())?;
    put_name(text, &signature.name)?;
    for parameter in signature.parameters.as_slice() {
        put(text, b" ")?;
        put_parameter(alloc, text, parameter)?;
    }
    if signature.is_async {
        put(text, b" async")?;
    }
    if signature.throws {
        put(text, b" throws")?;
    }
    if let Some(result) = &signature.result {
        put(text, b" -> ")?;
        put_type(text, result)?;
    }
    put(text, b")")
}

fn put_requirement(alloc: Global, text: &mut Text, requirement: &Requirement) -> Result<(), Fail> {
    match requirement {
        Requirement::Func(signature) => put_signature(alloc, text, signature),
        Requirement::Property(name, declared) => {
            put(text, b"(get")?;
            put_name(text, name)?;
            put(text, b" ")?;
            put_type(text, declared)?;
            put(text, b")")
        }
    }
}

fn put_members(
    alloc: Global,
    text: &mut Text,
    heading: &Heading,
    members: &[Member],
) -> Result<(), Fail> {
    put_heading(alloc, text, heading)?;
    for member in members {
        put(text, b" ")?;
        put_member(alloc, text, member)?;
    }
    Ok(())
}

fn put_enum(
    alloc: Global,
    text: &mut Text,
    heading: &Heading,
    items: &[EnumItem],
) -> Result<(), Fail> {
    put_heading(alloc, text, heading)?;
    for item in items {
        put(text, b" ")?;
        put_enum_item(alloc, text, item)?;
    }
    Ok(())
}

fn put_protocol(
    alloc: Global,
    text: &mut Text,
    heading: &Heading,
    requirements: &[Requirement],
) -> Result<(), Fail> {
    put_heading(alloc, text, heading)?;
    for requirement in requirements {
        put(text, b" ")?;
        put_requirement(alloc, text, requirement)?;
    }
    Ok(())
}

fn put_decl(alloc: Global, text: &mut Text, decl: &Decl) -> Result<(), Fail> {
    match decl {
        Decl::Import(_, name) => {
            put(text, b"(import")?;
            put_name(text, name)?;
        }
        Decl::Typealias(typealias) => return put_typealias(text, typealias),
        Decl::Struct(heading, members) => {
            put(text, b"(struct")?;
            put_members(alloc, text, heading, members.as_slice())?;
        }
        Decl::Enum(heading, items) => {
            put(text, b"(enum")?;
            put_enum(alloc, text, heading, items.as_slice())?;
        }
        Decl::Protocol(heading, requirements) => {
            put(text, b"(protocol")?;
            put_protocol(alloc, text, heading, requirements.as_slice())?;
        }
        Decl::Actor(heading, members) => {
            put(text, b"(actor")?;
            put_members(alloc, text, heading, members.as_slice())?;
        }
        Decl::Func(_) => put(text, b"(other")?,
    }
    put(text, b")")
}

/// Writes a tree: a form's name and its parts in brackets.
pub fn write_tree(alloc: Global, text: &mut Text, tree: &Tree) -> Result<(), Fail> {
    put(text, b"file")?;
    for decl in tree.decls.as_slice() {
        put(text, b" ")?;
        put_decl(alloc, text, decl)?;
    }
    Ok(())
}
