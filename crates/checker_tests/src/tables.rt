//! The table of declared types that rows speak of, and types as they write them.

use std::alloc::Global;
use sw_base::{Items, NoMemory, Text, TypeNo};
use sw_value::{Base, CaseOf, Form, Kind, Mark, Ty, Tys};

fn number(digits: &str) -> TypeNo {
    TypeNo(digits.parse::<u32>().unwrap_or(0))
}

/// The base that a word names, with the number of what is declared behind `:`.
pub fn base_of(word: &str) -> Base {
    let (name, digits) = word.split_once(':').unwrap_or((word, ""));
    match name {
        "Int" => Base::Int,
        "Bool" => Base::Bool,
        "Str" => Base::Str,
        "Id" => Base::Id,
        "System" => Base::System,
        "Struct" => Base::Struct(number(digits)),
        "Enum" => Base::Enum(number(digits)),
        "Plain" => Base::Plain(number(digits)),
        "Distributed" => Base::Distributed(number(digits)),
        "Any" => Base::Any(number(digits)),
        "AnyError" => Base::AnyError,
        _ => Base::Void,
    }
}

/// The type that a word names: its marks, `[` and `?`, and its base.
pub fn ty_of(alloc: Global, word: &str) -> Result<Ty, NoMemory> {
    let mut marks = Items::new(alloc);
    for byte in word.as_bytes() {
        match byte {
            b'[' => marks.push(Mark::Array)?,
            b'?' => marks.push(Mark::Optional)?,
            _ => break,
        }
    }
    let base = base_of(word.trim_start_matches(['[', '?']));
    Ok(Ty { marks, base })
}

fn types(alloc: Global, words: &str) -> Result<Tys, NoMemory> {
    let mut types = Items::new(alloc);
    for word in words.split(' ') {
        if word != "" {
            types.push(ty_of(alloc, word)?)?;
        }
    }
    Ok(types)
}

/// A struct of properties of these types.
pub fn structure(alloc: Global, words: &str) -> Result<Form, NoMemory> {
    Ok(Form::Struct(Items::new(alloc), types(alloc, words)?))
}

/// Cases with these types of their payloads, parted by `|`.
pub fn cases(alloc: Global, words: &str) -> Result<Form, NoMemory> {
    let mut cases = Items::new(alloc);
    for payload in words.split('|') {
        cases.push(CaseOf {
            name: Text::from_bytes(alloc, b"c")?,
            labels: Items::new(alloc),
            types: types(alloc, payload)?,
        })?;
    }
    Ok(Form::Enum(cases))
}

/// A declared type that conforms to protocol 3 or not, and is declared `Codable` or `Error` or not.
fn kind(
    alloc: Global,
    form: Form,
    is_shape: bool,
    is_codable: bool,
    is_error: bool,
) -> Result<Kind, NoMemory> {
    let mut protocols = Items::new(alloc);
    if is_shape {
        protocols.push(TypeNo(3))?;
    }
    Ok(Kind {
        name: Text::from_bytes(alloc, b"T")?,
        form,
        protocols,
        is_codable,
        is_equatable: false,
        is_error,
    })
}

/// The declared types of the rows, where `List` holds this base.
pub fn kinds(alloc: Global, of: Base) -> Result<Items<Kind>, NoMemory> {
    let mut kinds = Items::new(alloc);
    kinds.push(kind(alloc, cases(alloc, "|||")?, false, true, true)?)?;
    kinds.push(kind(alloc, structure(alloc, "Int [?Str")?, false, true, false)?)?;
    kinds.push(kind(alloc, cases(alloc, "|Int Struct:1")?, false, false, true)?)?;
    kinds.push(kind(alloc, Form::Protocol, false, false, false)?)?;
    kinds.push(kind(alloc, structure(alloc, "Int")?, true, false, false)?)?;
    kinds.push(kind(alloc, structure(alloc, "Any:3")?, false, false, false)?)?;
    let plain = Form::Plain(Items::new(alloc), Items::new(alloc));
    kinds.push(kind(alloc, plain, false, false, false)?)?;
    let distributed = Form::Distributed(Items::new(alloc), Items::new(alloc));
    kinds.push(kind(alloc, distributed, false, false, false)?)?;
    kinds.push(kind(alloc, holding(alloc, of)?, false, true, false)?)?;
    Ok(kinds)
}

fn holding(alloc: Global, base: Base) -> Result<Form, NoMemory> {
    let mut types = Items::new(alloc);
    types.push(Ty {
        marks: Items::new(alloc),
        base,
    })?;
    Ok(Form::Struct(Items::new(alloc), types))
}
