//! Types found by their names.

ghost use Rattle.std.specs.Prelude.{◌≡◌, ◌||◌, IfOk};
ghost use Rattle.sw_sight.specs.InSight.{same};
ghost use Rattle.sw_type_table.specs.Written.{any_base, base_or_built_in, built_in_base, declared_base, is_hidden, named_any, named_base, type_named};

use sw_base::{NoMemory, TypeNo};
use sw_declared::{Form, Members, Names};
use sw_value::Base;

/// Tells whether two texts are the same.
#[tactic(auto, unfolding(sw_sight::specs::InSight::same))]
pub(crate) fn same(a: &[u8], b: &[u8]) -> bool
    ensures { result ≡ same a.now b.now }
{
    a == b
}

/// The number and form of the first declared type of a name; none where no type has it. The only error is want of
/// numbers for types.
pub(crate) fn type_named(names: &Names, name: &[u8]) -> Result<Option<(TypeNo, Form)>, NoMemory>
    ensures { IfOk result (λ found. found ≡ type_named names.now name.now) }
{
    let number = names.types.number_of(name);
    if number == 0 {
        return Ok(None);
    }
    let Ok(no) = u32::try_from(number) else {
        return Err(NoMemory);
    };
    match names.types.as_slice().get(number - 1) {
        Some(found) => Ok(Some((TypeNo(no), found.form))),
        None => Ok(None),
    }
}

/// Tells whether an alias, or a type of the own type, hides what has its name in the file.
pub(crate) fn is_hidden(names: &Names, own: &Members, name: &[u8]) -> bool
    ensures { result ≡ is_hidden names.now own.now name.now }
{
    own.has_type(name) || names.aliases.has(name)
}

/// A type that is declared; none for a protocol, which stands only after `any`.
fn declared_base(number: TypeNo, form: Form) -> Option<Base>
    ensures { result ≡ declared_base number form }
{
    match form {
        Form::Struct => Some(Base::Struct(number)),
        Form::Enum => Some(Base::Enum(number)),
        Form::Protocol => None,
        Form::Actor => Some(Base::Plain(number)),
        Form::DistributedActor => Some(Base::Distributed(number)),
    }
}

/// A type that is built in.
fn built_in_base(name: &[u8]) -> Option<Base>
    ensures { result ≡ built_in_base name.now }
{
    if same(b"Int", name) {
        Some(Base::Int)
    } else if same(b"Bool", name) {
        Some(Base::Bool)
    } else if same(b"String", name) {
        Some(Base::Str)
    } else if same(b"Void", name) {
        Some(Base::Void)
    } else if same(b"ActorID", name) {
        Some(Base::Id)
    } else if same(b"NodeSystem", name) {
        Some(Base::System)
    } else if same(b"DistributedCallError", name) {
        Some(Base::Enum(TypeNo(0)))
    } else {
        None
    }
}

/// The type of a name; none where the name stands for no type. The only error is want of numbers for types.
pub fn named_base(names: &Names, own: &Members, name: &[u8]) -> Result<Option<Base>, NoMemory>
    ensures { IfOk result (λ found. found ≡ named_base names.now own.now name.now) }
{
    if is_hidden(names, own, name) {
        return Ok(Some(Base::System));
    }
    match type_named(names, name)? {
        Some((number, form)) => Ok(declared_base(number, form)),
        None => Ok(built_in_base(name)),
    }
}

/// The type of `any` before a name; none where the name stands for no protocol and is not `Error`. The only error is
/// want of numbers for types.
pub(crate) fn named_any(names: &Names, own: &Members, name: &[u8]) -> Result<Option<Base>, NoMemory>
    ensures { IfOk result (λ found. found ≡ named_any names.now own.now name.now) }
{
    if is_hidden(names, own, name) {
        return Ok(None);
    }
    match type_named(names, name)? {
        Some((number, Form::Protocol)) => Ok(Some(Base::Any(number))),
        Some(_) => Ok(None),
        None => {
            if same(b"Error", name) {
                Ok(Some(Base::AnyError))
            } else {
                Ok(None)
            }
        }
    }
}
