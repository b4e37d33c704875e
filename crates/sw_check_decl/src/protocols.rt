//! Which names stand for protocols.

ghost use Rattle.std.specs.Prelude.{◌≡◌, ◌&&◌, not, is_none};
ghost use Rattle.sw_sight.specs.InSight.{same};
ghost use Rattle.sw_type_table.specs.Written.{is_hidden, type_named};
ghost use Rattle.sw_check_decl.specs.Protocols.{form_named, is_error, is_built_in_protocol, is_protocol, is_protocol_or_built_in, is_protocol_or_error, names_protocol, takes_any};

use sw_declared::{Form, Members, Names};

/// Tells whether two texts are the same.
#[tactic(auto, unfolding(sw_sight::specs::InSight::same))]
pub(crate) fn same(a: &[u8], b: &[u8]) -> bool
    ensures { result ≡ same a.now b.now }
{
    a == b
}

/// Tells whether an alias, or a type of the own type, hides what has its name in the file.
pub(crate) fn is_hidden(names: &Names, own: &Members, name: &[u8]) -> bool
    ensures { result ≡ is_hidden names.now own.now name.now }
{
    own.has_type(name) || names.aliases.has(name)
}

/// The form of the first declared type of a name; none where no type has it.
pub(crate) fn form_named(names: &Names, name: &[u8]) -> Option<Form>
    ensures { result ≡ form_named names.now name.now }
{
    let number = names.types.number_of(name);
    if number == 0 {
        return None;
    }
    match names.types.as_slice().get(number - 1) {
        Some(found) => Some(found.form),
        None => None,
    }
}

/// Tells whether the name is that of a built-in protocol other than `Error`.
pub(crate) fn is_built_in_protocol(name: &[u8]) -> bool
    ensures { result ≡ is_built_in_protocol name.now }
{
    same(b"Codable", name)
        || (same(b"Sendable", name) || (same(b"Equatable", name) || same(b"Hashable", name)))
}

/// Tells whether the name is `Error`.
pub(crate) fn is_error(name: &[u8]) -> bool
    ensures { result ≡ is_error name.now }
{
    same(b"Error", name)
}

fn is_protocol(form: Form) -> bool
    ensures { result ≡ is_protocol form }
{
    match form {
        Form::Protocol => true,
        Form::Struct | Form::Enum | Form::Actor | Form::DistributedActor => false,
    }
}

/// Tells whether a name stands for a protocol, where the file declares a type of this form by it, or none.
fn is_protocol_or_built_in(name: &[u8], form: Option<Form>) -> bool
    ensures { result ≡ is_protocol_or_built_in name.now form }
{
    match form {
        None => is_built_in_protocol(name) || is_error(name),
        Some(form) => is_protocol(form),
    }
}

/// Tells whether the name is that of a protocol.
pub(crate) fn names_protocol(names: &Names, own: &Members, name: &[u8]) -> bool
    ensures { result ≡ names_protocol names.now own.now name.now }
{
    !is_hidden(names, own, name) && is_protocol_or_built_in(name, form_named(names, name))
}

/// Tells whether a name stands for a declared protocol or `Error`, where the file declares a type of this form by it,
/// or none.
fn is_protocol_or_error(name: &[u8], form: Option<Form>) -> bool
    ensures { result ≡ is_protocol_or_error name.now form }
{
    match form {
        None => is_error(name),
        Some(form) => is_protocol(form),
    }
}

/// Tells whether `any` may stand before the name.
pub(crate) fn takes_any(names: &Names, own: &Members, name: &[u8]) -> bool
    ensures { result ≡ takes_any names.now own.now name.now }
{
    !is_hidden(names, own, name) && is_protocol_or_error(name, form_named(names, name))
}

/// Tells whether neither the own type nor the file declares what has the name.
#[tactic(auto, using(crate::proofs::Numbers::none_named))]
pub(crate) fn is_free(names: &Names, own: &Members, name: &[u8]) -> bool
    ensures { result ≡ (not (is_hidden names.now own.now name.now) && is_none (type_named names.now name.now)) }
{
    !is_hidden(names, own, name) && !names.types.has(name)
}
