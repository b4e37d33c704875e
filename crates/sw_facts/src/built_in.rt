//! What the language has without a declaration.

ghost use Rattle.std.specs.Prelude.{◌≡◌, ◌++◌, [], ◌∷◌, true, false, IfOk, OnOk, Some};
ghost use Rattle.sw_typed.specs.declared.entity.Entity.TheVariants as entities;
ghost use Rattle.sw_typing.specs.Types.{bare};
ghost use Rattle.sw_facts.specs.BuiltIns.{built_in_func, built_in_funcs, built_in_value, callable, of_array, of_distributed, of_form, of_id, of_int, of_string, of_system, resolve};

use std::alloc::Global;
use sw_base::{ArgLabels, Items, NoMemory, Text, TypeNo};
use sw_declared::Form;
use sw_members::{Declaration, Declarations};
use sw_typed::{BuiltIn, Entity};
use sw_typing::bare;
use sw_value::{Base, Ty};

fn push_value(
    alloc: Global,
    list: &mut Declarations,
    name: &[u8],
    is_static: bool,
    entity: BuiltIn,
    gives: Base,
) -> Result<(), NoMemory>
    ensures { OnOk result (list.new ≡ list.old ++ built_in_value name.now is_static entity gives ∷ []) }
{
    list.push(Declaration {
        name: Text::from_bytes(alloc, name)?,
        labels: None,
        is_static,
        entity: Entity::BuiltIn(entity),
        takes: Items::new(alloc),
        gives: Some(bare(alloc, gives)),
        is_mutating: false,
        is_var: false,
    })
}

/// A list of one.
fn just<T: Drop>(alloc: Global, item: T) -> Result<Items<T>, NoMemory>
    ensures { IfOk result (λ list. list ≡ item ∷ []) }
{
    let mut list = Items::new(alloc);
    list.push(item)?;
    Ok(list)
}

/// A list of two.
fn both<T: Drop>(alloc: Global, first: T, second: T) -> Result<Items<T>, NoMemory>
    ensures { IfOk result (λ list. list ≡ first ∷ second ∷ []) }
{
    let mut list = just(alloc, first)?;
    list.push(second)?;
    Ok(list)
}

/// Adds a func that takes one value, without a label.
fn push_func(
    alloc: Global,
    list: &mut Declarations,
    name: &[u8],
    entity: BuiltIn,
    takes: Option<Ty>,
    gives: Base,
    is_mutating: bool,
) -> Result<(), NoMemory>
    ensures { OnOk result (list.new ≡ list.old ++ built_in_func name.now entity takes gives is_mutating ∷ []) }
{
    list.push(Declaration {
        name: Text::from_bytes(alloc, name)?,
        labels: Some(just(alloc, None)?),
        is_static: false,
        entity: Entity::BuiltIn(entity),
        takes: just(alloc, takes)?,
        gives: Some(bare(alloc, gives)),
        is_mutating,
        is_var: false,
    })
}

/// Adds a func that takes one value of this type, without a label, and changes nothing.
fn push_func_of(
    alloc: Global,
    list: &mut Declarations,
    name: &[u8],
    entity: BuiltIn,
    takes: Base,
    gives: Base,
) -> Result<(), NoMemory>
    ensures { OnOk result (list.new ≡ list.old ++ built_in_func name.now entity (Some (bare takes)) gives false ∷ []) }
{
    push_func(
        alloc,
        list,
        name,
        entity,
        Some(bare(alloc, takes)),
        gives,
        false,
    )
}

/// Two labels.
fn labels(alloc: Global, first: &[u8], second: &[u8]) -> Result<ArgLabels, NoMemory>
    ensures { IfOk result (λ labels. labels ≡ Some first.now ∷ Some second.now ∷ []) }
{
    let first = Text::from_bytes(alloc, first)?;
    let second = Text::from_bytes(alloc, second)?;
    both(alloc, Some(first), Some(second))
}

/// Two types.
fn types(alloc: Global, first: Base, second: Base) -> Result<Items<Option<Ty>>, NoMemory>
    ensures { IfOk result (λ types. types ≡ Some (bare first) ∷ Some (bare second) ∷ []) }
{
    both(alloc, Some(bare(alloc, first)), Some(bare(alloc, second)))
}

/// Adds a static func or an initialiser that takes values of these types, so labelled.
fn push_static(
    alloc: Global,
    list: &mut Declarations,
    name: &[u8],
    entity: BuiltIn,
    labels: ArgLabels,
    takes: Items<Option<Ty>>,
    gives: Base,
) -> Result<(), NoMemory>
    ensures { OnOk result (list.new ≡ list.old ++ callable name.now true (entities.BuiltIn entity) labels takes (Some (bare gives)) false ∷ []) }
{
    list.push(Declaration {
        name: Text::from_bytes(alloc, name)?,
        labels: Some(labels),
        is_static: true,
        entity: Entity::BuiltIn(entity),
        takes,
        gives: Some(bare(alloc, gives)),
        is_mutating: false,
        is_var: false,
    })
}

/// Adds the funcs that are built in.
pub(crate) fn push_funcs(alloc: Global, list: &mut Declarations) -> Result<(), NoMemory>
    ensures { OnOk result (list.new ≡ list.old ++ built_in_funcs) }
{
    push_func(
        alloc,
        list,
        b"print",
        BuiltIn::Print,
        None,
        Base::Void,
        false,
    )
}

/// Adds the members of `Int`.
pub(crate) fn push_of_int(alloc: Global, list: &mut Declarations) -> Result<(), NoMemory>
    ensures { OnOk result (list.new ≡ list.old ++ of_int) }
{
    push_value(alloc, list, b"max", true, BuiltIn::GreatestInt, Base::Int)?;
    push_value(alloc, list, b"min", true, BuiltIn::LeastInt, Base::Int)
}

/// Adds the members of `String`.
pub(crate) fn push_of_string(alloc: Global, list: &mut Declarations) -> Result<(), NoMemory>
    ensures { OnOk result (list.new ≡ list.old ++ of_string) }
{
    push_value(
        alloc,
        list,
        b"isEmpty",
        false,
        BuiltIn::StringIsEmpty,
        Base::Bool,
    )
}

/// Adds the members of arrays.
pub(crate) fn push_of_array(alloc: Global, list: &mut Declarations) -> Result<(), NoMemory>
    ensures { OnOk result (list.new ≡ list.old ++ of_array) }
{
    push_value(alloc, list, b"count", false, BuiltIn::Count, Base::Int)?;
    push_value(
        alloc,
        list,
        b"isEmpty",
        false,
        BuiltIn::ArrayIsEmpty,
        Base::Bool,
    )?;
    push_func(
        alloc,
        list,
        b"append",
        BuiltIn::Append,
        None,
        Base::Void,
        true,
    )
}

/// Adds the initialiser of `ActorID`.
pub(crate) fn push_of_id(alloc: Global, list: &mut Declarations) -> Result<(), NoMemory>
    ensures { OnOk result (list.new ≡ list.old ++ of_id) }
{
    let labels = labels(alloc, b"node", b"name")?;
    let takes = types(alloc, Base::Int, Base::Str)?;
    push_static(
        alloc,
        list,
        b"init",
        BuiltIn::ActorId,
        labels,
        takes,
        Base::Id,
    )
}

/// Adds the members of `NodeSystem`.
pub(crate) fn push_of_system(alloc: Global, list: &mut Declarations) -> Result<(), NoMemory>
    ensures { OnOk result (list.new ≡ list.old ++ of_system) }
{
    push_value(alloc, list, b"node", false, BuiltIn::Node, Base::Int)?;
    push_func_of(
        alloc,
        list,
        b"named",
        BuiltIn::Named,
        Base::Str,
        Base::System,
    )?;
    push_func_of(
        alloc,
        list,
        b"resignID",
        BuiltIn::ResignId,
        Base::Id,
        Base::Void,
    )?;
    Ok(())
}

fn push_resolve(alloc: Global, list: &mut Declarations, owner: TypeNo) -> Result<(), NoMemory>
    ensures { OnOk result (list.new ≡ list.old ++ resolve owner ∷ []) }
{
    let labels = labels(alloc, b"id", b"using")?;
    let takes = types(alloc, Base::Id, Base::System)?;
    let resolve = BuiltIn::Resolve(owner);
    push_static(
        alloc,
        list,
        b"resolve",
        resolve,
        labels,
        takes,
        Base::Distributed(owner),
    )
}

fn push_of_distributed(
    alloc: Global,
    list: &mut Declarations,
    owner: TypeNo,
) -> Result<(), NoMemory>
    ensures { OnOk result (list.new ≡ list.old ++ of_distributed owner) }
{
    push_value(alloc, list, b"id", false, BuiltIn::Id, Base::Id)?;
    push_value(
        alloc,
        list,
        b"actorSystem",
        false,
        BuiltIn::ActorSystem,
        Base::System,
    )?;
    push_resolve(alloc, list, owner)?;
    Ok(())
}

/// Adds what a type of this form has without a declaration.
pub(crate) fn push_of_form(
    alloc: Global,
    list: &mut Declarations,
    owner: TypeNo,
    form: Form,
) -> Result<(), NoMemory>
    ensures { OnOk result (list.new ≡ list.old ++ of_form owner form) }
{
    match form {
        Form::DistributedActor => push_of_distributed(alloc, list, owner),
        _ => Ok(()),
    }
}
