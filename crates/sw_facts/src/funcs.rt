//! Funcs, getters and initialisers as declarations, which take numbers one after another.

ghost use Rattle.std.specs.Prelude.{◌≡◌, ◌++◌, false, IfOk, OnOk};
ghost use Rattle.std.specs.Option.{option_map};
ghost use Rattle.sw_typed.specs.declared.entity.Entity.TheVariants as entity;
ghost use Rattle.sw_typing.specs.Types.{bare};
ghost use Rattle.sw_type_table.specs.Written.{written};
ghost use Rattle.sw_facts.specs.BuiltIns.{value};
ghost use Rattle.sw_declared.specs.Declarations.{item_funcs, member_funcs, parameter_labels};
ghost use Rattle.sw_type_table.specs.Table.{result_type};
ghost use Rattle.sw_facts.specs.Members.{func, initializer, is_static, item_func, member_func, parameter_types};
ghost use Rattle.sw_facts.specs.Numbers.{any_owner, counted};

use crate::counts::{count_item, count_member};
use crate::numbers::after;
use crate::parts::changes;
use std::alloc::Global;
use sw_base::{ArgLabels, Duplicate, FuncNo, Items, NoMemory, Text};
use sw_declared::{Members, Names, is_mutating, is_static, parameter_labels};
use sw_members::{Declaration, Declarations};
use sw_tree::{ComputedProperty, EnumItem, Func, Initializer, Member, Parameter, Type};
use sw_type_table::written;
use sw_typed::Entity;
use sw_typing::bare;
use sw_value::{Base, Ty};

fn parameter_types(
    alloc: Global,
    names: &Names,
    own: &Members,
    parameters: &[Parameter],
) -> Result<Items<Option<Ty>>, NoMemory>
    ensures { IfOk result (λ types. types ≡ parameter_types names.now own.now parameters.now) }
{
    let mut types = Items::new(alloc);
    for parameter in parameters {
        types.push(written(alloc, names, own, &parameter.declared)?)?;
    }
    Ok(types)
}

/// What a func gives: `Void` where no result is written.
fn result_type(
    alloc: Global,
    names: &Names,
    own: &Members,
    t: &Option<Type>,
) -> Result<Option<Ty>, NoMemory>
    ensures { IfOk result (λ found. found ≡ result_type names.now own.now t.now) }
{
    match t {
        None => Ok(Some(bare(alloc, Base::Void))),
        Some(t) => written(alloc, names, own, t),
    }
}

/// A func of a file or of a type, which has this number.
pub(crate) fn func(
    alloc: Global,
    names: &Names,
    own: &Members,
    number: u32,
    x: &Func,
) -> Result<Declaration, NoMemory>
    ensures { IfOk result (λ made. made ≡ func names.now own.now number x.now) }
{
    let signature = &x.signature;
    let modifiers = signature.modifiers.as_slice();
    let parameters = signature.parameters.as_slice();
    let is_static = is_static(modifiers);
    Ok(Declaration {
        name: signature.name.text.copy()?,
        labels: Some(parameter_labels(alloc, parameters)?),
        is_static,
        entity: Entity::Func(FuncNo(number)),
        takes: parameter_types(alloc, names, own, parameters)?,
        gives: result_type(alloc, names, own, &signature.result)?,
        is_mutating: changes(is_mutating(modifiers), is_static),
        is_var: false,
    })
}

fn type_given(alloc: Global, gives: Option<Base>) -> Option<Ty>
    ensures { result ≡ option_map bare gives }
{
    match gives {
        Some(base) => Some(bare(alloc, base)),
        None => None,
    }
}

/// An initialiser with this number, of a type whose values it gives.
pub(crate) fn initializer(
    alloc: Global,
    gives: Option<Base>,
    number: u32,
    labels: ArgLabels,
    takes: Items<Option<Ty>>,
) -> Result<Declaration, NoMemory>
    ensures { IfOk result (λ made. made ≡ initializer gives number labels takes) }
{
    Ok(Declaration {
        name: Text::from_bytes(alloc, b"init")?,
        labels: Some(labels),
        is_static: true,
        entity: Entity::Initializer(FuncNo(number)),
        takes,
        gives: type_given(alloc, gives),
        is_mutating: false,
        is_var: false,
    })
}

fn written_initializer(
    alloc: Global,
    names: &Names,
    own: &Members,
    gives: Option<Base>,
    number: u32,
    x: &Initializer,
) -> Result<Declaration, NoMemory>
    ensures { IfOk result (λ made. made ≡ initializer gives number (parameter_labels x.now.parameters) (parameter_types names.now own.now x.now.parameters)) }
{
    let parameters = x.parameters.as_slice();
    let labels = parameter_labels(alloc, parameters)?;
    let takes = parameter_types(alloc, names, own, parameters)?;
    initializer(alloc, gives, number, labels, takes)
}

fn getter(
    alloc: Global,
    names: &Names,
    own: &Members,
    number: u32,
    x: &ComputedProperty,
) -> Result<Declaration, NoMemory>
    ensures { IfOk result (λ made. made ≡ value x.now.name.text (is_static x.now.modifiers) (entity.Getter (record { 0 = number })) (written names.now own.now x.now.declared) false) }
{
    Ok(Declaration {
        name: x.name.text.copy()?,
        labels: None,
        is_static: is_static(x.modifiers.as_slice()),
        entity: Entity::Getter(FuncNo(number)),
        takes: Items::new(alloc),
        gives: written(alloc, names, own, &x.declared)?,
        is_mutating: false,
        is_var: false,
    })
}

/// What a type is, as its members see it: the type of its values, and what it declares.
#[derive(Drop)]
pub(crate) struct Home<'a> {
    pub(crate) names: &'a Names,
    pub(crate) own: &'a Members,
    /// None of a protocol.
    pub(crate) gives: Option<Base>,
}

/// Adds a member that takes a number, if it does.
fn push_member(
    alloc: Global,
    list: &mut Declarations,
    home: &Home<'_>,
    number: u32,
    x: &Member,
) -> Result<(), NoMemory>
    ensures { OnOk result (list.new ≡ list.old ++ member_func home.now.names.now home.now.own.now home.now.gives number x.now) }
{
    match x {
        Member::Stored(_) => Ok(()),
        Member::Computed(x) => list.push(getter(alloc, home.names, home.own, number, x)?),
        Member::Func(x) => list.push(func(alloc, home.names, home.own, number, x)?),
        Member::Initializer(x) => {
            let made = written_initializer(alloc, home.names, home.own, home.gives, number, x)?;
            list.push(made)
        }
        Member::Typealias(_) => Ok(()),
    }
}

fn push_item(
    alloc: Global,
    list: &mut Declarations,
    home: &Home<'_>,
    number: u32,
    x: &EnumItem,
) -> Result<(), NoMemory>
    ensures { OnOk result (list.new ≡ list.old ++ item_func home.now.names.now home.now.own.now home.now.gives number x.now) }
{
    match x {
        EnumItem::Cases(_) => Ok(()),
        EnumItem::Member(x) => push_member(alloc, list, home, number, x),
    }
}

/// Adds the members of a struct or an actor that take numbers, of which the first is this one.
pub(crate) fn push_members(
    alloc: Global,
    list: &mut Declarations,
    home: &Home<'_>,
    first: u32,
    members: &[Member],
) -> Result<(), NoMemory>
    ensures { OnOk result (list.new ≡ list.old ++ counted (member_funcs any_owner) (member_func home.now.names.now home.now.own.now home.now.gives) first members.now) }
{
    let mut number = first;
    for x in members {
        push_member(alloc, list, home, number, x)?;
        number = after(number, count_member(x))?;
    }
    Ok(())
}

/// Adds the members of an enum that take numbers, of which the first is this one.
pub(crate) fn push_items(
    alloc: Global,
    list: &mut Declarations,
    home: &Home<'_>,
    first: u32,
    items: &[EnumItem],
) -> Result<(), NoMemory>
    ensures { OnOk result (list.new ≡ list.old ++ counted (item_funcs any_owner) (item_func home.now.names.now home.now.own.now home.now.gives) first items.now) }
{
    let mut number = first;
    for x in items {
        push_item(alloc, list, home, number, x)?;
        number = after(number, count_item(x))?;
    }
    Ok(())
}
