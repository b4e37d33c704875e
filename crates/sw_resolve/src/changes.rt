//! Which expressions are variables.

ghost use Rattle.std.specs.Prelude.{◌≡◌};
ghost use Rattle.sw_typed.specs.ElaboratedOf.{elaborated_of, form_of, receiver_of};
ghost use Rattle.sw_resolve.specs.Changes.{is_variable, is_actor, is_variable_form, is_own_actor, is_reference, is_var, may_change, own_may_change};

use crate::scope::Scope;
use sw_tree::Binding;
use sw_typed::{Entity, Form, Receiver, Typed};
use sw_value::{Base, Ty};

/// Tells whether a member is a stored property that is not bound for good.
#[tactic(auto, unfolding(crate::specs::Changes::is_var))]
fn is_var(entity: Entity) -> bool
    ensures { result ≡ is_var entity }
{
    match entity {
        Entity::Stored(_, _, Binding::Var) => true,
        _ => false,
    }
}

fn is_actor(base: Base) -> bool
    ensures { result ≡ is_actor base }
{
    match base {
        Base::Plain(_) => true,
        Base::Distributed(_) => true,
        _ => false,
    }
}

/// Tells whether a type is that of references to an actor.
#[tactic(auto, unfolding(crate::specs::Changes::is_reference))]
fn is_reference(ty: &Option<Ty>) -> bool
    ensures { result ≡ is_reference ty.now }
{
    match ty {
        None => false,
        Some(t) => t.marks.as_slice().is_empty() && is_actor(t.base),
    }
}

#[tactic(auto, unfolding(crate::specs::Changes::is_own_actor))]
fn is_own_actor(own: Option<Base>) -> bool
    ensures { result ≡ is_own_actor own }
{
    match own {
        None => false,
        Some(base) => is_actor(base),
    }
}

#[tactic(auto, unfolding(crate::specs::Changes::own_may_change))]
fn own_may_change(scope: &Scope<'_>) -> bool
    ensures { result ≡ own_may_change scope.now }
{
    is_own_actor(scope.own) || scope.self_is_variable
}

/// Tells whether an expression is a variable, which may be assigned and changed by a mutating func: a variable that is no
/// constant, `self` where it is one, a `var` property of what is a variable itself or of an actor, an element of such an
/// array.
#[cycle(changes)]
pub fn is_variable(scope: &Scope<'_>, e: &Typed) -> bool
    ensures { result ≡ is_variable scope.now (elaborated_of e.now) }
{
    is_variable_form(scope, &e.form)
}

#[cycle(changes)]
fn is_variable_form(scope: &Scope<'_>, form: &Form) -> bool
    ensures { result ≡ is_variable_form scope.now (form_of form.now) }
{
    match form {
        Form::Variable(variable) => variable.is_var,
        Form::SelfValue => scope.self_is_variable,
        Form::Member(entity, on, _) => is_var(*entity) && may_change(scope, on),
        Form::Index(_, parts) => is_variable(scope, &parts.get().0),
        Form::Unresolved(_) => true,
        _ => false,
    }
}

/// Tells whether what stands before the name of a property or a mutating func may be changed.
#[cycle(changes)]
#[tactic(auto, using(crate::proofs::Receivers::of_value))]
pub(crate) fn may_change(scope: &Scope<'_>, on: &Receiver) -> bool
    ensures { result ≡ may_change scope.now (receiver_of on.now) }
{
    match on {
        Receiver::Nothing => false,
        Receiver::Own => own_may_change(scope),
        Receiver::Value(e) => is_reference(&e.get().ty) || is_variable(scope, e.get()),
    }
}
