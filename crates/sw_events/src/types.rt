//! Types.

ghost use Rattle.std.specs.Prelude.{◌≡◌};
ghost use Rattle.sw_scope.specs.Events.{perhaps};
ghost use Rattle.sw_scope.specs.Walk.{run};
ghost use Rattle.sw_events.specs.Bodies.{type_events};

use sw_scope::{Around, Seen, name_inner, name_type};
use sw_tree::Type;

/// Walks over a type.
#[tactic(auto, using(crate::proofs::TypeEvents::type_rules))]
pub fn walk_type(around: &Around<'_>, seen: &mut Seen, x: &Type)
    ensures { seen.new ≡ run around.now (type_events x.now) seen.old }
{
    match x {
        Type::Name(name) => name_type(around, seen, name),
        Type::Member(outer, name) => name_inner(around, seen, outer, name),
        Type::Array(_, element) => walk_type(around, seen, element.get()),
        Type::Any(_, name) => name_type(around, seen, name),
        Type::Void(_) => {}
        Type::Optional(wrapped) => walk_type(around, seen, wrapped.get()),
    }
}

/// Walks over a type, where there is one.
#[tactic(auto, using(crate::proofs::Runs::run_rules))]
pub fn walk_declared(around: &Around<'_>, seen: &mut Seen, x: &Option<Type>)
    ensures { seen.new ≡ run around.now (perhaps type_events x.now) seen.old }
{
    match x {
        None => {}
        Some(x) => walk_type(around, seen, x),
    }
}
