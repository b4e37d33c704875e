//! What a heading or a type tells by a word.

ghost use Rattle.std.specs.Prelude.{◌≡◌};
ghost use Rattle.sw_tree.specs.declared.decl.ModifierKind.TheVariants.{Distributed};
ghost use Rattle.sw_declared.specs.Declarations.{is_distributed, is_node_system, same_modifier};

use sw_tree::{Heading, ModifierKind, Type};

/// Tells whether the word is `distributed`.
fn is_distributed_word(kind: ModifierKind) -> bool
    ensures { result ≡ same_modifier Distributed kind }
{
    match kind {
        ModifierKind::Distributed => true,
        _ => false,
    }
}

/// Tells whether `distributed` is one of the modifiers.
pub(crate) fn is_distributed(heading: &Heading) -> bool
    ensures { result ≡ is_distributed heading.now }
{
    heading
        .modifiers
        .as_slice()
        .iter()
        .any(|m| is_distributed_word(m.kind))
}

/// Tells whether the type is written `NodeSystem`.
#[tactic(auto, unfolding(sw_sight::specs::InSight::same))]
pub(crate) fn is_node_system(x: &Type) -> bool
    ensures { result ≡ is_node_system x.now }
{
    match x {
        Type::Name(name) => b"NodeSystem".as_slice() == name.text.as_bytes(),
        _ => false,
    }
}
