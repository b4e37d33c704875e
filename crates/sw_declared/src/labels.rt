//! Modifiers and labels of declarations.

ghost use Rattle.std.specs.Prelude.{◌≡◌, IfOk};
ghost use Rattle.sw_tree.specs.declared.decl.ModifierKind.TheVariants.{Static, Distributed, Mutating};
ghost use Rattle.sw_declared.specs.Declarations.{has_modifier, is_distributed, label_text, parameter_label, parameter_labels, payload_labels, same_modifier};

use std::alloc::Global;
use sw_base::{ArgLabels, Duplicate, Items, NoMemory, Text};
use sw_tree::{Heading, Modifier, ModifierKind, Name, Parameter, ParameterLabel, Payload};

fn is_static_word(kind: ModifierKind) -> bool
    ensures { result ≡ same_modifier Static kind }
{
    match kind {
        ModifierKind::Static => true,
        _ => false,
    }
}

fn is_distributed_word(kind: ModifierKind) -> bool
    ensures { result ≡ same_modifier Distributed kind }
{
    match kind {
        ModifierKind::Distributed => true,
        _ => false,
    }
}

fn is_mutating_word(kind: ModifierKind) -> bool
    ensures { result ≡ same_modifier Mutating kind }
{
    match kind {
        ModifierKind::Mutating => true,
        _ => false,
    }
}

/// Tells whether `static` is one of the modifiers.
pub fn is_static(modifiers: &[Modifier]) -> bool
    ensures { result ≡ has_modifier Static modifiers.now }
{
    modifiers.iter().any(|m| is_static_word(m.kind))
}

/// Tells whether `mutating` is one of the modifiers.
pub fn is_mutating(modifiers: &[Modifier]) -> bool
    ensures { result ≡ has_modifier Mutating modifiers.now }
{
    modifiers.iter().any(|m| is_mutating_word(m.kind))
}

/// Tells whether `distributed` is one of the modifiers of a declared type.
pub fn is_distributed(heading: &Heading) -> bool
    ensures { result ≡ is_distributed heading.now }
{
    heading
        .modifiers
        .as_slice()
        .iter()
        .any(|m| is_distributed_word(m.kind))
}

fn label_text(label: &Option<Name>) -> Result<Option<Text>, NoMemory>
    ensures { IfOk result (λ text. text ≡ label_text label.now) }
{
    match label {
        None => Ok(None),
        Some(name) => Ok(Some(name.text.copy()?)),
    }
}

fn parameter_label(x: &Parameter) -> Result<Option<Text>, NoMemory>
    ensures { IfOk result (λ label. label ≡ parameter_label x.now x.now.label) }
{
    match &x.label {
        ParameterLabel::Own => Ok(Some(x.name.text.copy()?)),
        ParameterLabel::Nothing => Ok(None),
        ParameterLabel::Other(name) => Ok(Some(name.text.copy()?)),
    }
}

/// The labels with which parameters are called. The only error is want of memory.
pub fn parameter_labels(alloc: Global, parameters: &[Parameter]) -> Result<ArgLabels, NoMemory>
    ensures { IfOk result (λ labels. labels ≡ parameter_labels parameters.now) }
{
    let mut labels = Items::new(alloc);
    for parameter in parameters {
        labels.push(parameter_label(parameter)?)?;
    }
    Ok(labels)
}

/// The labels of the parts of a payload. The only error is want of memory.
pub fn payload_labels(alloc: Global, parts: &[Payload]) -> Result<ArgLabels, NoMemory>
    ensures { IfOk result (λ labels. labels ≡ payload_labels parts.now) }
{
    let mut labels = Items::new(alloc);
    for part in parts {
        labels.push(label_text(&part.label)?)?;
    }
    Ok(labels)
}
