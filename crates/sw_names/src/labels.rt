//! The labels with which what is declared is called.

ghost use Rattle.std.specs.Prelude.{◌≡◌, IfOk};
ghost use Rattle.sw_declared.specs.Declarations.{label_text, parameter_label, parameter_labels, payload_labels};

use std::alloc::Global;
use sw_base::{ArgLabels, Duplicate, Items, NoMemory, Text};
use sw_tree::{Name, Parameter, ParameterLabel, Payload};

/// The label of an argument for the parameter.
fn parameter_label(parameter: &Parameter) -> Result<Option<Text>, NoMemory>
    ensures { IfOk result (λ label. label ≡ parameter_label parameter.now parameter.now.label) }
{
    match &parameter.label {
        ParameterLabel::Own => Ok(Some(parameter.name.text.copy()?)),
        ParameterLabel::Nothing => Ok(None),
        ParameterLabel::Other(name) => Ok(Some(name.text.copy()?)),
    }
}

/// The labels of arguments for the parameters. The only error is want of memory.
pub(crate) fn parameter_labels(
    alloc: Global,
    parameters: &[Parameter],
) -> Result<ArgLabels, NoMemory>
    ensures { IfOk result (λ labels. labels ≡ parameter_labels parameters.now) }
{
    let mut labels = Items::new(alloc);
    for parameter in parameters {
        labels.push(parameter_label(parameter)?)?;
    }
    Ok(labels)
}

/// The text of a name, where there is one.
fn label_text(name: &Option<Name>) -> Result<Option<Text>, NoMemory>
    ensures { IfOk result (λ label. label ≡ label_text name.now) }
{
    match name {
        None => Ok(None),
        Some(name) => Ok(Some(name.text.copy()?)),
    }
}

/// The labels of a payload. The only error is want of memory.
pub(crate) fn payload_labels(alloc: Global, parts: &[Payload]) -> Result<ArgLabels, NoMemory>
    ensures { IfOk result (λ labels. labels ≡ payload_labels parts.now) }
{
    let mut labels = Items::new(alloc);
    for part in parts {
        labels.push(label_text(&part.label)?)?;
    }
    Ok(labels)
}
