//! A name and labels spelled as one text, for tables that find what is called by both.

ghost use Rattle.std.specs.Prelude.{◌≡◌, ◌++◌, ◌∷◌, ◌&&◌, List, ℕ, IfOk, OnOk};
ghost use Rattle.sw_sight.specs.InSight.{same};
ghost use Rattle.sw_declared.specs.Members.{Label, same_labels};
ghost use Rattle.sw_declared.specs.Declarations.{argument_labels, label_text};
ghost use Rattle.sw_declared.specs.Spelling.{spelled, spelled_label, spelled_labels, spelled_text};

use std::alloc::Global;
use sw_base::{NoMemory, Text};
use sw_tree::{Argument, Name};

/// Two spellings are the same exactly where the names are the same and the labels are. It does nothing.
pub fn spellings_tell()
    ensures { (a b : List ℕ) (xs ys : List Label) → same (spelled a xs) (spelled b ys) ≡ (same a b && same_labels xs ys) }
{}

/// Adds the spelling of a text.
fn spell_text(key: &mut Vec<u8>, text: &[u8]) -> Result<(), NoMemory>
    ensures { OnOk result (key.new.items ≡ key.old.items ++ spelled_text text.now) }
{
    for byte in text {
        key.push(1)?;
        key.push(*byte)?;
    }
    key.push(0)?;
    Ok(())
}

/// Adds the spelling of a label.
#[tactic(auto, unfolding(crate::specs::Spelling::spelled_label))]
fn spell_label(key: &mut Vec<u8>, label: &Option<Text>) -> Result<(), NoMemory>
    ensures { OnOk result (key.new.items ≡ key.old.items ++ spelled_label label.now) }
{
    match label {
        None => {
            key.push(0)?;
            Ok(())
        }
        Some(text) => {
            key.push(1)?;
            spell_text(key, text.as_bytes())
        }
    }
}

/// Adds the spelling of the label of an argument.
#[tactic(auto, unfolding(crate::specs::Spelling::spelled_label))]
fn spell_name(key: &mut Vec<u8>, label: &Option<Name>) -> Result<(), NoMemory>
    ensures { OnOk result (key.new.items ≡ key.old.items ++ spelled_label (label_text label.now)) }
{
    match label {
        None => {
            key.push(0)?;
            Ok(())
        }
        Some(name) => {
            key.push(1)?;
            spell_text(key, name.text.as_bytes())
        }
    }
}

/// The spelling of a name and labels. The only error is want of memory.
pub fn spelled(alloc: Global, name: &[u8], labels: &[Option<Text>]) -> Result<Vec<u8>, NoMemory>
    ensures { IfOk result (λ key. key.items ≡ spelled name.now labels.now) }
{
    let mut key = Vec::new(alloc);
    spell_text(&mut key, name)?;
    for label in labels {
        key.push(1)?;
        spell_label(&mut key, label)?;
    }
    key.push(0)?;
    Ok(key)
}

/// The spelling of a name and the labels of arguments. The only error is want of memory.
pub fn spelled_call(alloc: Global, name: &[u8], arguments: &[Argument]) -> Result<Vec<u8>, NoMemory>
    ensures { IfOk result (λ key. key.items ≡ spelled name.now (argument_labels arguments.now)) }
{
    let mut key = Vec::new(alloc);
    spell_text(&mut key, name)?;
    for argument in arguments {
        key.push(1)?;
        spell_name(&mut key, &argument.label)?;
    }
    key.push(0)?;
    Ok(key)
}
