//! Members that are looked through one by one.

ghost use Rattle.std.specs.Prelude.{◌≡◌, ◌&&◌, take};
ghost use Rattle.std.specs.List.{list_any};
ghost use Rattle.sw_sight.specs.InSight.{same};
ghost use Rattle.sw_declared.specs.Declarations.{argument_labels, label_text};
ghost use Rattle.sw_declared.specs.Facts.{few, is_above, is_call_above};
ghost use Rattle.sw_declared.specs.Members.{same_label, same_labels};
ghost use Rattle.sw_declared.specs.Spelling.{spelled};

use crate::facts::{Question, rank_of};
use crate::names::Member;
use crate::ranks::static_rank;
use crate::words::same;
use sw_base::Text;
use sw_tree::{Argument, Name};

/// So many members of a type are looked through: most types have no more, and then want no table.
pub(crate) const FEW: usize = 8;

/// The first few of the members.
pub(crate) fn first_few(items: &[Member]) -> &[Member]
    ensures { result.now ≡ take few items.now }
{
    if items.len() <= FEW {
        return items;
    }
    &items[..FEW]
}

/// Tells whether a member has the name, with a rank above the number.
fn is_above(question: Question, name: &[u8], number: usize, item: &Member) -> bool
    ensures { result ≡ is_above question name.now number item.now }
{
    same(item.name.as_bytes(), name) && rank_of(question, item) > number
}

/// Tells whether one of the members has the name, with a rank above the number.
pub(crate) fn any_above(items: &[Member], question: Question, name: &[u8], number: usize) -> bool
    ensures { result ≡ list_any (is_above question name.now number) items.now }
{
    items.iter().any(|m| is_above(question, name, number, m))
}

#[tactic(auto, unfolding(crate::specs::Members::same_label))]
fn same_label(label: &Option<Text>, argument: &Option<Name>) -> bool
    ensures { result ≡ same_label label.now (label_text argument.now) }
{
    match (label, argument) {
        (None, None) => true,
        (Some(label), Some(name)) => same(label.as_bytes(), name.text.as_bytes()),
        _ => false,
    }
}

/// Tells whether the labels are those of the arguments.
fn same_labels(labels: &[Option<Text>], arguments: &[Argument]) -> bool
    ensures { result ≡ same_labels labels.now (argument_labels arguments.now) }
{
    if labels.len() != arguments.len() {
        return false;
    }
    for i in 0..labels.len() {
        if !same_label(&labels[i], &arguments[i].label) {
            return false;
        }
    }
    true
}

/// Tells whether a name with labels is what a call names.
fn is_named_by(own: &[u8], labels: &[Option<Text>], name: &[u8], arguments: &[Argument]) -> bool
    ensures { result ≡ (same own.now name.now && same_labels labels.now (argument_labels arguments.now)) }
{
    same(own, name) && same_labels(labels, arguments)
}

/// Tells whether a member is called so, with a rank above the number.
fn is_call_above(name: &[u8], arguments: &[Argument], number: usize, item: &Member) -> bool
    ensures { result ≡ is_call_above (spelled name.now (argument_labels arguments.now)) number item.now }
{
    match &item.labels {
        None => false,
        Some(labels) => {
            is_named_by(item.name.as_bytes(), labels.as_slice(), name, arguments)
                && static_rank(item.is_static) > number
        }
    }
}

/// Tells whether one of the members is called so, with a rank above the number.
pub(crate) fn any_call_above(
    items: &[Member],
    name: &[u8],
    arguments: &[Argument],
    number: usize,
) -> bool
    ensures { result ≡ list_any (is_call_above (spelled name.now (argument_labels arguments.now)) number) items.now }
{
    items
        .iter()
        .any(|m| is_call_above(name, arguments, number, m))
}
