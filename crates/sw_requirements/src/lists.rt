//! Labels and types of parameters, compared one by one.

ghost use Rattle.std.specs.Prelude.{◌≡◌};
ghost use Rattle.sw_declared.specs.Members.{same_label, same_labels};
ghost use Rattle.sw_sight.specs.InSight.{same};
ghost use Rattle.sw_requirements.specs.Met.{same_type, same_types};

use sw_base::Text;
use sw_value::Ty;

/// Tells whether two texts are the same.
#[tactic(auto, unfolding(sw_sight::specs::InSight::same))]
pub(crate) fn same(a: &[u8], b: &[u8]) -> bool
    ensures { result ≡ same a.now b.now }
{
    a == b
}

#[tactic(auto, unfolding(sw_declared::specs::Members::same_label))]
fn same_label(a: &Option<Text>, b: &Option<Text>) -> bool
    ensures { result ≡ same_label a.now b.now }
{
    match (a, b) {
        (None, None) => true,
        (Some(a), Some(b)) => same(a.as_bytes(), b.as_bytes()),
        _ => false,
    }
}

/// Tells whether the labels are the same, in the same order.
pub(crate) fn same_labels(a: &[Option<Text>], b: &[Option<Text>]) -> bool
    ensures { result ≡ same_labels a.now b.now }
{
    if a.len() != b.len() {
        return false;
    }
    for i in 0..a.len() {
        if !same_label(&a[i], &b[i]) {
            return false;
        }
    }
    true
}

/// Tells whether two types are the same. One that is not there counts as the same as any.
pub(crate) fn same_type(a: &Option<Ty>, b: &Option<Ty>) -> bool
    ensures { result ≡ same_type a.now b.now }
{
    match a {
        None => true,
        Some(a) => match b {
            None => true,
            Some(b) => sw_typing::same_type(a, b),
        },
    }
}

/// Tells whether there are as many types, each the same as the other in its place.
pub(crate) fn same_types(a: &[Option<Ty>], b: &[Option<Ty>]) -> bool
    ensures { result ≡ same_types a.now b.now }
{
    if a.len() != b.len() {
        return false;
    }
    for i in 0..a.len() {
        if !same_type(&a[i], &b[i]) {
            return false;
        }
    }
    true
}
