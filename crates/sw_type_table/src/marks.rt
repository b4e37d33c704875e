//! Which type a written type is.

ghost use Rattle.std.specs.Prelude.{◌≡◌, IfOk};
ghost use Rattle.std.specs.Option.{option_map};
ghost use Rattle.sw_type_table.specs.Written.{bare, surround, written};

use crate::finding::{named_any, named_base};
use std::alloc::Global;
use sw_base::{Items, NoMemory};
use sw_declared::{Members, Names};
use sw_tree::Type;
use sw_value::{Base, Mark, Ty};

/// The type with these marks and this base, where there is one.
fn with_base(marks: Items<Mark>, base: Option<Base>) -> Option<Ty>
    ensures { result ≡ option_map (surround marks) (option_map bare base) }
{
    match base {
        Some(base) => Some(Ty { marks, base }),
        None => None,
    }
}

/// The type that a written type with these marks around it is. The only error is want of memory, or of numbers for
/// types.
#[tactic(auto, using(crate::proofs::Levels::level_rules))]
fn surrounded(
    names: &Names,
    own: &Members,
    t: &Type,
    mut marks: Items<Mark>,
) -> Result<Option<Ty>, NoMemory>
    ensures { IfOk result (λ found. found ≡ option_map (surround marks) (written names.now own.now t.now)) }
{
    match t {
        Type::Name(name) => Ok(with_base(marks, named_base(names, own, name.text.as_bytes())?)),
        Type::Member(_, _) => Ok(with_base(marks, Some(Base::Id))),
        Type::Array(_, element) => {
            marks.push(Mark::Array)?;
            surrounded(names, own, element.get(), marks)
        }
        Type::Any(_, name) => Ok(with_base(marks, named_any(names, own, name.text.as_bytes())?)),
        Type::Void(_) => Ok(with_base(marks, Some(Base::Void))),
        Type::Optional(wrapped) => {
            marks.push(Mark::Optional)?;
            surrounded(names, own, wrapped.get(), marks)
        }
    }
}

/// The type that a written type is, where the own type has these members; none where it is no type. The only error
/// is want of memory, or of numbers for types.
pub fn written(
    alloc: Global,
    names: &Names,
    own: &Members,
    t: &Type,
) -> Result<Option<Ty>, NoMemory>
    ensures { IfOk result (λ found. found ≡ written names.now own.now t.now) }
{
    surrounded(names, own, t, Items::new(alloc))
}
