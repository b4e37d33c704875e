//! What a walk over a part of a source has seen so far, and what it is told.
#![tactic(auto, unfolding(crate::specs::Walk::run, crate::specs::Walk::step, crate::specs::Walk::shifted, crate::specs::Walk::found_at, sw_findings::specs::Found::keep_all), using(crate::proofs::Keeping::keep_append))]

ghost use Rattle.std.specs.Prelude.{◌≡◌, ◌&&◌, not, [], ◌∷◌, OnOk, IfOk};
ghost use Rattle.std.specs.Option.{option_copied, option_map};
ghost use Rattle.sw_declared.specs.Declarations.{argument_labels};
ghost use Rattle.sw_scope.specs.Around.{needs_instance};
ghost use Rattle.sw_scope.specs.Events.{opens, closes, binds, reads, types, inner, instance};
ghost use Rattle.sw_scope.specs.Walk.{run};

use crate::around::Around;
use sw_base::{NoMemory, Span};
use sw_findings::Findings;
use sw_rules::Rule;
use sw_sight::Sight;
use sw_tree::{Argument, Name};

/// The names in sight, and the first broken rule so far.
#[derive(Drop)]
pub struct Seen {
    pub sight: Sight,
    pub found: Findings,
}

/// A scope begins. The only error is want of memory.
pub fn open(around: &Around<'_>, seen: &mut Seen) -> Result<(), NoMemory>
    ensures { OnOk result (seen.new ≡ run around.now (opens ∷ []) seen.old) }
{
    seen.sight.open()
}

/// The innermost scope ends.
pub fn close(around: &Around<'_>, seen: &mut Seen)
    ensures { seen.new ≡ run around.now (closes ∷ []) seen.old }
{
    seen.sight.close();
}

/// From here on this name is in sight. The only error is want of memory.
pub fn bind(around: &Around<'_>, seen: &mut Seen, name: &Name) -> Result<(), NoMemory>
    ensures { OnOk result (seen.new ≡ run around.now (binds name.now ∷ []) seen.old) }
{
    let twice = seen.sight.has_here(name.text.as_bytes());
    seen.found.report(twice, Rule::N1, name.span);
    seen.sight.bind(name.text.as_bytes())
}

/// Tells whether a name that is not in sight needs an instance where there is none.
fn lacks_instance(
    around: &Around<'_>,
    free: bool,
    x: &[u8],
    called: Option<&[Argument]>,
) -> Result<bool, NoMemory>
    ensures { IfOk result (λ lacks. lacks
        ≡ (free && not around.now.has_instance && needs_instance around.now.own x.now (option_map argument_labels (option_copied called.entry)))) }
{
    if !free || around.has_instance() {
        return Ok(false);
    }
    around.needs_instance(x, called)
}

/// A name stands as a value, or is called with these arguments. The only error is want of memory.
pub fn read(
    around: &Around<'_>,
    seen: &mut Seen,
    name: &Name,
    called: Option<&[Argument]>,
) -> Result<(), NoMemory>
    ensures { OnOk result (seen.new ≡ run around.now (reads name.now (option_map argument_labels (option_copied called.entry)) ∷ []) seen.old) }
{
    let x = name.text.as_bytes();
    let free = !seen.sight.has(x);
    let unknown = free && !around.is_declared(x);
    seen.found.report(unknown, Rule::N3, name.span);
    let lacks = lacks_instance(around, free, x, called)?;
    seen.found.report(lacks, Rule::N4, name.span);
    Ok(())
}

/// A name stands as a type.
pub fn name_type(around: &Around<'_>, seen: &mut Seen, name: &Name)
    ensures { seen.new ≡ run around.now (types name.now ∷ []) seen.old }
{
    let unknown = !around.is_type(name.text.as_bytes());
    seen.found.report(unknown, Rule::N2, name.span);
}

/// After a name and a `.` another stands as a type.
pub fn name_inner(around: &Around<'_>, seen: &mut Seen, outer: &Name, name: &Name)
    ensures { seen.new ≡ run around.now (inner outer.now name.now ∷ []) seen.old }
{
    let known = around.is_type(outer.text.as_bytes());
    seen.found.report(!known, Rule::N2, outer.span);
    let wrong = known && !around.is_inner(outer.text.as_bytes(), name.text.as_bytes());
    seen.found.report(wrong, Rule::N2, name.span);
}

/// The word `self` stands here.
pub fn read_self(around: &Around<'_>, seen: &mut Seen, at: Span)
    ensures { seen.new ≡ run around.now (instance at ∷ []) seen.old }
{
    seen.found.report(!around.has_instance(), Rule::N4, at);
}
