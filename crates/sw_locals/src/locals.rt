//! The variables in sight.

ghost use Rattle.std.specs.Prelude.{◌≡◌, ◌<◌, [], ◌∷◌, Some, None, true, OnOk, OnErr, if◌then◌else◌, cond, length, slice_get};
ghost use Rattle.std.specs.Option.{option_copied};
ghost use Rattle.sw_sight.specs.InSight.{Text, same};
ghost use Rattle.sw_sight.specs.Levels.{level, IsKnown};
ghost use Rattle.sw_locals.specs.InBody.{closed, local_named};
ghost use Rattle.sw_locals.specs.declared.locals.Mark.{Mark};

use crate::local::Local;
use std::alloc::Global;
use std::marker::Model;
use sw_base::{NoMemory, Stack};
use sw_sight::Levels;

/// A variable that is bound, and the place of the mark that binds the variable that it hides.
#[derive(Drop)]
struct Mark {
    local: Local,
    hidden: usize,
}

/// The variables in sight, which contracts see as a list, the one bound last first; none stands for where a scope
/// begins.
#[derive(Drop)]
pub struct Locals {
    marks: Stack<Option<Mark>>,
    /// Of each name, the place of the mark that bound it last: how many marks there were with it. 0 where none binds it.
    places: Levels,
}

impl Model for Locals {
    ghost use Rattle.std.specs.Prelude.{List, Option};
    ghost use Rattle.sw_locals.specs.declared.local.Local.{Local};

    ghost Value = { List (Option Local) };

    ghost use Rattle.sw_locals.specs.Linked.{locals_of, IsLinked};

    ghost view = { λ locals. locals_of locals.marks };

    ghost invariant = { IsLinked };
}

impl Locals {
    /// No variable is in sight. It allocates nothing yet.
    pub fn new(alloc: Global) -> Locals
        ensures { result ≡ [] }
    {
        Locals {
            marks: Stack::new(alloc),
            places: Levels::new(alloc),
        }
    }

    /// A scope begins. The only error is want of memory, and leaves what is in sight as it was.
    pub fn open(&mut self) -> Result<(), NoMemory>
        ensures ok { OnOk result (self.new ≡ None ∷ self.old) }
        ensures err { OnErr result (self.new ≡ self.old) }
    {
        self.marks.push(None)?;
        Ok(())
    }

    /// Puts a variable in sight, in the innermost scope. The only error is want of memory, and leaves what is in sight
    /// as it was.
    pub fn bind(&mut self, local: Local) -> Result<(), NoMemory>
        ensures ok { OnOk result (self.new ≡ Some local ∷ self.old) }
        ensures err { OnErr result (self.new ≡ self.old) }
    {
        self.places.add(local.name.as_bytes())?;
        let hidden = self.places.get(local.name.as_bytes());
        self.marks.push(Some(Mark { local, hidden }))?;
        keep_place_of_newest(&self.marks, &mut self.places);
        Ok(())
    }

    /// Takes off what was put last: tells whether it was a variable.
    fn pop(&mut self) -> bool
        ensures closes { closed self.old ≡ (if result then closed self.new else self.new) }
        ensures shorter { result ≡ true → length self.new < length self.old }
    {
        match self.marks.pop() {
            Some(Some(mark)) => {
                restore_hidden(&mut self.places, mark);
                true
            }
            Some(None) => false,
            None => false,
        }
    }

    /// The innermost scope ends.
    pub fn close(&mut self)
        ensures { self.new ≡ closed self.old }
    {
        while self.pop() {}
    }

    /// The variable of the name that was bound last; none where none of the name is in sight.
    pub fn find(&self, name: &[u8]) -> Option<&Local>
        ensures { option_copied result ≡ local_named name.now self.now }
    {
        let place = self.places.get(name);
        // a name that is not bound has place 0, and there is nothing below the oldest mark
        match self.marks.get(self.marks.len() - place) {
            Some(Some(mark)) => Some(&mark.local),
            Some(None) => None,
            None => None,
        }
    }
}

/// Keeps for the name of a mark that was taken off the place that the mark hid.
fn restore_hidden(places: &mut Levels, mark: Mark)
    ensures levels { IsKnown mark.local.name places.old
        → (x : Text) → level x places.new ≡ cond (same x mark.local.name) mark.hidden (level x places.old) }
    ensures keeps { (x : Text) → IsKnown x places.old → IsKnown x places.new }
{
    places.set(mark.local.name.as_bytes(), mark.hidden);
}

/// Keeps the place of the newest mark for the name that it binds.
fn keep_place_of_newest(marks: &Stack<Option<Mark>>, places: &mut Levels)
    ensures levels { (mark : Mark) → slice_get marks.now 0 ≡ Some (Some mark) → IsKnown mark.local.name places.old
        → (x : Text) → level x places.new ≡ cond (same x mark.local.name) (length marks.now) (level x places.old) }
    ensures keeps { (x : Text) → IsKnown x places.old → IsKnown x places.new }
{
    if let Some(Some(mark)) = marks.get(0) {
        places.set(mark.local.name.as_bytes(), marks.len());
    }
}
