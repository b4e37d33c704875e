//! What a part of a source sees beside the names in sight.

ghost use Rattle.std.specs.Prelude.{◌≡◌, ◌||◌, ◌&&◌, not, IfOk};
ghost use Rattle.std.specs.Option.{option_copied, option_map};
ghost use Rattle.sw_sight.specs.InSight.{same};
ghost use Rattle.sw_declared.specs.Declarations.{argument_labels};
ghost use Rattle.sw_scope.specs.Around.{among, built_in_types, is_declared, is_file_type, is_inner, is_type, needs_instance};

use std::marker::Model;
use sw_base::NoMemory;
use sw_declared::{Members, Names};
use sw_tree::Argument;

/// What a part of a source sees beside the names in sight: what the file declares, the members of the own type, and
/// whether there is an instance of it.
#[derive(Drop)]
pub struct Around<'a> {
    names: &'a Names,
    own: &'a Members,
    has_instance: bool,
}

impl<'a> Model for Around<'a> {
    ghost use Rattle.sw_scope.specs.Around.{Around};

    ghost Value = { Around };

    ghost view = { λ a. record { names = a.names.now; own = a.own.now; has_instance = a.has_instance } };
}

/// Tells whether two texts are the same.
#[tactic(auto, unfolding(sw_sight::specs::InSight::same))]
fn same(a: &[u8], b: &[u8]) -> bool
    ensures { result ≡ same a.now b.now }
{
    a == b
}

/// Tells whether a built-in type has the name.
fn is_built_in(x: &[u8]) -> bool
    ensures { result ≡ among built_in_types x.now }
{
    same(b"Int", x)
        || same(b"Bool", x)
        || same(b"String", x)
        || same(b"Void", x)
        || same(b"ActorID", x)
        || same(b"NodeSystem", x)
        || same(b"DistributedCallError", x)
        || same(b"Codable", x)
        || same(b"Sendable", x)
        || same(b"Equatable", x)
        || same(b"Hashable", x)
        || same(b"Error", x)
}

/// Tells whether the file declares a type or an alias of this name.
fn is_file_type(names: &Names, x: &[u8]) -> bool
    ensures { result ≡ is_file_type names.now x.now }
{
    names.types.has(x) || names.aliases.has(x)
}

impl<'a> Around<'a> {
    /// What a part sees by what the file declares and by the members of the own type.
    pub fn new(names: &'a Names, own: &'a Members, has_instance: bool) -> Around<'a>
        ensures names { result.names ≡ names.now }
        ensures own { result.own ≡ own.now }
        ensures instance { result.has_instance ≡ has_instance }
    {
        Around {
            names,
            own,
            has_instance,
        }
    }

    /// Tells whether there is an instance of the own type.
    pub fn has_instance(&self) -> bool
        ensures { result ≡ self.now.has_instance }
    {
        self.has_instance
    }

    /// Tells whether a type has the name.
    #[tactic(auto, unfolding(crate::specs::Around::is_type))]
    pub fn is_type(&self, x: &[u8]) -> bool
        ensures { result ≡ is_type self.now x.now }
    {
        self.own.has_type(x) || is_file_type(self.names, x) || is_built_in(x)
    }

    /// Tells whether the second type may stand after the `.` of the first.
    #[tactic(auto, unfolding(crate::specs::Around::is_inner))]
    pub fn is_inner(&self, x: &[u8], y: &[u8]) -> bool
        ensures { result ≡ is_inner self.now x.now y.now }
    {
        self.own.has_inner(x, y)
            || (!self.own.has_type(x)
                && ((self.names.types.has_inner(x, y) || self.names.aliases.has_inner(x, y))
                    || (!is_file_type(self.names, x)
                        && same(b"NodeSystem", x)
                        && same(b"ActorID", y))))
    }

    /// Tells whether something in the own type or in the file has the name, or is built in.
    #[tactic(auto, unfolding(crate::specs::Around::is_declared))]
    pub fn is_declared(&self, x: &[u8]) -> bool
        ensures { result ≡ is_declared self.now x.now }
    {
        self.own.has(x) || self.names.funcs.has_top_level(x) || self.is_type(x) || same(b"print", x)
    }

    /// Tells whether the name stands for members of the own type that need an instance, called with the labels of these
    /// arguments, or not called. The only error is want of memory.
    #[tactic(auto, unfolding(crate::specs::Around::needs_instance))]
    pub fn needs_instance(&self, x: &[u8], called: Option<&[Argument]>) -> Result<bool, NoMemory>
        ensures { IfOk result (λ needed. needed ≡ needs_instance self.now.own x.now (option_map argument_labels (option_copied called.entry))) }
    {
        if !self.own.has(x) {
            return Ok(false);
        }
        if self.own.has_static_fitting(x, called)? {
            return Ok(false);
        }
        let fits = self.own.has_fitting(x, called)?;
        Ok(fits || !self.own.has_static(x))
    }
}
