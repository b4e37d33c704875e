//! What an expression sees.

ghost use Rattle.std.specs.Prelude.{◌≡◌, [], IfOk, unwrap_or};
ghost use Rattle.std.specs.Option.{option_copied};
ghost use Rattle.sw_locals.specs.InBody.{local_named};
ghost use Rattle.sw_resolve.specs.Scopes.{is_declared, is_local, is_own, is_type, members_at, names_type, own_members, own_side, own_type, type_named};

use std::alloc::Global;
use sw_base::NoMemory;
use sw_declared::{Members, Names};
use sw_locals::{Local, Locals};
use sw_members::{Declarations, Side};
use sw_scope::Around;
use sw_type_table::named_base;
use sw_typing::{Facts, bare, base_members};
use sw_value::{Base, Ty};

/// What an expression sees: what is known of types, what the file declares, the own type, the variables in sight.
#[derive(Drop)]
pub struct Scope<'a> {
    pub known: &'a Facts,
    pub names: &'a Names,
    /// The members of the own type, as the pass of names has them; none in a func of the file.
    pub inside: &'a Members,
    /// The own type; none in a func of the file.
    pub own: Option<Base>,
    /// Whether there is an instance of the own type, so that `self` may stand.
    pub has_instance: bool,
    /// Whether `self` is a variable, where it is a struct or an enum: in a mutating func and in an initialiser.
    pub self_is_variable: bool,
    pub locals: &'a Locals,
}

/// The members of a type that no mark surrounds, where there is one.
#[tactic(auto, unfolding(crate::specs::Scopes::members_at))]
pub(crate) fn members_at(known: &Facts, base: Option<Base>) -> Option<&Declarations>
    ensures { unwrap_or (option_copied result) [] ≡ members_at known.now base }
{
    match base {
        None => None,
        Some(base) => base_members(known, base),
    }
}

impl<'a> Scope<'a> {
    /// The type of `self`; none where there is no own type.
    #[tactic(auto, unfolding(crate::specs::Scopes::own_type))]
    pub fn own_type(&self, alloc: Global) -> Option<Ty>
        ensures { result ≡ own_type self.now }
    {
        match self.own {
            None => None,
            Some(base) => Some(bare(alloc, base)),
        }
    }

    /// The members of the own type.
    #[tactic(auto, unfolding(crate::specs::Scopes::own_members))]
    pub(crate) fn own_members(&self) -> Option<&'a Declarations>
        ensures { unwrap_or (option_copied result) [] ≡ own_members self.now }
    {
        members_at(self.known, self.own)
    }

    /// Which members of the own type a name stands for.
    #[tactic(auto, unfolding(crate::specs::Scopes::own_side))]
    pub(crate) fn own_side(&self) -> Side
        ensures { result ≡ own_side self.now }
    {
        if self.has_instance {
            Side::Both
        } else {
            Side::Static
        }
    }

    /// The variable of a name; none where none of the name is in sight.
    pub fn local(&self, name: &[u8]) -> Option<&'a Local>
        ensures { option_copied result ≡ local_named name.now self.now.locals.now }
    {
        self.locals.find(name)
    }

    /// Tells whether a variable of the name is in sight.
    #[tactic(auto, unfolding(crate::specs::Scopes::is_local))]
    pub(crate) fn is_local(&self, name: &[u8]) -> bool
        ensures { result ≡ is_local self.now name.now }
    {
        self.local(name).is_some()
    }

    /// Tells whether a member of the own type has the name.
    #[tactic(auto, unfolding(crate::specs::Scopes::is_own))]
    pub(crate) fn is_own(&self, name: &[u8]) -> bool
        ensures { result ≡ is_own self.now name.now }
    {
        match self.own_members() {
            None => false,
            Some(members) => members.any_named(Side::Both, name),
        }
    }

    fn around(&self) -> Around<'a>
        ensures names { result.names ≡ self.now.names.now }
        ensures own { result.own ≡ self.now.inside.now }
        ensures instance { result.has_instance ≡ self.now.has_instance }
    {
        Around::new(self.names, self.inside, self.has_instance)
    }

    /// Tells whether a type has the name.
    #[tactic(auto, unfolding(crate::specs::Scopes::is_type))]
    pub(crate) fn is_type(&self, name: &[u8]) -> bool
        ensures { result ≡ is_type self.now name.now }
    {
        self.around().is_type(name)
    }

    /// Tells whether something has the name in the own type or in the file, or is built in.
    #[tactic(auto, unfolding(crate::specs::Scopes::is_declared))]
    pub(crate) fn is_declared(&self, name: &[u8]) -> bool
        ensures { result ≡ is_declared self.now name.now }
    {
        self.around().is_declared(name)
    }

    /// Tells whether the name means a type before a `.`.
    #[tactic(auto, unfolding(crate::specs::Scopes::names_type))]
    pub fn names_type(&self, name: &[u8]) -> bool
        ensures { result ≡ names_type self.now name.now }
    {
        !self.is_local(name)
            && ((self.inside.has_type(name) || !self.is_own(name)) && self.is_type(name))
    }

    /// The type of the name; none where it is a protocol's, or no type's. The only error is want of numbers for types.
    #[tactic(auto, unfolding(crate::specs::Scopes::type_named))]
    pub fn type_named(&self, name: &[u8]) -> Result<Option<Base>, NoMemory>
        ensures { IfOk result (λ found. found ≡ type_named self.now name.now) }
    {
        named_base(self.names, self.inside, name)
    }
}
