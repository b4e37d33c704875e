//! The funcs that a type writes, as a protocol would require them.

ghost use Rattle.std.specs.Prelude.{◌≡◌, ◌++◌, IfOk, OnOk};
ghost use Rattle.std.specs.List.{flat_map};
ghost use Rattle.sw_requirements.specs.Unmet.{item_signatures, member_signatures, signatures};

use std::alloc::Global;
use sw_base::{Items, NoMemory};
use sw_declared::{Members, Names, spelled};
use sw_sight::Levels;
use sw_tree::{Decl, EnumItem, Member};
use sw_type_table::{Signature, signature};

/// Adds the signature of a member, if it is a func.
fn push_member(
    alloc: Global,
    list: &mut Items<Signature>,
    names: &Names,
    own: &Members,
    x: &Member,
) -> Result<(), NoMemory>
    ensures { OnOk result (list.new ≡ list.old ++ member_signatures names.now own.now x.now) }
{
    match x {
        Member::Func(x) => list.push(signature(alloc, names, own, &x.signature)?),
        Member::Stored(_) => Ok(()),
        Member::Computed(_) => Ok(()),
        Member::Initializer(_) => Ok(()),
        Member::Typealias(_) => Ok(()),
    }
}

fn push_item(
    alloc: Global,
    list: &mut Items<Signature>,
    names: &Names,
    own: &Members,
    x: &EnumItem,
) -> Result<(), NoMemory>
    ensures { OnOk result (list.new ≡ list.old ++ item_signatures names.now own.now x.now) }
{
    match x {
        EnumItem::Cases(_) => Ok(()),
        EnumItem::Member(x) => push_member(alloc, list, names, own, x),
    }
}

fn of_members(
    alloc: Global,
    names: &Names,
    own: &Members,
    members: &[Member],
) -> Result<Items<Signature>, NoMemory>
    ensures { IfOk result (λ list. list ≡ flat_map (member_signatures names.now own.now) members.now) }
{
    let mut list = Items::new(alloc);
    for x in members {
        push_member(alloc, &mut list, names, own, x)?;
    }
    Ok(list)
}

fn of_items(
    alloc: Global,
    names: &Names,
    own: &Members,
    items: &[EnumItem],
) -> Result<Items<Signature>, NoMemory>
    ensures { IfOk result (λ list. list ≡ flat_map (item_signatures names.now own.now) items.now) }
{
    let mut list = Items::new(alloc);
    for x in items {
        push_item(alloc, &mut list, names, own, x)?;
    }
    Ok(list)
}

/// The signatures of the funcs that a struct or an enum writes.
fn signatures(
    alloc: Global,
    names: &Names,
    own: &Members,
    decl: &Decl,
) -> Result<Items<Signature>, NoMemory>
    ensures { IfOk result (λ list. list ≡ signatures names.now own.now decl.now) }
{
    match decl {
        Decl::Struct(_, members) => of_members(alloc, names, own, members.as_slice()),
        Decl::Enum(_, items) => of_items(alloc, names, own, items.as_slice()),
        Decl::Import(_, _) => Ok(Items::new(alloc)),
        Decl::Typealias(_) => Ok(Items::new(alloc)),
        Decl::Protocol(_, _) => Ok(Items::new(alloc)),
        Decl::Actor(_, _) => Ok(Items::new(alloc)),
        Decl::Func(_) => Ok(Items::new(alloc)),
    }
}

/// The funcs that a type writes.
#[derive(Drop)]
pub(crate) struct Funcs {
    pub(crate) list: Items<Signature>,
    /// By name and labels: where to look in the list first.
    places: Levels,
}

/// Keeps the place of each func of the list by its name and labels.
fn keep_places(alloc: Global, places: &mut Levels, list: &[Signature]) -> Result<(), NoMemory> {
    for place in 0..list.len() {
        let func = &list[place];
        let key = spelled(alloc, func.name.as_bytes(), func.labels.as_slice())?;
        places.add(key.as_slice())?;
        places.set(key.as_slice(), place);
    }
    Ok(())
}

/// The funcs that a struct or an enum writes.
pub(crate) fn funcs_of(
    alloc: Global,
    names: &Names,
    own: &Members,
    decl: &Decl,
) -> Result<Funcs, NoMemory>
    ensures { IfOk result (λ funcs. funcs.list ≡ signatures names.now own.now decl.now) }
{
    let list = signatures(alloc, names, own, decl)?;
    let mut places = Levels::new(alloc);
    // no `?`, since each way out with the table alive costs the proof
    match keep_places(alloc, &mut places, list.as_slice()) {
        Ok(()) => Ok(Funcs { list, places }),
        Err(NoMemory) => Err(NoMemory),
    }
}

impl Funcs {
    /// Where to look first for what is called so. Any answer will do, since all funcs are looked through after it.
    pub(crate) fn place_of(&self, alloc: Global, required: &Signature) -> usize {
        match spelled(alloc, required.name.as_bytes(), required.labels.as_slice()) {
            Ok(key) => self.places.get(key.as_slice()),
            Err(NoMemory) => 0,
        }
    }
}
