//! `DistributedCallError`, the type of the errors of calls between nodes.

ghost use Rattle.std.specs.Prelude.{◌≡◌, ◌++◌, [], ◌∷◌, IfOk, OnOk};
ghost use Rattle.sw_facts.specs.BuiltIns.{bare_case, call_error_cases};
ghost use Rattle.sw_facts.specs.Known.{call_error};

use crate::parts::push_cases;
use std::alloc::Global;
use sw_base::{Items, NoMemory, Text, TypeNo};
use sw_members::Declarations;
use sw_type_table::CaseEntry;
use sw_typing::TypeFacts;

fn push_case(alloc: Global, cases: &mut Items<CaseEntry>, name: &[u8]) -> Result<(), NoMemory>
    ensures { OnOk result (cases.new ≡ cases.old ++ bare_case name.now ∷ []) }
{
    cases.push(CaseEntry {
        name: Text::from_bytes(alloc, name)?,
        labels: Items::new(alloc),
        types: Items::new(alloc),
    })
}

fn cases(alloc: Global) -> Result<Items<CaseEntry>, NoMemory>
    ensures { IfOk result (λ cases. cases ≡ call_error_cases) }
{
    let mut cases = Items::new(alloc);
    push_case(alloc, &mut cases, b"unreachable")?;
    push_case(alloc, &mut cases, b"peerRestarted")?;
    push_case(alloc, &mut cases, b"resigned")?;
    push_case(alloc, &mut cases, b"wrongType")?;
    Ok(cases)
}

/// What is known of the type with the number 0.
pub(crate) fn call_error(alloc: Global) -> Result<TypeFacts, NoMemory>
    ensures { IfOk result (λ facts. facts ≡ call_error) }
{
    let cases = cases(alloc)?;
    let mut facts = TypeFacts {
        members: Declarations::new(alloc),
        protocols: Items::new(alloc),
        is_error: true,
        is_equatable: true,
        is_printable: true,
    };
    // no `?`, since each way out with the tables alive costs the proof
    match push_cases(alloc, &mut facts.members, TypeNo(0), cases.as_slice()) {
        Ok(()) => Ok(facts),
        Err(NoMemory) => Err(NoMemory),
    }
}
