//! All rules of this crate at a declaration.

ghost use Rattle.std.specs.Prelude.{◌≡◌};
ghost use Rattle.sw_findings.specs.Found.{keep_all};
ghost use Rattle.sw_check_decl.specs.Declarations.{declaration_broken};

use crate::conformances::{report_errors, report_misplaced};
use crate::counts::report_counts;
use crate::forms::report_forms;
use crate::written_types::report_types;
use sw_declared::{Members, Names};
use sw_findings::Findings;
use sw_tree::Decl;

/// Reports each place at which a declaration breaks T1, T6 by its form, T7, T8 by a count, or T9.
///
/// `names` are what the file declares, and `own` are the members of this declaration.
#[tactic(auto, using(crate::proofs::Findings::keep_append))]
pub fn report_declaration(found: &mut Findings, names: &Names, own: &Members, decl: &Decl)
    ensures { found.new ≡ keep_all found.old (declaration_broken names.now own.now decl.now) }
{
    report_misplaced(found, names, own, decl);
    report_errors(found, names, own, decl);
    report_types(found, names, own, decl);
    report_counts(found, decl);
    report_forms(found, decl);
}
