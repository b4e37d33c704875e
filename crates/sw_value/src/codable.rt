//! Which types may cross between nodes.

ghost use Rattle.std.specs.Prelude.{◌≡◌, ◌↔◌, IsTrue};
ghost use Rattle.sw_value.specs.Codable.{IsCodable};

use crate::kinds::Kinds;
use crate::settled::is_among;
use crate::ty::Ty;

/// Tells whether a type is in the least set of the types that may cross between nodes. It takes no
/// memory: in a table of types the declared word of a struct or an enum decides.
pub fn is_codable(kinds: &Kinds, t: &Ty) -> bool
    ensures { IsTrue result ↔ IsCodable kinds.now t.now }
{
    let _levels = kinds.levels();
    is_among(kinds.as_slice(), t.base)
}
