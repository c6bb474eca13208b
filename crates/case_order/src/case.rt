//! Names under a case.

ghost use Rattle.std.specs.Prelude.{◌≡◌, ◌↔◌, IsTrue};
ghost use Rattle.std.specs.declared.cmp.Ordering.TheVariants.{Equal};
ghost use Rattle.vfs_model.specs.Paths.{folded_byte, folded_name, is_same_name, name_order};

use std::cmp::Ordering;
use vfs_model::Case;

/// A byte as the case compares it.
fn folded(case: Case, byte: u8) -> u8
    ensures { result ≡ folded_byte case byte }
{
    match case {
        Case::Sensitive => byte,
        Case::Insensitive => match byte {
            b'A'..=b'Z' => byte + 32,
            _ => byte,
        },
    }
}

/// Whether two texts are equal, after folding `A` to `Z` to `a` to `z` where the case is
/// insensitive. Folding past ASCII is this project's own choice to leave out.
pub fn same(case: Case, a: &[u8], b: &[u8]) -> bool
    ensures value { result ≡ is_same_name (folded_name case a.now) (folded_name case b.now) }
    ensures equal { IsTrue result ↔ (folded_name case a.now ≡ folded_name case b.now) }
{
    order(case, a, b).is_eq()
}

/// The byte order of two texts after the same folding: a total order on folded texts.
pub fn order(case: Case, a: &[u8], b: &[u8]) -> Ordering
    ensures value { result ≡ name_order case a.now b.now }
    ensures equal { (result ≡ Equal) ↔ (folded_name case a.now ≡ folded_name case b.now) }
{
    for i in 0..a.len().min(b.len()) {
        let here = folded(case, a[i]).cmp(&folded(case, b[i]));
        if here.is_ne() {
            return here;
        }
    }
    a.len().cmp(&b.len())
}
