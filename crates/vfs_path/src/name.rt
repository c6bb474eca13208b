//! Names.

ghost use Rattle.std.specs.Prelude.{◌≡◌, ◌↔◌, ◌⊎◌, ◌≤◌, length, IfOk, IfErr, Ok, Err, Some, None, true};
ghost use Rattle.std.specs.List.{list_all};
ghost use Rattle.std.specs.Str.{is_utf8};
ghost use Rattle.vfs_path.specs.declared.error.PathError.TheVariants.{NoMemory as NoMemoryError};
ghost use Rattle.vfs_path.specs.NameTexts.{bytes_of, IsShort};
ghost use Rattle.vfs_path.specs.Texts.{IsName, stands_in_name, is_dots, first_refusal, spelling_refusals, name_of};

use crate::error::PathError;
use case_order::{NoMemory, Share, Shared, share_all};
use std::alloc::Global;
use std::marker::Model;
use std::str;

/// A name: 1 to 255 bytes of UTF-8 without byte 0, LF and `/`, other than `.` and `..`.
///
/// Up to 22 bytes stand in the value itself, so most names take no memory of their own, and a
/// copy of one counts nothing. Contracts see its bytes.
#[derive(Debug, Drop)]
pub struct Name {
    text: NameText,
}

/// Where the bytes of a name stand.
#[derive(Debug, Drop)]
enum NameText {
    /// In place: the first bytes of the array, as many as the number says.
    Short([u8; 22], u8),
    /// In memory that all copies share.
    Long(Shared<Vec<u8>>),
}

impl Model for Name {
    ghost use Rattle.std.specs.Prelude.{List, ℕ};
    ghost use Rattle.vfs_path.specs.NameTexts.{bytes_of, IsNameText};

    ghost Value = { List ℕ };

    ghost view = { λ n. bytes_of n.text };

    ghost invariant = { λ n. IsNameText n.text };
}

impl Name {
    /// The name with these bytes.
    ///
    /// Refused, by the first that holds: `BadByte` (a `/` included), `EmptyName`, `DotName`,
    /// `LongName`; and `NoMemory`, which comes only where the bytes are those of a name.
    pub fn from_bytes(alloc: Global, text: &[u8]) -> Result<Name, PathError>
        ensures name { IfOk result (λ name. (name ≡ text.now) × (name_of text.now ≡ Ok text.now)) }
        ensures refused { IfErr result (λ e. (e ≡ NoMemoryError) ⊎ (name_of text.now ≡ Err e)) }
        ensures memory { (result ≡ Err PathError.NoMemory) → name_of text.now ≡ Ok text.now }
    {
        if !(stand_in_name(text) && is_utf8(text)) {
            return Err(PathError::BadByte);
        }
        if let Some(refusal) = spelling_refusal(text) {
            return Err(refusal);
        }
        let name = Name::with_text(alloc, text)?;
        Ok(name)
    }

    /// The name with these bytes, which are those of a name.
    pub(crate) fn with_text(alloc: Global, text: &[u8]) -> Result<Name, NoMemory>
        requires { IsName text.now }
        ensures { IfOk result (λ name. name ≡ text.now) }
    {
        if text.len() <= 22 {
            return Ok(Name { text: short(text) });
        }
        let bytes = Vec::from_slice(alloc, text)?;
        match Shared::new(alloc, bytes) {
            Ok(text) => Ok(Name {
                text: NameText::Long(text),
            }),
            Err((_, refused)) => Err(refused),
        }
    }

    /// The bytes of the name.
    pub fn as_bytes(&self) -> &[u8]
        ensures bytes { result.now ≡ self.now }
        ensures name { IsName self.now }
    {
        match &self.text {
            NameText::Short(bytes, len) => &bytes[..*len as usize],
            NameText::Long(text) => text.get().as_slice(),
        }
    }
}

/// The text of at most 22 bytes, in place.
fn short(text: &[u8]) -> NameText
    requires { length text.now ≤ 22 }
    ensures { (bytes_of result ≡ text.now) × IsShort result }
{
    let mut bytes = [0u8; 22];
    bytes[..text.len()].copy_from_slice(text);
    NameText::Short(bytes, text.len() as u8)
}

impl Share for Name {
    fn share(&self) -> Result<Name, NoMemory> {
        match &self.text {
            NameText::Short(bytes, len) => Ok(Name {
                text: NameText::Short(*bytes, *len),
            }),
            NameText::Long(text) => Ok(Name {
                text: NameText::Long(text.share()?),
            }),
        }
    }
}

fn stands_in_name(byte: u8) -> bool
    ensures { result ≡ stands_in_name byte }
{
    byte != 0 && byte != b'\n' && byte != b'/'
}

fn stand_in_name(text: &[u8]) -> bool
    ensures { result ≡ list_all stands_in_name text.now }
{
    text.iter().all(|b| stands_in_name(*b))
}

/// What a length or a spelling says against a name.
pub(crate) fn spelling_refusal(text: &[u8]) -> Option<PathError>
    ensures { result ≡ first_refusal (spelling_refusals text.now) }
{
    if text.is_empty() {
        return Some(PathError::EmptyName);
    }
    if is_dots(text) {
        return Some(PathError::DotName);
    }
    if text.len() > 255 {
        return Some(PathError::LongName);
    }
    None
}

/// Whether the bytes are `.` or `..`.
fn is_dots(text: &[u8]) -> bool
    ensures { result ≡ is_dots text.now }
{
    text == b".".as_slice() || text == b"..".as_slice()
}

/// Whether all the bytes are UTF-8.
pub(crate) fn is_utf8(text: &[u8]) -> bool
    ensures { result ≡ is_utf8 text.now }
{
    match str::from_utf8(text) {
        Ok(_) => true,
        Err(_) => false,
    }
}

/// By spelling.
impl PartialEq for Name {
    ghost use Rattle.std.specs.Str.{bytes_eq};
    ghost use Rattle.std.specs.Cmp.{partial_equiv_from_equiv};
    ghost use Rattle.std.proofs.lemmas.Cmp.{nat_list_eq_equiv};

    ghost eq = { bytes_eq };

    ghost laws = { partial_equiv_from_equiv nat_list_eq_equiv };

    fn eq(&self, other: &Name) -> bool {
        self.as_bytes() == other.as_bytes()
    }
}

impl Eq for Name {
    ghost use Rattle.std.proofs.lemmas.Cmp.{nat_list_eq_equiv};

    ghost laws = { nat_list_eq_equiv };
}

/// A list of names.
#[derive(Debug, Drop)]
pub struct Names {
    items: Vec<Name>,
}

impl Model for Names {
    ghost use Rattle.std.specs.Prelude.{List, ℕ};

    ghost Value = { List (List ℕ) };

    ghost view = { λ n. n.items.items };
}

impl Names {
    /// The names of the vector; takes no memory.
    pub fn from_vec(items: Vec<Name>) -> Names
        ensures { result ≡ items.items }
    {
        Names { items }
    }

    /// The names.
    pub fn as_slice(&self) -> &[Name]
        ensures { result.now ≡ self.now }
    {
        self.items.as_slice()
    }
}

impl Share for Names {
    fn share(&self) -> Result<Names, NoMemory> {
        let items = share_all(*self.items.allocator(), &self.items)?;
        Ok(Names { items })
    }
}
