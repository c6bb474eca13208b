//! Paths.

ghost use Rattle.std.specs.Prelude.{◌≡◌, ◌⊎◌, ◌≤◌, ◌<◌, ◌↔◌, [], ◌∷◌, ◌++◌, length, take, slice_get, IfOk, IfErr, OnOk, OnErr, Ok, Err};
ghost use Rattle.vfs_model.specs.Paths.{place, is_same_name, is_at_or_above, is_related};
ghost use Rattle.vfs_model.specs.Retained.{place_order};
ghost use Rattle.vfs_path.specs.declared.error.PathError.TheVariants.{NoMemory as NoMemoryError, TooDeep as TooDeepError};
ghost use Rattle.std.specs.List.{common_prefix_len};
ghost use Rattle.vfs_path.specs.Texts.{IsPath, segments, path_of, path_text};

use crate::error::PathError;
use crate::name::{Name, Names};
use crate::text::{after_slash, has_path_bytes, names_between, segments_refusal, write_slashed};
use case_order::{Case, NoMemory, Share, Shared, order, same, share_all};
use std::alloc::Global;
use std::cmp::Ordering;
use std::marker::Model;

/// A path: at most 64 names, from the root down. The root has none.
///
/// Contracts see the list of its names.
#[derive(Debug, Drop)]
pub struct Path {
    names: Option<Shared<Names>>,
}

impl Model for Path {
    ghost use Rattle.std.specs.Prelude.{List, ℕ, [], unwrap_or};
    ghost use Rattle.vfs_path.specs.Texts.{IsPath};

    ghost Value = { List (List ℕ) };

    ghost view = { λ p. unwrap_or p.names [] };

    ghost invariant = { λ p. IsPath (unwrap_or p.names []) };
}

impl Path {
    /// The root, which takes no memory.
    pub fn root() -> Path
        ensures { result ≡ [] }
    {
        Path { names: None }
    }

    /// The path with this text.
    ///
    /// Refused, by the first that holds: `NotAbsolute` where the text does not begin with `/`;
    /// `BadByte` where it has a byte 0 or LF or is not UTF-8; by the first of the segments behind
    /// the first `/` that is at fault, `TooDeep` for the 65th whatever it holds, `EmptyName`,
    /// `DotName`, `LongName`; and `NoMemory`, which comes only where the text is that of a path.
    /// The text `/` has no segments.
    pub fn parse(alloc: Global, text: &[u8]) -> Result<Path, PathError>
        ensures path { IfOk result (λ p. path_of text.now ≡ Ok p) }
        ensures refused { IfErr result (λ e. (e ≡ NoMemoryError) ⊎ (path_of text.now ≡ Err e)) }
        ensures memory { (result ≡ Err PathError.NoMemory) → path_of text.now ≡ Ok (segments text.now) }
    {
        let Some(rest) = after_slash(text) else {
            return Err(PathError::NotAbsolute);
        };
        if !has_path_bytes(text) {
            return Err(PathError::BadByte);
        }
        if rest.is_empty() {
            return Ok(Path::root());
        }
        if let Some(refusal) = segments_refusal(0, rest) {
            return Err(refusal);
        }
        let names = names_between(alloc, rest)?;
        let path = Path::with_names(alloc, names)?;
        Ok(path)
    }

    /// Appends the text of the path: `/` for the root, and else a `/` and the name for each name.
    ///
    /// The only error is want of memory.
    pub fn write(&self, out: &mut Vec<u8>) -> Result<(), NoMemory>
        ensures ok { OnOk result (out.new.items ≡ out.old.items ++ path_text self.now) }
        ensures err { OnErr result (out.new.items ≡ out.old.items) }
    {
        let names = self.as_slice();
        if names.is_empty() {
            out.push(b'/')?;
            return Ok(());
        }
        let before = out.len();
        let written = write_slashed(names, out);
        if written.is_err() {
            out.truncate(before);
        }
        written
    }

    /// The path with one more name at its end.
    ///
    /// `TooDeep` comes exactly where the path has 64 names; the only other error is want of memory.
    pub fn child(&self, alloc: Global, name: &Name) -> Result<Path, PathError>
        ensures child { IfOk result (λ child. child ≡ self.now ++ name.now ∷ []) }
        ensures too_deep { (result ≡ Err PathError.TooDeep) ↔ (length self.now ≡ 64) }
        ensures refused { IfErr result (λ e. (e ≡ NoMemoryError) ⊎ (e ≡ TooDeepError)) }
    {
        if self.len() >= 64 {
            return Err(PathError::TooDeep);
        }
        let path = self.with_name(alloc, name)?;
        Ok(path)
    }

    fn with_name(&self, alloc: Global, name: &Name) -> Result<Path, NoMemory>
        requires { length self.now < 64 }
        ensures { IfOk result (λ path. path ≡ self.now ++ name.now ∷ []) }
    {
        let mut names = share_all(alloc, self.as_slice())?;
        names.push(name.share()?)?;
        Path::with_names(alloc, names)
    }

    /// The path with the first `n` names.
    ///
    /// The only error is want of memory.
    pub fn front(&self, alloc: Global, n: usize) -> Result<Path, NoMemory>
        requires { n ≤ length self.now }
        ensures { IfOk result (λ front. front ≡ take n self.now) }
    {
        let names = share_all(alloc, &self.as_slice()[..n])?;
        Path::with_names(alloc, names)
    }

    /// The path with these names, which are at most 64.
    fn with_names(alloc: Global, names: Vec<Name>) -> Result<Path, NoMemory>
        requires { IsPath names.items }
        ensures { IfOk result (λ path. path ≡ names.items) }
    {
        if names.is_empty() {
            return Ok(Path::root());
        }
        match Shared::new(alloc, Names::from_vec(names)) {
            Ok(names) => Ok(Path { names: Some(names) }),
            Err((_, refused)) => Err(refused),
        }
    }

    /// The names, from the root down.
    pub fn as_slice(&self) -> &[Name]
        ensures names { result.now ≡ self.now }
        ensures path { IsPath self.now }
    {
        match &self.names {
            None => &[],
            Some(names) => names.get().as_slice(),
        }
    }

    /// How many names the path has.
    pub fn len(&self) -> usize
        ensures names { result ≡ length self.now }
        ensures short { result ≤ 64 }
    {
        self.as_slice().len()
    }

    /// The name at a place, counted from 0.
    pub fn name(&self, i: usize) -> &Name
        requires { i < length self.now }
        ensures { slice_get self.now i ≡ Some result.now }
    {
        &self.as_slice()[i]
    }

    /// Whether the names are, one by one, the same as the first names of the other path.
    pub fn is_at_or_above(&self, case: Case, other: &Path) -> bool
        ensures { result ≡ is_at_or_above (place case self.now) (place case other.now) }
    {
        begin_with(case, self.as_slice(), other.as_slice())
    }

    /// Whether one of the paths is at or above the other.
    pub fn related(&self, case: Case, other: &Path) -> bool
        ensures { result ≡ is_related (place case self.now) (place case other.now) }
    {
        self.is_at_or_above(case, other) || other.is_at_or_above(case, self)
    }

    /// How many names, from the root down, are one by one the same in both paths.
    pub fn common(&self, case: Case, other: &Path) -> usize
        ensures { result ≡ common_prefix_len is_same_name (place case self.now) (place case other.now) }
    {
        common_of(case, self.as_slice(), other.as_slice())
    }

    /// The order of two paths, name by name: a path comes before all below it.
    pub fn order(&self, case: Case, other: &Path) -> Ordering
        ensures { result ≡ place_order (place case self.now) (place case other.now) }
    {
        order_of(case, self.as_slice(), other.as_slice())
    }
}

/// Whether the names of the first list are, one by one, the same as the first names of the second:
/// the first, as a path, is at or above the second.
pub fn begin_with(case: Case, front: &[Name], names: &[Name]) -> bool
    ensures { result ≡ is_at_or_above (place case front.now) (place case names.now) }
{
    match front {
        [] => true,
        [first, more @ ..] => match names {
            [] => false,
            [name, rest @ ..] => {
                same(case, first.as_bytes(), name.as_bytes()) && begin_with(case, more, rest)
            }
        },
    }
}

/// How many names, from the first on, two lists have alike.
fn common_of(case: Case, a: &[Name], b: &[Name]) -> usize
    ensures names { result ≡ common_prefix_len is_same_name (place case a.now) (place case b.now) }
    ensures short { result ≤ length a.now }
{
    match a {
        [] => 0,
        [x, more_a @ ..] => match b {
            [y, more_b @ ..] if same(case, x.as_bytes(), y.as_bytes()) => {
                1 + common_of(case, more_a, more_b)
            }
            _ => 0,
        },
    }
}

/// The order of two lists of names: the first two that differ decide, and else the lengths.
fn order_of(case: Case, a: &[Name], b: &[Name]) -> Ordering
    ensures { result ≡ place_order (place case a.now) (place case b.now) }
{
    match a {
        [] => match b {
            [] => Ordering::Equal,
            _ => Ordering::Less,
        },
        [x, more_a @ ..] => match b {
            [] => Ordering::Greater,
            [y, more_b @ ..] => match order(case, x.as_bytes(), y.as_bytes()) {
                Ordering::Equal => order_of(case, more_a, more_b),
                decided => decided,
            },
        },
    }
}

impl Share for Path {
    fn share(&self) -> Result<Path, NoMemory> {
        match &self.names {
            None => Ok(Path { names: None }),
            Some(names) => Ok(Path {
                names: Some(names.share()?),
            }),
        }
    }
}

/// By spelling.
impl PartialEq for Path {
    ghost use Rattle.std.specs.Str.{bytes_eq};
    ghost use Rattle.std.specs.Cmp.Lexicographic.{pointwise};
    ghost use Rattle.std.specs.Cmp.{partial_equiv_from_equiv};
    ghost use Rattle.std.proofs.lemmas.Cmp.{nat_list_eq_equiv, lists_equiv};

    ghost eq = { pointwise bytes_eq };

    ghost laws = { partial_equiv_from_equiv (lists_equiv nat_list_eq_equiv) };

    fn eq(&self, other: &Path) -> bool {
        self.as_slice() == other.as_slice()
    }
}

impl Eq for Path {
    ghost use Rattle.std.proofs.lemmas.Cmp.{nat_list_eq_equiv, lists_equiv};

    ghost laws = { lists_equiv nat_list_eq_equiv };
}

/// A list of paths.
#[derive(Debug, Drop)]
pub struct Paths {
    items: Vec<Path>,
}

impl Model for Paths {
    ghost use Rattle.std.specs.Prelude.{List, ℕ};

    ghost Value = { List (List (List ℕ)) };

    ghost view = { λ p. p.items.items };
}

impl Paths {
    /// The paths of the vector; takes no memory.
    pub fn from_vec(items: Vec<Path>) -> Paths
        ensures { result ≡ items.items }
    {
        Paths { items }
    }

    /// The paths.
    pub fn as_slice(&self) -> &[Path]
        ensures { result.now ≡ self.now }
    {
        self.items.as_slice()
    }
}

impl Share for Paths {
    fn share(&self) -> Result<Paths, NoMemory> {
        let items = share_all(*self.items.allocator(), &self.items)?;
        Ok(Paths { items })
    }
}
