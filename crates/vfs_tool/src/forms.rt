//! The forms of the words behind the program's name.

ghost use Rattle.std.specs.Prelude.{◌≡◌, ◌↔◌, ℕ, None, IfSome, IsTrue, slice_index};
ghost use Rattle.std.specs.Int.{IsInRange};
ghost use Rattle.vfs_tool.specs.declared.forms.Form.{Form};
ghost use Rattle.vfs_tool.specs.Forms.{IsCount, IsForm};

/// What the words ask for.
#[derive(Clone, Copy, Debug, PartialEq, Eq)]
pub(crate) enum Form {
    /// `replay`.
    Replay,
    /// `folder DIR`. The tree at DIR is the caller's to open.
    Folder,
    /// `gen N`, and N, which is 1 to 1,000.
    Gen(u64),
}

/// Whether the word begins with a digit from 1 to 9.
fn begins_with_digit(word: &str) -> bool
    ensures { IsTrue result ↔ IsInRange 49 57 (slice_index word.now 0) }
{
    match word.as_bytes() {
        [first, ..] => b'1' <= *first && *first <= b'9',
        [] => false,
    }
}

/// The number of a word: 1 to 1,000, in digits without a leading zero. None where it is no such word.
fn count_of(word: &str) -> Option<u64>
    ensures found { IfSome result (λ n. IsCount n word.now) }
    ensures missed { result ≡ None → (n : ℕ) → IsCount n word.now → ⊥ }
{
    if !begins_with_digit(word) {
        return None;
    }
    let Ok(count) = word.parse::<u64>() else {
        return None;
    };
    if 1 <= count && count <= 1000 {
        Some(count)
    } else {
        None
    }
}

/// What the words ask for: `replay`, `folder DIR`, or `gen N`. None where they are of no form.
pub(crate) fn form_of(words: &[String]) -> Option<Form>
    ensures found { IfSome result (λ form. IsForm form words.now) }
    ensures missed { result ≡ None → (form : Form) → IsForm form words.now → ⊥ }
{
    match words {
        [word] if word.as_str() == "replay" => Some(Form::Replay),
        [word, _] if word.as_str() == "folder" => Some(Form::Folder),
        [word, count] if word.as_str() == "gen" => Some(Form::Gen(count_of(count.as_str())?)),
        _ => None,
    }
}
