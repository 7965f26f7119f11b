//! Where the rest of a raw element ends.
ghost use Rattle.std.specs.Prelude.{◌≡◌, ◌≢◌, ◌++◌, ℕ, List, false, true, MatchOption};
ghost use Rattle.mos_fields.specs.Characters.{chars_of};
ghost use Rattle.mos_fields.specs.Names.{is_name};
ghost use Rattle.mos_fields.specs.Raw.{end_text, ends_with};

/// What stands before this end of a text, where it ends so.
fn without_end<'a>(text: &'a [u16], end: &[u16]) -> Option<&'a [u16]>
    ensures { MatchOption result ((front : List ℕ) → text.now ≢ front ++ end.now) (λ x. text.now ≡ x.now ++ end.now) }
{
    text.strip_suffix(end)
}

/// Whether a `<` stands where the end tag of this name would begin at the end of the text.
#[inline(always)]
fn may_end(name: &[u16], text: &[u16]) -> bool
    ensures { result ≡ false → (front : List ℕ) → text.now ≢ front ++ end_text name.now }
{
    if text.len() < 3 {
        false
    } else if text.len() - 3 < name.len() {
        false
    } else {
        text[text.len() - 3 - name.len()] == 60
    }
}

/// Whether the text ends with the end tag of this name. Most `>` end another tag, which is seen by one unit.
#[inline(always)]
pub fn ends_with_end_tag(name: &[u16], text: &[u16]) -> bool
    requires { is_name name.now ≡ true }
    ensures { result ≡ ends_with (end_text name.now) (chars_of text.now) }
{
    if may_end(name, text) {
        has_end_tag(name, text)
    } else {
        false
    }
}

/// Whether the text ends with the end tag of this name, looked at part by part.
fn has_end_tag(name: &[u16], text: &[u16]) -> bool
    requires { is_name name.now ≡ true }
    ensures { result ≡ ends_with (end_text name.now) (chars_of text.now) }
{
    match without_end(text, &[62]) {
        None => false,
        Some(front) => match without_end(front, name) {
            None => false,
            Some(front) => match without_end(front, &[60, 47]) {
                None => false,
                Some(_) => true,
            },
        },
    }
}
