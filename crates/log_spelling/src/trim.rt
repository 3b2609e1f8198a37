//! The blanks at the ends of a field.

ghost use Rattle.std.specs.Prelude.{◌≡◌};
ghost use Rattle.log_spelling.specs.Blanks.{is_blank, is_note, trimmed, without_back, without_front};

fn is_blank(c: u8) -> bool
    ensures { result ≡ is_blank c }
{
    c == b' ' || c == b'\t'
}

fn without_front(text: &[u8]) -> &[u8]
    ensures { result.now ≡ without_front text.now }
{
    let mut rest = text;
    while let [first, others @ ..] = rest {
        if !is_blank(*first) {
            break;
        }
        rest = others;
    }
    rest
}

#[tactic(auto, using(crate::proofs::Ends::last_blank, crate::proofs::Ends::last_kept))]
fn without_back(text: &[u8]) -> &[u8]
    ensures { result.now ≡ without_back text.now }
{
    let mut rest = text;
    while let [others @ .., last] = rest {
        if !is_blank(*last) {
            break;
        }
        rest = others;
    }
    rest
}

/// The text with no space or tab at its ends.
pub fn trimmed(text: &[u8]) -> &[u8]
    ensures { result.now ≡ trimmed text.now }
{
    without_back(without_front(text))
}

/// Whether a trimmed first field makes its record a note: it begins with `#`.
pub fn is_note(text: &[u8]) -> bool
    ensures { result ≡ is_note text.now }
{
    !text.is_empty() && text[0] == b'#'
}
