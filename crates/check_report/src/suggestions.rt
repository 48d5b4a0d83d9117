//! The form that a line may have been meant to have.

ghost use Rattle.std.specs.Prelude.{◌≡◌, ◌++◌, IfOk, OnOk};
ghost use Rattle.check_report.specs.Suggestions.{edits_to, form_text, nearest, suggestion};

use lane_words::Memory;
use script::{Form, first_word};
use std::alloc::Global;
use strsim::generic_levenshtein;

/// How far the first word of a line is at most from that of the form that is suggested: so many
/// bytes are put in, taken out or replaced.
pub const MOST_EDITS: usize = 2;

/// How far the first word of a form is from this word.
fn edits_to(alloc: Global, word: &[u8], form: Form) -> Result<usize, Memory>
    ensures { IfOk result (λ edits. edits ≡ edits_to word.now form) }
{
    let (first, _) = form.parts();
    Ok(generic_levenshtein(alloc, word, first_word(first))?)
}

/// The form whose first word is nearest to this word, if it is near.
#[tactic(auto, unfolding(crate::specs::Suggestions::nearest))]
fn nearest(alloc: Global, word: &[u8], forms: &[Form]) -> Result<Option<Form>, Memory>
    ensures { IfOk result (λ form. form ≡ nearest word.now forms.now) }
{
    let mut nearest = None;
    let mut least = MOST_EDITS + 1;
    for i in 0..forms.len() {
        let edits = edits_to(alloc, word, forms[i])?;
        if edits < least {
            least = edits;
            nearest = Some(forms[i]);
        }
    }
    Ok(nearest)
}

/// Adds a form as it is shown.
fn add_form(words: &mut Vec<u8>, form: Form, topics: bool) -> Result<(), Memory>
    ensures { OnOk result (words.new.items ≡ words.old.items ++ form_text topics form) }
{
    let (first, second) = form.parts();
    words.extend_from_slice(first)?;
    if topics && !second.is_empty() {
        words.extend_from_slice(b" TOPIC")?;
    }
    words.extend_from_slice(second)?;
    Ok(())
}

/// Adds the question whether a form was meant, if one of these is near to a line.
pub fn add_suggestion(
    alloc: Global,
    words: &mut Vec<u8>,
    forms: &[Form],
    topics: bool,
    line: &[u8],
) -> Result<(), Memory>
    ensures { OnOk result
        (words.new.items ≡ words.old.items ++ suggestion forms.now topics line.now) }
{
    let Some(form) = nearest(alloc, first_word(line), forms)? else {
        return Ok(());
    };
    words.extend_from_slice(b"; did you mean '")?;
    add_form(words, form, topics)?;
    words.extend_from_slice(b"'?")?;
    Ok(())
}
