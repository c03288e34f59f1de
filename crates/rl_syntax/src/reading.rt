ghost use Rattle.std.specs.Prelude.{◌≡◌, ◌<◌, length, IfOk, Result};
ghost use Rattle.rl_base.specs.declared.draft.Draft.{Draft};
ghost use Rattle.rl_syntax.specs.declared.refusal.SyntaxRefusal.{SyntaxRefusal};
ghost use Rattle.rl_base.specs.Draft.{HasNames};
ghost use Rattle.toml.specs.View.{table_view};
ghost use Rattle.rl_syntax.specs.Answer.{answer_to, UnlessMemory};
ghost use Rattle.rl_syntax.specs.Document.{document, Parses};
ghost use Rattle.rl_syntax.specs.Meaning.{Means};

use crate::draft::draft_of;
use crate::draft_names::test_draft;
use crate::refusal::SyntaxRefusal;
use rl_base::Draft;
use rl_base::limits::MAX_NETWORK_BYTES;
use std::alloc::Global;
use toml::Table;

/// The table of the document that a text is.
fn document_of(alloc: Global, text: &[u8]) -> Result<Table, SyntaxRefusal>
    ensures { Parses (λ t. table_view t) result (document text.now) }
{
    match toml::table_from_slice(alloc, text) {
        Ok(table) => Ok(table),
        Err(error) => {
            if error.is_memory() {
                Err(SyntaxRefusal::NoMemory)
            } else {
                Err(SyntaxRefusal::NotToml)
            }
        }
    }
}

#[tactic(auto, unfolding(crate::specs::Answer::answer_to))]
fn answer_of(alloc: Global, text: &[u8]) -> Result<Draft, SyntaxRefusal>
    ensures answer { UnlessMemory result (result ≡ answer_to text.now) }
    ensures too_long { MAX_NETWORK_BYTES < length text.now → result ≡ Err SyntaxRefusal.TooLong }
{
    if text.len() > MAX_NETWORK_BYTES {
        return Err(SyntaxRefusal::TooLong);
    }
    let table = document_of(alloc, text)?;
    let draft = draft_of(alloc, &table)?;
    test_draft(&draft).map_err(SyntaxRefusal::BadName)?;
    Ok(draft)
}

/// Reads a network text: its draft, or the first refusal in the order of the variants of `SyntaxRefusal`.
pub fn read_draft(alloc: Global, text: &[u8]) -> Result<Draft, SyntaxRefusal>
    // The one answer that the text has, unless memory runs out.
    ensures answer { UnlessMemory result (result ≡ answer_to text.now) }
    // What that answer says of the text: which condition holds first, or which draft stands there.
    ensures meaning { UnlessMemory result (Means text.now result) }
    // No other answer says what is so of the text.
    ensures exact { (other : Result Draft SyntaxRefusal) → Means text.now other → UnlessMemory result (result ≡ other) }
    // A text that is too long is refused before anything is read, whatever memory is left.
    ensures too_long { MAX_NETWORK_BYTES < length text.now → result ≡ Err SyntaxRefusal.TooLong }
    // Each text of a draft that should be a name is one.
    ensures names { IfOk result HasNames }
{
    answer_of(alloc, text)
}
