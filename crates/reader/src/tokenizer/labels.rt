// The labels of fields.
ghost use Rattle.std.specs.Prelude.{◌≡◌};
ghost use Rattle.grammar.specs.Grammar.{label};
ghost use Rattle.reader.specs.Modes.{syntax_in, mode_in, label_if};
ghost use Rattle.reader.specs.Replies.{gave};

use super::{lookahead_is_ident, refusal};
use crate::modes::MessageBodyParseMode;
use grammar::{ParserError, ReadFault, Rule};
use token::Source;

// The labels, in the order in which they are tried.
static RULES: [Rule; 3] = [Rule::Optional, Rule::Repeated, Rule::Required];

// Takes the label `rule` if it comes next and is allowed.
#[tactic(auto, unfolding(grammar::specs::Parse::opened, crate::specs::Modes::label_if))]
fn next_label_if_eq<S: Source>(
    s: &mut S,
    mode: MessageBodyParseMode,
    rule: Rule,
) -> Result<bool, ReadFault>
    ensures { gave result (S.ahead s.new) ≡ label_if (syntax_in mode) (mode_in mode) rule (S.ahead s.old) }
{
    if lookahead_is_ident(s, rule.as_str().as_bytes())? {
        if mode.label_allowed(rule) {
            s.take();
            return Ok(true);
        }
        return Err(refusal(s, ParserError::LabelNotAllowed));
    }
    Ok(false)
}

// Takes the label of a field, if it has one.
#[tactic(auto, unfolding(grammar::specs::Parse::opened, grammar::specs::Grammar::label))]
pub fn next_label<S: Source>(
    s: &mut S,
    mode: MessageBodyParseMode,
) -> Result<Option<Rule>, ReadFault>
    ensures { gave result (S.ahead s.new) ≡ label (syntax_in mode) (mode_in mode) (S.ahead s.old) }
{
    if lookahead_is_ident(s, b"map")? {
        if mode.map_allowed() {
            return Ok(None);
        }
        return Err(refusal(s, ParserError::MapFieldNotAllowed));
    }
    for rule in &RULES {
        if next_label_if_eq(s, mode, *rule)? {
            return Ok(Some(*rule));
        }
    }
    if mode.some_label_required() {
        return Err(refusal(s, ParserError::LabelRequired));
    }
    Ok(None)
}
