// What an import path may be.
ghost use Rattle.std.specs.Prelude.{◌≡◌};
ghost use Rattle.grammar.specs.Decode.{holds, parts, component_refusal, components_refusal, path_refusal};

use grammar::ParserError;

// Whether a backslash stands in a path.
// A loop over the elements of the slice, which is the form that this project keeps, and not `path.contains`.
fn has_backslash(path: &[u8]) -> bool
    ensures { result ≡ holds 92 path.now }
{
    for b in path {
        if *b == b'\\' {
            return true;
        }
    }
    false
}

// Why a component of a path is refused, if it is.
// Matched as a byte slice pattern: the form that this project keeps.
fn component_refusal(component: &[u8]) -> Option<ParserError>
    ensures { result ≡ component_refusal component.now }
{
    match component {
        [] => Some(ParserError::ComponentEmpty),
        b"." => Some(ParserError::ComponentDot),
        b".." => Some(ParserError::ComponentDotDot),
        _ => None,
    }
}

// Why the first component that is refused is refused.
fn components_refusal(path: &[u8]) -> Option<ParserError>
    ensures { result ≡ components_refusal (parts 47 path.now) }
{
    path.split(|b| *b == b'/').find_map(component_refusal)
}

// Why an import path is refused, if it is.
#[tactic(auto, unfolding(grammar::specs::Decode::opened))]
pub fn path_refusal(path: &[u8]) -> Option<ParserError>
    ensures { result ≡ path_refusal path.now }
{
    if path.is_empty() {
        return Some(ParserError::PathEmpty);
    }
    if has_backslash(path) {
        return Some(ParserError::PathBackslashes);
    }
    components_refusal(path)
}
