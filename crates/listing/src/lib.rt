//! The tokens of a source as lines of text, for people to read.

#![tactic(auto)]

ghost use Rattle.std.specs.Prelude.{◌≡◌, ◌++◌, length, Ok, IfOk, IfSome, MatchResult, OnOk};
ghost use Rattle.token.specs.Token.{fault, looked, spelled};
ghost use Rattle.listing.specs.Listing.{word as kind_word, detail, first_line, is_last, listing, spent, Later};

use std::alloc::{AllocError, Global};
use std::fmt::Display;
use token::{Kind, Look, Source, SourceFault};

// Appends what the value is printed as.
fn push_printed<D: Display + Drop>(value: D, out: &mut Vec<u8>) -> Result<(), AllocError>
    ensures { IfSome (D.output value) (λ text. OnOk result (out.new.items ≡ out.old.items ++ text)) }
{
    let text = value.to_string(*out.allocator())?;
    out.extend_from_slice(text.as_bytes())
}

// No `Display` for `Kind`: this spelling, with the blank before what follows, is the listing's own.
fn word_of(kind: Kind) -> &'static str
    ensures { result.now ≡ kind_word kind }
{
    match kind {
        Kind::Symbol => "symbol ",
        Kind::Ident => "ident ",
        Kind::IntLit => "integer ",
        Kind::FloatLit => "float ",
        Kind::StrLit => "string ",
        Kind::End => "end",
    }
}

// Appends the text of the next token, byte by byte.
fn push_text<S: Source>(source: &S, len: usize, out: &mut Vec<u8>) -> Result<(), AllocError>
    requires { len ≡ length (spelled (S.ahead source.now)) }
    ensures { OnOk result (out.new.items ≡ out.old.items ++ spelled (S.ahead source.now)) }
{
    out.extend((0..len).map(|k| source.byte(k)))
}

// Appends what the line says of the token that comes next.
fn push_detail<S: Source>(source: &S, look: Look, out: &mut Vec<u8>) -> Result<(), AllocError>
    requires { looked (S.ahead source.now) ≡ Ok look }
    ensures { OnOk result (out.new.items ≡ out.old.items ++ detail (S.ahead source.now)) }
{
    match look.kind {
        Kind::IntLit => push_printed(source.number(), out),
        _ => push_text(source, look.len, out),
    }
}

// Appends the line of the token or the end that comes next.
fn push_line<S: Source>(source: &S, look: Look, out: &mut Vec<u8>) -> Result<(), AllocError>
    requires { looked (S.ahead source.now) ≡ Ok look }
    ensures { OnOk result (out.new.items ≡ out.old.items ++ first_line (S.ahead source.now)) }
{
    let place = look.place;
    let word = word_of(look.kind);
    push_printed(format_args!("{place} {word}"), out)?;
    push_detail(source, look, out)?;
    out.push(b'\n')?;
    Ok(())
}

// Appends the line of a fault.
fn push_fault(at: SourceFault, out: &mut Vec<u8>) -> Result<(), AllocError>
    ensures { OnOk result (out.new.items ≡ out.old.items ++ first_line (fault at.fault at.place)) }
{
    let SourceFault { fault, place } = at;
    push_printed(format_args!("{place} fault {fault}\n"), out)
}

// Appends the line of what comes next, and says whether it is the last: the end or a fault.
fn push_next<S: Source>(source: &S, out: &mut Vec<u8>) -> Result<bool, AllocError>
    ensures line { OnOk result (out.new.items ≡ out.old.items ++ first_line (S.ahead source.now)) }
    ensures last { IfOk result (λ last. last ≡ is_last (S.ahead source.now)) }
{
    match source.look() {
        Ok(look) => {
            push_line(source, look, out)?;
            Ok(look.kind == Kind::End)
        }
        Err(fault) => {
            push_fault(fault, out)?;
            Ok(true)
        }
    }
}

/// Lists every token of the source, one a line, and at last the end or the fault, and takes the tokens.
/// Where memory runs out, some of them may be taken.
pub fn list_tokens<S: Source>(heap: Global, source: &mut S) -> Result<Vec<u8>, AllocError>
    ensures { MatchResult result (λ v. (v.items ≡ listing (S.ahead source.old)) × (S.ahead source.new ≡ spent (S.ahead source.old))) (λ _. Later (S.ahead source.old) (S.ahead source.new)) }
{
    let mut out = Vec::new(heap);
    while !push_next(source, &mut out)? {
        source.take();
    }
    Ok(out)
}
