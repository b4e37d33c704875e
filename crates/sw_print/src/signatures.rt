//! Writes modifiers, parameters and signatures.

ghost use Rattle.std.specs.Prelude.{◌≡◌, [], ◌∷◌, ◌++◌, OnOk, IfOk};
ghost use Rattle.sw_lex.specs.declared.token.TokenKind.TheVariants as TokenKindValue;
ghost use Rattle.sw_layout.specs.declared.gap.Gap.TheVariants as GapValue;
ghost use Rattle.sw_layout.specs.Words.{plain, words_text};
ghost use Rattle.sw_print.specs.Expressions.{perhaps, if_there, type_words};
ghost use Rattle.sw_print.specs.Declarations.{at_place, after_modifiers, modifiers_words, modifier_word, parameter_label_words, parameter_words, signature_rest, signature_words, type_parameter_words, type_parameters_words};

use crate::names::{write_label, write_name};
use crate::page::Page;
use crate::types::write_type;
use crate::writing::{Written, write_in_parens, write_listed};
use sw_base::{NoMemory, Span};
use sw_layout::Gap;
use sw_lex::TokenKind;
use sw_tree::{
    Modifier, ModifierKind, Name, Parameter, ParameterLabel, Signature, Type, TypeParameter,
};

/// Writes a modifier. A word that is no reserved one is a name.
fn write_modifier(page: &mut Page, kind: ModifierKind, before: Gap) -> Result<(), NoMemory>
    ensures { OnOk result (page.new ≡ page.old ++ words_text (modifier_word kind before ∷ [])) }
{
    match kind {
        ModifierKind::Public => page.plain(TokenKind::Public, before),
        ModifierKind::Internal => page.plain(TokenKind::Internal, before),
        ModifierKind::Private => page.plain(TokenKind::Private, before),
        ModifierKind::Fileprivate => page.plain(TokenKind::Fileprivate, before),
        ModifierKind::Final => page.word(TokenKind::Name, b"final", before),
        ModifierKind::Distributed => page.word(TokenKind::Name, b"distributed", before),
        ModifierKind::Nonisolated => page.word(TokenKind::Name, b"nonisolated", before),
        ModifierKind::Static => page.plain(TokenKind::Static, before),
        ModifierKind::Mutating => page.word(TokenKind::Name, b"mutating", before),
    }
}

/// Writes modifiers, and answers what stands before the word after them.
pub fn write_modifiers(
    page: &mut Page,
    modifiers: &[Modifier],
    before: Gap,
) -> Result<Gap, NoMemory>
    ensures words { OnOk result (page.new ≡ page.old ++ words_text (modifiers_words modifiers.now before)) }
    ensures gap { IfOk result (λ gap. gap ≡ after_modifiers modifiers.now before) }
{
    let mut gap = before;
    for modifier in modifiers {
        write_modifier(page, modifier.kind, gap)?;
        gap = Gap::Space;
    }
    Ok(gap)
}

/// Writes a reserved word or a mark, where it is there.
pub fn write_if_there(page: &mut Page, kind: TokenKind, there: bool) -> Result<(), NoMemory>
    ensures { OnOk result (page.new ≡ page.old ++ words_text (if_there kind there)) }
{
    if there {
        page.plain(kind, Gap::Space)
    } else {
        Ok(())
    }
}

/// Writes a reserved word or a mark, where it has a place.
fn write_at_place(page: &mut Page, kind: TokenKind, place: Option<Span>) -> Result<(), NoMemory>
    ensures { OnOk result (page.new ≡ page.old ++ words_text (at_place kind place)) }
{
    match place {
        None => Ok(()),
        Some(_) => page.plain(kind, Gap::Space),
    }
}

/// Writes a parameter's label, and its name.
fn write_parameter_name(
    page: &mut Page,
    label: &ParameterLabel,
    name: &Name,
    before: Gap,
) -> Result<(), NoMemory>
    ensures { OnOk result (page.new ≡ page.old ++ words_text (parameter_label_words label.now name.now before)) }
{
    match label {
        ParameterLabel::Own => write_name(page, name, before),
        ParameterLabel::Nothing => {
            page.plain(TokenKind::Underscore, before)?;
            write_name(page, name, Gap::Space)
        }
        ParameterLabel::Other(other) => {
            write_label(page, other, before)?;
            write_name(page, name, Gap::Space)
        }
    }
}

impl Written for Parameter {
    ghost words = { parameter_words };

    #[tactic(auto, using(crate::proofs::TextLemmas::text_rules))]
    fn write(&self, page: &mut Page, before: Gap) -> Result<(), NoMemory> {
        write_parameter_name(page, &self.label, &self.name, before)?;
        page.plain(TokenKind::Colon, Gap::Space)?;
        write_at_place(page, TokenKind::Inout, self.inout)?;
        write_type(page, &self.declared, Gap::Space)?;
        write_at_place(page, TokenKind::Ellipsis, self.variadic)
    }
}

impl Written for TypeParameter {
    ghost words = { type_parameter_words };

    #[tactic(auto, using(crate::proofs::TextLemmas::text_rules))]
    fn write(&self, page: &mut Page, before: Gap) -> Result<(), NoMemory> {
        write_name(page, &self.name, before)?;
        match &self.constraint {
            None => Ok(()),
            Some(constraint) => {
                page.plain(TokenKind::Colon, Gap::Space)?;
                write_name(page, constraint, Gap::Space)
            }
        }
    }
}

/// Writes type parameters, where there are any.
#[tactic(auto, using(crate::proofs::TextLemmas::text_rules))]
fn write_type_parameters(page: &mut Page, parameters: &[TypeParameter]) -> Result<(), NoMemory>
    ensures { OnOk result (page.new ≡ page.old ++ words_text (type_parameters_words parameters.now)) }
{
    if parameters.is_empty() {
        return Ok(());
    }
    page.plain(TokenKind::Less, Gap::Space)?;
    write_listed(page, parameters)?;
    page.plain(TokenKind::Greater, Gap::Space)
}

/// Writes the type of a result after its arrow, where there is one.
#[tactic(auto, using(crate::proofs::TextLemmas::text_rules))]
fn write_result(page: &mut Page, result_type: &Option<Type>) -> Result<(), NoMemory>
    ensures { OnOk result (page.new ≡ page.old
        ++ words_text (perhaps (λ of. plain TokenKindValue.Arrow GapValue.Space ∷ type_words of GapValue.Space) result_type.now)) }
{
    match result_type {
        None => Ok(()),
        Some(of) => {
            page.plain(TokenKind::Arrow, Gap::Space)?;
            write_type(page, of, Gap::Space)
        }
    }
}

/// Writes what follows the name of a func.
#[tactic(auto, using(crate::proofs::TextLemmas::text_rules))]
fn write_signature_rest(page: &mut Page, x: &Signature) -> Result<(), NoMemory>
    ensures { OnOk result (page.new ≡ page.old ++ words_text (signature_rest x.now)) }
{
    write_type_parameters(page, x.type_parameters.as_slice())?;
    write_in_parens(page, x.parameters.as_slice())?;
    write_if_there(page, TokenKind::Async, x.is_async)?;
    write_if_there(page, TokenKind::Throws, x.throws)?;
    write_result(page, &x.result)
}

/// Writes a func without its body.
#[tactic(auto, using(crate::proofs::Modifiers::modified_rules))]
pub fn write_signature(page: &mut Page, x: &Signature, before: Gap) -> Result<(), NoMemory>
    ensures { OnOk result (page.new ≡ page.old ++ words_text (signature_words x.now before)) }
{
    let before = write_modifiers(page, x.modifiers.as_slice(), before)?;
    page.plain(TokenKind::Func, before)?;
    write_name(page, &x.name, Gap::Space)?;
    write_signature_rest(page, x)
}
