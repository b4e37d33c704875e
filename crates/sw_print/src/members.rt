//! Writes members of declared types.

ghost use Rattle.std.specs.Prelude.{◌≡◌, [], ◌∷◌, ◌++◌, codes, OnOk};
ghost use Rattle.sw_layout.specs.declared.gap.Gap.TheVariants as GapValue;
ghost use Rattle.sw_layout.specs.Words.{words_text};
ghost use Rattle.sw_print.specs.Declarations.{accessor_words, case_words, computed_words, contextual, func_words, initializer_words, item_words, member_words, payload_words, requirement_words, stored_words, typealias_words};

use crate::clauses::{write_annotation, write_binding, write_declared, write_value};
use crate::names::{write_label, write_name};
use crate::page::Page;
use crate::signatures::{write_if_there, write_modifiers, write_signature};
use crate::statements::write_block;
use crate::types::write_type;
use crate::writing::{Written, write_in_parens, write_listed};
use sw_base::NoMemory;
use sw_layout::Gap;
use sw_lex::TokenKind;
use sw_tree::{
    Accessor, Case, ComputedProperty, EnumItem, Func, Initializer, Member, Payload, Requirement,
    StoredProperty, Typealias,
};

/// Writes a `typealias`.
#[tactic(auto, using(crate::proofs::TextLemmas::text_rules))]
pub fn write_typealias(page: &mut Page, x: &Typealias, before: Gap) -> Result<(), NoMemory>
    ensures { OnOk result (page.new ≡ page.old ++ words_text (typealias_words x.now before)) }
{
    page.plain(TokenKind::Typealias, before)?;
    write_name(page, &x.name, Gap::Space)?;
    page.plain(TokenKind::Assign, Gap::Space)?;
    write_type(page, &x.target, Gap::Space)
}

/// Writes a func with its body.
#[tactic(auto, using(crate::proofs::TextLemmas::text_rules))]
pub fn write_func(page: &mut Page, x: &Func, before: Gap) -> Result<(), NoMemory>
    ensures { OnOk result (page.new ≡ page.old ++ words_text (func_words x.now before)) }
{
    write_signature(page, &x.signature, before)?;
    write_block(page, x.body.as_slice())
}

/// Writes a stored property.
#[tactic(auto, using(crate::proofs::Modifiers::modified_rules))]
fn write_stored(page: &mut Page, x: &StoredProperty, before: Gap) -> Result<(), NoMemory>
    ensures { OnOk result (page.new ≡ page.old ++ words_text (stored_words x.now before)) }
{
    let before = write_modifiers(page, x.modifiers.as_slice(), before)?;
    write_binding(page, x.binding, before)?;
    write_name(page, &x.name, Gap::Space)?;
    write_declared(page, &x.declared)?;
    write_value(page, &x.initial)
}

/// Writes the word `get`, which is no reserved one.
fn write_get(page: &mut Page) -> Result<(), NoMemory>
    ensures { OnOk result (page.new ≡ page.old ++ words_text (contextual (codes "get") GapValue.Space ∷ [])) }
{
    page.word(TokenKind::Name, b"get", Gap::Space)
}

/// Writes the getter of a computed property.
#[tactic(auto, using(crate::proofs::TextLemmas::text_rules))]
fn write_accessor(page: &mut Page, accessor: &Accessor) -> Result<(), NoMemory>
    ensures { OnOk result (page.new ≡ page.old ++ words_text (accessor_words accessor.now)) }
{
    match accessor {
        Accessor::Body(body) => write_block(page, body.as_slice()),
        Accessor::Get(body) => {
            page.plain(TokenKind::LeftBrace, Gap::Space)?;
            write_get(page)?;
            write_block(page, body.as_slice())?;
            page.plain(TokenKind::RightBrace, Gap::Line)
        }
    }
}

/// Writes a computed property.
#[tactic(auto, using(crate::proofs::Modifiers::modified_rules))]
fn write_computed(page: &mut Page, x: &ComputedProperty, before: Gap) -> Result<(), NoMemory>
    ensures { OnOk result (page.new ≡ page.old ++ words_text (computed_words x.now before)) }
{
    let before = write_modifiers(page, x.modifiers.as_slice(), before)?;
    page.plain(TokenKind::Var, before)?;
    write_name(page, &x.name, Gap::Space)?;
    write_annotation(page, &x.declared)?;
    write_accessor(page, &x.accessor)
}

/// Writes an initialiser.
#[tactic(auto, using(crate::proofs::Modifiers::modified_rules))]
fn write_initializer(page: &mut Page, x: &Initializer, before: Gap) -> Result<(), NoMemory>
    ensures { OnOk result (page.new ≡ page.old ++ words_text (initializer_words x.now before)) }
{
    let before = write_modifiers(page, x.modifiers.as_slice(), before)?;
    page.plain(TokenKind::Init, before)?;
    write_in_parens(page, x.parameters.as_slice())?;
    write_if_there(page, TokenKind::Throws, x.throws)?;
    write_block(page, x.body.as_slice())
}

impl Written for Member {
    ghost words = { member_words };

    fn write(&self, page: &mut Page, before: Gap) -> Result<(), NoMemory> {
        match self {
            Member::Stored(x) => write_stored(page, x, before),
            Member::Computed(x) => write_computed(page, x, before),
            Member::Func(x) => write_func(page, x, before),
            Member::Initializer(x) => write_initializer(page, x, before),
            Member::Typealias(x) => write_typealias(page, x, before),
        }
    }
}

impl Written for Payload {
    ghost words = { payload_words };

    #[tactic(auto, using(crate::proofs::TextLemmas::text_rules))]
    fn write(&self, page: &mut Page, before: Gap) -> Result<(), NoMemory> {
        match &self.label {
            None => write_type(page, &self.declared, before),
            Some(label) => {
                write_label(page, label, before)?;
                write_annotation(page, &self.declared)
            }
        }
    }
}

impl Written for Case {
    ghost words = { case_words };

    #[tactic(auto, using(crate::proofs::TextLemmas::text_rules))]
    fn write(&self, page: &mut Page, before: Gap) -> Result<(), NoMemory> {
        write_name(page, &self.name, before)?;
        match &self.payload {
            None => Ok(()),
            Some(payload) => write_in_parens(page, payload.as_slice()),
        }
    }
}

impl Written for EnumItem {
    ghost words = { item_words };

    #[tactic(auto, using(crate::proofs::TextLemmas::text_rules))]
    fn write(&self, page: &mut Page, before: Gap) -> Result<(), NoMemory> {
        match self {
            EnumItem::Cases(cases) => {
                page.plain(TokenKind::Case, before)?;
                write_listed(page, cases.as_slice())
            }
            EnumItem::Member(member) => member.write(page, before),
        }
    }
}

impl Written for Requirement {
    ghost words = { requirement_words };

    #[tactic(auto, using(crate::proofs::TextLemmas::text_rules))]
    fn write(&self, page: &mut Page, before: Gap) -> Result<(), NoMemory> {
        match self {
            Requirement::Func(signature) => write_signature(page, signature, before),
            Requirement::Property(name, declared) => {
                page.plain(TokenKind::Var, before)?;
                write_name(page, name, Gap::Space)?;
                write_annotation(page, declared)?;
                page.plain(TokenKind::LeftBrace, Gap::Space)?;
                write_get(page)?;
                page.plain(TokenKind::RightBrace, Gap::Line)
            }
        }
    }
}
