//! Domains.

ghost use Rattle.std.specs.Prelude.{◌≡◌, ◌⊎◌, [], IfOk, IfErr, MatchResult};
ghost use Rattle.hd_lex.specs.Text.{IsFault};
ghost use Rattle.hd_lex.specs.declared.error.LexError.{LexError};
ghost use Rattle.hd_base.specs.Answers.{Gives};
ghost use Rattle.hd_forms.specs.Reading.{Refuses};
ghost use Rattle.hd_forms.specs.Text.{IsUnbalanced, Explains};
ghost use Rattle.hd_forms.specs.View.{forms_view};
ghost use Rattle.hd_forms.specs.declared.error.ReadError.{ReadError};
ghost use Rattle.hd_pddl.specs.Domain.{IsDomain};
ghost use Rattle.hd_pddl.specs.Reading.{domain_in, domain_of};
ghost use Rattle.hd_pddl.specs.Text.{IsDomainText};
ghost use Rattle.hd_pddl.specs.declared.tree.DomainAst.{DomainAst};

use crate::actions::actions_of;
use crate::definition::{behind_requirements, head_at};
use crate::sections::{functions_at, names_at, predicates_at};
use crate::tree::DomainAst;
use hd_forms::{Form, ReadError, end_at, group_at, text_forms};
use std::alloc::Global;

/// Returns the domain that stands in a form which ends at the place `to`.
#[tactic(auto, unfolding(crate::specs::Reading::domain_in))]
fn domain_in(alloc: Global, inside: &[Form], to: usize) -> Result<DomainAst, ReadError>
    ensures { Gives Refuses (λ x. x) result (domain_in (forms_view inside.now)) }
{
    let (name, rest) = head_at(alloc, "domain", inside, to)?;
    let rest = behind_requirements(alloc, rest)?;
    let (types, rest) = names_at(alloc, "types", rest)?;
    let (constants, rest) = names_at(alloc, "constants", rest)?;
    let (predicates, rest) = predicates_at(alloc, rest)?;
    let (functions, rest) = functions_at(alloc, rest)?;
    let actions = actions_of(alloc, rest)?;
    Ok(DomainAst {
        name,
        types,
        constants,
        predicates,
        functions,
        actions,
    })
}

/// Returns the domain that these forms, all of a text of this length in bytes, are.
#[tactic(auto, unfolding(crate::specs::Reading::domain_of))]
fn domain_of(alloc: Global, forms: &[Form], end: usize) -> Result<DomainAst, ReadError>
    ensures { Gives Refuses (λ x. x) result (domain_of (forms_view forms.now)) }
{
    let (inside, to, rest) = group_at(alloc, forms, end)?;
    let domain = domain_in(alloc, inside, to)?;
    end_at(alloc, rest)?;
    Ok(domain)
}

/// Returns the domain that a text is, or why it is none.
///
/// Any bytes may come. The only error that the text of a domain meets is lack of memory. Errors
/// name places in bytes from
/// 0. The time and the memory that are taken grow with the text's length alone.
pub fn read_domain(alloc: Global, text: &[u8]) -> Result<DomainAst, ReadError>
    // What is read is what the text says, and what the text says is read, unless memory runs out.
    ensures found { IfOk result (IsDomainText text.now) }
    ensures only { (tree : DomainAst) → IsDomainText text.now tree
        → MatchResult result (λ answer. answer ≡ tree) (λ error. error ≡ ReadError.NoMemory) }

    // What is reported: the first bad word, the first fault of the parentheses, or that the text is
    // outside of the grammar.
    ensures refusal { IfErr result (Explains IsDomain text.now) }

    // A bad word is reported, and in a text without one a fault of the parentheses, unless memory
    // ran out.
    ensures bad_word { (fault : LexError) → IsFault text.now fault
        → MatchResult result (λ _. ⊥)
        (λ error. (error ≡ ReadError.NoMemory) ⊎ (error ≡ ReadError.Lex fault)) }
    ensures bad_parentheses { (fault : ReadError) → IsUnbalanced text.now fault
        → MatchResult result (λ _. ⊥) (λ error. (error ≡ ReadError.NoMemory) ⊎ (error ≡ fault)) }
{
    let forms = text_forms(alloc, text)?;
    domain_of(alloc, &forms, text.len())
}
