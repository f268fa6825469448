// What is printed of a decision.
ghost use Rattle.std.specs.Prelude.{◌≡◌, ℕ, true, List, ◌++◌, OnOk, IfOk};
ghost use Rattle.op_constraints.specs.declared.Constraint.{Constraint};
ghost use Rattle.derivations.specs.Text.{certificate_text};
ghost use Rattle.preference_search.specs.Decided.{IsDecision};
ghost use Rattle.answer_lines.specs.Answers as spec;
ghost use Rattle.answer_lines.specs.Verdicts.{verified, accepted_line, verdict_text};

use crate::Pick;
use crate::picks::push_picks;
use derivation_check::no_fault_is_accepted;
use derivations::{Certificate, write_certificate};
use olm_base::Memory;
use preference_search::Decision;
use std::alloc::Global;

/// The certificate of a decision.
pub fn certificate_of(decision: &Decision) -> &Certificate
    ensures { result.now ≡ spec.certificate_of decision.now }
{
    match decision {
        Decision::Chosen {
            walk: _,
            set: _,
            certificate,
        } => certificate,
        Decision::Refused { certificate } => certificate,
        Decision::Undecided { certificate } => certificate,
    }
}

fn push_choice(out: &mut Vec<u8>, picks: &[Pick], decision: &Decision) -> Result<(), Memory>
    ensures { OnOk result (out.new.items ≡ out.old.items ++ (spec.word_line decision.now ++ spec.lines_if_chosen picks.now decision.now)) }
{
    match decision {
        Decision::Chosen {
            walk: _,
            set: _,
            certificate: _,
        } => {
            out.extend_from_slice(b"chosen\n")?;
            push_picks(out, picks)
        }
        Decision::Refused { certificate: _ } => {
            out.extend_from_slice(b"refused\n")?;
            Ok(())
        }
        Decision::Undecided { certificate: _ } => {
            out.extend_from_slice(b"undecided\n")?;
            Ok(())
        }
    }
}

/// What is printed of a decision: its word, a line for each pick where something is chosen, and its certificate, which
/// is accepted over the problem that was decided.
pub fn answer_text(alloc: Global, picks: &[Pick], decision: &Decision) -> Result<Vec<u8>, Memory>
    ensures text { IfOk result (λ text. text.items ≡ spec.answer_text picks.now decision.now) }
    ensures again { IfOk result (λ text. (problem : List (List Constraint)) (budget : ℕ) → IsDecision problem budget decision.now → verified problem (certificate_text (spec.certificate_of decision.now)) ≡ (accepted_line (verdict_text (spec.shown budget decision.now)), true)) }
{
    no_fault_is_accepted();
    let mut out = Vec::new(alloc);
    push_choice(&mut out, picks, decision)?;
    let certificate = write_certificate(alloc, certificate_of(decision))?;
    out.extend_from_slice(certificate.as_slice())?;
    Ok(out)
}
