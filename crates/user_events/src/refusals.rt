// Why an event of a user writes nothing.
ghost use Rattle.std.specs.Prelude.{◌≡◌, ◌++◌, true, IfOk, IfErr};
ghost use Rattle.std.specs.Fmt.{decimal};
ghost use Rattle.olm_base.specs.Names.{is_name};
ghost use Rattle.olm_base.specs.Outcome.{Ends};
ghost use Rattle.user_events.specs.Reasons as spec;

use object_bodies::ObjectFault;
use olm_base::{Memory, Name, Text};
use std::alloc::{AllocError, Global};

/// Why an event writes nothing.
#[derive(Debug, Drop)]
pub enum Refusal {
    /// The reason, in the words that are printed.
    Reason { words: Text },
    /// Memory ran out.
    Memory,
}

impl From<Memory> for Refusal {
    ghost use Rattle.std.specs.Prelude.{◌≡◌};
    ghost use Rattle.user_events.specs.declared.refusals.Refusal.TheVariants as refusal;

    ghost from_gives = { λ _ e. e ≡ refusal.Memory };

    fn from(_: Memory) -> Refusal {
        Refusal::Memory
    }
}

impl From<AllocError> for Refusal {
    ghost use Rattle.std.specs.Prelude.{◌≡◌};
    ghost use Rattle.user_events.specs.declared.refusals.Refusal.TheVariants as refusal;

    ghost from_gives = { λ _ e. e ≡ refusal.Memory };

    fn from(_: AllocError) -> Refusal {
        Refusal::Memory
    }
}

/// A name is a text.
pub(crate) fn as_text(name: &Name) -> &str
    ensures text { result.now ≡ name.now }
    ensures name { is_name name.now ≡ true }
{
    match str::from_utf8(name.as_bytes()) {
        Ok(text) => text,
        Err(_) => unreachable!(),
    }
}

// One text behind another one.
fn joined(alloc: Global, front: &str, back: &str) -> Result<Text, Memory>
    ensures { IfOk result (λ text. text ≡ front.now ++ back.now) }
{
    let mut text = String::from_str(alloc, front)?;
    text.push_str(back)?;
    Ok(Text::from_string(text))
}

fn numbered(alloc: Global, front: &str, number: u64) -> Result<Text, Memory>
    ensures { IfOk result (λ text. text ≡ front.now ++ decimal number) }
{
    let digits = number.to_string(alloc)?;
    joined(alloc, front, digits.as_str())
}

/// A refusal in these words, or want of memory where there was none for them.
pub fn because(words: Result<Text, Memory>) -> Refusal
    ensures words { IfOk words (λ words. result ≡ Refusal.Reason words) }
    ensures memory { IfErr words (λ e. result ≡ Refusal.Memory) }
{
    match words {
        Ok(words) => Refusal::Reason { words },
        Err(Memory) => Refusal::Memory,
    }
}

/// A refusal in fixed words.
pub(crate) fn refused(alloc: Global, words: &str) -> Refusal
    ensures { Ends spec.is_free (Refusal.Reason words.now) result }
{
    because(Text::from_str(alloc, words))
}

/// The refusal of a body that gives no object.
pub(crate) fn body_refusal(alloc: Global, fault: &ObjectFault) -> Refusal
    ensures { Ends spec.is_free (spec.body_refusal fault.now) result }
{
    match fault {
        ObjectFault::TooLarge { bytes } => because(numbered(alloc, "too-large ", *bytes)),
        ObjectFault::NotJson => refused(alloc, "not-json"),
        ObjectFault::NoKind => refused(alloc, "no-kind"),
        ObjectFault::NoName => refused(alloc, "no-name"),
        ObjectFault::Forbidden { kind } => because(joined(alloc, "forbidden ", as_text(kind))),
        ObjectFault::BadField { path } => because(joined(alloc, "bad-field ", path.as_str())),
        ObjectFault::Memory => Refusal::Memory,
    }
}
