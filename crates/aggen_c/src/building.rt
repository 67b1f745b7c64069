//! Making the translator of a handle.

ghost use Rattle.std.specs.Prelude.{◌≡◌, IfErr, IfOk, IsSomeAnd, None, OnErr, OnOk};
ghost use Rattle.aggen.specs.Listing.{IsTranslatorFault};
ghost use Rattle.aggen_c.specs.Answers.{HasMessage, IsTranslatorOf};
ghost use Rattle.aggen_c.specs.Refusals.{HasReason, no_fields, numbers, numbers_of};

use crate::handle::Handle;
use crate::refusal::{Refusal, RefusalFields};
use ag_fault::Fault;
use aggen::Translator;
use messages::{FaultReport, Source};
use std::alloc::Global;

/// The name of a grammar in messages.
const GRAMMAR: &str = "grammar";

/// Puts the translator of a grammar's text into a handle. First frees the translator that the
/// handle has, so that the handle has none after a refusal. Fails as `build` does.
pub fn build_handle(alloc: Global, grammar: &[u8], handle: &mut Handle) -> Result<(), Refusal>
    ensures built { OnOk result (IsSomeAnd handle.new.value (IsTranslatorOf grammar.now)) }
    ensures emptied { OnErr result (handle.new.value ≡ None) }
    ensures refused { IfErr result (λ r.
        HasReason (IsTranslatorFault grammar.now) r.status r.fields) }
{
    handle.clear(alloc);
    match build(alloc, grammar) {
        Ok(translator) => {
            handle.put(translator);
            Ok(())
        }
        Err(refusal) => Err(refusal),
    }
}

/// Returns the translator of a grammar's text, on the heap. Fails if the grammar is refused, and if
/// memory is refused.
fn build(alloc: Global, grammar: &[u8]) -> Result<Box<Translator>, Refusal>
    ensures built { IfOk result (λ t. IsTranslatorOf grammar.now t.value) }
    ensures refused { IfErr result (λ r.
        HasReason (IsTranslatorFault grammar.now) r.status r.fields) }
{
    match Translator::build(alloc, grammar) {
        Ok(translator) => match Box::new(alloc, translator) {
            Ok(translator) => Ok(translator),
            Err(_) => Err(refusal_of(alloc, Fault::NoMemory, grammar)),
        },
        Err(fault) => Err(refusal_of(alloc, Fault::from(fault), grammar)),
    }
}

/// Returns the refusal of a grammar for a fault.
fn refusal_of(alloc: Global, fault: Fault, grammar: &[u8]) -> Refusal
    ensures { numbers result.status result.fields ≡ numbers_of fault }
{
    let refusal = Refusal::of_fault(&fault);
    let report = FaultReport::of_grammar(alloc, fault, Source::new(GRAMMAR, grammar));
    refusal.with_report(alloc, &report)
}

/// Writes the fields of a call to the caller's memory, and returns the status. If the call was
/// refused, writes the fields and the message of the refusal, and returns its status. Otherwise
/// writes the fields of a call that was not refused, and returns 0.
pub fn write_built(built: Result<(), Refusal>, message: &mut [u8], fields: &mut RefusalFields) -> u8
    ensures ok { OnOk built ((result ≡ 0) × (fields.new ≡ no_fields)) }
    ensures err { IfErr built (λ r. numbers result fields.new ≡ numbers r.status r.fields) }
    ensures message { HasMessage message.old message.new fields.new.message_length }
{
    match built {
        Ok(()) => {
            *fields = RefusalFields::none();
            0
        }
        Err(refusal) => refusal.write(message, fields),
    }
}
