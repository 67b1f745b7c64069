//! The answers of calls on a handle: a result, or a refusal.

ghost use Rattle.std.specs.Prelude.{◌≡◌, IfErr, IfOk, IsSomeAnd, MatchOption};
ghost use Rattle.aggen_c.specs.Answers.{HasMessage, IsUnwritten, IsWritten};
ghost use Rattle.aggen_c.specs.Operations.{IsRefusalOf, IsResultOf};
ghost use Rattle.aggen_c.specs.Refusals.{HasReason, no_fields, numbers};

use crate::buffers::copy_prefix;
use crate::handle::Handle;
use crate::operation::Operation;
use crate::refusal::{Refusal, RefusalFields};
use aggen::Translator;
use std::alloc::Global;

/// Returns the result of an operation on the translator of a handle. The handle keeps the
/// translator. Fails with status 1 if the handle has none, and else as the operation does.
pub fn answer_by_handle(
    alloc: Global,
    handle: &mut Handle,
    operation: Operation,
    input: &[u8],
) -> Result<Vec<u8>, Refusal>
    ensures kept { handle.new.value ≡ handle.old.value }
    ensures bytes { IfOk result (λ bytes. IsSomeAnd handle.old.value
        (λ g. IsResultOf operation g input.now bytes.items)) }
    ensures refused { IfErr result (λ r. MatchOption handle.old.value
        (numbers r.status r.fields ≡ numbers 1 no_fields)
        (λ g. HasReason (IsRefusalOf operation g input.now) r.status r.fields)) }
{
    match handle.take(alloc) {
        Some(translator) => {
            let answer = answer_of(alloc, &translator, operation, input);
            handle.put(translator);
            answer
        }
        None => Err(Refusal::without_translator()),
    }
}

/// Returns the result of an operation on a translator. Fails as the operation does.
fn answer_of(
    alloc: Global,
    translator: &Translator,
    operation: Operation,
    input: &[u8],
) -> Result<Vec<u8>, Refusal>
    ensures bytes { IfOk result (λ bytes.
        IsResultOf operation translator.now input.now bytes.items) }
    ensures refused { IfErr result (λ r.
        HasReason (IsRefusalOf operation translator.now input.now) r.status r.fields) }
{
    match operation.result(alloc, translator, input) {
        Ok(bytes) => Ok(bytes),
        Err(fault) => {
            let refusal = Refusal::of_fault(&fault);
            let report = operation.report(alloc, fault, translator, input);
            Err(refusal.with_report(alloc, &report))
        }
    }
}

/// Writes an answer to the caller's memory, and returns its status.
///
/// For a result: copies the result to `out`, as far as there is room, sets `length` to the number
/// of all its bytes, sets `fields` to those of a call that was not refused, and returns 0.
///
/// For a refusal: sets `length` to 0, copies the message to `message`, as far as there is room,
/// sets `fields` to those of the refusal, and returns the status of the refusal.
pub fn write_answer(
    answer: Result<Vec<u8>, Refusal>,
    out: &mut [u8],
    length: &mut usize,
    message: &mut [u8],
    fields: &mut RefusalFields,
) -> u8
    ensures ok { IfOk answer (λ bytes.
        IsWritten bytes.items out.old out.new length.new result fields.new) }
    ensures err { IfErr answer (λ r. numbers result fields.new ≡ numbers r.status r.fields) }
    ensures kept { IfErr answer (λ _. IsUnwritten out.old out.new length.new) }
    ensures message { HasMessage message.old message.new fields.new.message_length }
{
    match answer {
        Ok(bytes) => {
            *length = copy_prefix(bytes.as_slice(), out);
            *fields = RefusalFields::none();
            0
        }
        Err(refusal) => {
            *length = 0;
            refusal.write(message, fields)
        }
    }
}
