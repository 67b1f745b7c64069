//! The functions that `bindings/c/aggen.c` calls. They take for granted that no pointer is null,
//! that no two arguments of one call overlap in memory, and that no length is above 2^63 - 1.
//! `bindings/c/unchecked.h` declares them for C: there a slice is a pointer and a length, and
//! `alloc`, whose type has no bytes, is not an argument.
//!
//! Each call except `aggen_free_unchecked` returns a status, which is 0 after success. The result
//! of a call with an argument `out` is copied there as far as there is room, and `length` gets the
//! number of all bytes of the result. On failure `out` is as before, and `length` is 0. `refusal`
//! gets the number, the offset, the line and the column of the fault, if it has them, and the
//! length of the message. `message` gets the message, as far as there is room. After success
//! `refusal` has no number, no offset, no line, no column, and 0 as the length of the message, and
//! `message` is as before.

ghost use Rattle.std.specs.Prelude.{◌≡◌, None};
ghost use Rattle.aggen_c.specs.Answers.{Answers, HasMessage, IsBuilt};
ghost use Rattle.aggen.specs.Results.{IsEvaluationOf};
ghost use Rattle.aggen_c.specs.Results.{IsEvaluationRefusal, IsNoMemory};
ghost use Rattle.aggen.specs.Results.{IsTranslationOf};
ghost use Rattle.aggen_c.specs.Results.{IsPlanTextOf, IsTranslationRefusal};
ghost use Rattle.aggen_c.specs.Results.{IsTreeFileOf, IsTreeRefusal};

use crate::answer::{answer_by_handle, write_answer};
use crate::building::{build_handle, write_built};
use crate::handle::Handle;
use crate::operation::Operation;
use crate::refusal::RefusalFields;
use std::alloc::Global;

/// Puts the translator of a grammar's text into a handle. Frees the translator that the handle had.
///
/// Returns 0. Fails with status 3 and G1 to G4, N1 to N10, L1 or A1 if no translator can be built
/// from the text, and with status 7 if memory is refused. After a failure the handle has no
/// translator.
#[unsafe(no_mangle)]
pub extern "C" fn aggen_build_unchecked(
    alloc: Global,
    grammar: &[u8],
    handle: &mut Handle,
    message: &mut [u8],
    refusal: &mut RefusalFields,
) -> u8
    ensures built { IsBuilt grammar.now handle.new.value result refusal.new }
    ensures message { HasMessage message.old message.new refusal.new.message_length }
{
    let built = build_handle(alloc, grammar, handle);
    write_built(built, message, refusal)
}

/// Copies the translation of a sentence to `out`. The handle's translator stays as it is.
///
/// Returns 0. Fails with status 1 if the handle has no translator, with 4 after S1 to S4 and P1 to
/// P3, with 6 after O1, and with 7 if memory is refused.
#[unsafe(no_mangle)]
pub extern "C" fn aggen_translate_unchecked(
    alloc: Global,
    handle: &mut Handle,
    sentence: &[u8],
    out: &mut [u8],
    length: &mut usize,
    message: &mut [u8],
    refusal: &mut RefusalFields,
) -> u8
    ensures kept { handle.new.value ≡ handle.old.value }
    ensures answer { Answers (λ g. IsTranslationOf g sentence.now)
        (λ g. IsTranslationRefusal g sentence.now)
        handle.old.value out.old out.new length.new result refusal.new }
    ensures message { HasMessage message.old message.new refusal.new.message_length }
{
    let answer = answer_by_handle(alloc, handle, Operation::Translate, sentence);
    write_answer(answer, out, length, message, refusal)
}

/// Copies the translation of the tree in a tree file of pass 0 to `out`. The handle's translator
/// stays as it is.
///
/// Returns 0. Fails with status 1 if the handle has no translator, with 5 after R1, P2 and P3 of
/// the file, with 6 after O1, and with 7 if memory is refused.
#[unsafe(no_mangle)]
pub extern "C" fn aggen_evaluate_unchecked(
    alloc: Global,
    handle: &mut Handle,
    file: &[u8],
    out: &mut [u8],
    length: &mut usize,
    message: &mut [u8],
    refusal: &mut RefusalFields,
) -> u8
    ensures kept { handle.new.value ≡ handle.old.value }
    ensures answer { Answers (λ g. IsEvaluationOf g file.now)
        (λ g. IsEvaluationRefusal g file.now)
        handle.old.value out.old out.new length.new result refusal.new }
    ensures message { HasMessage message.old message.new refusal.new.message_length }
{
    let answer = answer_by_handle(alloc, handle, Operation::Evaluate, file);
    write_answer(answer, out, length, message, refusal)
}

/// Copies the tree file of pass 0 of a sentence's tree to `out`. The handle's translator stays as
/// it is.
///
/// Returns 0. Fails with status 1 if the handle has no translator, with 4 after S1 to S4 and P1 to
/// P3, and with 7 if memory is refused.
#[unsafe(no_mangle)]
pub extern "C" fn aggen_parse_unchecked(
    alloc: Global,
    handle: &mut Handle,
    sentence: &[u8],
    out: &mut [u8],
    length: &mut usize,
    message: &mut [u8],
    refusal: &mut RefusalFields,
) -> u8
    ensures kept { handle.new.value ≡ handle.old.value }
    ensures answer { Answers (λ g. IsTreeFileOf g sentence.now)
        (λ g. IsTreeRefusal g sentence.now)
        handle.old.value out.old out.new length.new result refusal.new }
    ensures message { HasMessage message.old message.new refusal.new.message_length }
{
    let answer = answer_by_handle(alloc, handle, Operation::Parse, sentence);
    write_answer(answer, out, length, message, refusal)
}

/// Copies the listing of the passes of the handle's translator to `out`. The translator stays as it
/// is.
///
/// Returns 0. Fails with status 1 if the handle has no translator, and with 7 if memory is refused.
#[unsafe(no_mangle)]
pub extern "C" fn aggen_plan_unchecked(
    alloc: Global,
    handle: &mut Handle,
    out: &mut [u8],
    length: &mut usize,
    message: &mut [u8],
    refusal: &mut RefusalFields,
) -> u8
    ensures kept { handle.new.value ≡ handle.old.value }
    ensures answer { Answers IsPlanTextOf (λ _. IsNoMemory)
        handle.old.value out.old out.new length.new result refusal.new }
    ensures message { HasMessage message.old message.new refusal.new.message_length }
{
    let answer = answer_by_handle(alloc, handle, Operation::Plan, &[]);
    write_answer(answer, out, length, message, refusal)
}

/// Frees the translator of a handle, if it has one.
#[unsafe(no_mangle)]
pub extern "C" fn aggen_free_unchecked(alloc: Global, handle: &mut Handle)
    ensures { handle.new.value ≡ None }
{
    handle.clear(alloc);
}
