//! The calls of a translator with all files in memory, and their results as bytes.

ghost use Rattle.std.specs.Prelude.{◌≡◌, ◌≢◌, ◌⊎◌, IfErr, IfOk};
ghost use Rattle.aggen.specs.Results.{IsEvaluationOf, IsTranslationOf};
ghost use Rattle.aggen_c.specs.Results.{IsPlanTextOf, IsTreeFileOf};
ghost use Rattle.aggen_c.specs.Results.{IsEvaluationRefusal, IsNoMemory, IsTranslationRefusal};
ghost use Rattle.aggen_c.specs.Results.{IsTreeRefusal};

use ag_fault::Fault;
use aggen::Translator;
use agoutput::write_plan;
use std::alloc::Global;
use treefile::{MemDevice, SharedDevice};

/// Returns the translation of a sentence.
///
/// Fails with S1 to S4, P1 to P3 and O1, and with NoMemory.
pub fn translation(
    alloc: Global,
    translator: &Translator,
    sentence: &[u8],
) -> Result<Vec<u8>, Fault>
    ensures text { IfOk result (λ text. IsTranslationOf translator.now sentence.now text.items) }
    ensures refused { IfErr result (λ e. IsTranslationRefusal translator.now sentence.now e) }
{
    let mut a = SharedDevice::new(alloc);
    let mut b = SharedDevice::new(alloc);
    let mut text = Vec::new(alloc);
    match translator.translate(sentence, &mut a, &mut b, &mut text) {
        Ok(_) => Ok(text),
        Err(fault) => Err(memory_fault(fault)),
    }
}

/// Returns the translation of the tree in a tree file of pass 0.
///
/// Fails with R1, P2 and P3 of the file, with O1, and with NoMemory.
pub fn evaluation(alloc: Global, translator: &Translator, file: &[u8]) -> Result<Vec<u8>, Fault>
    ensures text { IfOk result (λ text. IsEvaluationOf translator.now file.now text.items) }
    ensures refused { IfErr result (λ e. IsEvaluationRefusal translator.now file.now e) }
{
    let mut tree = device_of(alloc, file)?;
    let mut a = SharedDevice::new(alloc);
    let mut b = SharedDevice::new(alloc);
    let mut text = Vec::new(alloc);
    match translator.evaluate_tree(&mut tree, &mut a, &mut b, &mut text) {
        Ok(_) => Ok(text),
        Err(fault) => Err(memory_fault(fault)),
    }
}

/// Returns the tree file of pass 0 of a sentence's tree.
///
/// Fails with S1 to S4 and P1 to P3, and with NoMemory.
pub fn tree_file(alloc: Global, translator: &Translator, sentence: &[u8]) -> Result<Vec<u8>, Fault>
    ensures file { IfOk result (λ file. IsTreeFileOf translator.now sentence.now file.items) }
    ensures refused { IfErr result (λ e. IsTreeRefusal translator.now sentence.now e) }
{
    let mut device = MemDevice::new(alloc);
    match translator.parse_tree(sentence, &mut device) {
        Ok(_) => {
            let file = copy_of(alloc, device.bytes())?;
            Ok(file)
        }
        Err(fault) => Err(memory_fault(fault)),
    }
}

/// Returns the listing of a translator's passes.
///
/// Fails with NoMemory.
pub fn plan_text(alloc: Global, translator: &Translator) -> Result<Vec<u8>, Fault>
    ensures text { IfOk result (λ text. IsPlanTextOf translator.now text.items) }
    ensures refused { IfErr result IsNoMemory }
{
    let mut text = Vec::new(alloc);
    match write_plan(alloc, &mut text, translator.grammar(), translator.plan()) {
        Ok(()) => Ok(text),
        // a write to a vector fails only if memory is refused
        Err(_) => Err(Fault::NoMemory),
    }
}

/// Returns a device that contains the bytes of a file. Fails with NoMemory if memory is refused.
pub fn device_of(alloc: Global, file: &[u8]) -> Result<MemDevice, Fault>
    ensures content { IfOk result (λ device. device ≡ file.now) }
    ensures refused { IfErr result IsNoMemory }
{
    let bytes = copy_of(alloc, file)?;
    Ok(MemDevice::from_bytes(bytes))
}

/// Returns a copy of bytes. Fails with NoMemory if memory is refused.
fn copy_of(alloc: Global, bytes: &[u8]) -> Result<Vec<u8>, Fault>
    ensures copy { IfOk result (λ copy. copy.items ≡ bytes.now) }
    ensures refused { IfErr result IsNoMemory }
{
    match Vec::from_slice(alloc, bytes) {
        Ok(copy) => Ok(copy),
        Err(_) => Err(Fault::NoMemory),
    }
}

/// Returns the fault of a call that worked in memory alone: NoMemory in place of `Fault::Device`
/// and `Fault::Write` (O2), and any other fault as it is. A write to a vector fails only if memory
/// is refused. A device in memory never returns D1. The code handles D1 all the same, so the clause
/// `device` needs no proof about devices.
fn memory_fault(fault: Fault) -> Fault
    ensures same { (result ≡ fault) ⊎ (result ≡ Fault.NoMemory) }
    ensures device { result ≢ Fault.Device }
    ensures write { result ≢ Fault.Write }
{
    match fault {
        Fault::Device | Fault::Write => Fault::NoMemory,
        other => other,
    }
}
