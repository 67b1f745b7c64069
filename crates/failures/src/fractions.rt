//! Binary fractions: their grammar, and a sentence with its tree. The functions build a translator,
//! translate and evaluate over given devices, and parse over a device of which a given call fails.

use crate::endings::Ending;
use aggen::Translator;
use rows::words::{Mistake, number, printed};
use std::alloc::Global;
use treefile::{Device, FuseDevice, MemDevice};

/// The grammar of binary fractions.
pub const FRACTIONS: &str = "start N;
symbol N syn out;
symbol Q syn v;
symbol L syn p, v inh w;
symbol T syn p, v inh w;
symbol B syn bit;
N = L Q { $0.out = text($1.v + $2.v); $1.w = $1.p; }
Q = { $0.v = 0; }
Q = \".\" L { $0.v = $1.v; $1.w = 32768; }
L = B T { $0.p = $2.p; $0.v = $1.bit * $0.w + $2.v; $2.w = $0.w div 2; }
T = { $0.p = 65536; $0.v = 0; }
T = B T { $0.p = $2.p * 2; $0.v = $1.bit * $0.w + $2.v; $2.w = $0.w div 2; }
B = \"0\" { $0.bit = 0; }
B = \"1\" { $0.bit = 1; }
";

/// A sentence of the grammar `FRACTIONS`: 13.25 in binary. Its translation is 868352, the value in
/// units of 1/65536.
pub const FRACTION_SENTENCE: &[u8] = b"1101.01";

/// The file of the tree of `FRACTION_SENTENCE` before the first pass: the header `AGT2` with pass
/// 0, and after it the records of nodes of the productions 7, 7, 6, 7, 4, 5, 5, 5, 3, 6, 7, 4, 5,
/// 3, 2 and 0, which are numbered from 0. Each record has a byte 0 for a node and the production's
/// number in two bytes, and is followed by its length, 3, in four bytes.
pub const FRACTION_TREE: &[u8] = b"AGT2\0\0\
    \0\0\x07\0\0\0\x03\0\0\x07\0\0\0\x03\0\0\x06\0\0\0\x03\0\0\x07\0\0\0\x03\
    \0\0\x04\0\0\0\x03\0\0\x05\0\0\0\x03\0\0\x05\0\0\0\x03\0\0\x05\0\0\0\x03\
    \0\0\x03\0\0\0\x03\0\0\x06\0\0\0\x03\0\0\x07\0\0\0\x03\0\0\x04\0\0\0\x03\
    \0\0\x05\0\0\0\x03\0\0\x03\0\0\0\x03\0\0\x02\0\0\0\x03\0\0\0\0\0\0\x03";

/// Returns the file of the same tree in version 1. The file has no records of tokens, so only the
/// version's number differs: the fourth byte is `1` in place of `2`.
pub fn old_tree(alloc: Global) -> Result<Vec<u8>, Mistake> {
    let mut bytes = FRACTION_TREE.to_vec(alloc)?;
    if let Some(version) = bytes.get_mut(3) {
        *version = b'1';
    }
    Ok(bytes)
}

/// Translates a sentence over two devices. Returns how the call ends, and what was written.
pub fn translated<D: Device>(
    alloc: Global,
    translator: &Translator,
    sentence: &[u8],
    a: &mut D,
    b: &mut D,
) -> Result<String, Mistake> {
    let mut out = Vec::new(alloc);
    let ending = Ending::of(translator.translate(sentence, a, b, &mut out));
    Ok(ending.answer(alloc, out.as_slice())?)
}

/// Evaluates the tree on the device `tree`, over the devices `a` and `b`. Returns how the call
/// ends, and what was written.
pub fn evaluated<D: Device>(
    alloc: Global,
    translator: &Translator,
    tree: &mut D,
    a: &mut D,
    b: &mut D,
) -> Result<String, Mistake> {
    let mut out = Vec::new(alloc);
    let ending = Ending::of(translator.evaluate_tree(tree, a, b, &mut out));
    Ok(ending.answer(alloc, out.as_slice())?)
}

/// Parses `1` over a device that fails at its call number `call`, counted from 1, and returns how
/// `parse_tree` ends.
fn parsed_without(alloc: Global, translator: &Translator, call: u64) -> Ending {
    let mut device = FuseDevice::new(MemDevice::new(alloc), call);
    Ending::of(translator.parse_tree(b"1", &mut device))
}

/// Builds a translator, parses `1` over a device that fails at the row's call, and returns how
/// `parse_tree` ends. Fails with `Misspelt` if the row is not a number.
pub fn parse_without_answer(alloc: Global, call: &str) -> Result<String, Mistake> {
    let call = number(call)? as u64;
    let translator = translator(alloc, FRACTIONS)?;
    printed(alloc, &parsed_without(alloc, &translator, call))
}

/// Returns the translator of a grammar's text. Fails with `Unfit` if no translator can be built
/// from it.
pub fn translator(alloc: Global, text: &str) -> Result<Translator, Mistake> {
    match Translator::build(alloc, text.as_bytes()) {
        Ok(translator) => Ok(translator),
        Err(_) => Err(Mistake::Unfit),
    }
}
