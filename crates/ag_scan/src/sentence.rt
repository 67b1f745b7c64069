//! Sentences that are known to consist of tokens and separators.

ghost use Rattle.std.specs.Prelude.{◌≡◌, ◌≤◌, length, IfErr, IfOk, OnOk};
ghost use Rattle.ag_grammar.specs.grammars.Accepted.{max_literals};
ghost use Rattle.ag_scan.specs.Cutting.{tokens_in};
ghost use Rattle.ag_scan.specs.TokenReader.{reader_at};
ghost use Rattle.ag_scan.specs.Tokens.{AreTokensOf, FitAll, IsRefused, max_sentence_bytes};
ghost use Rattle.ag_scan.specs.Words.{IsClean, vocabulary, vocabulary_of};

use crate::fault::ScanFault;
use crate::tokens::Tokens;
use crate::vocabulary::Vocabulary;
use ag_grammar::Grammar;
use ag_grammar::limits::MAX_TEXT_BYTES;
use ag_tokens::skip_separators;
use ag_value::Text;
use std::alloc::Global;
use std::marker::Model;

/// A sentence that is known to consist of separators and tokens with texts of at most 65,535 bytes.
/// It stores the text of the sentence, the classes in use, and a table of the literals. It doesn't
/// store the tokens: the reader that `tokens` returns computes them again, one at a time. In
/// contracts a sentence is the list of its tokens.
#[derive(Drop)]
pub struct Sentence<'s> {
    vocabulary: Vocabulary<'s>,
    text: &'s str,
}

impl<'s> Model for Sentence<'s> {
    ghost use Rattle.std.specs.Prelude.{List};
    ghost use Rattle.ag_scan.specs.TokenReader.{IsScannable};
    ghost use Rattle.ag_scan.specs.Cutting.{tokens_in};
    ghost use Rattle.ag_scan.specs.Tokens.{Token};

    ghost Value = { List Token };

    ghost view = { λ s. tokens_in s.vocabulary s.text.now };

    ghost invariant = { λ s. IsScannable s.vocabulary s.text.now };
}

/// Checks that a text of at most 1,048,576 bytes consists of tokens and separators, and that the
/// text of each token has at most 65,535 bytes. At the first offset where this is not so, fails
/// with S2 if no word begins there, and with S3 if a token with a longer text begins there.
#[inline(never)]
fn check_tokens(vocabulary: &Vocabulary<'_>, text: &str) -> Result<(), ScanFault>
    requires short { length text.now ≤ max_sentence_bytes }
    requires clean { IsClean vocabulary.now }
    ensures tokens { OnOk result (AreTokensOf vocabulary.now text.now
        (tokens_in vocabulary.now text.now)) }
    ensures fit { OnOk result (FitAll vocabulary.now (tokens_in vocabulary.now text.now)) }
    ensures refused { IfErr result (λ e. IsRefused vocabulary.now text.now e) }
{
    let mut rest = skip_separators(text);
    while !rest.is_empty() {
        let at = text.len() - rest.len();
        let following = match vocabulary.after_token(rest, at) {
            Ok(following) => following,
            Err(fault) => return Err(fault),
        };
        rest = skip_separators(following);
    }
    Ok(())
}

/// Scans a sentence over the texts of literals and the classes in use. Fails as `scan` does.
fn scan_over<'s>(
    alloc: Global,
    literals: &'s [Text],
    classes: &'s [u16],
    sentence: &'s [u8],
) -> Result<Sentence<'s>, ScanFault>
    requires many { length literals.now ≤ max_literals }
    requires clean { IsClean (vocabulary literals.now classes.now) }
    ensures tokens { IfOk result (λ ts.
        AreTokensOf (vocabulary literals.now classes.now) sentence.now ts) }
    ensures fit { IfOk result (λ ts. FitAll (vocabulary literals.now classes.now) ts) }
    ensures refused { IfErr result (λ e.
        IsRefused (vocabulary literals.now classes.now) sentence.now e) }
{
    if sentence.len() > MAX_TEXT_BYTES {
        return Err(ScanFault::TooLong);
    }
    let text = match str::from_utf8(sentence) {
        Ok(text) => text,
        Err(error) => return Err(ScanFault::BadUtf8(error.valid_up_to())),
    };
    let vocabulary = Vocabulary::new(alloc, literals, classes)?;
    check_tokens(&vocabulary, text)?;
    Ok(Sentence::new(vocabulary, text))
}

/// Scans a sentence: checks that it consists of separators and tokens, by longest match over the
/// literals and the classes of the grammar.
///
/// Fails with the first of these faults:
///
/// - S4: the sentence has more than 1,048,576 bytes;
/// - S1: it is not UTF-8;
/// - NoMemory: the table of the literals cannot be allocated;
/// - S2 or S3, for the first such offset. S2: the character there is not a separator and begins no
///   word. S3: a token begins there whose text has more than 65,535 bytes.
///
/// Takes no memory for the tokens, which are computed again when they are read.
pub fn scan<'s>(
    alloc: Global,
    grammar: &'s Grammar,
    sentence: &'s [u8],
) -> Result<Sentence<'s>, ScanFault>
    ensures tokens { IfOk result (λ ts. AreTokensOf (vocabulary_of grammar.now) sentence.now ts) }
    ensures fit { IfOk result (λ ts. FitAll (vocabulary_of grammar.now) ts) }
    ensures refused { IfErr result (λ e. IsRefused (vocabulary_of grammar.now) sentence.now e) }
{
    scan_over(alloc, grammar.literals(), grammar.classes(), sentence)
}

impl<'s> Sentence<'s> {
    /// Makes the sentence of a text that consists of tokens and separators.
    fn new(vocabulary: Vocabulary<'s>, text: &'s str) -> Sentence<'s>
        requires clean { IsClean vocabulary }
        requires tokens { AreTokensOf vocabulary text.now (tokens_in vocabulary text.now) }
        ensures { result ≡ tokens_in vocabulary.entry text.now }
    {
        Sentence { vocabulary, text }
    }

    /// Returns a reader of the tokens, positioned at the first one.
    pub fn tokens(&self) -> Tokens<'_>
        ensures { result ≡ reader_at self.now 0 }
    {
        Tokens::new(&self.vocabulary, self.text)
    }
}
