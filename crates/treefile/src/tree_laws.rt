//! Laws about the definitions of trees of bodies and of their files. Each is the contract of a
//! function with an empty body. `binary` is the grammar of binary fractions in `specs/Worked.antt`,
//! with the symbols N, Q, L, T and B. Two grammars are those of `Sample.antt` of `ag_grammar`:
//! `token_sample` (`examples/words.ag`), with the sentence `iffy if`, and `sample`
//! (`examples/swapped-attributes.ag` without its `text(..)`), with the sentence `x x`.

ghost use Rattle.std.specs.Prelude.{◌≡◌, ◌≤◌, ◌++◌, ◌∷◌, ℕ, List, [], Option, None, All, Ok, length, pos};
ghost use Rattle.std.specs.Prelude.{reverse};
ghost use Rattle.ag_value.specs.declared.value.Value.{Num, Text};
ghost use Rattle.ag_grammar.specs.declared.direction.Direction.{Direction};
ghost use Rattle.ag_grammar.specs.declared.direction.Direction.TheVariants.{RightToLeft};
ghost use Rattle.ag_grammar.specs.declared.grammar.Item.TheVariants as item;
ghost use Rattle.ag_grammar.specs.declared.grammar.Terminal.TheVariants.{Class};
ghost use Rattle.ag_grammar.specs.grammars.AttributeGrammar.{Grammar};
ghost use Rattle.ag_grammar.specs.grammars.Passes.{Passes, direction_of, other};
ghost use Rattle.ag_grammar.specs.grammars.Sample.{iffy, sample, sample_passes, token_sample};
ghost use Rattle.ag_grammar.specs.grammars.Sample.{token_tree, token_values};
ghost use Rattle.ag_grammar.specs.grammars.Solution.{Same, Valuation};
ghost use Rattle.ag_grammar.specs.grammars.Tree.{IsTreeOf, Tree, max_depth, max_nodes};
ghost use Rattle.treefile.specs.framing.ExpectedRecords.{AreThere, Expects, HasNoTree, HasNoTreeWithin};
ghost use Rattle.treefile.specs.framing.ExpectedRecords.{IsNoRecord, ReadSoFar, IsRecordOf, pending_root};
ghost use Rattle.treefile.specs.framing.Backward.{ReadsBack};
ghost use Rattle.treefile.specs.framing.Ending.{IsBody, IsUsable, last_body_of};
ghost use Rattle.treefile.specs.records.FirstFile.{IsFirstFile, first_file};
ghost use Rattle.treefile.specs.Laws.{AllPending, ExpectedAreThere, BytesAreLeft, FitsAccepted};
ghost use Rattle.treefile.specs.Laws.{RunContinues, ListedRecord, NextPending, NoFileHasNoTree, OneNode};
ghost use Rattle.treefile.specs.Laws.{OneReading, OneRecord, OneTreeAtEnd, OneTreeBefore};
ghost use Rattle.treefile.specs.Laws.{RefusalGoesBack, RefusalWithinGoesBack, RootIsLast, SameFile};
ghost use Rattle.treefile.specs.Laws.{RunBegins, ValueIsMissing, ValuesAreWhole, ReadingBegins};
ghost use Rattle.treefile.specs.Laws.{ReadingBreaks, ReadingEnds, ReadingContinues, ReadingIsTooLong};
ghost use Rattle.treefile.specs.records.Listed.{AreSpelled, BeginsNoValue, HasReadValues, IsListedRecord};
ghost use Rattle.treefile.specs.records.OneTree.{IsNumbered, IsRecorded};
ghost use Rattle.treefile.specs.records.Orders.{BodyTree, MatchesArity, postfix, prefix};
ghost use Rattle.treefile.specs.records.Records.{FitsVersion, IsFileOfTree, bodies_of, file_of_tree};
ghost use Rattle.treefile.specs.Runs.{RunsPass, RunsPasses};
ghost use Rattle.treefile.specs.records.TreeFile.{Version, file, header, version_one, version_two};
ghost use Rattle.treefile.specs.Worked.{binary, binary_passes, bodies_of_one, file_of_iffy};
ghost use Rattle.treefile.specs.Worked.{file_of_iffy_in_two, file_of_x_x, iffy_passes, pass_0_of_one};
ghost use Rattle.treefile.specs.Worked.{pass_1_of_one, pass_1_of_one_in_two, pass_2_of_one};
ghost use Rattle.treefile.specs.Worked.{pass_2_of_one_in_two, production_of, record_of_iffy, record_of_n};
ghost use Rattle.treefile.specs.Worked.{record_of_t, spelled_number, tree_of_one, values_of_one};

/// States that the reverse of the postfix list of a direction is the prefix list of the other
/// direction.
pub fn reversed_postfix_is_prefix()
    ensures { (direction : Direction) (tree : BodyTree) →
        reverse (postfix direction tree) ≡ prefix (other direction) tree }
{}

/// States that if each body determines the number of children of its node, a list begins with the
/// prefix list of at most one tree, and ends with the postfix list of at most one. So no prefix
/// list is a proper prefix of another, and a list is that of at most one tree.
pub fn lists_determine_trees()
    ensures begins { (arity : List ℕ → Option ℕ) (direction : Direction) (tree another : BodyTree)
        (rest others : List (List ℕ)) → MatchesArity arity tree → MatchesArity arity another →
        prefix direction tree ++ rest ≡ prefix direction another ++ others →
        (tree ≡ another) × (rest ≡ others) }
    ensures ends { (arity : List ℕ → Option ℕ) (direction : Direction) (tree another : BodyTree)
        (leading others : List (List ℕ)) → MatchesArity arity tree → MatchesArity arity another →
        leading ++ postfix direction tree ≡ others ++ postfix direction another →
        (tree ≡ another) × (leading ≡ others) }
{}

/// States that the length of each record of a tree's file is within the limits of the version. In a
/// usable version the file is read back as the tree's prefix list in the other direction: each node
/// before its children.
pub fn trees_are_read_back()
    ensures bodies { (version : Version) (grammar : Grammar) (passes : Passes) (pass : ℕ)
        (tree : Tree) (values : Valuation) (content : List ℕ) →
        FitsVersion version grammar passes → IsTreeOf grammar tree →
        IsFileOfTree version grammar passes pass tree values content → All (IsBody version)
        (postfix (direction_of pass) (bodies_of version grammar passes pass tree values)) }
    ensures back { (version : Version) (grammar : Grammar) (passes : Passes) (pass : ℕ)
        (tree : Tree) (values : Valuation) (content : List ℕ) → IsUsable version →
        FitsVersion version grammar passes → IsTreeOf grammar tree →
        IsFileOfTree version grammar passes pass tree values content →
        ReadsBack version content (length content)
        (prefix (other (direction_of pass)) (bodies_of version grammar passes pass tree values)) }
{}

/// Worked examples, byte for byte: the files of `1` in the grammar of binary fractions (of passes 0
/// to 2 in version 1, of passes 1 and 2 in version 2), and the file of pass 0 of `iffy if` in
/// `token_sample`, in both versions. In pass 0 the only values are the texts of tokens. In
/// version 2 the record of a node has copies too.
pub fn worked_files()
    ensures first { (values : Valuation) →
        file_of_tree version_one binary binary_passes 0 tree_of_one values ≡ pass_0_of_one }
    ensures second { file_of_tree version_one binary binary_passes 1 tree_of_one values_of_one
        ≡ pass_1_of_one }
    ensures third { file_of_tree version_one binary binary_passes 2 tree_of_one values_of_one
        ≡ pass_2_of_one }
    ensures token { (values : Valuation) →
        file_of_tree version_one token_sample iffy_passes 0 token_tree values ≡ file_of_iffy }
    ensures copied_second { file_of_tree version_two binary binary_passes 1 tree_of_one
        values_of_one ≡ pass_1_of_one_in_two }
    ensures copied_third { file_of_tree version_two binary binary_passes 2 tree_of_one
        values_of_one ≡ pass_2_of_one_in_two }
    ensures copied_token { (values : Valuation) →
        file_of_tree version_two token_sample iffy_passes 0 token_tree values ≡ file_of_iffy_in_two }
{}

/// States that a record determines its node's production and values (`node`). An item is a member
/// of a right side: a symbol, a class or a literal. `leading`: a list begins with the records of at
/// most one tree of an item, and of one valuation (the values of the tree's nodes) up to the pass,
/// each node before its children. `end`: a list ends with the records of at most one tree of an
/// item, and of one valuation up to the pass, each node after its children.
pub fn records_determine_trees()
    ensures node { OneNode }
    ensures leading { OneTreeBefore }
    ensures end { OneTreeAtEnd }
{}

/// States that a content is the file of a pass of at most one tree of the grammar, and of one
/// valuation of it (the values of its nodes) up to the pass. Values that are the same up to the
/// pass have the same file. Accepted grammars with a legal assignment meet the conditions on
/// grammar and version (`IsNumbered`, `FitsVersion`) in versions 1 and 2.
pub fn files_have_one_tree()
    ensures reading { OneReading }
    ensures same { SameFile }
    ensures one { FitsAccepted version_one }
    ensures two { FitsAccepted version_two }
{}

/// States that passes over files run one after the other. The empty sequence of passes leads from
/// each file to itself. Each further pass reads the file that the previous pass left. If that file
/// is the file of no tree of the grammar, the first file is the file of no tree either. The same
/// holds of trees within limits of depth and number of nodes. So a fault that a later pass finds is
/// a fault of the first file.
pub fn passes_follow_files()
    ensures begins { RunBegins }
    ensures goes { RunContinues }
    ensures refused { RefusalGoesBack }
    ensures within { RefusalWithinGoesBack }
{}

/// States what is expected when a content is read from its end to its header. The root is expected
/// first. A record determines the children of its node. After the record these are expected, one by
/// one in the direction of the next pass. Bodies are as expected exactly if they are the records of
/// trees of the expected items. If nothing more is expected and the content is the file of a tree,
/// all of the content was read.
pub fn reading_is_followed()
    ensures one { OneRecord }
    ensures begins { ReadingBegins }
    ensures goes { ReadingContinues }
    ensures next { NextPending }
    ensures all { AllPending }
    ensures there { ExpectedAreThere }
    ensures ends { ReadingEnds }
{}

/// States that a content is the file of no tree if it does not begin as a tree file of the pass, or
/// if what is read at an offset contradicts the expected items (`Breaks`). If a node is expected at
/// too deep a level, or one record too many, the content is the file of no tree within the limits
/// of levels and nodes.
pub fn refusals_are_true()
    ensures breaks { ReadingBreaks }
    ensures long { ReadingIsTooLong }
    ensures header { NoFileHasNoTree }
{}

/// States that the values of a record follow one another: a body is a record of a symbol exactly if
/// it has a production of that symbol and the right number of well values, and it is none if a
/// value is missing or bytes are left over.
pub fn records_are_read()
    ensures listed { ListedRecord }
    ensures missing { ValueIsMissing }
    ensures left { BytesAreLeft }
{}

/// States that the last record of a tree's file is the root's. In the file of the last pass, a
/// record has the value of each attribute of its symbol, at the index of the attribute's number.
pub fn root_is_last()
    ensures last { RootIsLast }
    ensures values { ValuesAreWhole }
{}

/// Worked examples: a record can number the productions of the grammar of binary fractions. The
/// tree of `1` with its values can be recorded. The tree of `iffy if` can be recorded too, but not
/// with an empty text for the token `iffy`. The file of pass 2 of `1` is the file of no other tree,
/// and its last record is that of N. Pass 1 runs from the file of pass 0 of `x x` in `sample` to
/// the file of pass 1, both as one pass and as a sequence of passes. T's record in pass 1 has the
/// value 65536, which is spelled in nine bytes. A byte 9 after them begins no value, so these ten
/// bytes do not spell two values.
pub fn worked_records()
    ensures numbered { IsNumbered binary }
    ensures recorded { IsRecorded binary binary_passes 2 (item.Symbol 0) tree_of_one values_of_one }
    ensures token { IsRecorded token_sample iffy_passes 0 (item.Symbol 0) token_tree
        (token_values iffy) }
    ensures unrecorded { IsRecorded token_sample iffy_passes 0 (item.Symbol 0) token_tree
        (λ path attribute. Text []) → ⊥ }
    ensures alone { (tree : Tree) (values : Valuation) → IsTreeOf binary tree →
        IsFileOfTree version_one binary binary_passes 2 tree values pass_2_of_one →
        (tree_of_one ≡ tree)
        × Same (λ pass. pass ≤ 2) binary binary_passes tree_of_one values_of_one values }
    ensures root { last_body_of version_one pass_2_of_one ≡ Ok record_of_n }
    ensures pass { RunsPass version_one sample sample_passes 0 (file_of_x_x 0) (file_of_x_x 1) }
    ensures run { RunsPasses version_one sample sample_passes 0 1 (file_of_x_x 0) (file_of_x_x 1)
        (file_of_x_x 0) }
    ensures listed { IsListedRecord version_one binary binary_passes 1 3 record_of_t 4 (production_of 3 [])
        (Num (pos 65536) ∷ []) }
    ensures spelled { AreSpelled 1 spelled_number }
    ensures read { HasReadValues (spelled_number ++ 9 ∷ []) (Num (pos 65536) ∷ []) (9 ∷ []) }
    ensures nothing { BeginsNoValue (9 ∷ []) }
    ensures missing { AreSpelled 2 (spelled_number ++ 9 ∷ []) → ⊥ }
{}

/// Worked examples: the nodes of T's record in pass 1 and of the record of the token `iffy` have no
/// children, and Q's record is not a record of N. The next examples read the file of pass 0 of `1`
/// in version 1 from its end, with children from right to left. N is expected first, and after its
/// record Q and then L, one level deeper. The bodies are those of a tree of at most three levels,
/// and of no tree of at most two. The file is that of no tree of at most two levels, and of no tree
/// of at most three nodes. No tree has a header alone as its file of pass 0, or a file with only
/// Q's record. No tree has the file of pass 0 of `1` as its file of pass 1.
pub fn worked_reading()
    ensures one { IsRecordOf version_one binary binary_passes 1 (item.Symbol 3, None)
        record_of_t [] }
    ensures token { IsRecordOf version_one token_sample iffy_passes 0
        (item.Terminal (Class 0), None) record_of_iffy [] }
    ensures none { IsNoRecord version_one binary binary_passes 0 (item.Symbol 0, None)
        (0 ∷ 0 ∷ 1 ∷ []) }
    ensures expected { Expects version_one binary binary_passes 0 RightToLeft 3
        (pending_root binary) bodies_of_one }
    ensures there { AreThere version_one binary binary_passes 0 RightToLeft 3
        (pending_root binary) bodies_of_one }
    ensures deep { Expects version_one binary binary_passes 0 RightToLeft 2 (pending_root binary)
        bodies_of_one → ⊥ }
    ensures begins { ReadSoFar version_one binary binary_passes 0 pass_0_of_one 41 0
        (pending_root binary) }
    ensures goes { ReadSoFar version_one binary binary_passes 0 pass_0_of_one 34 1
        ((2, (item.Symbol 1, None)) ∷ (2, (item.Symbol 2, None)) ∷ []) }
    ensures levels { HasNoTreeWithin 2 max_nodes version_one binary binary_passes 0
        pass_0_of_one }
    ensures nodes { HasNoTreeWithin max_depth 3 version_one binary binary_passes 0
        pass_0_of_one }
    ensures header { HasNoTree version_one binary binary_passes 0 (header version_one 0) }
    ensures wrong { HasNoTree version_one binary binary_passes 0
        (file version_one 0 ((0 ∷ 0 ∷ 1 ∷ []) ∷ [])) }
    ensures other_pass { HasNoTree version_one binary binary_passes 1 pass_0_of_one }
{}

/// States that a tree of a grammar has exactly one file of pass 0 in each version. The file is the
/// same for all assignments of passes in which each pass is 1 or a later one.
pub fn first_files_are_one()
    ensures there { (version : Version) (grammar : Grammar) (tree : Tree) →
        IsTreeOf grammar tree → IsFirstFile version grammar tree (first_file version tree) }
    ensures one { (version : Version) (grammar : Grammar) (tree : Tree)
        (content another : List ℕ) → IsFirstFile version grammar tree content →
        IsFirstFile version grammar tree another → content ≡ another }
{}
