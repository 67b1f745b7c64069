//! Laws about the definitions of tree files. They hold of any version; some require that it is
//! usable (`IsUsable`). Each law is the contract of a function with an empty body.

ghost use Rattle.std.specs.Prelude.{◌≡◌, ◌≤◌, ◌<◌, ◌^◌, ◌++◌, ◌∷◌, ◌↔◌, ℕ, List, [], All};
ghost use Rattle.std.specs.Prelude.{Ok, Err, length, reverse, take, true};
ghost use Rattle.ag_value.specs.Well.{IsWell};
ghost use Rattle.ag_value.specs.declared.value.Value.{Value};
ghost use Rattle.treefile.specs.framing.Backward.{ReadsBack, pass_of};
ghost use Rattle.treefile.specs.framing.Ending.{IsBody, IsBodyBefore, IsBytes, IsUsable, body_before};
ghost use Rattle.treefile.specs.framing.Ending.{greatest_body, header_bytes, is_tree_file, last_body_of};
ghost use Rattle.treefile.specs.framing.Ending.{least_body};
ghost use Rattle.treefile.specs.records.TreeFile.{Version, body_of, file, frame};
ghost use Rattle.treefile.specs.declared.body.Kind.{Kind};
ghost use Rattle.treefile.specs.declared.reading.FrameFault.TheVariants.{Damaged};

/// States that a content begins as a tree file of a version exactly if it has room for a header and
/// begins with the magic of the version.
pub fn headers_are_distinguished()
    ensures { (version : Version) (content : List ℕ) →
        (is_tree_file version content ≡ true)
        ↔ ((header_bytes ≤ length content)
        × (take (length version.magic) content ≡ version.magic)) }
{}

/// States when a body is read at an offset. `read`: in a usable version, the body whose frame ends
/// at the offset is read. `occurs` and `damaged` are about an offset within a content that has only
/// bytes, in any version: a body that is read there has its frame there, and the offset is reported
/// as damaged if no frame ends there.
pub fn frames_are_read()
    ensures read { (version : Version) (content body : List ℕ) (at : ℕ) → IsUsable version →
        IsBodyBefore version content at body → body_before version content at ≡ Ok body }
    ensures occurs { (version : Version) (content body : List ℕ) (at : ℕ) → IsBytes content →
        at ≤ length content → body_before version content at ≡ Ok body →
        IsBodyBefore version content at body }
    ensures damaged { (version : Version) (content : List ℕ) (at : ℕ) → IsBytes content →
        at ≤ length content →
        ((body : List ℕ) → IsBodyBefore version content at body → ⊥) →
        body_before version content at ≡ Err (Damaged at) }
{}

/// States that a file with one more body has one more frame at its end (`grows`), and which body is
/// read as the last one. `last`: in a usable version it is the body that was appended last, if its
/// length is within the limits of the version. `none`: in a usable version a header alone has no
/// last body; reading it gives B2 Damaged at offset 6. `damaged`: in any version, if reading the
/// last body of a content gives B2 Damaged, the offset is the end of the content.
pub fn last_is_read()
    ensures grows { (version : Version) (pass : ℕ) (bodies : List (List ℕ)) (body : List ℕ) →
        file version pass (bodies ++ body ∷ []) ≡ file version pass bodies ++ frame body }
    ensures last { (version : Version) (pass : ℕ) (bodies : List (List ℕ)) (body : List ℕ) →
        IsUsable version → least_body ≤ length body → length body ≤ greatest_body version →
        last_body_of version (file version pass (bodies ++ body ∷ [])) ≡ Ok body }
    ensures none { (version : Version) (pass : ℕ) → IsUsable version →
        last_body_of version (file version pass []) ≡ Err (Damaged 6) }
    ensures damaged { (version : Version) (content : List ℕ) (at : ℕ) →
        last_body_of version content ≡ Err (Damaged at) → at ≡ length content }
{}

/// States three facts of a usable version. The file of a pass below 2^16 begins as a tree file of
/// that pass. A file of bodies whose lengths are within the limits of the version is read back from
/// its end to its header as these bodies, the last one first. A content that has only bytes, begins
/// as a tree file and is read back as some bodies is the file of these.
pub fn files_are_read_back()
    ensures begins { (version : Version) (pass : ℕ) (bodies : List (List ℕ)) → IsUsable version →
        pass < 2 ^ 16 → (is_tree_file version (file version pass bodies) ≡ true)
        × (pass_of (file version pass bodies) ≡ pass) }
    ensures bodies { (version : Version) (pass : ℕ) (bodies : List (List ℕ)) → IsUsable version →
        All (IsBody version) bodies → ReadsBack version (file version pass bodies)
        (length (file version pass bodies)) (reverse bodies) }
    ensures only { (version : Version) (content : List ℕ) (bodies : List (List ℕ)) →
        IsUsable version → IsBytes content → is_tree_file version content ≡ true →
        ReadsBack version content (length content) bodies →
        content ≡ file version (pass_of content) (reverse bodies) }
{}

/// States that the body of a record of well values, at most as many as the version allows, has a
/// length within the limits of the version.
pub fn records_fit()
    ensures least { (kind : Kind) (number : ℕ) (values : List Value) →
        least_body ≤ length (body_of kind number values) }
    ensures greatest { (version : Version) (kind : Kind) (number : ℕ) (values : List Value) →
        length values ≤ version.max_values → All IsWell values →
        length (body_of kind number values) ≤ greatest_body version }
{}
