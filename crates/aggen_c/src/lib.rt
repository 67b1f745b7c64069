//! The calls of the C library. A handle owns the translator of a grammar's text. Four calls on it
//! copy their result to a buffer of the caller: the translation of a sentence or of the tree in a
//! tree file, the tree file of a sentence, or the listing of the passes.
//!
//! The functions of `exports` take for granted that no pointer is null, that no two arguments of a
//! call overlap in memory, and that no length is above 2^63 - 1. C code calls the functions of
//! `include/aggen.h`, which `bindings/c/aggen.c` defines: they check this, and then call these.
#![tactic(auto)]

mod answer;
mod buffers;
mod building;
mod exports;
mod handle;
mod memory;
mod number;
mod operation;
mod raw_box;
mod refusal;
