//! Laws of jobs. Each is the contract of a function with an empty body.

ghost use Rattle.ag_job.specs.Jobs.{OnePairOfParts};
ghost use Rattle.ag_job.specs.Worked.{CrAloneIsNone, CrAndLfEnd, LongerIsNone, NothingBefore};
ghost use Rattle.ag_job.specs.Worked.{SpacedIsNone, TheFirstCuts, TheLastEnds};

/// States that a job has at most one grammar and one sentence.
pub fn a_job_has_one_grammar_and_one_sentence()
    ensures { OnePairOfParts }
{}

/// Worked examples: four jobs and their parts, and three texts in which no line is exactly `%%`. In
/// the jobs, the line `%%` ends with CR and LF (`cr_and_lf`), is the last line, without an LF
/// (`last`), comes before a second such line (`first`), and is the first line (`empty`). In the
/// texts, the line with `%%` ends with a CR without an LF (`cr_alone`), begins with a space
/// (`spaced`), and has a third `%` (`longer`).
pub fn worked_jobs()
    ensures cr_and_lf { CrAndLfEnd }
    ensures last { TheLastEnds }
    ensures first { TheFirstCuts }
    ensures empty { NothingBefore }
    ensures cr_alone { CrAloneIsNone }
    ensures spaced { SpacedIsNone }
    ensures longer { LongerIsNone }
{}
