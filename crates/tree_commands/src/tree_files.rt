//! The commands that write tree files: `parse` and `upgrade`.

ghost use Rattle.std.specs.Prelude.{◌≡◌, ◌∷◌, IfErr, IfOk, None, OnOk, true};
ghost use Rattle.agoutput.specs.Lines.{nodes_line as nodes_text};
ghost use Rattle.aggen_files.specs.Trees.{ParsesSentence, UpgradesFile};
ghost use Rattle.noted_file.specs.Calls.{replay};
ghost use Rattle.program_io.specs.Sessions.{after};
ghost use Rattle.run_record.specs.Events.{open_event, write_event};
ghost use Rattle.tree_commands.specs.TreeFiles.{ConvertsFile, HasConverted, HasParsed, IsRefusedConversion};
ghost use Rattle.tree_commands.specs.TreeFiles.{IsRefusedParse, IsUnconverted, IsUnconvertedTree};
ghost use Rattle.tree_commands.specs.TreeFiles.{IsUnparsed, IsUnparsedTree, IsUnprinted, ParsesFile};
ghost use Rattle.treefile.specs.devices.Device.{LeavesContent};
ghost use Rattle.treefile.specs.devices.Files.{content_of, is_honest_of};

use aggen::{Fault, Translator};
use aggen_files::{parse_to_file, upgrade_file};
use agoutput::nodes_line;
use command_line::{ParsePaths, UpgradePaths};
use messages::{ConvertedPaths, FaultReport, Source};
use program_io::{CheckedInput, INPUT_IS_WRITTEN, Session, report_of_sentence};
use std::rt::Files;
use treefile::FileDevice;

/// Writes the tree file of a sentence, and prints the number of nodes. Reads the grammar, then the
/// sentence, and then creates the tree file.
///
/// Fails before the grammar is read if the tree file is the grammar, the sentence or standard
/// output (`usage`), or a folder or a pipe (F1). Fails if an input can't be read, if the grammar or
/// the sentence is refused, if the tree file can't be created or written, if the output fails, and
/// if memory is refused.
pub fn parse_file<R: Files + Input + Print>(
    session: &mut Session<'_, R>,
    paths: &ParsePaths<'_>,
) -> Result<(), FaultReport>
    ensures parsed { OnOk result (ParsesFile paths.now session.old session.new) }
    ensures refused { IfErr result (λ report.
        IsRefusedParse paths.now session.old session.new report.fault) }
{
    let inputs = [
        CheckedInput(paths.grammar, INPUT_IS_WRITTEN),
        CheckedInput(paths.sentence, INPUT_IS_WRITTEN),
    ];
    session.check_new_tree(paths.tree, &inputs)?;
    let translator = session.read_translator(paths.grammar)?;
    parse_with(session, &translator, paths)
}

/// Reads the sentence, writes its tree file with a translator, and prints the number of nodes.
/// Fails as `parse_file` does after it has read the grammar. If the tree file can't be opened or
/// created (F1), or written (D1), the report names it.
fn parse_with<R: Files + Input + Print>(
    session: &mut Session<'_, R>,
    translator: &Translator,
    paths: &ParsePaths<'_>,
) -> Result<(), FaultReport>
    ensures parsed { OnOk result
        (HasParsed translator.now paths.now session.old.events session.new) }
    ensures refused { IfErr result (λ report.
        IsUnparsed translator.now paths.now session.old.events session.new report.fault) }
{
    let bytes = session.read(paths.sentence)?;
    let sentence = Source::new(paths.sentence.name(), bytes.as_slice());
    match write_tree(session, translator, sentence.bytes, paths.tree) {
        Ok(count) => print_nodes(session, count),
        Err(fault @ (Fault::File | Fault::Device)) => Err(FaultReport::of_file(
            session.alloc,
            fault,
            paths.tree,
        )),
        Err(fault) => Err(report_of_sentence(session.alloc, fault, translator, sentence)),
    }
}

/// Opens the file at `path`, or creates it, and writes the tree file of a sentence there. Returns
/// the number of nodes. Fails with F1 if the file can't be opened or created, and as
/// `parse_to_file` does.
fn write_tree<R: Files>(
    session: &mut Session<'_, R>,
    translator: &Translator,
    sentence: &[u8],
    path: &str,
) -> Result<u32, Fault>
    ensures opened { OnOk result (session.new.events ≡ open_event path.now ∷ session.old.events) }
    ensures parses { IfOk result (λ count. ParsesSentence translator.now sentence.now
        (replay session.new.tree).is_honest (replay session.new.tree).stored count) }
    ensures refused { IfErr result (λ e. IsUnparsedTree translator.now path.now sentence.now
        session.old.events session.new.events e) }
{
    let mut tree = session.create_tree(path)?;
    let count = parse_to_file(translator, sentence, &mut tree);
    session.close_tree(tree);
    count
}

/// Prints a line with a number of nodes. Fails as `Session::write` does, and with NoMemory, with
/// nothing printed, if memory for the line is refused.
fn print_nodes<R: Files + Print>(
    session: &mut Session<'_, R>,
    count: u32,
) -> Result<(), FaultReport>
    ensures printed { OnOk result
        (session.new ≡ after (write_event true None (nodes_text count)) session.old) }
    ensures refused { IfErr result (λ report. IsUnprinted count session.old session.new report.fault) }
{
    match nodes_line(session.alloc, count) {
        Ok(line) => session.write(None, line.as_bytes()),
        Err(_) => Err(FaultReport::new(session.alloc, Fault::NoMemory)),
    }
}

/// Converts a tree file of version 1 to version 2, and prints the number of nodes. Reads the
/// grammar, then opens the old file, and then creates the new one. Both may be one file: all of the
/// old content is read before the new content is written.
///
/// Fails before the grammar is read if the new file is the grammar or standard output (`usage`), or
/// a folder or a pipe (F1). Fails if the grammar can't be read or is refused, if the old file is a
/// folder or a pipe or is refused, if a file or the output fails, and if memory is refused.
pub fn convert_file<R: Files + Input + Print>(
    session: &mut Session<'_, R>,
    paths: &UpgradePaths<'_>,
) -> Result<(), FaultReport>
    ensures converted { OnOk result (ConvertsFile paths.now session.old session.new) }
    ensures refused { IfErr result (λ report.
        IsRefusedConversion paths.now session.old session.new report.fault) }
{
    session.check_new_tree(paths.tree, &[CheckedInput(paths.grammar, INPUT_IS_WRITTEN)])?;
    let translator = session.read_translator(paths.grammar)?;
    convert_with(session, &translator, paths)
}

/// Opens the old file, converts it with a translator, and prints the number of nodes. Fails as
/// `convert_file` does after it has read the grammar, with the report of
/// `FaultReport::of_old_tree`.
fn convert_with<R: Files + Print>(
    session: &mut Session<'_, R>,
    translator: &Translator,
    paths: &UpgradePaths<'_>,
) -> Result<(), FaultReport>
    ensures converted { OnOk result
        (HasConverted translator.now paths.now session.old.events session.new) }
    ensures refused { IfErr result (λ report.
        IsUnconverted translator.now paths.now session.old.events session.new report.fault) }
{
    let mut old = session.open_tree(paths.old)?;
    let converted = write_converted(session, translator, &mut old, paths.tree);
    match converted {
        Ok(count) => {
            session.close_old_tree(old);
            print_nodes(session, count)
        }
        Err(fault) => {
            let paths = ConvertedPaths {
                old: paths.old,
                new: paths.tree,
            };
            let grammar = translator.grammar();
            let report = FaultReport::of_old_tree(session.alloc, fault, grammar, &mut old, paths);
            session.close_old_tree(old);
            Err(report)
        }
    }
}

/// Opens the file at `path`, or creates it, and converts the tree file on the device `old` to it.
/// Returns the number of nodes. Fails with F1 if the file at `path` can't be opened or created, and
/// as `upgrade_file` does.
fn write_converted<R: Files>(
    session: &mut Session<'_, R>,
    translator: &Translator,
    old: &mut FileDevice<R::File>,
    path: &str,
) -> Result<u32, Fault>
    ensures opened { OnOk result (session.new.events ≡ open_event path.now ∷ session.old.events) }
    ensures upgrades { IfOk result (λ count. UpgradesFile translator.now
        (is_honest_of old.new) (content_of old.old)
        (replay session.new.tree).is_honest (replay session.new.tree).stored count) }
    ensures refused { IfErr result (λ e. IsUnconvertedTree translator.now path.now
        (is_honest_of old.new) (content_of old.old) session.old.events session.new.events e) }
    ensures content { LeavesContent (is_honest_of old.new) (content_of old.old) (content_of old.new) }
{
    let mut tree = session.create_tree(path)?;
    let count = upgrade_file(session.alloc, translator, old, &mut tree);
    session.close_tree(tree);
    count
}
