//! The output of commands.
ghost use Rattle.std.specs.Prelude.{◌≡◌, ◌⊎◌, List, ℕ, OnOk, IfErr, codes, if◌then◌else◌};
ghost use Rattle.std.specs.Io.KnownBytes.{Appends};
ghost use Rattle.dss_command.specs.declared.fault.Fault.TheVariants.{DatabaseFailed, Memory, Output};
ghost use Rattle.dss_report.specs.Cell.{IsLineOfToken};
ghost use Rattle.dss_report.specs.Report.{report_of};
ghost use Rattle.entity_core.specs.Airspace.{Airspace};
ghost use Rattle.dss_command.specs.Fault.{IsOfCell};
ghost use Rattle.dss_command.specs.Print.{WritesPlaces, WritesReport, purged_line};

use crate::fault::Fault;
use crate::purged::PurgeCounts;
use dss_report::cell::token_line;
use dss_report::cell_lines::cells_text;
use dss_report::report::report_text;
use space_core::space::Space;
use std::alloc::Global;
use std::io::Write;

/// Writes all of the bytes. The only possible fault is `Output`.
pub fn put<W: Write>(bytes: &[u8], output: &mut W) -> Result<(), Fault>
    ensures whole { OnOk result (Appends (W.contents output.old)
        (W.contents output.new) bytes.now) }
    ensures output { IfErr result (λ fault. fault ≡ Output) }
{
    match output.write_all(bytes) {
        Ok(()) => Ok(()),
        Err(_) => Err(Fault::Output),
    }
}

/// Runs the command `cell`: prints the line of a token's cell.
pub fn cell<W: Write>(alloc: Global, token: &str, output: &mut W) -> Result<(), Fault>
    ensures { OnOk result ((line : List ℕ) × IsLineOfToken token.now line
        × Appends (W.contents output.old) (W.contents output.new) line) }
{
    let line = token_line(alloc, token)?;
    put(line.as_bytes(), output)
}

/// Prints the line of the command `upgrade`, for a database that was opened.
pub fn put_format<W: Write>(upgraded: bool, output: &mut W) -> Result<(), Fault>
    ensures whole { OnOk result (Appends (W.contents output.old) (W.contents output.new)
        (if upgraded then codes "format 2, was 1\n" else codes "format 2\n")) }
    ensures output { IfErr result (λ fault. fault ≡ Output) }
{
    let line = if upgraded {
        "format 2, was 1\n"
    } else {
        "format 2\n"
    };
    put(line.as_bytes(), output)
}

/// Prints the line of the command `purge`, for what it purged.
pub fn put_purged<W: Write>(purged: PurgeCounts, output: &mut W) -> Result<(), Fault>
    ensures whole { OnOk result (Appends (W.contents output.old) (W.contents output.new)
        (purged_line purged)) }
    ensures output { IfErr result (λ fault. fault ≡ Output) }
{
    let PurgeCounts {
        intents,
        constraints,
        subscriptions,
    } = purged;
    let written = writeln!(
        output,
        "purged {intents} intents, {constraints} constraints, {subscriptions} subscriptions"
    );
    let Ok(()) = written else {
        return Err(Fault::Output);
    };
    Ok(())
}

/// Prints the report of the airspace of a space, which is only read.
pub fn put_report<S: Space + Drop, W: Write>(
    alloc: Global,
    space: &mut S,
    output: &mut W,
) -> Result<(), Fault>
    ensures whole { OnOk result (S.is_sound space.new → (a : Airspace) → S.holds space.old a
        → Appends (W.contents output.old) (W.contents output.new) (report_of a)) }
    ensures sound { S.is_sound space.new → S.is_sound space.old }
    ensures kept { S.is_sound space.new → S.is_whole space.old → S.is_whole space.new }
    ensures no_other { S.is_sound space.new
        → (a : Airspace) → S.holds space.new a → S.holds space.old a }
    ensures told { IfErr result (λ fault.
        (fault ≡ DatabaseFailed) ⊎ (fault ≡ Memory) ⊎ (fault ≡ Output)) }
{
    let text = report_text(alloc, space)?;
    put(text.as_slice(), output)
}

/// Prints the cells of the airspace of a space, which is only read.
pub fn put_cells<S: Space + Drop, W: Write>(
    alloc: Global,
    space: &mut S,
    output: &mut W,
) -> Result<(), Fault>
    ensures whole { OnOk result (S.is_sound space.new → (a : Airspace) → S.holds space.old a
        → WritesPlaces a (W.contents output.old) (W.contents output.new)) }
    ensures sound { S.is_sound space.new → S.is_sound space.old }
    ensures kept { S.is_sound space.new → S.is_whole space.old → S.is_whole space.new }
    ensures no_other { S.is_sound space.new
        → (a : Airspace) → S.holds space.new a → S.holds space.old a }
    ensures told { IfErr result (λ fault.
        (fault ≡ DatabaseFailed) ⊎ (fault ≡ Memory) ⊎ (fault ≡ Output)) }
{
    let lines = cells_text(alloc, space)?;
    put(lines.as_slice(), output)
}

/// Runs the command `report` over a space, which is only read: prints its report, or the cells of
/// its references.
pub fn report<S: Space + Drop, W: Write>(
    alloc: Global,
    space: &mut S,
    places: bool,
    output: &mut W,
) -> Result<(), Fault>
    ensures whole { OnOk result (S.is_sound space.new → (a : Airspace) → S.holds space.old a
        → WritesReport places a (W.contents output.old) (W.contents output.new)) }
    ensures sound { S.is_sound space.new → S.is_sound space.old }
    ensures kept { S.is_sound space.new → S.is_whole space.old → S.is_whole space.new }
    ensures no_other { S.is_sound space.new
        → (a : Airspace) → S.holds space.new a → S.holds space.old a }
    ensures told { IfErr result (λ fault.
        (fault ≡ DatabaseFailed) ⊎ (fault ≡ Memory) ⊎ (fault ≡ Output)) }
{
    match places {
        true => put_cells(alloc, space, output),
        false => put_report(alloc, space, output),
    }
}
