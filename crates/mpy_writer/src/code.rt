//! Codes as they are written.

ghost use Rattle.std.specs.Prelude.{◌≡◌, ◌++◌, ◌≤◌, ℕ, List, length, map, All, IfOk, OnOk};
ghost use Rattle.std.specs.List.{AllZip, zip};
ghost use Rattle.bc_labels.specs.Choice.{IsTooFar};
ghost use Rattle.mpy_tree.specs.bc_prelude.Names.{spelling};
ghost use Rattle.mpy_tree.specs.Canonical.{changes};
ghost use Rattle.mpy_writer.specs.File.{labelled, IsOwn, IsBig, IsCodeFault, SomeFar, SomeBig, indexes_of, signature_of, head_bytes, heads};
ghost use Rattle.mpy_writer.specs.Layouts.{IsLaidOut};
ghost use Rattle.mpy_writer.specs.Outcome.{IfFault};
ghost use Rattle.mpy_writer.specs.Tables.{TablesFit};
ghost use Rattle.mpy_writer.specs.Writable.{IsNumberedCode};

use crate::fault::WriteFault;
use crate::layout::{Layout, by_positions};
use crate::tables::Tables;
use bc_prelude::{Signature, write_lines, write_signature, write_size};
use mpy_base::limits::{MAX_CODE_BYTES, MAX_FILE_BYTES};
use mpy_base::{NoMemory, Refused, write_vuint};
use mpy_tree::Code;
use std::alloc::Global;

/// The layout of a code's instructions.
fn layout_of(alloc: Global, tables: &Tables, code: &Code) -> Result<Layout, Refused<WriteFault>>
    requires fit { TablesFit tables.now }
    requires sound { IsNumberedCode code.now }
    ensures ok { IfOk result (IsLaidOut (labelled tables.now code.now)) }
    ensures fault { IfFault result (λ fault. (fault ≡ WriteFault.TooFar) × IsTooFar (labelled tables.now code.now)) }
{
    by_positions(alloc, tables, code.instrs.as_slice())
}

/// The layout of each code.
pub(crate) fn layouts(
    alloc: Global,
    tables: &Tables,
    codes: &[&Code],
) -> Result<Vec<Layout>, Refused<WriteFault>>
    requires fit { TablesFit tables.now }
    requires sound { All IsNumberedCode (map (λ c. c.now) codes.now) }
    ensures ok { IfOk result (λ all. AllZip (λ code layout. IsLaidOut (labelled tables.now code) layout)
        (map (λ c. c.now) codes.now) all.items) }
    ensures fault { IfFault result (λ fault. (fault ≡ WriteFault.TooFar) × SomeFar tables.now (map (λ c. c.now) codes.now)) }
{
    let mut all = Vec::new(alloc);
    for code in codes {
        all.push(layout_of(alloc, tables, code)?)?;
    }
    Ok(all)
}

/// The starts at which the line isn't that of the instruction before, each with its line.
pub(crate) fn line_changes(
    alloc: Global,
    starts: &[usize],
    lines: &[u32],
) -> Result<Vec<(u32, u32)>, NoMemory>
    requires short { All (λ start. start ≤ MAX_FILE_BYTES) starts.now }
    requires a_line_each { length starts.now ≡ length lines.now }
    ensures { IfOk result (λ pairs. pairs.items ≡ changes 1 (zip starts.now lines.now)) }
{
    let mut pairs = Vec::new(alloc);
    let mut last = 1;
    for (i, line) in lines.iter().enumerate() {
        if *line != last {
            pairs.push((starts[i] as u32, *line))?;
            last = *line;
        }
    }
    Ok(pairs)
}

/// Adds the numbers of the code's name and arguments.
pub(crate) fn write_names(out: &mut Vec<u8>, tables: &Tables, code: &Code) -> Result<(), NoMemory>
    requires { TablesFit tables.now }
    ensures { OnOk result (out.new.items ≡ out.old.items ++ spelling (indexes_of tables.now code.now)) }
{
    write_vuint(out, tables.text_number(&code.name))?;
    for arg in code.args.as_slice() {
        write_vuint(out, tables.text_number(arg))?;
    }
    Ok(())
}

/// What the prelude of a code says of its call: its slots, handler entries, parameters and defaults.
pub(crate) fn signature(code: &Code) -> Signature
    requires { IsNumberedCode code.now }
    ensures { result ≡ signature_of code.now }
{
    Signature {
        n_state: code.n_state,
        n_exc: code.n_exc,
        flags: 0,
        args: code.args.len() as u32,
        kwonly: 0,
        defaults: code.defaults,
    }
}

/// The code's own bytes.
fn own_code(
    alloc: Global,
    tables: &Tables,
    code: &Code,
    layout: &Layout,
) -> Result<Vec<u8>, Refused<WriteFault>>
    requires fit { TablesFit tables.now }
    requires sound { IsNumberedCode code.now }
    requires layout { IsLaidOut (labelled tables.now code.now) layout.now }
    ensures ok { IfOk result (λ own. IsOwn tables.now code.now own.items × (length own.items ≤ MAX_CODE_BYTES)) }
    ensures fault { IfFault result (λ fault. (fault ≡ WriteFault.TooBig) × IsBig tables.now code.now) }
{
    if layout.bytes.len() > MAX_CODE_BYTES {
        return Err(Refused::Fault(WriteFault::TooBig));
    }
    let mut info = Vec::new(alloc);
    write_names(&mut info, tables, code)?;
    write_lines(
        &mut info,
        &line_changes(alloc, &layout.starts, code.lines.as_slice())?,
    )?;
    let mut own = Vec::new(alloc);
    write_signature(&mut own, &signature(code))?;
    write_size(&mut own, info.len())?;
    own.extend_from_slice(&info)?;
    own.extend_from_slice(&layout.bytes)?;
    if own.len() > MAX_CODE_BYTES {
        return Err(Refused::Fault(WriteFault::TooBig));
    }
    Ok(own)
}

/// The own bytes of a code whose plain instructions may have the numbers of texts and objects.
pub fn write_code(
    alloc: Global,
    tables: &Tables,
    code: &Code,
) -> Result<Vec<u8>, Refused<WriteFault>>
    requires fit { TablesFit tables.now }
    requires numbered { IsNumberedCode code.now }
    ensures ok { IfOk result (λ own. IsOwn tables.now code.now own.items × (length own.items ≤ MAX_CODE_BYTES)) }
    ensures fault { IfFault result (IsCodeFault tables.now code.now) }
{
    let layout = layout_of(alloc, tables, code)?;
    own_code(alloc, tables, code, &layout)
}

/// Adds the header, the code's own bytes and the number of its children.
fn write_head(out: &mut Vec<u8>, code: &Code, own: &[u8]) -> Result<(), NoMemory>
    requires sound { IsNumberedCode code.now }
    requires short { length own.now ≤ MAX_CODE_BYTES }
    ensures { OnOk result (out.new.items ≡ out.old.items ++ head_bytes code.now own.now) }
{
    if code.children.is_empty() {
        write_vuint(out, 8 * own.len() as u32)?;
        out.extend_from_slice(own)?;
    } else {
        write_vuint(out, 8 * own.len() as u32 + 4)?;
        out.extend_from_slice(own)?;
        write_vuint(out, code.children.len() as u32)?;
    }
    Ok(())
}

/// Adds the codes, of which each has this layout.
pub(crate) fn write_codes(
    alloc: Global,
    out: &mut Vec<u8>,
    tables: &Tables,
    codes: &[&Code],
    layouts: &[Layout],
) -> Result<(), Refused<WriteFault>>
    requires fit { TablesFit tables.now }
    requires sound { All IsNumberedCode (map (λ c. c.now) codes.now) }
    requires layouts { AllZip (λ code layout. IsLaidOut (labelled tables.now code) layout)
        (map (λ c. c.now) codes.now) layouts.now }
    ensures ok { OnOk result ((owns : List (List ℕ)) × AllZip (IsOwn tables.now) (map (λ c. c.now) codes.now) owns
        × All (λ own. length own ≤ MAX_CODE_BYTES) owns
        × (out.new.items ≡ out.old.items ++ heads (map (λ c. c.now) codes.now) owns)) }
    ensures fault { IfFault result (λ fault. (fault ≡ WriteFault.TooBig) × SomeBig tables.now (map (λ c. c.now) codes.now)) }
{
    for (i, code) in codes.iter().enumerate() {
        let layout = layouts.get(i).unwrap();
        let own = own_code(alloc, tables, code, layout)?;
        write_head(out, code, &own)?;
    }
    Ok(())
}
