//! Whether the texts of a module are no longer than a file.

ghost use Rattle.std.specs.Prelude.{◌≡◌};
ghost use Rattle.std.specs.List.{list_all};
ghost use Rattle.mpy_base.specs.declared.limits.TheConstants.{MAX_DEPTH};
ghost use Rattle.mpy_writer.specs.Codes.{codes_in};
ghost use Rattle.mpy_writer.specs.Writable.{IsShallow};
ghost use Rattle.mpy_compile.specs.Texts as spec;

use mpy_base::Text;
use mpy_base::limits::{MAX_DEPTH, MAX_FILE_BYTES};
use mpy_tree::{Code, Constant, Item, ModuleCode};

/// Is the text no longer than a file?
fn text_fits(text: &Text) -> bool
    ensures { result ≡ spec.text_fits text.now }
{
    text.bytes().len() <= MAX_FILE_BYTES
}

/// Are the texts of an instruction no longer than a file?
fn item_fits(item: &Item) -> bool
    ensures { result ≡ spec.item_fits item.now }
{
    match item {
        Item::Named(_, text) => text_fits(text),
        Item::Object(Constant::Str(text)) => text_fits(text),
        _ => true,
    }
}

/// Are these texts no longer than a file?
fn all_texts_fit(texts: &[Text]) -> bool
    ensures { result ≡ list_all spec.text_fits texts.now }
{
    for text in texts {
        if !text_fits(text) {
            return false;
        }
    }
    true
}

/// Are the texts of these instructions no longer than a file?
fn all_items_fit(items: &[Item]) -> bool
    ensures { result ≡ list_all spec.item_fits items.now }
{
    for item in items {
        if !item_fits(item) {
            return false;
        }
    }
    true
}

/// The texts of a code alone.
fn code_fits(code: &Code) -> bool
    ensures { result ≡ spec.code_fits code.now }
{
    text_fits(&code.name)
        && all_texts_fit(code.args.as_slice())
        && all_items_fit(code.instrs.as_slice())
}

/// The texts of a code and of the codes in it, at most `levels` levels deep.
fn codes_fit(code: &Code, levels: usize) -> bool
    requires { IsShallow levels code.now }
    ensures { result ≡ list_all spec.code_fits (codes_in levels code.now) }
{
    if !code_fits(code) {
        return false;
    }
    for child in code.children.as_slice() {
        if !codes_fit(child, levels - 1) {
            return false;
        }
    }
    true
}

/// Whether no text of a module is longer than a file. It is one walk over its instructions.
pub fn texts_fit(whole: &ModuleCode) -> bool
    requires { IsShallow MAX_DEPTH whole.now.code }
    ensures { result ≡ spec.module_fits whole.now }
{
    text_fits(&whole.source) && codes_fit(&whole.code, MAX_DEPTH)
}
