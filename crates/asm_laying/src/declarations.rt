//! What a statement declares, before it is laid out.

ghost use Rattle.std.specs.Prelude.{◌≡◌, ◌++◌, ◌&&◌, Some, IfOk, OnOk};
ghost use Rattle.asm_model.specs.Entries as entries;
ghost use Rattle.asm_model.specs.Labels as labels;
ghost use Rattle.asm_names.specs.Defining.{defined_of};
ghost use Rattle.asm_names.specs.Steps.{one_entry};
ghost use Rattle.asm_laying.specs.Declaring.{declared_entry, declared_again, Declares};

use crate::carried::CarriedState;
use asm_expr::known::add_new;
use asm_model::{LaidName, SharedText, Statement, What, imported_name};
use asm_names::KnownNames;
use asm_names::defining::{Defines, defined_by};
use asm_names::made::later_entry;
use sdt_fault::NoMemory;
use std::alloc::Global;

/// What a statement leaves behind it.

pub struct Declared {
    pub behind: CarriedState,
    /// Whether it declares a name that is declared before it, or one name twice.
    pub repeated: bool,
}

/// Whether a label is one of Thumb code.
pub fn is_thumb_label(thumb: bool, code: bool) -> bool
    ensures { result ≡ (thumb && code) }
{
    if thumb {
        return code;
    }
    false
}

fn later(alloc: Global, name: &SharedText, thumb: bool) -> Result<Option<LaidName>, NoMemory>
    ensures { IfOk result (λ entry. entry ≡ Some (entries.later_entry name.now thumb)) }
{
    Ok(Some(later_entry(alloc, name, thumb)?))
}

/// The entry of a statement's name before the source is laid out.
fn declared_entry(
    alloc: Global,
    defines: &Defines<'_>,
    thumb: bool,
) -> Result<Option<LaidName>, NoMemory>
    ensures { IfOk result (λ entry. entry ≡ declared_entry (defined_of defines.now) thumb) }
{
    match defines {
        Defines::Unnamed => Ok(None),
        Defines::Label(name) => later(alloc, name, thumb),
        Defines::Equal(name, _) => later(alloc, name, false),
        Defines::MapField(name) => later(alloc, name, false),
        Defines::RegisterName(name, _) => later(alloc, name, false),
    }
}

/// The entry of the name that a statement imports, before the source is laid out.
fn declared_import(alloc: Global, what: &What) -> Result<Option<LaidName>, NoMemory>
    ensures { IfOk result (λ entry. one_entry entry
        ≡ labels.declared_imports (labels.imported_in what.now)) }
{
    match imported_name(what) {
        None => Ok(None),
        Some(name) => later(alloc, name, false),
    }
}

/// One name more, where there is one, and whether it is declared before.
fn declare(alloc: Global, names: &mut KnownNames, entry: Option<LaidName>) -> Result<bool, NoMemory>
    ensures more { OnOk result (names.new ≡ names.old ++ one_entry entry) }
    ensures again { IfOk result (λ again. again ≡ declared_again names.old (one_entry entry)) }
{
    match entry {
        None => Ok(false),
        Some(entry) => Ok(!add_new(alloc, names, entry)?),
    }
}

/// What a statement more declares.
pub fn declare_one(
    alloc: Global,
    names: &mut KnownNames,
    behind: CarriedState,
    statement: &Statement,
) -> Result<Declared, NoMemory>
    ensures { IfOk result (λ d. Declares statement.now behind names.old names.new d) }
{
    let defines = defined_by(statement);
    let next = behind.stepped(&statement.what);
    let thumb = is_thumb_label(behind.thumb, next.code);
    let own = declared_entry(alloc, &defines, thumb)?;
    let own_again = declare(alloc, names, own)?;
    let imported = declared_import(alloc, &statement.what)?;
    let import_again = declare(alloc, names, imported)?;
    Ok(Declared {
        behind: next,
        repeated: own_again || import_again,
    })
}
