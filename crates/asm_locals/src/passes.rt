//! The two passes that give local labels their names: forwards for references to labels before, backwards for the others.

ghost use Rattle.std.specs.Prelude.{◌≡◌, ◌∷◌, [], suc, List, length, OnOk};
ghost use Rattle.asm_model.specs.declared.statements.Statement.{Statement};
ghost use Rattle.asm_locals.specs.Labels.{label_ahead, label_behind};
ghost use Rattle.asm_locals.specs.Naming.{in_names, named_label};
ghost use Rattle.asm_locals.specs.Passes.{looked_ahead, looked_back, named_ahead, named_back, IsTable};
ghost use Rattle.asm_locals.specs.declared.labels.Way.TheVariants as way;

use crate::labels::{Nearest, Way, begins_stretch, local_number};
use crate::naming::hidden_name;
use crate::statements::name_what;
use asm_model::{SharedText, Statement};
use sdt_fault::NoMemory;
use std::alloc::Global;

/// Names the references of a statement to labels on it or before.
fn name_back(
    alloc: Global,
    statement: &mut Statement,
    at: u64,
    labels: &mut Nearest,
) -> Result<(), NoMemory>
    requires { labels.old.way ≡ way.Back }
    ensures way { labels.new.way ≡ way.Back }
    ensures named { OnOk result ((before : List Statement) → length before ≡ at
        → IsTable labels.old.table.items (label_behind before)
        → IsTable labels.new.table.items (label_behind (statement.old ∷ before))
        × (statement.new ≡ named_back before statement.old)) }
{
    labels.begin(begins_stretch(&statement.what));
    labels.add(local_number(statement), at);
    name_what(alloc, &mut statement.what, labels)?;
    Ok(())
}

/// Gives the label of a statement its own name where it is a local one.
fn name_label(
    alloc: Global,
    label: &mut Option<SharedText>,
    number: Option<usize>,
    at: u64,
) -> Result<(), NoMemory>
    ensures { OnOk result (label.new ≡ named_label at number label.old) }
{
    if number.is_some() {
        *label = Some(hidden_name(alloc, at)?);
    }
    Ok(())
}

/// Names the label of a statement and its references to later ones.
fn name_ahead(
    alloc: Global,
    statement: &mut Statement,
    at: u64,
    labels: &mut Nearest,
) -> Result<(), NoMemory>
    requires { labels.old.way ≡ way.Forth }
    ensures way { labels.new.way ≡ way.Forth }
    ensures named { OnOk result ((rest : List Statement)
        → IsTable labels.old.table.items (label_ahead (suc at) rest)
        → IsTable labels.new.table.items (label_ahead at (statement.old ∷ rest))
        × (statement.new ≡ named_ahead at statement.old rest)) }
{
    let local = local_number(statement);
    let begins = begins_stretch(&statement.what);
    name_what(alloc, &mut statement.what, labels)?;
    name_label(alloc, &mut statement.label, local, at)?;
    labels.add(local, at);
    labels.begin(begins);
    Ok(())
}

/// Names the references to labels before.
fn look_back(alloc: Global, statements: &mut [Statement]) -> Result<(), NoMemory>
    ensures { OnOk result (statements.new ≡ looked_back [] statements.old) }
{
    let mut labels = Nearest::new(alloc, Way::Back)?;
    'statements: for (at, statement) in statements.iter_mut().enumerate() {
        name_back(alloc, statement, at as u64, &mut labels)?;
    }
    Ok(())
}

/// Names the labels and the references to later ones.
fn look_ahead(alloc: Global, statements: &mut [Statement]) -> Result<(), NoMemory>
    ensures { OnOk result (statements.new ≡ looked_ahead 0 statements.old) }
{
    let mut labels = Nearest::new(alloc, Way::Forth)?;
    let mut left = statements.len();
    'statements: while left > 0 {
        left -= 1;
        name_ahead(alloc, &mut statements[left], left as u64, &mut labels)?;
    }
    Ok(())
}

/// Names the local labels of a source: each gets a name that no line can spell, and each reference becomes
/// the name of the label that it names. One that names none is left. Linear in the statements and what they say.
#[tactic(auto, using(crate::proofs::NamingLemmas::named_at_once))]
pub fn name_locals(alloc: Global, statements: &mut [Statement]) -> Result<(), NoMemory>
    ensures { OnOk result (statements.new ≡ in_names statements.old) }
{
    look_back(alloc, statements)?;
    look_ahead(alloc, statements)?;
    Ok(())
}
