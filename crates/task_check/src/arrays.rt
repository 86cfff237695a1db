//! What declarations become: arrays with their first words, pointers, and peripherals.
ghost use Rattle.std.specs.Prelude.{◌≡◌, ◌++◌, IfOk, OnOk};
ghost use Rattle.std.specs.List.{AllByRecursion, flat_map};
ghost use Rattle.task_check.specs.CheckedForm.{core_arrays, core_peripherals, core_pointers, first_words};
ghost use Rattle.task_check.specs.Limits.{IsByte};
ghost use Rattle.task_check.specs.Refusals.{decl_number};

use crate::declarations::size_words;
use ease_base::{List, NoMemory, Peripheral, Text, Words};
use std::alloc::Global;
use task_ast::{Array, Decl};

/// The declared values, and 0 for each further place.
fn words(alloc: Global, size: usize, values: &Words) -> Result<Words, NoMemory>
    ensures { IfOk result (λ ws. ws ≡ first_words size values.now) }
{
    let mut words = List::from_slice(alloc, values.as_slice())?;
    for _ in 0..size.saturating_sub(values.len()) {
        words.push(0)?;
    }
    Ok(words)
}

/// Puts the array of a declaration behind `done`.
fn push_array(alloc: Global, d: &Decl, done: &mut List<Array>) -> Result<(), NoMemory>
    ensures { OnOk result (done.new ≡ done.old ++ core_arrays d.now) }
{
    match d {
        Decl::Words(kind, x, size, values) => {
            let name = List::from_slice(alloc, x.text.as_slice())?;
            let first = words(alloc, size_words(size) as usize, values)?;
            done.push(Array {
                name,
                kind: *kind,
                first,
            })?;
            Ok(())
        }
        Decl::Pointer(_) | Decl::Peripheral(..) => Ok(()),
    }
}

/// The arrays of declarations, in their order.
pub fn arrays(alloc: Global, decls: &[Decl]) -> Result<List<Array>, NoMemory>
    ensures { IfOk result (λ arrays. arrays ≡ flat_map core_arrays decls.now) }
{
    let mut done = List::new(alloc);
    for d in decls {
        push_array(alloc, d, &mut done)?;
    }
    Ok(done)
}

/// Puts the pointer of a declaration behind `done`.
fn push_pointer(alloc: Global, d: &Decl, done: &mut List<Text>) -> Result<(), NoMemory>
    ensures { OnOk result (done.new ≡ done.old ++ core_pointers d.now) }
{
    match d {
        Decl::Pointer(x) => {
            let name = List::from_slice(alloc, x.text.as_slice())?;
            done.push(name)?;
            Ok(())
        }
        Decl::Words(..) | Decl::Peripheral(..) => Ok(()),
    }
}

/// The pointers of declarations, in their order.
pub fn pointers(alloc: Global, decls: &[Decl]) -> Result<List<Text>, NoMemory>
    ensures { IfOk result (λ pointers. pointers ≡ flat_map core_pointers decls.now) }
{
    let mut done = List::new(alloc);
    for d in decls {
        push_pointer(alloc, d, &mut done)?;
    }
    Ok(done)
}

/// Puts the peripheral of a declaration, whose number is allowed, behind `done`.
fn push_peripheral(alloc: Global, d: &Decl, done: &mut List<Peripheral>) -> Result<(), NoMemory>
    requires { AllByRecursion IsByte (decl_number d.now) }
    ensures { OnOk result (done.new ≡ done.old ++ core_peripherals d.now) }
{
    match d {
        Decl::Peripheral(x, number) => {
            let name = List::from_slice(alloc, x.text.as_slice())?;
            done.push(Peripheral {
                name,
                number: *number as u8,
            })?;
            Ok(())
        }
        Decl::Words(..) | Decl::Pointer(_) => Ok(()),
    }
}

/// The peripherals of declarations, in their order.
pub fn peripherals(alloc: Global, decls: &[Decl]) -> Result<List<Peripheral>, NoMemory>
    requires { AllByRecursion IsByte (flat_map decl_number decls.now) }
    ensures { IfOk result (λ peripherals. peripherals ≡ flat_map core_peripherals decls.now) }
{
    let mut done = List::new(alloc);
    for d in decls {
        push_peripheral(alloc, d, &mut done)?;
    }
    Ok(done)
}
