//! Declarations: the table of names, with their rules and limits.
ghost use Rattle.std.specs.Prelude.{◌≡◌, ◌+◌, ◌++◌, ◌≤◌, [], OnOk};
ghost use Rattle.std.specs.List.{AllByRecursion, flat_map};
ghost use Rattle.task_check.specs.Counted.{decl_at, front_at};
ghost use Rattle.task_check.specs.Faults.{decls_faults};
ghost use Rattle.task_check.specs.Finds.{Finds};
ghost use Rattle.task_check.specs.Limits.{IsByte, fram_words as fram_words_of, length_limit, number_limit, ram_words as ram_words_of};
ghost use Rattle.task_check.specs.Names.{decl_meaning, decl_name, declared_tasks, declared_words, extended, look_up, none_yet, with_decl};
ghost use Rattle.task_check.specs.Refusals.{decl_number, size_words as size_of, too_many_values, twice_numbered};
ghost use Rattle.task_check.specs.Table.{meanings};

use crate::error::{CheckError, Limit};
use crate::limits::{name_fits, names_fit, within};
use crate::names::{Meaning, Names, Numbers, number};
use crate::points::is_among;
use ease_base::{List, NoMemory, Words};
use std::alloc::Global;
use task_ast::limits::{HIGHEST_PERIPHERAL, MOST_NV_WORDS, MOST_VOL_WORDS};
use task_ast::{Decl, Kind, Name, Task};

fn name_of(d: &Decl) -> &Name
    ensures { result.now ≡ decl_name d.now }
{
    match d {
        Decl::Words(_, x, _, _) | Decl::Pointer(x) | Decl::Peripheral(x, _) => x,
    }
}

/// What a declaration declares behind so many others.
fn meaning_of(numbers: Numbers, d: &Decl) -> Meaning
    ensures { result ≡ decl_meaning numbers d.now }
{
    match d {
        Decl::Words(kind, _, None, _) => Meaning::Scalar(numbers.arrays, *kind),
        Decl::Words(kind, _, Some(_), _) => Meaning::Array(numbers.arrays, *kind),
        Decl::Pointer(_) => Meaning::Pointer(numbers.pointers),
        Decl::Peripheral(..) => Meaning::Peripheral(numbers.peripherals),
    }
}

/// So many arrays, pointers and peripherals, and a declaration behind them.
fn with(n: Numbers, d: &Decl) -> Numbers
    requires { n.arrays + n.pointers + n.peripherals ≤ 256 }
    ensures same { result ≡ with_decl n d.now }
    ensures sum { result.arrays + result.pointers + result.peripherals ≡ n.arrays + n.pointers + n.peripherals + 1 }
{
    match d {
        Decl::Words(..) => Numbers {
            arrays: n.arrays + 1,
            ..n
        },
        Decl::Pointer(_) => Numbers {
            pointers: n.pointers + 1,
            ..n
        },
        Decl::Peripheral(..) => Numbers {
            peripherals: n.peripherals + 1,
            ..n
        },
    }
}

/// The words that are declared: 1, or as many as the brackets say.
pub fn size_words(size: &Option<u32>) -> u32
    ensures { result ≡ size_of size.now }
{
    match size {
        None => 1,
        Some(size) => *size,
    }
}

/// The nonvolatile and constant words of a declaration.
fn fram_words(d: &Decl) -> u32
    ensures { result ≡ fram_words_of d.now }
{
    match d {
        Decl::Words(Kind::Nv | Kind::Const, _, size, _) => size_words(size),
        Decl::Words(Kind::Vol, ..) | Decl::Pointer(_) | Decl::Peripheral(..) => 0,
    }
}

/// The volatile words of a declaration.
fn ram_words(d: &Decl) -> u32
    ensures { result ≡ ram_words_of d.now }
{
    match d {
        Decl::Words(Kind::Vol, _, size, _) => size_words(size),
        Decl::Words(Kind::Nv | Kind::Const, ..) | Decl::Pointer(_) | Decl::Peripheral(..) => 0,
    }
}

/// That a peripheral's number is none of these.
fn new_number(taken: &[u32], d: &Decl) -> Result<(), CheckError>
    ensures { Finds (twice_numbered taken.now d.now) (λ _. Unit {0}) result }
{
    match d {
        Decl::Words(..) | Decl::Pointer(_) => Ok(()),
        Decl::Peripheral(x, number) => {
            if is_among(taken, *number) {
                return Err(CheckError::TwiceNamed(x.at));
            }
            Ok(())
        }
    }
}

/// That a declaration has no more values than words.
fn values_fit(d: &Decl) -> Result<(), CheckError>
    ensures { Finds (too_many_values d.now) (λ _. Unit {0}) result }
{
    match d {
        Decl::Words(_, x, size, values) => {
            if values.len() > size_words(size) as usize {
                return Err(CheckError::TooMany(x.at));
            }
            Ok(())
        }
        Decl::Pointer(_) | Decl::Peripheral(..) => Ok(()),
    }
}

/// That a declaration of words has a word.
fn has_words(d: &Decl) -> Result<(), CheckError>
    ensures { Finds (length_limit d.now) (λ _. Unit {0}) result }
{
    match d {
        Decl::Words(_, x, size, _) => {
            if size_words(size) == 0 {
                return Err(CheckError::LimitReached(x.at, Limit::Length, 0));
            }
            Ok(())
        }
        Decl::Pointer(_) | Decl::Peripheral(..) => Ok(()),
    }
}

/// That a peripheral's number isn't too high.
fn number_fits(d: &Decl) -> Result<(), CheckError>
    ensures { Finds (number_limit d.now) (λ _. AllByRecursion IsByte (decl_number d.now)) result }
{
    match d {
        Decl::Words(..) | Decl::Pointer(_) => Ok(()),
        Decl::Peripheral(x, number) => within(
            Limit::PeripheralNumber,
            u128::from(HIGHEST_PERIPHERAL),
            x.at,
            u128::from(*number),
        ),
    }
}

/// So many words of nonvolatile memory and of volatile memory.
#[derive(Clone, Copy)]
struct Sums {
    fram: u128,
    ram: u128,
}

/// That a declaration of this number has a number of its own, no surplus values, and is one of few enough names.
fn check_front(number: u128, taken: &[u32], d: &Decl) -> Result<(), CheckError>
    ensures { Finds (front_at number taken.now d.now) (λ _. number ≤ 256) result }
{
    new_number(taken, d)?;
    values_fit(d)?;
    names_fit(name_of(d).at, number)
}

/// The words with those of the declaration of this number, whose name is new, behind it.
fn check_decl(number: u128, taken: &[u32], before: Sums, d: &Decl) -> Result<Sums, CheckError>
    requires fram { before.fram ≤ 2048 }
    requires ram { before.ram ≤ 2048 }
    ensures { Finds (decl_at number taken.now before.fram before.ram d.now)
        (λ s. (s.fram ≡ before.fram + fram_words_of d.now) × (s.ram ≡ before.ram + ram_words_of d.now) × (s.fram ≤ 2048) × (s.ram ≤ 2048)
        × (number ≤ 256) × AllByRecursion IsByte (decl_number d.now)) result }
{
    check_front(number, taken, d)?;
    let at = name_of(d).at;
    let fram = before.fram + u128::from(fram_words(d));
    within(Limit::NvWords, MOST_NV_WORDS, at, fram)?;
    let ram = before.ram + u128::from(ram_words(d));
    within(Limit::VolWords, MOST_VOL_WORDS, at, ram)?;
    has_words(d)?;
    name_fits(name_of(d))?;
    number_fits(d)?;
    Ok(Sums { fram, ram })
}

/// Puts the number of a peripheral behind the others.
fn note_number(d: &Decl, taken: &mut Words) -> Result<(), NoMemory>
    ensures { OnOk result (taken.new ≡ taken.old ++ decl_number d.now) }
{
    match d {
        Decl::Words(..) | Decl::Pointer(_) => Ok(()),
        Decl::Peripheral(_, number) => taken.push(*number),
    }
}

/// The table of the names that declarations declare, each new and within the limits.
pub fn declare_words<'a>(alloc: Global, decls: &'a [Decl]) -> Result<Names<'a>, CheckError>
    ensures { Finds (decls_faults [] decls.now)
        (λ names. (meanings names ≡ look_up (declared_words none_yet decls.now)) × AllByRecursion IsByte (flat_map decl_number decls.now)) result }
{
    let mut names = Names::new(alloc);
    let mut taken = List::new(alloc);
    let mut sums = Sums { fram: 0, ram: 0 };
    let mut numbers = Numbers {
        arrays: 0,
        pointers: 0,
        peripherals: 0,
    };
    for (at, d) in decls.iter().enumerate() {
        let x = name_of(d);
        if !names.declare(x.text.as_slice(), meaning_of(numbers, d))? {
            return Err(CheckError::TwiceNamed(x.at));
        }
        sums = check_decl(at as u128 + 1, taken.as_slice(), sums, d)?;
        numbers = with(numbers, d);
        note_number(d, &mut taken)?;
    }
    Ok(names)
}

/// Declares the names of tasks that are numbered from 1, each unless it is declared.
pub fn declare_tasks<'a>(names: &mut Names<'a>, tasks: &'a [Task]) -> Result<(), NoMemory>
    ensures { OnOk result (meanings names.new ≡ extended (meanings names.old) (declared_tasks 1 tasks.now)) }
{
    for (at, t) in tasks.iter().enumerate() {
        let task = number(at + 1)?;
        names.declare(t.name.text.as_slice(), Meaning::Task(task))?;
    }
    Ok(())
}
