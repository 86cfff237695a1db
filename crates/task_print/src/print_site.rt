//! Pointers, I/O calls, blocks and copies in their printed form.
ghost use Rattle.std.specs.Prelude.{◌++◌, OnOk};
ghost use Rattle.std.specs.List.{flat_map};
ghost use Rattle.task_print.specs.Printed.{Puts, word, mark, named, parenthesized, expr_tokens, target_tokens, address_tokens, place_tokens, ann_tokens, reading_tokens, argument_tokens};
ghost use Rattle.task_tokens.specs.declared.token.Keyword.TheVariants as keyword;
ghost use Rattle.task_tokens.specs.declared.token.Sign.TheVariants as sign;

use crate::print_expr::{put_expr, put_indexed, put_target};
use crate::put::{put_name, put_numeral, put_sign, put_word};
use ease_base::{List, NoMemory, Text};
use task_ast::{Ann, Expr, Name, Place, Target};
use task_tokens::{Keyword, Sign};

// What an address is taken of.
fn put_address(out: &mut Text, to: &Place) -> Result<(), NoMemory>
    ensures { OnOk result (Puts out.old (address_tokens to.now) out.new) }
{
    match to {
        Place::Bare(x) => put_name(out, x),
        Place::Scalar(x) => put_name(out, x),
        Place::Element(x, index) => put_indexed(out, x, index),
    }
}

/// `p = & x ;`
#[tactic(auto, using(crate::proofs::PrintSteps::puts, crate::proofs::PrintSteps::puts_last))]
pub fn put_pointing(out: &mut Text, p: &Name, to: &Place) -> Result<(), NoMemory>
    ensures { OnOk result (Puts out.old (named p.now ++ mark sign.Equal ++ mark sign.Ampersand ++ address_tokens to.now ++ mark sign.Semicolon) out.new) }
{
    put_name(out, p)?;
    put_sign(out, Sign::Equal)?;
    put_sign(out, Sign::Ampersand)?;
    put_address(out, to)?;
    put_sign(out, Sign::Semicolon)
}

// `& x`
#[tactic(auto, using(crate::proofs::PrintSteps::puts, crate::proofs::PrintSteps::puts_last))]
fn put_scalar(out: &mut Text, x: &Name) -> Result<(), NoMemory>
    ensures { OnOk result (Puts out.old (mark sign.Ampersand ++ named x.now) out.new) }
{
    put_sign(out, Sign::Ampersand)?;
    put_name(out, x)
}

// `& x [ index ]`
#[tactic(auto, using(crate::proofs::PrintSteps::puts, crate::proofs::PrintSteps::puts_last))]
fn put_element(out: &mut Text, x: &Name, index: &Expr) -> Result<(), NoMemory>
    ensures { OnOk result (Puts out.old (place_tokens (Place.Element x.now index.now)) out.new) }
{
    put_sign(out, Sign::Ampersand)?;
    put_indexed(out, x, index)
}

// An end of a copy.
fn put_place(out: &mut Text, x: &Place) -> Result<(), NoMemory>
    ensures { OnOk result (Puts out.old (place_tokens x.now) out.new) }
{
    match x {
        Place::Bare(x) => put_name(out, x),
        Place::Scalar(x) => put_scalar(out, x),
        Place::Element(x, index) => put_element(out, x, index),
    }
}

// `( to , from ,`
#[tactic(auto, using(crate::proofs::PrintSteps::puts, crate::proofs::PrintSteps::puts_last))]
fn put_ends(out: &mut Text, to: &Place, from: &Place) -> Result<(), NoMemory>
    ensures { OnOk result (Puts out.old (mark sign.ParenOpen ++ place_tokens to.now ++ mark sign.Comma ++ place_tokens from.now ++ mark sign.Comma) out.new) }
{
    put_sign(out, Sign::ParenOpen)?;
    put_place(out, to)?;
    put_sign(out, Sign::Comma)?;
    put_place(out, from)?;
    put_sign(out, Sign::Comma)
}

/// `DMA ( to , from , length ) ;`
#[tactic(auto, using(crate::proofs::PrintSteps::puts, crate::proofs::PrintSteps::puts_last))]
pub fn put_copy(out: &mut Text, to: &Place, from: &Place, length: &Expr) -> Result<(), NoMemory>
    ensures { OnOk result (Puts out.old (word keyword.Dma ++ (mark sign.ParenOpen ++ place_tokens to.now ++ mark sign.Comma ++ place_tokens from.now ++ mark sign.Comma) ++ expr_tokens length.now ++ mark sign.ParenClose ++ mark sign.Semicolon) out.new) }
{
    put_word(out, Keyword::Dma)?;
    put_ends(out, to, from)?;
    put_expr(out, length)?;
    put_sign(out, Sign::ParenClose)?;
    put_sign(out, Sign::Semicolon)
}

// `TIMELY ( NUM )`
#[tactic(auto, using(crate::proofs::PrintSteps::puts, crate::proofs::PrintSteps::puts_last))]
fn put_timely(out: &mut Text, ticks: u32) -> Result<(), NoMemory>
    ensures { OnOk result (Puts out.old (ann_tokens (Ann.Timely ticks)) out.new) }
{
    put_word(out, Keyword::Timely)?;
    put_sign(out, Sign::ParenOpen)?;
    put_numeral(out, ticks)?;
    put_sign(out, Sign::ParenClose)
}

// An annotation.
fn put_annotation(out: &mut Text, annotation: Ann) -> Result<(), NoMemory>
    ensures { OnOk result (Puts out.old (ann_tokens annotation) out.new) }
{
    match annotation {
        Ann::Single => put_word(out, Keyword::Single),
        Ann::Timely(ticks) => put_timely(out, ticks),
        Ann::Always => put_word(out, Keyword::Always),
    }
}

/// `IO_BLOCK ( annotation )`
#[tactic(auto, using(crate::proofs::PrintSteps::puts, crate::proofs::PrintSteps::puts_last))]
pub fn put_opening(out: &mut Text, annotation: Ann) -> Result<(), NoMemory>
    ensures { OnOk result (Puts out.old (word keyword.IoBlock ++ parenthesized (ann_tokens annotation)) out.new) }
{
    put_word(out, Keyword::IoBlock)?;
    put_sign(out, Sign::ParenOpen)?;
    put_annotation(out, annotation)?;
    put_sign(out, Sign::ParenClose)
}

// `x =`
#[tactic(auto, using(crate::proofs::PrintSteps::puts, crate::proofs::PrintSteps::puts_last))]
fn put_left(out: &mut Text, target: &Target) -> Result<(), NoMemory>
    ensures { OnOk result (Puts out.old (target_tokens target.now ++ mark sign.Equal) out.new) }
{
    put_target(out, target)?;
    put_sign(out, Sign::Equal)
}

// `x =`, or nothing
fn put_reading(out: &mut Text, target: &Option<Target>) -> Result<(), NoMemory>
    ensures { OnOk result (Puts out.old (reading_tokens target.now) out.new) }
{
    match target {
        Some(target) => put_left(out, target),
        None => Ok(()),
    }
}

// `, e`
#[tactic(auto, using(crate::proofs::PrintSteps::puts, crate::proofs::PrintSteps::puts_last))]
fn put_argument(out: &mut Text, e: &Expr) -> Result<(), NoMemory>
    ensures { OnOk result (Puts out.old (argument_tokens e.now) out.new) }
{
    put_sign(out, Sign::Comma)?;
    put_expr(out, e)
}

fn put_arguments(out: &mut Text, args: &[Expr]) -> Result<(), NoMemory>
    ensures { OnOk result (Puts out.old (flat_map argument_tokens args.now) out.new) }
{
    'arguments: for e in args {
        put_argument(out, e)?;
    }
    Ok(())
}

// `IO ( p , annotation`
#[tactic(auto, using(crate::proofs::PrintSteps::puts, crate::proofs::PrintSteps::puts_last))]
fn put_called(out: &mut Text, p: &Name, annotation: Ann) -> Result<(), NoMemory>
    ensures { OnOk result (Puts out.old (word keyword.Io ++ mark sign.ParenOpen ++ named p.now ++ mark sign.Comma ++ ann_tokens annotation) out.new) }
{
    put_word(out, Keyword::Io)?;
    put_sign(out, Sign::ParenOpen)?;
    put_name(out, p)?;
    put_sign(out, Sign::Comma)?;
    put_annotation(out, annotation)
}

/// `x = IO ( p , annotation , e .. ) ;`, where a target is set.
#[tactic(auto, using(crate::proofs::PrintSteps::puts, crate::proofs::PrintSteps::puts_last))]
pub fn put_io(
    out: &mut Text,
    target: &Option<Target>,
    p: &Name,
    annotation: Ann,
    args: &List<Expr>,
) -> Result<(), NoMemory>
    ensures { OnOk result (Puts out.old (reading_tokens target.now ++ (word keyword.Io ++ mark sign.ParenOpen ++ named p.now ++ mark sign.Comma ++ ann_tokens annotation) ++ flat_map argument_tokens args.now ++ mark sign.ParenClose ++ mark sign.Semicolon) out.new) }
{
    put_reading(out, target)?;
    put_called(out, p, annotation)?;
    put_arguments(out, args.as_slice())?;
    put_sign(out, Sign::ParenClose)?;
    put_sign(out, Sign::Semicolon)
}
