//! The whole text.

ghost use Rattle.std.specs.Prelude.{◌≡◌, ◌+◌, ◌*◌, ◌++◌, ◌≤◌, IfOk, OnOk, ℕ, None, true, map, not};
ghost use Rattle.std.specs.Prelude.{count_by};
ghost use Rattle.icnf_text.specs.Judgement.{is_clause, statements, wrong};
ghost use Rattle.icnf_text.specs.Printed.{printed};
ghost use Rattle.icnf_gen.specs.Draws.{state_after};
ghost use Rattle.icnf_gen.specs.Drawn.{chain, drawn_clauses, drawn_cubes, generated};
ghost use Rattle.icnf_gen.specs.Drawn.{stretch, stretches};

use crate::draws::Draws;
use crate::statements::{drawn_clause, drawn_cube, implication};
use icnf_text::{Statement, print};
use std::alloc::{AllocError, Global};

// The variables of the chain, but for the last one.
const CHAIN_START: u32 = 101;

const CHAIN_END: u32 = 10_101;

const STRETCHES: u32 = 30;

const CLAUSES: u32 = 16;

const CUBES: u32 = 4;

/// The text that this number stands for, as `print` of `icnf_text` writes it. A chain of
/// implications leads from variable 101 to variable 10,101. Behind it stand thirty times sixteen
/// clauses of three literals and four cubes of two, drawn of the variables 1 to 100 by Knuth's
/// linear congruential generator for MMIX; each cube has variable 101 too. Reading the text gives
/// 10,480 clauses and 120 cubes.
pub fn make(alloc: Global, number: u64) -> Result<Vec<u8>, AllocError>
    ensures text { IfOk result (λ text. text.items ≡ printed (generated number)) }
    ensures accepted { IfOk result (λ text. wrong text.items true ≡ None) }
    ensures read_back { IfOk result (λ text.
        map (λ numbered. numbered.statement) (statements text.items true) ≡ generated number) }
    ensures clauses { count_by is_clause (generated number) ≡ 10480 }
    ensures cubes { count_by (λ statement. not (is_clause statement)) (generated number) ≡ 120 }
{
    let mut list = Vec::new(alloc);
    add_chain(alloc, &mut list)?;
    add_stretches(alloc, &mut Draws::new(number), &mut list)?;
    print(alloc, &list)
}

fn add_chain(alloc: Global, list: &mut Vec<Statement>) -> Result<(), AllocError>
    ensures { OnOk result (list.new.items ≡ list.old.items ++ chain) }
{
    for variable in CHAIN_START..CHAIN_END {
        list.push(implication(alloc, variable)?)?;
    }
    Ok(())
}

fn add_stretches(
    alloc: Global,
    draws: &mut Draws,
    list: &mut Vec<Statement>,
) -> Result<(), AllocError>
    ensures { OnOk result (list.new.items ≡ list.old.items ++ stretches draws.old) }
{
    for _ in 0..STRETCHES {
        add_stretch(alloc, draws, list)?;
    }
    Ok(())
}

fn add_stretch(
    alloc: Global,
    draws: &mut Draws,
    list: &mut Vec<Statement>,
) -> Result<(), AllocError>
    ensures { OnOk result ((seed : ℕ) (before : ℕ) → draws.old ≡ state_after seed before
        → (draws.new ≡ state_after seed (before + 56))
        × (list.new.items ≡ list.old.items ++ stretch seed before)) }
{
    add_clauses(alloc, draws, list)?;
    add_cubes(alloc, draws, list)?;
    Ok(())
}

fn add_clauses(
    alloc: Global,
    draws: &mut Draws,
    list: &mut Vec<Statement>,
) -> Result<(), AllocError>
    ensures { OnOk result ((seed : ℕ) (before : ℕ) → draws.old ≡ state_after seed before
        → (draws.new ≡ state_after seed (before + 48))
        × (list.new.items ≡ list.old.items ++ drawn_clauses seed before)) }
{
    for _ in 0..CLAUSES {
        list.push(drawn_clause(alloc, draws)?)?;
    }
    Ok(())
}

fn add_cubes(alloc: Global, draws: &mut Draws, list: &mut Vec<Statement>) -> Result<(), AllocError>
    ensures { OnOk result ((seed : ℕ) (before : ℕ) → draws.old ≡ state_after seed before
        → (draws.new ≡ state_after seed (before + 8))
        × (list.new.items ≡ list.old.items ++ drawn_cubes seed before)) }
{
    for _ in 0..CUBES {
        list.push(drawn_cube(alloc, draws)?)?;
    }
    Ok(())
}
