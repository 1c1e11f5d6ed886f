// What a simplex is in a space, as `3 Base`: the mask of its degeneracies, and its cell.
ghost use Rattle.std.specs.Prelude.{◌≤◌};
ghost use Rattle.spaces.specs.Allowed.{IsAllowed};
ghost use Rattle.term_lang.specs.SpaceOf.{space_of};
ghost use Rattle.normal_forms.specs.Built.{IsBuilt};

use crate::written_spaces::term_of;
use cells::{Cell, Simplex};
use script_lang::{ChainText, Command, ResolveFault, SimplexText, read_line, resolve};
use std::alloc::{AllocError, Global};
use term_lang::{Term, check_term};

// The cell, where it is a list its first integer.
fn push_cell(out: &mut String, cell: &Cell) -> Result<(), AllocError> {
    match cell {
        Cell::Base => out.push_str("Base"),
        Cell::Top(m) => write!(out, "Top {m}"),
        Cell::Row(dim, row) => write!(out, "Row {dim} {row}"),
        Cell::Ints(list) => {
            let first = list.get(0).copied().unwrap_or(0);
            write!(out, "Ints {first}")
        }
        Cell::Up(part) => {
            out.push_str("Up ")?;
            push_cell(out, part.get())
        }
        Cell::Pair(x, y) => {
            let before_left = x.get().degens.mask;
            let before_right = y.get().degens.mask;
            write!(out, "<{before_left} ")?;
            push_cell(out, &x.get().cell)?;
            write!(out, ", {before_right} ")?;
            push_cell(out, &y.get().cell)?;
            out.push_str(">")
        }
        Cell::Word(_) => out.push_str("another cell"),
    }
}

fn push_resolved(out: &mut String, read: &Result<Simplex, ResolveFault>) -> Result<(), AllocError> {
    match read {
        Ok(x) => {
            let mask = x.degens.mask;
            write!(out, "{mask} ")?;
            push_cell(out, &x.cell)
        }
        Err(fault) => push_fault(out, *fault),
    }
}

// The name of a fault, and a limit that is passed.
fn push_fault(out: &mut String, fault: ResolveFault) -> Result<(), AllocError> {
    write!(out, "{fault}")?;
    if let ResolveFault::Over(kind, size) = fault {
        write!(out, " {kind:?} {size}")?;
    }
    Ok(())
}

fn shown(alloc: Global, t: &Term, n: u32, text: &SimplexText) -> Option<String>
    requires allowed { IsAllowed (space_of t.now) }
    requires built { IsBuilt (space_of t.now) }
    requires degree { n ≤ 16 }
{
    let mut out = String::new(alloc);
    push_resolved(&mut out, &resolve(alloc, t, n, text)).ok()?;
    Some(out)
}

fn shown_where_allowed(alloc: Global, t: &Term, n: u64, text: &SimplexText) -> Option<String>
    requires { IsBuilt (space_of t.now) }
{
    if n > 16 {
        return None;
    }
    match check_term(t) {
        Ok(()) => shown(alloc, t, n as u32, text),
        Err(_) => None,
    }
}

fn first_simplex(chain: &ChainText) -> Option<&SimplexText> {
    match chain {
        ChainText::Zero => None,
        ChainText::Terms(terms) => Some(&terms.get(0)?.simplex),
    }
}

fn shown_of(alloc: Global, c: &Command) -> Option<String> {
    match c {
        Command::Boundary(e, n, chain) => {
            let term = term_of(alloc, e)?;
            shown_where_allowed(alloc, &term, *n, first_simplex(chain)?)
        }
        _ => None,
    }
}

/// What the simplex of a line `(boundary SPACE N (1 SIMPLEX))` is in that space, or the name of its fault. None where the line is none.
pub(crate) fn simplex_of(alloc: Global, line: &str) -> Option<String> {
    let command = read_line(alloc, line.as_bytes()).ok()?;
    shown_of(alloc, command.as_ref()?)
}
