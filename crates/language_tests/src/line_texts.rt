// What a line is read as, in a notation of its own: `product(a,b)` for `(crts-prdc a b)`, `s1 s0 row x` for `1-0:x`.
use script_lang::{BodyText, ChainText, Command, Expr, LineRefused, SimplexText, read_line};
use seqs::Seq;
use std::alloc::{AllocError, Global};
use term_lang::{Name, RowText};

fn push_name(out: &mut String, name: &Name) -> Result<(), AllocError> {
    for b in name.as_bytes() {
        out.push(char::from(*b))?;
    }
    Ok(())
}

fn push_indices(out: &mut String, word: &Seq<u64>) -> Result<(), AllocError> {
    for i in word.as_slice() {
        write!(out, "s{i} ")?;
    }
    Ok(())
}

#[cycle(printed)]
fn push_simplex(out: &mut String, x: &SimplexText) -> Result<(), AllocError> {
    push_indices(out, &x.degens)?;
    push_body(out, &x.body)
}

#[cycle(printed)]
fn push_body(out: &mut String, body: &BodyText) -> Result<(), AllocError> {
    match body {
        BodyText::Star => out.push_str("base"),
        BodyText::Name(n) => {
            out.push_str("row ")?;
            push_name(out, n)
        }
        BodyText::Up(x) => {
            out.push_str("up(")?;
            push_simplex(out, x.get())?;
            out.push_str(")")
        }
        BodyText::Pair(x, y) => {
            out.push_str("pair(")?;
            push_simplex(out, x.get())?;
            out.push_str(",")?;
            push_simplex(out, y.get())?;
            out.push_str(")")
        }
        BodyText::Ints(list) => {
            out.push_str("ints")?;
            for n in list.as_slice() {
                write!(out, " {n}")?;
            }
            Ok(())
        }
        BodyText::Word(letters) => {
            out.push_str("word")?;
            for l in letters.as_slice() {
                out.push_str(if l.inverse { " inverse(" } else { " letter(" })?;
                push_simplex(out, &l.simplex)?;
                out.push_str(")")?;
            }
            Ok(())
        }
    }
}

fn push_row(out: &mut String, row: &RowText) -> Result<(), AllocError> {
    push_name(out, &row.name)?;
    out.push_str("(")?;
    for f in row.faces.as_slice() {
        push_indices(out, &f.word)?;
        push_name(out, &f.name)?;
        out.push_str(",")?;
    }
    out.push_str(")")
}

fn push_space(out: &mut String, a: &Expr) -> Result<(), AllocError> {
    match a {
        Expr::Name(n) => push_name(out, n),
        Expr::Sphere(n) => write!(out, "S^{n}"),
        Expr::KZ1 => out.push_str("KZ1"),
        Expr::Product(a, b) => {
            out.push_str("product(")?;
            push_space(out, a.get())?;
            out.push_str(",")?;
            push_space(out, b.get())?;
            out.push_str(")")
        }
        Expr::Suspension(a) => {
            out.push_str("susp(")?;
            push_space(out, a.get())?;
            out.push_str(")")
        }
        Expr::Loop(a) => {
            out.push_str("loops(")?;
            push_space(out, a.get())?;
            out.push_str(")")
        }
        Expr::Path(a) => {
            out.push_str("paths(")?;
            push_space(out, a.get())?;
            out.push_str(")")
        }
        Expr::Bundle(a, values) => {
            push_space(out, a.get())?;
            for v in values.as_slice() {
                out.push_str(" twisted ")?;
                push_name(out, &v.cell)?;
                let value = v.value;
                write!(out, "={value}")?;
            }
            Ok(())
        }
        Expr::Table(rows) => {
            out.push_str("table")?;
            for r in rows.as_slice() {
                out.push_str(" ")?;
                push_row(out, r)?;
            }
            Ok(())
        }
    }
}

fn push_chain(out: &mut String, c: &ChainText) -> Result<(), AllocError> {
    match c {
        ChainText::Zero => out.push_str("zero"),
        ChainText::Terms(terms) => {
            out.push_str("sum")?;
            for t in terms.as_slice() {
                let coeff = t.coeff;
                write!(out, " {coeff}*")?;
                push_simplex(out, &t.simplex)?;
                out.push_str(";")?;
            }
            Ok(())
        }
    }
}

fn push_command(out: &mut String, c: &Command) -> Result<(), AllocError> {
    match c {
        Command::Field(n) => write!(out, "field {n}"),
        Command::Names => out.push_str("names"),
        Command::Setf(n, a) => {
            out.push_str("setf ")?;
            push_name(out, n)?;
            out.push_str(" = ")?;
            push_space(out, a)
        }
        Command::Betti(a, low, high) => {
            write!(out, "betti {low}..{high} ")?;
            push_space(out, a)
        }
        Command::Homology(a, n) => {
            write!(out, "homology {n} ")?;
            push_space(out, a)
        }
        Command::Boundary(a, n, c) => {
            write!(out, "boundary {n} ")?;
            push_space(out, a)?;
            out.push_str(": ")?;
            push_chain(out, c)
        }
        Command::Express(a, n, c) => {
            write!(out, "express {n} ")?;
            push_space(out, a)?;
            out.push_str(": ")?;
            push_chain(out, c)
        }
    }
}

fn push_read(
    out: &mut String,
    read: &Result<Option<Command>, LineRefused>,
) -> Result<(), AllocError> {
    match read {
        Ok(Some(c)) => push_command(out, c),
        Ok(None) => out.push_str("nothing"),
        Err(LineRefused::Syntax(_)) => out.push_str("refused"),
        Err(LineRefused::Memory) => out.push_str("memory"),
    }
}

/// What a line is: a command, `nothing`, `refused`, or `memory`.
pub(crate) fn told(alloc: Global, line: &str) -> Result<String, AllocError> {
    let mut out = String::new(alloc);
    push_read(&mut out, &read_line(alloc, line.as_bytes()))?;
    Ok(out)
}
